// What a search walks on.
ghost use Rattle.std.specs.Prelude.{◌≡◌, ◌<◌};
ghost use Rattle.search.specs.Graphs.{Graph, Lawful, incident};

use crate::links::Ends;

// Links between cabinets, and which steps over them are open. To ask alters nothing.
// Kept: cabinets are plain numbers by the project's rule, so here and in this crate a bound of 64 is asked where they are places of an array.
pub trait Ground {
    ghost graph: { Self → Graph };

    ghost lawful: { (s : Self) → Lawful (graph s).mesh };

    // How many links there are.
    fn links(&self) -> u16
        ensures { result ≡ (graph self.now).mesh.links };

    // The cabinets that a link joins.
    fn ends(&self, link: u16) -> Ends
        requires { link < (graph self.now).mesh.links }
        ensures first { result.first ≡ (graph self.now).mesh.first link }
        ensures second { result.second ≡ (graph self.now).mesh.second link };

    // Whether the step from a cabinet over a link is open.
    fn is_open(&self, cabinet: u8, link: u16) -> bool
        requires cabinet { cabinet < 64 }
        requires link { link < (graph self.now).mesh.links }
        ensures { result ≡ (graph self.now).opens cabinet link };

    // The links that touch a cabinet, in ascending order.
    fn links_at(&self, cabinet: u8) -> &[u16]
        requires { cabinet < 64 }
        ensures { result.now ≡ incident (graph self.now).mesh cabinet };
}
