// The amounts still free are a ground for the search: a step is open where something is free.
ghost use Rattle.std.specs.Prelude.{◌<◌};
ghost use Rattle.residual.specs.Grounds.{graph_of, lawful_of};

use crate::residual::Residual;
use search::ground::Ground;
use search::links::Ends;

// Kept: what every ground asks of its net is one call each; a default in the trait would need the type of the links in it.
impl<'a> Ground for Residual<'a> {
    ghost graph = { graph_of };

    ghost lawful = { lawful_of };

    fn links(&self) -> u16 {
        self.network.net.count()
    }

    fn ends(&self, link: u16) -> Ends {
        self.network.net.ends(link)
    }

    fn is_open(&self, cabinet: u8, link: u16) -> bool {
        self.free(cabinet, link) >= 1
    }

    fn links_at(&self, cabinet: u8) -> &[u16] {
        self.network.row(cabinet)
    }
}
