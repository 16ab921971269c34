// Links with their index.
ghost use Rattle.search.specs.Graphs.{Lawful, mesh_by};
ghost use Rattle.search.specs.Incidences.{IndexOf};

use crate::incidence::Incidence;
use crate::links::{Ends, Joins};

// A lawful list of links, and the index of them, which is built once and serves every search.
#[derive(Drop)]
pub struct Net<'a, T: Joins> {
    list: &'a [T],
    index: Incidence,
    ghost lawful: { Lawful (mesh_by T.first T.second T.none list.now) },
    ghost indexed: { IndexOf index (mesh_by T.first T.second T.none list.now) },
}

impl<'a, T: Joins> Net<'a, T> {
    ghost use Rattle.std.specs.Prelude.{◌≡◌, ◌<◌};
    ghost use Rattle.search.specs.Graphs.{incident};
    ghost use Rattle.search.specs.Nets.{links_in, mesh_in};

    // The net of these links.
    pub fn of(links: &'a [T]) -> Net<'a, T>
        requires { Lawful (mesh_by T.first T.second T.none links.now) }
        ensures { links_in result ≡ links.now }
    {
        Net {
            list: links,
            index: Incidence::of(links),
        }
    }

    // The links.
    pub fn links(&self) -> &'a [T]
        ensures { result.now ≡ links_in self.now }
    {
        self.list
    }

    // How many links there are.
    pub fn count(&self) -> u16
        ensures { result ≡ (mesh_in self.now).links }
    {
        self.links().len() as u16
    }

    // The cabinets that a link joins.
    pub fn ends(&self, link: u16) -> Ends
        requires { link < (mesh_in self.now).links }
        ensures first { result.first ≡ (mesh_in self.now).first link }
        ensures second { result.second ≡ (mesh_in self.now).second link }
    {
        self.links()[link as usize].ends()
    }

    // The links that touch a cabinet, in ascending order.
    pub fn row(&self, cabinet: u8) -> &[u16]
        requires { cabinet < 64 }
        ensures { result.now ≡ incident (mesh_in self.now) cabinet }
    {
        self.index.row(cabinet)
    }
}
