// An index of incident links, built once for a mesh.
ghost use Rattle.std.specs.Prelude.{◌≡◌, ℕ, ◌+◌, ◌<◌, ◌≤◌, slice_index};
ghost use Rattle.search.specs.Graphs.{Lawful, mesh_by};
ghost use Rattle.search.specs.Rows.{row, Indexes};

use crate::build::{count, fill, starts_of};
use crate::links::Joins;

// For each cabinet the links that touch it: the entries from the cabinet's start up to the next one's.
// Kept: two arrays in fixed memory; a list for each cabinet would need the heap.
#[derive(Drop)]
pub struct Incidence {
    starts: [u16; 65],
    entries: [u16; 1024],
    ghost rises: { (v : ℕ) → v < 64 → slice_index starts v ≤ slice_index starts (v + 1) },
    ghost fits: { (v : ℕ) → v < 64 → slice_index starts (v + 1) ≤ 1024 },
}

impl Incidence {
    // The index of these links.
    pub fn of<T: Joins>(links: &[T]) -> Incidence
        requires { Lawful (mesh_by T.first T.second T.none links.now) }
        ensures { Indexes result.starts result.entries (mesh_by T.first T.second T.none links.now) }
    {
        let counts = count(links);
        let starts = starts_of(&counts);
        let entries = fill(links, &starts);
        Incidence { starts, entries }
    }

    // The row of a cabinet.
    pub fn row(&self, cabinet: u8) -> &[u16]
        requires { cabinet < 64 }
        ensures { result.now ≡ row self.now.starts self.now.entries cabinet }
    {
        let v = cabinet as usize;
        &self.entries[self.starts[v] as usize..self.starts[v + 1] as usize]
    }
}
