// What one stream of a held plan carries: the links with its shares, and its ends.
ghost use Rattle.std.specs.Prelude.{◌≡◌, ℕ, ◌*◌, ◌<◌, ◌≤◌, length, pos, slice_index_or, unsigned_abs};
ghost use Rattle.flow.specs.Ranges.{most_slots};
ghost use Rattle.flow.specs.Nets.{net};
ghost use Rattle.mesh.specs.Links.{low_of, high_of};
ghost use Rattle.sheet.specs.Routes.{AllRuled, CarriedBy, RouteTold};

use crate::carried::Carried;
use flow::nets::net_at;
use flow::pairs::Pair;
use mesh::row::Row;
use search::find::find_path;
use search::net::Net;

#[derive(Drop)]
pub(crate) struct Carriage<'a> {
    pub(crate) links: &'a [Row],
    pub(crate) shares: &'a [i32],
    pub(crate) ends: Pair,
    ghost few: { length links.now ≤ 512 },
    ghost ruled: { AllRuled links.now },
    ghost long: { length shares.now ≡ length links.now },
    ghost small: { (k : ℕ) → k < length links.now → unsigned_abs (slice_index_or shares.now k (pos 0)) ≤ most_slots },
    ghost source_in: { ends.source < 64 },
    ghost goal_in: { ends.goal < 64 },
}

impl<'a> Carriage<'a> {
    // The stream's total: what leaves its source minus what enters it.
    pub(crate) fn total(&self) -> i64
        ensures value { result ≡ net low_of high_of self.now.links.now self.now.shares.now self.now.ends.source }
        ensures small { unsigned_abs result ≤ 512 * (2 * most_slots) }
    {
        net_at(self.links, self.shares, self.ends.source)
    }

    // Searches a route along the shares, and writes it to the front of the list.
    pub(crate) fn route(&self, path: &mut [u16]) -> Option<usize>
        requires { 64 ≤ length path.old }
        ensures { RouteTold (CarriedBy self.now.links.now self.now.shares.now) self.now.ends.source self.now.ends.goal path.old path.new result }
    {
        let carried = Carried {
            net: Net::of(self.links),
            shares: self.shares,
        };
        let mut side = [false; 64];
        find_path(&carried, self.ends.source, self.ends.goal, path, &mut side)
    }
}
