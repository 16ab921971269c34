// The passes that build an index of incident links: count them at each cabinet, place the rows, fill them.
ghost use Rattle.std.specs.Prelude.{◌≡◌, ℕ, ◌+◌, ◌*◌, ◌<◌, ◌≤◌, length, take, sum, slice_index, slice_set};
ghost use Rattle.search.specs.Graphs.{Lawful, mesh_by};
ghost use Rattle.search.specs.Rows.{Indexes, Counts, Starts, bumped};

use crate::links::{Ends, Joins};

// One link more at the cabinet.
fn bump(counts: &mut [u16; 64], cabinet: u8)
    requires cabinet { cabinet < 64 }
    requires fits { slice_index counts.old cabinet < 1024 }
    ensures { counts.new ≡ bumped counts.old cabinet }
{
    counts[cabinet as usize] += 1;
}

// One link more at both of its ends.
fn bump_both(counts: &mut [u16; 64], ends: Ends)
    requires first { ends.first < 64 }
    requires second { ends.second < 64 }
    requires first_fits { slice_index counts.old ends.first < 1024 }
    requires second_fits { slice_index (bumped counts.old ends.first) ends.second < 1024 }
    ensures { counts.new ≡ bumped (bumped counts.old ends.first) ends.second }
{
    bump(counts, ends.first);
    bump(counts, ends.second);
}

// How many links touch each cabinet.
// Kept: here and below the links are bare, since the net that keeps them lawful is made of what these passes build.
pub fn count<T: Joins>(links: &[T]) -> [u16; 64]
    requires { Lawful (mesh_by T.first T.second T.none links.now) }
    ensures long { length result ≡ 64 }
    ensures counts { Counts result (mesh_by T.first T.second T.none links.now) }
    ensures total { sum result ≡ 2 * length links.now }
{
    let mut counts = [0u16; 64];
    for link in links {
        bump_both(&mut counts, link.ends());
    }
    counts
}

// Where each row starts: behind the rows of the cabinets below.
pub fn starts_of(counts: &[u16; 64]) -> [u16; 65]
    requires { sum counts.now ≤ 1024 }
    ensures { (v : ℕ) → v < 65 → slice_index result v ≡ sum (take v counts.now) }
{
    let mut starts = [0u16; 65];
    for (v, count) in counts.iter().enumerate() {
        starts[v + 1] = starts[v] + count;
    }
    starts
}

// Rows that are being filled: the entries so far, and the place of the next entry of each cabinet's row.
#[derive(Drop)]
struct Rows {
    entries: [u16; 1024],
    next: [u16; 65],
}

impl Rows {
    // Writes the link to the next free place of the cabinet's row.
    fn put(&mut self, cabinet: u8, link: u16)
        requires cabinet { cabinet < 64 }
        requires place { slice_index self.old.next cabinet < 1024 }
        ensures entries { self.new.entries ≡ slice_set self.old.entries (slice_index self.old.next cabinet) link }
        ensures next { self.new.next ≡ bumped self.old.next cabinet }
    {
        let place = self.next[cabinet as usize];
        self.entries[place as usize] = link;
        self.next[cabinet as usize] = place + 1;
    }

    // Writes the link into the rows of both of its ends.
    fn put_both(&mut self, ends: Ends, link: u16)
        requires first { ends.first < 64 }
        requires second { ends.second < 64 }
        requires first_place { slice_index self.old.next ends.first < 1024 }
        requires second_place { slice_index (bumped self.old.next ends.first) ends.second < 1024 }
        ensures entries { self.new.entries ≡ slice_set (slice_set self.old.entries (slice_index self.old.next ends.first) link) (slice_index (bumped self.old.next ends.first) ends.second) link }
        ensures next { self.new.next ≡ bumped (bumped self.old.next ends.first) ends.second }
    {
        self.put(ends.first, link);
        self.put(ends.second, link);
    }
}

// Writes each link into the rows of its two ends.
pub fn fill<T: Joins>(links: &[T], starts: &[u16; 65]) -> [u16; 1024]
    requires lawful { Lawful (mesh_by T.first T.second T.none links.now) }
    requires starts { Starts starts.now (mesh_by T.first T.second T.none links.now) }
    ensures { Indexes starts.now result (mesh_by T.first T.second T.none links.now) }
{
    let mut rows = Rows {
        entries: [0; 1024],
        next: *starts,
    };
    for (number, link) in links.iter().enumerate() {
        rows.put_both(link.ends(), number as u16);
    }
    rows.entries
}
