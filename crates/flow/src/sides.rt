// Sides: sets of cabinets, given as a list that says yes or no for each in turn.
ghost use Rattle.std.specs.Prelude.{◌≡◌, ◌≤◌, length, if◌then◌else◌};
ghost use Rattle.flow.specs.Ranges.{most_links};
ghost use Rattle.flow.specs.Nets.{members, crosses, side_slots};
ghost use Rattle.flow.specs.Tests.{is_first_side, is_sum_side};

use crate::edge::Edge;
use crate::pairs::Pairs;

// Whether the cabinet is in the side.
pub fn holds(side: &[bool], cabinet: u8) -> bool
    ensures { result ≡ members side.now cabinet }
{
    let place = usize::from(cabinet);
    place < side.len() && side[place]
}

// Whether just one end of the link is in the side.
pub fn is_cut<E: Edge>(link: &E, side: &[bool]) -> bool
    ensures { result ≡ crosses E.Edge.low E.Edge.high (members side.now) link.now }
{
    holds(side, link.low()) != holds(side, link.high())
}

// What the link adds to the slots of the side: all its slots, or none.
fn cut_slots<E: Edge>(link: &E, side: &[bool]) -> u32
    ensures { result ≡ (if crosses E.Edge.low E.Edge.high (members side.now) link.now then E.Edge.capacity link.now else 0) }
{
    if is_cut(link, side) {
        link.capacity()
    } else {
        0
    }
}

// The slots of a side: those of all links with just one end in it.
pub fn side_slots<E: Edge>(links: &[E], side: &[bool]) -> u64
    requires { length links.now ≤ most_links }
    ensures { result ≡ side_slots E.Edge.low E.Edge.high E.Edge.capacity (members side.now) links.now }
{
    let mut sum = 0;
    for link in links {
        sum += u64::from(cut_slots(link, side));
    }
    sum
}

// Whether the side holds source 1 and not goal 1.
pub fn parts_first(side: &[bool], pairs: Pairs) -> bool
    ensures { result ≡ is_first_side pairs (members side.now) }
{
    holds(side, pairs.source1) && !holds(side, pairs.goal1)
}

// Whether the side holds source 1, not goal 1, and exactly one of source 2 and goal 2.
pub fn parts_both(side: &[bool], pairs: Pairs) -> bool
    ensures { result ≡ is_sum_side pairs (members side.now) }
{
    parts_first(side, pairs) && holds(side, pairs.source2) != holds(side, pairs.goal2)
}
