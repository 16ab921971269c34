// Judging a proposed plan: the first flaw, if it has any.
ghost use Rattle.std.specs.Prelude.{◌≡◌, ◌<◌, ◌≤◌, length, pos, IfSome};
ghost use Rattle.flow.specs.Ranges.{most_links};
ghost use Rattle.flow.specs.Nets.{members, side_slots};
ghost use Rattle.flow.specs.Tests.{equal};
ghost use Rattle.plan.specs.Judging.{are_fitting, lowest_over, keeps_in, lowest_broken, weighed, judged, verdict};

use crate::flaw::Flaw;
use crate::listed::Plan;
use flow::edge::Edge;
use flow::nets::{keeps, net_at};
use flow::ranges::CABINETS;
use flow::shares::fit;
use flow::sides::{parts_both, parts_first, side_slots};
use flow::stream::Stream;

// Whether the share lists are as long as the links, and the side lists 64.
fn are_fitting<L: Edge>(links: &[L], plan: &Plan) -> bool
    ensures { result ≡ are_fitting links.now plan.now.one.now plan.now.two.now plan.now.cut.now plan.now.first.now }
{
    plan.one.len() == links.len()
        && plan.two.len() == links.len()
        && plan.cut.len() == usize::from(CABINETS)
        && plan.first.len() == usize::from(CABINETS)
}

// Whether a sum of totals is the side's slots.
// Kept: here, in `halves` and in `judge` the links are a slice, which carries no bound; `Fitted` does once a plan fits them.
fn fills<L: Edge>(sum: i128, links: &[L], side: &[bool]) -> bool
    requires { length links.now ≤ most_links }
    ensures { result ≡ equal sum (pos (side_slots L.Edge.low L.Edge.high L.Edge.capacity (members side.now) links.now)) }
{
    sum == side_slots(links, side) as i128
}

// A proposed plan with two shares for each link.
#[derive(Drop)]
struct Fitted<'a, L> {
    links: &'a [L],
    plan: Plan<'a>,
    ghost few: { length links.now ≤ most_links },
    ghost ones: { length plan.one.now ≡ length links.now },
    ghost twos: { length plan.two.now ≡ length links.now },
}

impl<'a, L: Edge> Fitted<'a, L> {
    // The lowest link whose shares are above its slots.
    fn first_over(&self) -> Option<usize>
        ensures inside { IfSome result (λ link. link < length self.now.links.now) }
        ensures value { result ≡ lowest_over L.Edge.capacity self.now.links.now self.now.plan.one.now self.now.plan.two.now }
    {
        self.links
            .iter()
            .zip(self.plan.one)
            .zip(self.plan.two)
            .position(|((link, &one), &two)| !fit(link, one, two))
    }

    // Whether the cabinet keeps what enters it of the stream, or is one of its ends.
    fn keeps_in(&self, stream: Stream, cabinet: u8) -> bool
        ensures { result ≡ keeps_in L.Edge.low L.Edge.high self.now.plan.pairs self.now.links.now self.now.plan.one.now self.now.plan.two.now stream cabinet }
    {
        let pair = self.plan.pairs.of(stream);
        keeps(self.links, self.plan.shares(stream), pair, cabinet)
    }

    // The lowest cabinet whose net is not 0, in stream 1 first.
    fn first_broken(&self) -> Option<u8>
        ensures { result ≡ lowest_broken L.Edge.low L.Edge.high self.now.plan.pairs self.now.links.now self.now.plan.one.now self.now.plan.two.now }
    {
        let mut found = None;
        'scan: for stream in [Stream::One, Stream::Two] {
            for cabinet in 0..CABINETS {
                if !self.keeps_in(stream, cabinet) {
                    found = Some(cabinet);
                    break 'scan;
                }
            }
        }
        found
    }

    // Refuses the first flaw of the two sides, of the sum and of total 1.
    fn weigh(&self) -> Result<(), Flaw>
        ensures { result ≡ verdict (weighed L.Edge.low L.Edge.high L.Edge.capacity self.now.plan.pairs self.now.links.now self.now.plan.one.now self.now.plan.two.now self.now.plan.cut.now self.now.plan.first.now) }
    {
        let Plan {
            pairs,
            one,
            two,
            cut,
            first,
        } = self.plan;
        if !parts_both(cut, pairs) {
            return Err(Flaw::SumSide);
        }
        if !parts_first(first, pairs) {
            return Err(Flaw::FirstSide);
        }
        let total1 = net_at(self.links, one, pairs.source1) as i128;
        let total2 = net_at(self.links, two, pairs.source2) as i128;
        if !fills(total1 + total2, self.links, cut) {
            return Err(Flaw::Sum);
        }
        if !fills(total1, self.links, first) {
            return Err(Flaw::First);
        }
        Ok(())
    }
}

// Refuses a proposed plan for its first flaw. Its lists may have any length and any numbers.
pub fn judge<L: Edge>(links: &[L], plan: Plan<'_>) -> Result<(), Flaw>
    requires { length links.now ≤ most_links }
    ensures { result ≡ verdict (judged L.Edge.low L.Edge.high L.Edge.capacity plan.entry.pairs links.now plan.entry.one.now plan.entry.two.now plan.entry.cut.now plan.entry.first.now) }
{
    if !are_fitting(links, &plan) {
        return Err(Flaw::Lengths);
    }
    let fitted = Fitted { links, plan };
    if let Some(link) = fitted.first_over() {
        return Err(Flaw::Over(link as u16));
    }
    if let Some(cabinet) = fitted.first_broken() {
        return Err(Flaw::Broken(cabinet));
    }
    fitted.weigh()
}
