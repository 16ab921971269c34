// Small meshes with two streams, through preflow pushing and through Trim over it: the greatest sum of both streams,
// the greatest total of stream 1, and what stream 2 carries beside it.
#![tactic(auto)]

use engine::arc::Arc;
use engine::engine::Engine;
use engine::greatest::greatest_total;
use engine::job::Job;
use engine::trim::Trim;
use flow::pairs::Pairs;
use flow::ranges::MOST_FED;
use flow::taps::Taps;
use preflow::preflow::Preflow;
use std::io;

// A link with slots, of which each of two flows may take half.
fn link(tail: u8, head: u8, slots: u32) -> Arc {
    Arc {
        tail,
        head,
        limit: slots / 2,
    }
}

// The ends of both streams, each a source and a goal.
fn pairs(one: (u8, u8), two: (u8, u8)) -> Pairs {
    let (source1, goal1) = one;
    let (source2, goal2) = two;
    Pairs {
        source1,
        goal1,
        source2,
        goal2,
    }
}

// What an engine feeds where stream 1 may have `first` and stream 2 `second`, if the numbers are in range.
fn fed<E: Engine>(
    engine: &mut E,
    links: &[Arc],
    pairs: Pairs,
    first: u32,
    second: u32,
) -> Option<u32> {
    let job = Job::new(links, pairs.ends(), Taps::both(first, second))?;
    Some(greatest_total(engine, &job))
}

// Half of total 1 and half of total 2, if the numbers are in range.
fn halves<E: Engine>(engine: &mut E, links: &[Arc], pairs: Pairs) -> Option<(u32, u32)> {
    let first = fed(engine, links, pairs, MOST_FED, 0)?;
    let ahead = fed(engine, links, pairs, first, MOST_FED)?;
    let behind = fed(engine, links, pairs.turned(), first, MOST_FED)?;
    Some((first, ahead.min(behind).saturating_sub(first)))
}

fn show(rt: &HostRuntime, name: &str, links: &[Arc], pairs: Pairs) -> io::Result<()> {
    let Some((one, two)) = halves(&mut Preflow, links, pairs) else {
        return println!(rt; "{name}: a number is out of range");
    };
    let trimmed = halves(&mut Trim { below: Preflow }, links, pairs);
    let total1 = 2 * u64::from(one);
    let total2 = 2 * u64::from(two);
    let same = if trimmed == Some((one, two)) {
        "the same"
    } else {
        "other totals"
    };
    let sum = total1 + total2;
    println!(rt; "{name}: sum {sum}, totals {total1} and {total2}; under Trim {same}")
}

fn lines(rt: &HostRuntime) -> io::Result<()> {
    show(rt, "no links", &[], pairs((0, 1), (2, 3)))?;
    let one = [link(0, 1, 10)];
    show(
        rt,
        "one link, both streams the same way",
        &one,
        pairs((0, 1), (0, 1)),
    )?;
    show(
        rt,
        "one link, opposite streams",
        &one,
        pairs((0, 1), (1, 0)),
    )?;
    let line = [link(0, 1, 4), link(1, 2, 6)];
    show(
        rt,
        "two links in line, opposite streams",
        &line,
        pairs((0, 2), (2, 0)),
    )?;
    let fork = [link(0, 1, 2), link(0, 2, 4)];
    show(
        rt,
        "two links from one source",
        &fork,
        pairs((0, 1), (0, 2)),
    )
}

fn crossings(rt: &HostRuntime) -> io::Result<()> {
    let bridge = [
        link(0, 4, 6),
        link(4, 5, 8),
        link(1, 5, 6),
        link(2, 4, 6),
        link(3, 5, 6),
    ];
    show(
        rt,
        "both streams over one bridge",
        &bridge,
        pairs((0, 1), (2, 3)),
    )?;
    show(
        rt,
        "the bridge, streams against each other",
        &bridge,
        pairs((0, 1), (3, 2)),
    )?;
    let ring = [link(0, 1, 2), link(1, 2, 2), link(2, 3, 2), link(0, 3, 2)];
    show(rt, "streams across a ring", &ring, pairs((0, 2), (1, 3)))?;
    let cut = [link(0, 1, 2), link(1, 2, 0), link(2, 3, 2), link(0, 3, 2)];
    show(
        rt,
        "the ring with a link of no slots",
        &cut,
        pairs((0, 2), (1, 3)),
    )?;
    let out = [
        link(0, 4, 6),
        link(4, 5, 0),
        link(1, 5, 6),
        link(2, 4, 6),
        link(3, 5, 6),
    ];
    show(rt, "the bridge without slots", &out, pairs((0, 1), (2, 3)))
}

fn main(rt: HostRuntime) -> io::Result<()> {
    lines(&rt)?;
    crossings(&rt)
}
