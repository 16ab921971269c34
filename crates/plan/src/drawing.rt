// Drawing a plan: five jobs for an engine, and the shares made of the last two flows.
ghost use Rattle.std.specs.Prelude.{◌≡◌, ◌-◌, ◌≤◌, min, length, take, drop};
ghost use Rattle.flow.specs.Ranges.{cabinets};
ghost use Rattle.flow.specs.Nets.{members};
ghost use Rattle.flow.specs.Plans.{Proper};
ghost use Rattle.flow.specs.Answers.{Within};
ghost use Rattle.flow.specs.Drawings.{Drawn};
ghost use Rattle.engine.specs.Arcs.{limit_of};
ghost use Rattle.plan.specs.Links.{LawfulLinks};
ghost use Rattle.plan.specs.Halves.{half, MadeOf, DrawnFlows};

use crate::cuts::sum_side;
use crate::halves::halves;
use crate::jobs::{Bound, Jobs};
use crate::shares::share_all;
use crate::sides::Sides;
use engine::engine::Engine;
use flow::edge::Edge;
use flow::pairs::Pairs;
use flow::ranges::MOST_FED;

// The sum side, by the way round of stream 2 that leaves less.
fn cut_of(alone: &Bound, ahead: &Bound, behind: &Bound, pairs: Pairs) -> [bool; 64]
    requires { Proper cabinets pairs }
    ensures { MadeOf pairs ahead.now.total behind.now.total alone.now.side ahead.now.side behind.now.side result }
{
    if ahead.total <= behind.total {
        sum_side(&alone.side, &ahead.side, pairs)
    } else {
        sum_side(&alone.side, &behind.side, pairs.turned())
    }
}

// What is left for stream 2 both ways.
fn left(ahead: u32, behind: u32, alone: u32) -> u32
    requires ahead { alone ≤ ahead }
    requires behind { alone ≤ behind }
    ensures { result ≡ min ahead behind - alone }
{
    ahead.min(behind) - alone
}

// Two flows that are to be halved, the second with stream 2 turned, and the sides that show their shares best.
#[derive(Clone, Copy)]
struct Flows {
    plus: [i32; 512],
    minus: [i32; 512],
    sides: Sides,
}

// Draws over the links of the jobs.
fn draw_flows<E: Engine>(engine: &mut E, jobs: &Jobs<'_>) -> Flows
    ensures drawn { DrawnFlows jobs.now.pairs jobs.now.arcs.now result.plus result.minus result.sides.cut result.sides.first }
    ensures plus { Within limit_of jobs.now.arcs.now result.plus }
    ensures minus { Within limit_of jobs.now.arcs.now result.minus }
{
    let turned = jobs.turned();
    let alone = jobs.bound(engine, MOST_FED, 0);
    let ahead = jobs.bound(engine, alone.total, MOST_FED);
    let behind = turned.bound(engine, alone.total, MOST_FED);
    let second = left(ahead.total, behind.total, alone.total);
    Flows {
        plus: jobs.flow(engine, alone.total, second),
        minus: turned.flow(engine, alone.total, second),
        sides: Sides {
            cut: cut_of(&alone, &ahead, &behind, jobs.pairs),
            first: alone.side,
        },
    }
}

// Draws a plan with the engine. Its shares stand at the front of `one` and `two`, later places stay as they
// were, and the sides that show it best are answered.
pub fn draw<L: Edge, E: Engine>(
    engine: &mut E,
    links: &[L],
    pairs: Pairs,
    one: &mut [i32],
    two: &mut [i32],
) -> Sides
    requires lawful { LawfulLinks L.Edge.low L.Edge.high L.Edge.capacity links.now }
    requires proper { Proper cabinets pairs }
    requires ones { length links.now ≤ length one.old }
    requires twos { length links.now ≤ length two.old }
    ensures drawn { Drawn L.Edge.low L.Edge.high (half L.Edge.capacity) pairs links.now (take (length links.now) one.new) (take (length links.now) two.new) (members result.cut) (members result.first) }
    ensures beyond_one { drop (length links.now) one.new ≡ drop (length links.now) one.old }
    ensures beyond_two { drop (length links.now) two.new ≡ drop (length links.now) two.old }
{
    let halved = halves(links);
    let arcs = &halved[..links.len()];
    let jobs = Jobs { arcs, pairs };
    let flows = draw_flows(engine, &jobs);
    share_all(arcs, &flows.plus, &flows.minus, one, two);
    flows.sides
}
