// Preflow pushing at work on a job.
ghost use Rattle.std.specs.Prelude.{◌≡◌, ℕ, ◌<◌, ◌≤◌, min, [], length, drop, slice_index};
ghost use Rattle.flow.specs.Ranges.{cabinets};
ghost use Rattle.search.specs.Queues.{items, room};
ghost use Rattle.residual.specs.Networks.{links_in};
ghost use Rattle.preflow.specs.States.{Active};
ghost use Rattle.preflow.specs.Heights.{high};
ghost use Rattle.preflow.specs.Starts.{begun, filled, Distances};

use crate::distance::distances;
use crate::lowest::Landscape;
use crate::relabel::relabel;
use crate::send::send;
use crate::start::{fill, full, line_up};
use crate::state::State;
use crate::wait::{requeue, settle};
use crate::way::Best;
use residual::clear::clear;
use residual::network::Network;
use residual::residual::Residual;
use search::queue::Queue;

// A job with a preflow for it (a flow that may leave an excess in cabinets), and the cabinets with an excess, which wait for their turn.
#[derive(Drop)]
pub struct Run<'a, 'q> {
    network: &'a Network<'a>,
    flow: &'a mut [i32; 512],
    pub state: State,
    queue: &'a mut Queue<'q, u8>,
    ghost active: { Active network.now flow.now state (items queue.now) },
    ghost roomy: { 65 ≤ room queue.now },
}

// How much goes along a way: what fits there of the excess.
fn portion(room: u32, excess: u32) -> u32
    ensures { result ≡ min room excess }
{
    room.min(excess)
}

impl<'a, 'q> Run<'a, 'q> {
    ghost use Rattle.preflow.specs.Runs.{IsFirst, LeastAt, OpenAt, AdmissibleAt, Stays, Goes};
    // Kept: the first cabinet is looked up once a turn and handed on; a step that looked it up again would ask in its place that one waits. What a step leaves is a promise of each step.

    // The preflow to start from: all that the feeds let in stands at their cabinets, and these are as high as they are far from a drain.
    pub fn begin(
        network: &'a Network<'a>,
        flow: &'a mut [i32; 512],
        queue: &'a mut Queue<'q, u8>,
    ) -> Run<'a, 'q>
        requires items { items queue.old ≡ [] }
        requires room { 65 ≤ room queue.old }
        ensures network { result.network.now ≡ network.now }
        ensures amounts { result.state.amounts ≡ begun network.now.job.now.most }
        ensures excess { result.state.excess ≡ filled network.now.job.now.at network.now.job.now.most }
        ensures tall { length result.state.heights ≡ cabinets }
        ensures distances { Distances (links_in network.now) network.now.job.now.at network.now.job.now.most result.state.heights }
        ensures lent { result.flow.ghost_name ≡ flow.entry.ghost_name }
        ensures beyond { drop (length (links_in network.now)) result.flow.now ≡ drop (length (links_in network.now)) flow.old }
    {
        let job = network.job;
        clear(flow, job.links().len());
        let state = State {
            amounts: full(job),
            excess: fill(job),
            heights: distances(network),
        };
        line_up(&state.excess, queue);
        Run {
            network,
            flow,
            state,
            queue,
        }
    }

    // The lowest open way out of the first cabinet. There is one, since what its excess came over leads back to a feed.
    fn way_out(&self, first: u8) -> Best
        requires { IsFirst self.now first }
        ensures least { LeastAt self.now first result.height }
        ensures leads { OpenAt self.now first result }
    {
        let residual = Residual {
            network: self.network,
            flow: self.flow,
        };
        let landscape = Landscape {
            residual,
            heights: &self.state.heights,
        };
        landscape.lowest(self.state.amounts, first).unwrap()
    }

    // Lifts the first cabinet to just above its lowest open way.
    fn lift(&mut self, first: u8, height: u8)
        requires front { IsFirst self.old first }
        requires up { high self.old.state.heights first < height }
        requires least { LeastAt self.old first height }
        ensures { Goes self.old self.new }
    {
        relabel(&mut self.state.heights, first, height);
        requeue(self.queue, first);
    }

    // Sends what fits of the excess at the first cabinet along an admissible way.
    fn push(&mut self, first: u8, best: Best)
        requires front { IsFirst self.old first }
        requires admissible { AdmissibleAt self.old first best }
        ensures { Goes self.old self.new }
    {
        let by = portion(best.room, self.state.excess[first as usize]);
        let to = send(
            self.network.job,
            self.flow,
            &mut self.state,
            first,
            best.way,
            by,
        );
        settle(self.queue, &self.state.excess, first, to, by);
    }

    // One turn of the first cabinet: a lift, or a push along its lowest way.
    fn turn(&mut self, first: u8)
        requires { IsFirst self.old first }
        ensures { Goes self.old self.new }
    {
        let best = self.way_out(first);
        if self.state.heights[first as usize] < best.height {
            self.lift(first, best.height);
        } else {
            self.push(first, best);
        }
    }

    // Takes turns until no cabinet has an excess.
    pub fn drain(&mut self)
        ensures lent { self.new.flow.ghost_name ≡ self.old.flow.ghost_name }
        ensures stays { Stays self.old self.new }
        ensures dry { (v : ℕ) → slice_index self.new.state.excess v ≡ 0 }
    {
        while let Some(first) = self.queue.front() {
            self.turn(first);
        }
    }
}
