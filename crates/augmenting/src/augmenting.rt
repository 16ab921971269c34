// Augmenting paths: as long as a path leads from a feed that can give more to a drain that can take more, more is sent over it.
ghost use Rattle.std.specs.Prelude.{◌≡◌, ◌+◌, ◌≤◌, length, drop};
ghost use Rattle.engine.specs.Jobs.{links_of};
ghost use Rattle.engine.specs.Totals.{FeasibleFlow};
ghost use Rattle.augmenting.specs.Sides.{Full};

use crate::run::Run;
use engine::engine::Engine;
use engine::job::Job;
use flow::taps::Taps;
use residual::clear::clear;
use residual::network::Network;

// The amounts of an answer, and how many times the flow was raised along a path to reach it.
#[derive(Clone, Copy)]
pub struct Augmented {
    pub amounts: Taps<u32>,
    pub raises: u32,
}

// Answers a job; each raise feeds at least 1.
pub fn augment(job: &Job<'_>, flow: &mut [i32; 512], side: &mut [bool; 64]) -> Augmented
    ensures feasible { FeasibleFlow job.now flow.new result.amounts }
    ensures full { Full job.now result.amounts side.new }
    ensures beyond { drop (length (links_of job.now)) flow.new ≡ drop (length (links_of job.now)) flow.old }
    ensures raises { result.raises ≤ result.amounts.feed1 + result.amounts.feed2 }
{
    let network = Network::of(job);
    clear(flow, job.links().len());
    let mut run = Run {
        network: &network,
        flow: *flow,
        amounts: Taps {
            feed1: 0,
            feed2: 0,
            drain1: 0,
            drain2: 0,
        },
        raises: 0,
    };
    loop {
        if let Some(found) = run.round() {
            *flow = run.flow;
            *side = found;
            return Augmented {
                amounts: run.amounts,
                raises: run.raises,
            };
        }
    }
}

// The engine keeps nothing from job to job.
#[derive(Clone, Copy)]
pub struct Augmenting;

impl Engine for Augmenting {
    fn solve(&mut self, job: &Job<'_>, flow: &mut [i32; 512], side: &mut [bool; 64]) -> Taps<u32> {
        augment(job, flow, side).amounts
    }
}
