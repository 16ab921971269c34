// Preflow pushing, as an engine.
use crate::run::Run;
use crate::side::{gap, tell};
use engine::engine::Engine;
use engine::job::Job;
use flow::taps::Taps;
use residual::network::Network;
use search::queue::Queue;

// The engine keeps nothing from job to job.
#[derive(Clone, Copy)]
pub struct Preflow;

impl Engine for Preflow {
    fn solve(&mut self, job: &Job<'_>, flow: &mut [i32; 512], side: &mut [bool; 64]) -> Taps<u32> {
        let network = Network::of(job);
        let mut places = [0; 65];
        let mut queue = Queue::new(&mut places);
        let mut run = Run::begin(&network, flow, &mut queue);
        run.drain();
        tell(&run.state.heights, gap(&run.state.heights), side);
        run.state.amounts
    }
}
