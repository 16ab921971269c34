// The preflow to start from.
ghost use Rattle.std.specs.Prelude.{◌≡◌, ◌<◌, ◌≤◌, []};
ghost use Rattle.search.specs.Queues.{items, room};
ghost use Rattle.preflow.specs.Starts.{begun, filled};
ghost use Rattle.preflow.specs.Waits.{Queued};

use crate::send::give;
use engine::job::Job;
use flow::taps::Taps;
use search::queue::Queue;

// The feeds at their limits, nothing drained.
pub fn full(job: &Job<'_>) -> Taps<u32>
    ensures { result ≡ begun job.now.most }
{
    let most = job.most();
    Taps {
        feed1: most.feed1,
        feed2: most.feed2,
        drain1: 0,
        drain2: 0,
    }
}

// All that the feeds let in stands at their cabinets.
pub fn fill(job: &Job<'_>) -> [u32; 64]
    ensures { result ≡ filled job.now.at job.now.most }
{
    let at = job.at();
    let most = job.most();
    let mut excess = [0; 64];
    give(&mut excess, at.feed1, most.feed1);
    give(&mut excess, at.feed2, most.feed2);
    excess
}

// Each cabinet with an excess waits.
pub fn line_up(excess: &[u32; 64], queue: &mut Queue<u8>)
    requires items { items queue.old ≡ [] }
    requires room { 65 ≤ room queue.old }
    ensures queued { Queued excess.now (items queue.new) }
    ensures room { room queue.new ≡ room queue.old }
{
    for (v, amount) in excess.iter().enumerate() {
        if *amount > 0 {
            queue.push(v as u8);
        }
    }
}
