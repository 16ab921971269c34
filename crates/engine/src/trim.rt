// A layer over any engine: it hands down only the links with a limit above 0, and gives the others flow 0.
ghost use Rattle.std.specs.Prelude.{◌≡◌, ◌+◌, ◌<◌, ◌≤◌, ◌++◌, length, take, drop, pos, if◌then◌else◌, slice_index_or, slice_set};
ghost use Rattle.flow.specs.Trimming.{can_carry, trimmed, dealt};
ghost use Rattle.engine.specs.Arcs.{limit_of};

use crate::arc::Arc;
use crate::engine::Engine;
use crate::job::Job;
use flow::taps::Taps;

#[derive(Drop)]
pub struct Trim<E> {
    pub below: E,
}

// Writes the links with a limit above 0 to the front of `chosen`, and says how many they are.
fn pick(links: &[Arc], chosen: &mut [Arc; 512]) -> usize
    requires { length links.now ≤ 512 }
    ensures bound { result ≤ 512 }
    ensures kept { take result chosen.new ≡ trimmed limit_of links.now }
{
    // Kept: how many links were written is the answer, so the count outlives the loop; `enumerate` would lose it.
    let mut count = 0;
    for arc in links {
        if arc.limit > 0 {
            chosen[count] = *arc;
            count += 1;
        }
    }
    count
}

// Gives the links with a limit above 0 the flows of `part` in order, and the others flow 0.
fn deal(links: &[Arc], part: &[i32; 512], flow: &mut [i32; 512])
    requires { length links.now ≤ 512 }
    ensures { flow.new ≡ dealt limit_of links.now part.now ++ drop (length links.now) flow.old }
{
    let mut next = 0;
    // Kept: two lists are walked, one of them only at links that can carry; after `iter_mut` nothing is known of what an adapter wrote.
    for (i, arc) in links.iter().enumerate() {
        if arc.limit > 0 {
            flow[i] = part[next];
            next += 1;
        } else {
            flow[i] = 0;
        }
    }
}

impl<E: Engine> Engine for Trim<E> {
    fn solve(&mut self, job: &Job<'_>, flow: &mut [i32; 512], side: &mut [bool; 64]) -> Taps<u32> {
        let links = job.links();
        let mut chosen = [Arc::default(); 512];
        let count = pick(links, &mut chosen);
        let small = job.with_links(&chosen[0..count]);
        let mut part = [0; 512];
        let amounts = self.below.solve(&small, &mut part, side);
        deal(links, &part, flow);
        amounts
    }
}
