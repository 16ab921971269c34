// An engine solves one flow.
ghost use Rattle.std.specs.Prelude.{◌≡◌, ◌+◌, ◌≤◌, length, drop};
ghost use Rattle.flow.specs.Ranges.{cabinets};
ghost use Rattle.flow.specs.Nets.{members};
ghost use Rattle.flow.specs.Answers.{Each, Within, Balanced, cost};
ghost use Rattle.engine.specs.Arcs.{tail_of, head_of, limit_of};
ghost use Rattle.engine.specs.Jobs.{links_of};

use crate::job::Job;
use flow::taps::Taps;

// An engine answers every job, and refuses none, with a flow for each link, the four amounts and a side (a set of cabinets).
// Kept: an array for the most links has room for every job, so that no caller has to show that its list is long enough.
pub trait Engine {
    // No flow exceeds its link's limit in size; each amount is at most its limit; in every cabinet
    // outflow minus inflow is what is fed there minus what is drained there; the total fed is the
    // cost of the side; the places of `flow` beyond the links are untouched.
    fn solve(&mut self, job: &Job<'_>, flow: &mut [i32; 512], side: &mut [bool; 64]) -> Taps<u32>
        ensures within { Within limit_of (links_of job.now) flow.new }
        ensures amounts { Each ◌≤◌ result job.now.most }
        ensures balanced { Balanced tail_of head_of cabinets (links_of job.now) job.now.at result flow.new }
        ensures full { result.feed1 + result.feed2 ≡ cost tail_of head_of limit_of job.now.at job.now.most (links_of job.now) (members side.new) }
        ensures beyond { drop (length (links_of job.now)) flow.new ≡ drop (length (links_of job.now)) flow.old };
}
