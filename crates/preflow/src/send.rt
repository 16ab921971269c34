// Sending a part of a cabinet's excess along a way.
ghost use Rattle.std.specs.Prelude.{◌≡◌, ◌+◌, ◌^◌, ◌<◌, ◌≤◌, slice_index};
ghost use Rattle.engine.specs.Jobs.{links_of};
ghost use Rattle.preflow.specs.Sends.{sent_flow, sent_amounts, reached, given, moved, Sendable};

use crate::state::State;
use crate::way::Way;
use engine::job::Job;
use residual::raise::push;

// Gives `by` more to the excess of a cabinet.
pub fn give(excess: &mut [u32; 64], to: u8, by: u32)
    requires inside { to < 64 }
    requires fits { slice_index excess.old to + by < 2 ^ 32 }
    ensures { excess.new ≡ given excess.old to by }
{
    excess[to as usize] += by;
}

// Sends `by` of the excess at a cabinet along a way, and answers the cabinet that it comes to, if it is not an outer end.
pub fn send(
    job: &Job<'_>,
    flow: &mut [i32; 512],
    state: &mut State,
    from: u8,
    way: Way,
    by: u32,
) -> Option<u8>
    requires inside { from < 64 }
    requires enough { by ≤ slice_index state.old.excess from }
    requires can { Sendable (links_of job.now) flow.old state.old.amounts state.old.excess from by way }
    ensures to { result ≡ reached (links_of job.now) from way }
    ensures flow { flow.new ≡ sent_flow (links_of job.now) flow.old from by way }
    ensures amounts { state.new.amounts ≡ sent_amounts state.old.amounts by way }
    ensures heights { state.new.heights ≡ state.old.heights }
    ensures excess { state.new.excess ≡ moved state.old.excess from by (reached (links_of job.now) from way) }
{
    state.excess[from as usize] -= by;
    match way {
        Way::Over(link) => {
            let to = push(job, flow, from, link, by);
            give(&mut state.excess, to, by);
            return Some(to);
        }
        Way::Drain1 => state.amounts.drain1 += by,
        Way::Drain2 => state.amounts.drain2 += by,
        Way::Feed1 => state.amounts.feed1 -= by,
        Way::Feed2 => state.amounts.feed2 -= by,
    }
    None
}
