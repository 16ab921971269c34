// What every engine's contract gives a caller who knows no more of it.
ghost use Rattle.std.specs.Prelude.{◌≡◌, ◌+◌};
ghost use Rattle.engine.specs.Arcs.{Limited};
ghost use Rattle.engine.specs.Totals.{Greatest, OneGreatest};

use crate::engine::Engine;
use crate::job::Job;
use flow::taps::Taps;

// The total fed.
fn total(amounts: Taps<u32>) -> u32
    requires { Limited amounts }
    ensures { result ≡ amounts.feed1 + amounts.feed2 }
{
    amounts.feed1 + amounts.feed2
}

// The total that an engine feeds: no other flow within the job's limits is fed more.
pub fn greatest_total<E: Engine>(engine: &mut E, job: &Job<'_>) -> u32
    ensures { Greatest job.now result }
{
    let mut flow = [0; 512];
    let mut side = [false; 64];
    let amounts = engine.solve(job, &mut flow, &mut side);
    total(amounts)
}

// A job has only one greatest total, so all engines feed the same.
pub fn greatest_is_one()
    ensures { OneGreatest }
{}
