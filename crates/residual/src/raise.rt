// The least free amount of a path, and a flow raised along it.
ghost use Rattle.std.specs.Prelude.{◌≡◌, ◌<◌, ◌≤◌, min, length, pos, ◌+ℤ◌, if◌then◌else◌, nat_eq, slice_index_or, slice_set, unsigned_abs};
ghost use Rattle.flow.specs.Ranges.{most_limit};
ghost use Rattle.flow.specs.Answers.{Within};
ghost use Rattle.engine.specs.Arcs.{limit_of};
ghost use Rattle.engine.specs.Jobs.{links_of};
ghost use Rattle.search.specs.Graphs.{across};
ghost use Rattle.search.specs.Paths.{OpenPath, destination};
ghost use Rattle.residual.specs.Meshes.{mesh_of, ahead, toward, residual};
ghost use Rattle.residual.specs.Networks.{links_in};
ghost use Rattle.residual.specs.Raising.{least, Route, Moved};

use crate::residual::Residual;
use engine::arc::Arc;
use engine::job::Job;
use search::links::Joins;

// The end of a link that is not the cabinet `at`.
pub fn far_end(arc: Arc, at: u8) -> u8
    ensures { result ≡ (if nat_eq arc.tail at then arc.head else arc.tail) }
{
    arc.ends().other(at)
}

// The least of `most` and what is free on each link of a path of open steps.
pub fn least_free(ground: &Residual<'_>, from: u8, path: &[u16], most: u32) -> u32
    requires { OpenPath (residual (links_in ground.now.network.now) ground.now.flow.now 1) from path.now }
    ensures { result ≡ least (links_in ground.now.network.now) ground.now.flow.now from path.now most }
{
    let mut by = most;
    let mut cabinet = from;
    for link in path {
        by = by.min(ground.free(cabinet, *link));
        cabinet = far_end(ground.network.job.links()[*link as usize], cabinet);
    }
    by
}

// The flow of a link after `by` more in the direction of a step, which goes with the link if `ahead`.
fn raised(flow: i32, ahead: bool, by: u32) -> i32
    requires was { unsigned_abs flow ≤ most_limit }
    requires fits { unsigned_abs (flow +ℤ toward ahead (pos by)) ≤ most_limit }
    ensures { result ≡ flow +ℤ toward ahead (pos by) }
{
    if ahead {
        flow + by as i32
    } else {
        flow - by as i32
    }
}

// Sends `by` more from a cabinet over a link, and tells where that leads.
pub fn push(job: &Job<'_>, flow: &mut [i32; 512], at: u8, link: u16, by: u32) -> u8
    requires listed { link < length (links_of job.now) }
    requires was { unsigned_abs (slice_index_or flow.old link (pos 0)) ≤ most_limit }
    requires fits { unsigned_abs (slice_index_or flow.old link (pos 0) +ℤ toward (ahead (links_of job.now) at link) (pos by)) ≤ most_limit }
    ensures flow { flow.new ≡ slice_set flow.old link (slice_index_or flow.old link (pos 0) +ℤ toward (ahead (links_of job.now) at link) (pos by)) }
    ensures next { result ≡ across (mesh_of (links_of job.now)) at link }
{
    let arc = job.links()[link as usize];
    flow[link as usize] = raised(flow[link as usize], arc.tail == at, by);
    far_end(arc, at)
}

// Sends `by` more over each link of a path on which there is room for it.
pub fn raise(job: &Job<'_>, flow: &mut [i32; 512], from: u8, path: &[u16], by: u32)
    requires route { Route (links_of job.now) flow.old by from path.now (destination (residual (links_of job.now) flow.old by) from path.now) }
    requires within { Within limit_of (links_of job.now) flow.old }
    ensures { Moved (links_of job.now) flow.old flow.new by from (destination (residual (links_of job.now) flow.old by) from path.now) }
{
    let mut at = from;
    for link in path {
        at = push(job, flow, at, *link, by);
    }
}
