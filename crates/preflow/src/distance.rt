// The heights to start from: distances to the drains, by one backward search, level by level.
// Kept: cabinets are plain numbers by a rule of the project, so here and in this crate a contract says of one that it is below 64.
ghost use Rattle.std.specs.Prelude.{◌≡◌, ℕ, ◌+◌, ◌<◌, ◌≤◌, length, replicate, slice_index_or};
ghost use Rattle.flow.specs.Ranges.{cabinets};
ghost use Rattle.search.specs.Graphs.{across};
ghost use Rattle.engine.specs.Arcs.{blank};
ghost use Rattle.residual.specs.Meshes.{mesh_of};
ghost use Rattle.residual.specs.Networks.{links_in};
ghost use Rattle.preflow.specs.Heights.{high};
ghost use Rattle.preflow.specs.Starts.{Into, Lowered, Distances};

use crate::relabel::is_level_empty;
use engine::job::Job;
use residual::network::Network;
use residual::raise::far_end;

// Lowers a cabinet to `height`, if it stands higher.
// Kept: that heights only fall is a promise of each step, here and below, and no fact about heights.
fn lower_to(heights: &mut [u8; 64], at: u8, height: u8)
    requires { at < 64 }
    ensures lowered { Lowered height heights.old heights.new }
    ensures near { high heights.new at ≤ height }
{
    if heights[at as usize] > height {
        heights[at as usize] = height;
    }
}

// Lowers the other end of a link to `height`, if the link can carry something.
fn reach(network: &Network<'_>, heights: &mut [u8; 64], at: u8, link: u16, height: u8)
    requires { link < length (links_in network.now) }
    ensures lowered { Lowered height heights.old heights.new }
    ensures near { 0 < (slice_index_or (links_in network.now) link blank).limit → high heights.new (across (mesh_of (links_in network.now)) at link) ≤ height }
{
    let arc = network.job.links()[link as usize];
    if arc.limit > 0 {
        lower_to(heights, far_end(arc, at), height);
    }
}

// Lowers all cabinets from which a step leads to `at`.
fn reach_all(network: &Network<'_>, heights: &mut [u8; 64], at: u8, height: u8)
    requires { at < 64 }
    ensures lowered { Lowered height heights.old heights.new }
    ensures into { Into (links_in network.now) heights.new at height }
{
    for link in network.row(at) {
        reach(network, heights, at, *link, height);
    }
}

// Lowers the cabinets that lead to one at `level` to the next level.
fn next_level(network: &Network<'_>, heights: &mut [u8; 64], level: u8)
    requires { level < 67 }
    ensures lowered { Lowered (level + 1) heights.old heights.new }
    ensures into { (x : ℕ) → x < 64 → high heights.new x ≡ level → Into (links_in network.now) heights.new x (level + 1) }
{
    // Kept: a step of the loop lowers the heights that the loop reads; to walk over a copy of them would be no plainer.
    for cabinet in 0..64u8 {
        if heights[cabinet as usize] == level {
            reach_all(network, heights, cabinet, level + 1);
        }
    }
}

// Lowers the cabinet of a drain to 1, if the drain can take something.
fn drain_from(heights: &mut [u8; 64], at: u8, most: u32)
    requires { at < 64 }
    ensures lowered { Lowered 1 heights.old heights.new }
    ensures near { 0 < most → high heights.new at ≤ 1 }
{
    if most > 0 {
        lower_to(heights, at, 1);
    }
}

// The drains that can take something at height 1, and all other cabinets at 67.
fn drained(job: &Job<'_>) -> [u8; 64]
    ensures long { length result ≡ 64 }
    ensures lowered { Lowered 1 (replicate 64 67) result }
    ensures drain1 { 0 < job.now.most.drain1 → high result job.now.at.drain1 ≤ 1 }
    ensures drain2 { 0 < job.now.most.drain2 → high result job.now.at.drain2 ≤ 1 }
{
    let at = job.at();
    let most = job.most();
    let mut heights = [67; 64];
    drain_from(&mut heights, at.drain1, most.drain1);
    drain_from(&mut heights, at.drain2, most.drain2);
    heights
}

// The distance of each cabinet to the nearest drain that can take something, counted from 1 there; 67 where none is reached.
pub fn distances(network: &Network<'_>) -> [u8; 64]
    ensures long { length result ≡ 64 }
    ensures distances { Distances (links_in network.now) network.now.job.now.at network.now.job.now.most result }
{
    let mut heights = drained(network.job);
    for level in 1..66u8 {
        if is_level_empty(&heights, level) {
            return heights;
        }
        next_level(network, &mut heights, level);
    }
    heights
}
