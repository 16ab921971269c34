// The lowest open way out of a cabinet.
ghost use Rattle.std.specs.Prelude.{◌≡◌, ℕ, ◌+◌, ◌<◌, ◌≤◌, length, if◌then◌else◌, nat_eq};
ghost use Rattle.flow.specs.declared.taps.Taps.{Taps as TapsOf};
ghost use Rattle.flow.specs.Answers.{Each};
ghost use Rattle.search.specs.Graphs.{across};
ghost use Rattle.residual.specs.Meshes.{mesh_of, free};
ghost use Rattle.residual.specs.Networks.{links_in};
ghost use Rattle.preflow.specs.Heights.{high, Low};
ghost use Rattle.preflow.specs.Ways.{Bounds, Least, Leads, UpTo, lowered, drain_way, feed_way};

use crate::way::{Best, Way};
use engine::job::Job;
use flow::taps::Taps;
use residual::raise::far_end;
use residual::residual::Residual;

// What a flow leaves free, and the heights of the cabinets, each of which is below the bound that no height reaches.
#[derive(Clone, Copy)]
pub struct Landscape<'a> {
    pub residual: Residual<'a>,
    pub heights: &'a [u8; 64],
    ghost low: { Low heights.now },
}

// The better of `best` and a way over which `room` more can go.
fn lower(best: Option<Best>, height: u8, room: u32, way: Way) -> Option<Best>
    ensures { result ≡ lowered best height room way }
{
    if best.is_none_or(|best| height < best.height) && room > 0 {
        Some(Best { height, room, way })
    } else {
        best
    }
}

// What can go along a way at the cabinet `at`, if that is where it starts.
fn here(start: u8, room: u32, at: u8) -> u32
    ensures { result ≡ (if nat_eq start at then room else 0) }
{
    if start == at { room } else { 0 }
}

// The way out of `at` into a drain, if one is open.
fn into_drain(job: &Job<'_>, amounts: Taps<u32>, at: u8) -> Option<Best>
    requires { Each ◌≤◌ amounts job.now.most }
    ensures { result ≡ drain_way job.now.at job.now.most amounts at }
{
    let places = job.at();
    let most = job.most();
    let first = here(places.drain1, most.drain1 - amounts.drain1, at);
    let second = here(places.drain2, most.drain2 - amounts.drain2, at);
    lower(lower(None, 1, first, Way::Drain1), 1, second, Way::Drain2)
}

// The better of `best` and the ways out of `at` back into a feed.
fn into_feed(job: &Job<'_>, amounts: Taps<u32>, at: u8, best: Option<Best>) -> Option<Best>
    ensures { result ≡ feed_way job.now.at amounts at best }
{
    let places = job.at();
    let first = here(places.feed1, amounts.feed1, at);
    let second = here(places.feed2, amounts.feed2, at);
    lower(lower(best, 67, first, Way::Feed1), 67, second, Way::Feed2)
}

impl<'a> Landscape<'a> {
    // The better of `best` and the way out of `at` over a link.
    fn over_link(&self, at: u8, link: u16, best: Option<Best>) -> Option<Best>
        requires { link < length (links_in self.now.residual.network.now) }
        ensures { result ≡ lowered best (high self.now.heights.now (across (mesh_of (links_in self.now.residual.network.now)) at link) + 1) (free (links_in self.now.residual.network.now) self.now.residual.flow.now at link) (Way.Over link) }
    {
        let arc = self.residual.network.job.links()[link as usize];
        let height = self.heights[far_end(arc, at) as usize] + 1;
        lower(best, height, self.residual.free(at, link), Way::Over(link))
    }

    // The lowest open way out of `at` over a link, if there is one.
    fn over_links(&self, at: u8) -> Option<Best>
        requires { at < 64 }
        ensures least { (m : ℕ) → UpTo result m → (l : ℕ) → Bounds (links_in self.now.residual.network.now) self.now.residual.flow.now self.now.heights.now at m l }
        ensures leads { (places most amount : TapsOf ℕ) → Leads (links_in self.now.residual.network.now) places most amount self.now.residual.flow.now self.now.heights.now at result }
    {
        let mut best = None;
        for link in self.residual.network.row(at) {
            best = self.over_link(at, *link, best);
        }
        best
    }

    // The lowest open way out of `at`, if there is one. No way is lower than into a drain.
    pub fn lowest(&self, amounts: Taps<u32>, at: u8) -> Option<Best>
        requires inside { at < 64 }
        requires amounts { Each ◌≤◌ amounts self.now.residual.network.now.job.now.most }
        ensures least { (m : ℕ) → UpTo result m → Least (links_in self.now.residual.network.now) self.now.residual.network.now.job.now.at self.now.residual.network.now.job.now.most amounts self.now.residual.flow.now self.now.heights.now at m }
        ensures leads { Leads (links_in self.now.residual.network.now) self.now.residual.network.now.job.now.at self.now.residual.network.now.job.now.most amounts self.now.residual.flow.now self.now.heights.now at result }
    {
        let job = self.residual.network.job;
        // Kept: a closure under `or_else` would ask for the facts of this call once more.
        let drain = into_drain(job, amounts, at);
        if drain.is_some() {
            return drain;
        }
        into_feed(job, amounts, at, self.over_links(at))
    }
}
