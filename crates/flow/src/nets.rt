// What leaves a cabinet minus what enters it.
ghost use Rattle.std.specs.Prelude.{◌≡◌, ◌^◌, ◌≤◌, length, ◌-ℤ◌, ◌==◌, unsigned_abs};
ghost use Rattle.flow.specs.Ranges.{most_links};
ghost use Rattle.flow.specs.Nets.{only, net};
ghost use Rattle.flow.specs.Tests.{is_kept};

use crate::edge::Edge;
use crate::pairs::Pair;

// The share if this end of its link is the cabinet, else 0.
fn share_at(end: u8, share: i32, cabinet: u8) -> i64
    ensures value { result ≡ only (end == cabinet) share }
    ensures small { unsigned_abs result ≤ 2 ^ 31 }
{
    if end == cabinet { i64::from(share) } else { 0 }
}

// What leaves the cabinet over one link, which carries the share, minus what enters it.
pub fn link_net<E: Edge>(link: &E, share: i32, cabinet: u8) -> i64
    ensures value { result ≡ only (E.Edge.low link.now == cabinet) share -ℤ only (E.Edge.high link.now == cabinet) share }
    ensures small { unsigned_abs result ≤ 2 ^ 32 }
{
    share_at(link.low(), share, cabinet) - share_at(link.high(), share, cabinet)
}

// What leaves the cabinet over all links minus what enters it.
// Kept: a slice carries no bound on its length, and a wrapper that does would be made anew for each call, here and in sides.
pub fn net_at<E: Edge>(links: &[E], shares: &[i32], cabinet: u8) -> i64
    requires few { length links.now ≤ most_links }
    requires long { length links.now ≤ length shares.now }
    ensures { result ≡ net E.Edge.low E.Edge.high links.now shares.now cabinet }
{
    let mut sum = 0;
    for (link, &share) in links.iter().zip(shares) {
        sum += link_net(link, share, cabinet);
    }
    sum
}

// Whether the cabinet is one of the stream's ends or as much enters it as leaves it.
pub fn keeps<E: Edge>(links: &[E], shares: &[i32], pair: Pair, cabinet: u8) -> bool
    requires few { length links.now ≤ most_links }
    requires long { length links.now ≤ length shares.now }
    ensures { result ≡ is_kept E.Edge.low E.Edge.high pair.source pair.goal links.now shares.now cabinet }
{
    cabinet == pair.source || cabinet == pair.goal || net_at(links, shares, cabinet) == 0
}
