// One of the two feeds and one of the two drains.
ghost use Rattle.std.specs.Prelude.{◌≡◌, ◌+◌, ◌-◌, ◌^◌, ◌<◌, ◌≤◌, min, nat_lt};
ghost use Rattle.augmenting.specs.Pairs.{feed_of, drain_of, sent};

use flow::taps::Taps;

#[derive(Clone, Copy)]
pub enum Which {
    First,
    Second,
}

// A feed with a drain.
#[derive(Clone, Copy)]
pub struct Pair {
    pub from: Which,
    pub to: Which,
}

// Kept: this and `drain` differ in the fields that they read, and an engine knows nothing of streams, so the two are named here.
pub fn feed<T: Copy>(taps: Taps<T>, which: Which) -> T
    ensures { result ≡ feed_of taps which }
{
    match which {
        Which::First => taps.feed1,
        Which::Second => taps.feed2,
    }
}

pub fn drain<T: Copy>(taps: Taps<T>, which: Which) -> T
    ensures { result ≡ drain_of taps which }
{
    match which {
        Which::First => taps.drain1,
        Which::Second => taps.drain2,
    }
}

// The most that can go from the feed to the drain by their limits.
pub fn room_between(most: Taps<u32>, amounts: Taps<u32>, pair: Pair) -> u32
    requires feed { feed_of amounts pair.from ≤ feed_of most pair.from }
    requires drain { drain_of amounts pair.to ≤ drain_of most pair.to }
    ensures { result ≡ min (feed_of most pair.from - feed_of amounts pair.from) (drain_of most pair.to - drain_of amounts pair.to) }
{
    let feed_room = feed(most, pair.from) - feed(amounts, pair.from);
    let drain_room = drain(most, pair.to) - drain(amounts, pair.to);
    feed_room.min(drain_room)
}

// Whether the feed can give more.
pub fn can_give(most: Taps<u32>, amounts: Taps<u32>, which: Which) -> bool
    ensures { result ≡ nat_lt (feed_of amounts which) (feed_of most which) }
{
    feed(amounts, which) < feed(most, which)
}

// The amounts after `by` more went from a feed to a drain.
pub fn add_sent(amounts: Taps<u32>, pair: Pair, by: u32) -> Taps<u32>
    requires fed { feed_of amounts pair.from + by < 2 ^ 32 }
    requires drained { drain_of amounts pair.to + by < 2 ^ 32 }
    ensures { result ≡ sent amounts pair.from pair.to by }
{
    let mut after = amounts;
    match pair.from {
        Which::First => after.feed1 += by,
        Which::Second => after.feed2 += by,
    }
    match pair.to {
        Which::First => after.drain1 += by,
        Which::Second => after.drain2 += by,
    }
    after
}
