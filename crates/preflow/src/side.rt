// The side at the end.
ghost use Rattle.std.specs.Prelude.{◌≡◌, ℕ, ◌<◌, ◌≤◌, nat_lt};
ghost use Rattle.flow.specs.Nets.{members};
ghost use Rattle.preflow.specs.Heights.{high, Empty};

use crate::relabel::is_level_empty;

// The least level from 1 on at which no cabinet stands.
pub fn gap(heights: &[u8; 64]) -> u8
    ensures first { 1 ≤ result }
    ensures low { result ≤ 65 }
    ensures empty { Empty heights.now result }
{
    // Kept: tried as a `find` over the range; that the level found is empty stayed open, since no range says what it gives.
    for level in 1..65 {
        if is_level_empty(heights, level) {
            return level;
        }
    }
    65
}

// The cabinets above a level make the side.
pub fn tell(heights: &[u8; 64], level: u8, side: &mut [bool; 64])
    ensures { (w : ℕ) → w < 64 → members side.new w ≡ nat_lt level (high heights.now w) }
{
    for (v, inside) in side.iter_mut().enumerate() {
        *inside = heights[v] > level;
    }
}
