// Lifting a cabinet.
ghost use Rattle.std.specs.Prelude.{◌≡◌, ◌<◌, ◌↔◌, IsTrue, length, slice_set};
ghost use Rattle.preflow.specs.Heights.{Empty, over_top, Raised, Relabeled};

// Whether no cabinet stands at a level.
pub fn is_level_empty(heights: &[u8; 64], level: u8) -> bool
    ensures { IsTrue result ↔ Empty heights.now level }
{
    heights.iter().all(|height| *height != level)
}

// A height above `level` becomes 67 at least.
fn over_top(height: u8, level: u8) -> u8
    ensures { result ≡ over_top level height }
{
    if height > level {
        height.max(67)
    } else {
        height
    }
}

// Raises all cabinets above `level` to 67 at least.
fn raise_above(heights: &mut [u8; 64], level: u8)
    ensures { Raised level heights.old heights.new }
{
    for height in heights.iter_mut() {
        *height = over_top(*height, level);
    }
}

// Lifts the cabinet `at` to a height.
fn lift(heights: &mut [u8; 64], at: u8, height: u8)
    requires { at < 64 }
    ensures { heights.new ≡ slice_set heights.old at height }
{
    heights[at as usize] = height;
}

// Lifts the cabinet `at`. Where nothing stands at its former level any more, what stands above that level
// is cut off from the drains: it is raised past the outer source, so that it soon flows back to the feeds.
pub fn relabel(heights: &mut [u8; 64], at: u8, height: u8)
    requires { at < 64 }
    ensures relabeled { Relabeled heights.old at height heights.new }
    ensures tall { length heights.new ≡ 64 }
{
    let level = heights[at as usize];
    lift(heights, at, height);
    if level > 0 && level < 66 && is_level_empty(heights, level) {
        raise_above(heights, level);
    }
}
