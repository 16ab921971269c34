// The search, and what it writes into the caller's lists.
ghost use Rattle.std.specs.Prelude.{◌≡◌, ℕ, ◌+◌, ◌<◌, ◌≤◌, length, take, drop};
ghost use Rattle.search.specs.Paths.{Found};
ghost use Rattle.search.specs.Spreads.{mark, level_of, from_of, chain, Told};

use crate::ground::Ground;
use crate::marks::Mark;
use crate::spread::spread_from;

// Writes the path to `goal` to the front of `path`, from the last link to the first.
fn trace(marks: &[Option<Mark>; 64], goal: u8, path: &mut [u16])
    requires goal { goal < 64 }
    requires near { (c : ℕ) → c < 64 → from_of (mark marks.now c) < 64 }
    requires falls { (c : ℕ) → c < 64 → 0 < level_of (mark marks.now c) → level_of (mark marks.now (from_of (mark marks.now c))) + 1 ≡ level_of (mark marks.now c) }
    requires room { level_of (mark marks.now goal) ≤ length path.old }
    ensures way { take (level_of (mark marks.now goal)) path.new ≡ chain marks.now goal (level_of (mark marks.now goal)) }
    ensures rest { drop (level_of (mark marks.now goal)) path.new ≡ drop (level_of (mark marks.now goal)) path.old }
{
    let mut at = goal;
    while let Some(mark) = marks[at as usize]
        && mark.level > 0
    {
        path[mark.level as usize - 1] = mark.over;
        at = mark.from;
    }
}

// Writes to `side` which cabinets were reached.
fn tell(marks: &[Option<Mark>; 64], side: &mut [bool; 64])
    ensures { Told marks.now side.new }
{
    for (cabinet, inside) in side.iter_mut().enumerate() {
        *inside = marks[cabinet].is_some();
    }
}

// Searches breadth first for a path of open steps from `start` to `goal`. It answers how many links the path has,
// and writes them to the front of `path`; or, where there is none, it writes to `side` a set of cabinets
// that holds the start, lacks the goal and is left by no open step.
pub fn find_path<G: Ground>(
    ground: &G,
    start: u8,
    goal: u8,
    path: &mut [u16],
    side: &mut [bool; 64],
) -> Option<usize>
    requires start { start < 64 }
    requires goal { goal < 64 }
    requires path { 64 ≤ length path.old }
    ensures { Found (G.graph ground.now) start goal result path.old path.new side.old side.new }
{
    let marks = spread_from(ground, start, goal);
    if let Some(mark) = marks[goal as usize] {
        trace(&marks, goal, path);
        Some(mark.level as usize)
    } else {
        tell(&marks, side);
        None
    }
}
