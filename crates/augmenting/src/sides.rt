// The side that four sides make.
ghost use Rattle.std.specs.Prelude.{◌≡◌, ◌&&◌, ◌||◌};
ghost use Rattle.augmenting.specs.Sides.{Joined};

fn either_both(a: bool, b: bool, c: bool, d: bool) -> bool
    ensures { result ≡ ((a && b) || (c && d)) }
{
    (a && b) || (c && d)
}

// Joins where `a` and `b` meet with where `c` and `d` do.
pub fn joined(a: &[bool; 64], b: &[bool; 64], c: &[bool; 64], d: &[bool; 64]) -> [bool; 64]
    ensures { Joined a.now b.now c.now d.now result 64 }
{
    let mut side = [false; 64];
    for (v, within) in side.iter_mut().enumerate() {
        *within = either_both(a[v], b[v], c[v], d[v]);
    }
    side
}
