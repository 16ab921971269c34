// The sum side, made of a first side and the side of a job that was full.
ghost use Rattle.std.specs.Prelude.{◌≡◌};
ghost use Rattle.flow.specs.Nets.{members, xor};
ghost use Rattle.flow.specs.Drawings.{mix, made_side, SameSide};

use flow::pairs::Pairs;
use flow::sides::holds;

// Whether the side holds just one of the two cabinets.
fn parts(side: &[bool; 64], one: u8, other: u8) -> bool
    ensures { result ≡ xor (members side.now one) (members side.now other) }
{
    holds(side, one) != holds(side, other)
}

// Whether the cabinet is in the full side, or, unless that parts the ends of stream 1, in just one of the two sides.
fn is_mixed(first: &[bool; 64], full: &[bool; 64], pairs: Pairs, cabinet: u8) -> bool
    ensures { result ≡ mix (members first.now) (members full.now) pairs cabinet }
{
    if parts(full, pairs.source1, pairs.goal1) {
        holds(full, cabinet)
    } else {
        holds(first, cabinet) != holds(full, cabinet)
    }
}

// Whether the cabinet is in the sum side: the first side if it parts the ends of stream 2,
// else of the mixed set and its complement the one that holds source 1.
fn is_in_cut(first: &[bool; 64], full: &[bool; 64], pairs: Pairs, cabinet: u8) -> bool
    ensures { result ≡ made_side (members first.now) (members full.now) pairs cabinet }
{
    if parts(first, pairs.source2, pairs.goal2) {
        holds(first, cabinet)
    } else {
        is_mixed(first, full, pairs, cabinet) == is_mixed(first, full, pairs, pairs.source1)
    }
}

pub fn sum_side(first: &[bool; 64], full: &[bool; 64], pairs: Pairs) -> [bool; 64]
    ensures { SameSide (members result) (made_side (members first.now) (members full.now) pairs) }
{
    let mut side = [false; 64];
    for (cabinet, held) in side.iter_mut().enumerate() {
        *held = is_in_cut(first, full, pairs, cabinet as u8);
    }
    side
}
