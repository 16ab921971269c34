// The shares of the two streams, made of two flows.
ghost use Rattle.std.specs.Prelude.{◌≡◌, ◌≤◌, length, drop, ◌+ℤ◌, ◌-ℤ◌, unsigned_abs};
ghost use Rattle.flow.specs.Ranges.{most_links, most_limit};
ghost use Rattle.flow.specs.Answers.{Within};
ghost use Rattle.flow.specs.Drawings.{Halved};
ghost use Rattle.engine.specs.Arcs.{limit_of, AllSound};

use engine::arc::Arc;

// The shares of one link: the sum and the difference of its two flows.
fn share(plus: i32, minus: i32) -> (i32, i32)
    requires plus { unsigned_abs plus ≤ most_limit }
    requires minus { unsigned_abs minus ≤ most_limit }
    ensures { (result.0 ≡ plus +ℤ minus) × (result.1 ≡ plus -ℤ minus) }
{
    (plus + minus, plus - minus)
}

// Writes the shares of all links to the front of the two lists.
pub fn share_all(
    arcs: &[Arc],
    plus: &[i32; 512],
    minus: &[i32; 512],
    one: &mut [i32],
    two: &mut [i32],
)
    requires few { length arcs.now ≤ most_links }
    requires sound { AllSound arcs.now }
    requires plus { Within limit_of arcs.now plus.now }
    requires minus { Within limit_of arcs.now minus.now }
    requires ones { length arcs.now ≤ length one.old }
    requires twos { length arcs.now ≤ length two.old }
    ensures shares { Halved (length arcs.now) plus.now minus.now one.new two.new }
    ensures beyond_one { drop (length arcs.now) one.new ≡ drop (length arcs.now) one.old }
    ensures beyond_two { drop (length arcs.now) two.new ≡ drop (length arcs.now) two.old }
{
    // Kept: the loop writes one place of two lists; after `iter_mut` under a zip nothing is known of them, and a pass for each list is no plainer.
    for i in 0..arcs.len() {
        let (first, second) = share(plus[i], minus[i]);
        one[i] = first;
        two[i] = second;
    }
}
