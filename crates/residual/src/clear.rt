// A flow of zeros.
ghost use Rattle.std.specs.Prelude.{◌≡◌, ℕ, ◌<◌, ◌≤◌, drop, pos, slice_index_or};

// Gives the first `count` links flow 0.
pub fn clear(flow: &mut [i32; 512], count: usize)
    requires { count ≤ 512 }
    ensures front { (k : ℕ) → k < count → slice_index_or flow.new k (pos 0) ≡ pos 0 }
    ensures beyond { drop count flow.new ≡ drop count flow.old }
{
    flow[0..count].fill(0);
}
