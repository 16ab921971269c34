// A linear congruential generator.
ghost use Rattle.std.specs.Prelude.{◌≡◌, ◌+◌, ◌/◌, ◌%◌, ◌^◌, ◌≤◌};
ghost use Rattle.samples.specs.Randoms.{following};

#[derive(Clone, Copy)]
pub struct Random {
    pub state: u64,
}

impl Random {
    // The next number, which is at most `most`.
    pub fn up_to(&mut self, most: u32) -> u32
        ensures state { self.new.state ≡ following self.old.state }
        ensures number { result ≡ (following self.old.state / 2 ^ 33) % (most + 1) }
        ensures bound { result ≤ most }
    {
        self.state = self
            .state
            .wrapping_mul(6364136223846793005)
            .wrapping_add(1442695040888963407);
        ((self.state >> 33) % (most as u64 + 1)) as u32
    }
}
