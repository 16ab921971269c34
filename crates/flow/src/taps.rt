// A value for each of the two feeds and the two drains of a job: their cabinets, their limits or their amounts.
ghost use Rattle.std.specs.Prelude.{◌≡◌, true, false, ◌⊎◌};
ghost use Rattle.flow.specs.Drawings.{both_of};

#[derive(Clone, Copy)]
pub struct Taps<T> {
    pub feed1: T,
    pub feed2: T,
    pub drain1: T,
    pub drain2: T,
}

impl<T: Copy> Taps<T> {
    // Whether all four pass a test.
    pub fn all<F: Fn(T) -> bool>(self, test: F) -> bool
        requires { F.IsAlwaysCallable test }
        ensures passed { result ≡ true → F.post test self.feed1 true × F.post test self.feed2 true × F.post test self.drain1 true × F.post test self.drain2 true }
        ensures failed { result ≡ false → F.post test self.feed1 false ⊎ F.post test self.feed2 false ⊎ F.post test self.drain1 false ⊎ F.post test self.drain2 false }
    {
        test(self.feed1) && test(self.feed2) && test(self.drain1) && test(self.drain2)
    }
}

impl Taps<u32> {
    // The limits of a job of stream 1 up to `x` and stream 2 up to `y`.
    pub fn both(x: u32, y: u32) -> Taps<u32>
        ensures { result ≡ both_of x y }
    {
        Taps {
            feed1: x,
            feed2: y,
            drain1: x,
            drain2: y,
        }
    }
}
