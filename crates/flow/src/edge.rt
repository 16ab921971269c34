// A link of any type: its two ends, which are cabinets, and its number of slots or its limit.
ghost use Rattle.std.specs.Prelude.{◌≡◌, ℕ};

pub trait Edge {
    ghost low: { Self → ℕ };

    ghost high: { Self → ℕ };

    ghost capacity: { Self → ℕ };

    fn low(&self) -> u8
        ensures { result ≡ low self.now };

    fn high(&self) -> u8
        ensures { result ≡ high self.now };

    fn capacity(&self) -> u32
        ensures { result ≡ capacity self.now };
}
