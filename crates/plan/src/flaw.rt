// Why a proposed plan is not taken.
ghost use Rattle.std.specs.Prelude.{◌≡◌};
ghost use Rattle.plan.specs.Flaws.{number, place};

#[derive(Clone, Copy, Debug, PartialEq, Eq)]
pub enum Flaw {
    // a share list is not as long as the links, or a side list not 64
    Lengths,
    // the shares of this link are above its slots
    Over(u16),
    // the net of this cabinet is not 0
    Broken(u8),
    // the cut is no sum side
    SumSide,
    // the first side is none
    FirstSide,
    // the sum is not the cut's slots
    Sum,
    // total 1 is not the first side's slots
    First,
}

// Kept: `number` and `place` say which number is meant, which conversions would not.
impl Flaw {
    // The number by which the flaw is reported.
    pub fn number(self) -> u8
        ensures { result ≡ number self }
    {
        match self {
            Flaw::Lengths => 41,
            Flaw::Over(_) => 42,
            Flaw::Broken(_) => 43,
            Flaw::SumSide | Flaw::FirstSide => 44,
            Flaw::Sum => 45,
            Flaw::First => 46,
        }
    }

    // Where in the proposal it lies.
    pub fn place(self) -> u32
        ensures { result ≡ place self }
    {
        match self {
            Flaw::Over(link) => u32::from(link),
            Flaw::Broken(cabinet) => u32::from(cabinet),
            Flaw::SumSide => 1,
            Flaw::FirstSide => 2,
            Flaw::Lengths | Flaw::Sum | Flaw::First => 0,
        }
    }
}
