// Links of every kind.
ghost use Rattle.std.specs.Prelude.{◌≡◌, ℕ, ◌==◌, if◌then◌else◌};

// The two cabinets that a link joins. (A cabinet is a node of the mesh, numbered below 64.)
#[derive(Clone, Copy)]
pub struct Ends {
    pub first: u8,
    pub second: u8,
}

impl Ends {
    // The end that is not the cabinet `at`.
    pub fn other(self, at: u8) -> u8
        ensures { result ≡ (if self.first == at then self.second else self.first) }
    {
        if self.first == at {
            self.second
        } else {
            self.first
        }
    }
}

// The ends in the order of the pair.
impl From<(u8, u8)> for Ends {
    ghost from_gives = { λ pair ends. (ends.first ≡ pair.0) × (ends.second ≡ pair.1) };

    fn from(pair: (u8, u8)) -> Ends {
        let (first, second) = pair;
        Ends { first, second }
    }
}

// What joins two cabinets. `none` is any value of the type, which stands where a list has no link.
pub trait Joins {
    ghost first: { Self → ℕ };

    ghost second: { Self → ℕ };

    ghost none: { Self };

    fn ends(&self) -> Ends
        ensures first { result.first ≡ first self.now }
        ensures second { result.second ≡ second self.now };
}

// A pair of ends joins them.
impl Joins for Ends {
    ghost first = { λ e. e.first };

    ghost second = { λ e. e.second };

    ghost none = { record { first = 0; second = 0 } };

    fn ends(&self) -> Ends {
        *self
    }
}
