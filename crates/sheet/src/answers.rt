ghost use Rattle.std.specs.Prelude.{Some};
ghost use Rattle.sheet.specs.Tellings.{shares_text, totals_text};

use std::fmt;

// The totals of a plan: both streams' together, and each stream's.
#[derive(Clone, Copy, Debug, PartialEq, Eq)]
pub struct Totals {
    pub sum: i64,
    pub one: i64,
    pub two: i64,
}

// The sum, and then each stream's total.
impl fmt::Display for Totals {
    ghost output = { λ totals. Some (totals_text totals) };

    fn fmt<W: fmt::Write>(&self, f: &mut fmt::Formatter<W>) -> fmt::Result {
        let Totals { sum, one, two } = *self;
        write!(f, "{sum} {one} {two}")
    }
}

// What a link carries of each stream, positive from its lower cabinet to its higher.
#[derive(Clone, Copy, Debug, PartialEq, Eq)]
pub struct Shares {
    pub one: i32,
    pub two: i32,
}

// Stream one's share, and then stream two's.
impl fmt::Display for Shares {
    ghost output = { λ shares. Some (shares_text shares) };

    fn fmt<W: fmt::Write>(&self, f: &mut fmt::Formatter<W>) -> fmt::Result {
        write!(f, "{} {}", self.one, self.two)
    }
}

// The two sides that a plan is held with: its cut, and the side that bounds stream one.
#[derive(Clone, Copy, Debug, PartialEq, Eq)]
pub enum Side {
    Cut,
    First,
}
