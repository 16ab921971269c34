ghost use Rattle.std.specs.Prelude.{◌≡◌};
ghost use Rattle.mesh.specs.Links.{between, low_of, high_of, capacity_of};

use flow::edge::Edge;

// A link as the book's list holds it: plain numbers. A cabinet is a number below 64,
// and slots are the shares of radio time that a link has to give.
#[derive(Clone, Copy, Debug, PartialEq, Eq)]
pub struct Row {
    pub low: u8,
    pub high: u8,
    pub slots: u32,
}

impl Row {
    // The row between two cabinets, the lower first.
    pub fn between(one: u8, other: u8, slots: u32) -> Row
        ensures { result ≡ between one other slots }
    {
        Row {
            low: one.min(other),
            high: one.max(other),
            slots,
        }
    }
}

impl Edge for Row {
    ghost low = { low_of };

    ghost high = { high_of };

    ghost capacity = { capacity_of };

    fn low(&self) -> u8 {
        self.low
    }

    fn high(&self) -> u8 {
        self.high
    }

    fn capacity(&self) -> u32 {
        self.slots
    }
}
