ghost use Rattle.std.specs.Prelude.{◌≡◌};
ghost use Rattle.mesh.specs.Links.{bad_slots};
ghost use Rattle.mesh.specs.Made.{Makes, as_row};

use crate::fault::Fault;
use crate::link::Link;
use crate::row::Row;
use flow::ranges::{CABINETS, MOST_SLOTS};

// The highest number of a cabinet.
pub const LAST_CABINET: u8 = CABINETS - 1;

// Whether a link cannot have so many slots.
pub fn bad_slots(slots: u32) -> bool
    ensures { result ≡ bad_slots slots }
{
    slots % 2 != 0 || slots > MOST_SLOTS
}

// The link that a row stands for, or the first part of the rule that it breaks.
impl TryFrom<Row> for Link {
    type Error = Fault;

    ghost try_from_gives = { Makes };

    fn try_from(row: Row) -> Result<Link, Fault> {
        if row.high > LAST_CABINET {
            return Err(Fault::Cabinet);
        }
        if row.low >= row.high {
            return Err(Fault::Ends);
        }
        if bad_slots(row.slots) {
            return Err(Fault::Slots);
        }
        Ok(Link {
            low: row.low,
            high: row.high,
            slots: row.slots,
        })
    }
}

// The link's numbers.
impl From<Link> for Row {
    ghost from_gives = { λ link row. row ≡ as_row link };

    fn from(link: Link) -> Row {
        Row {
            low: link.low,
            high: link.high,
            slots: link.slots,
        }
    }
}
