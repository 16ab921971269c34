ghost use Rattle.std.specs.Prelude.{◌≡◌, ◌++◌, Some, string_bytes, OnOk};
ghost use Rattle.orders.specs.Lines.{spelled, ended};

use crate::kind::Kind;
use crate::record::RecordFault;
use mesh::fault::Fault;
use sheet::answers::Totals;
use std::alloc::AllocError;
use std::fmt;

// The most bytes that an order file may have.
pub const MOST_BYTES: usize = 65_536;

// What is told of an order, or of the whole file where a run ends.
#[derive(Clone, Copy)]
pub enum Line {
    // The order was carried out.
    Done {
        order: usize,
        kind: Kind,
    },
    // The order was refused; its record begins at this place of the file.
    Refused {
        order: usize,
        kind: Kind,
        fault: Fault,
        at: usize,
    },
    // A plan was drawn and is held, with these totals.
    Planned {
        order: usize,
        totals: Totals,
    },
    // The file was read to its end.
    End {
        orders: usize,
    },
    // No record can be read at this place.
    Unread {
        fault: RecordFault,
        at: usize,
    },
    // The file has more bytes than an order file may have.
    TooLong,
}

impl fmt::Display for Line {
    ghost output = { λ line. Some (spelled line) };

    fn fmt<W: fmt::Write>(&self, f: &mut fmt::Formatter<W>) -> fmt::Result {
        match *self {
            Line::Done { order, kind } => { write!(f, "{order} {kind} ok") }
            Line::Refused {
                order,
                kind,
                fault,
                at,
            } => {
                let number = fault.number();
                let layer = fault.layer();
                write!(f, "{order} {kind} {number} at {at} {layer}")
            }
            Line::Planned { order, totals } => { write!(f, "{order} PL ok {totals}") }
            Line::End { orders } => write!(f, "end {orders}"),
            Line::Unread { fault, at } => {
                let number = fault.number();
                write!(f, "fault {number} at {at} record")
            }
            Line::TooLong => {
                let at = MOST_BYTES;
                write!(f, "fault 13 at {at} program")
            }
        }
    }
}

impl Line {
    // Writes the line to the end of a text, and a line feed after it.
    pub fn put(self, text: &mut String) -> Result<(), AllocError>
        ensures { OnOk result (string_bytes text.new ≡ string_bytes text.old ++ ended self) }
    {
        writeln!(text, "{self}")
    }
}
