ghost use Rattle.std.specs.Prelude.{◌≡◌};
ghost use Rattle.orders.specs.Meanings.{Decoded, asked};
ghost use Rattle.orders.specs.Readings.{item};

use crate::kind::Kind;
use crate::record::Record;
use flow::pairs::Pairs;

// What a record asks of the book.
#[derive(Clone, Copy)]
pub enum Order {
    Add { one: u8, other: u8, slots: u32 },
    Resize { link: u16, slots: u32 },
    Drop { link: u16 },
    Name(Pairs),
    Draw,
}

impl Order {
    // The kind of record that asks for it.
    pub fn kind(&self) -> Kind
        ensures { result ≡ asked self.now }
    {
        match self {
            Order::Add { .. } => Kind::Lk,
            Order::Resize { .. } => Kind::Sz,
            Order::Drop { .. } => Kind::Dr,
            Order::Name(_) => Kind::St,
            Order::Draw => Kind::Pl,
        }
    }
}

impl Record<'_> {
    // The record's order, or none for a body that is not of the kind's length.
    pub fn order(&self) -> Option<Order>
        ensures { Decoded (item self.now) result }
    {
        match *self {
            Record::Lk(&[one, other, a, b, c, d]) => Some(Order::Add {
                one,
                other,
                slots: u32::from_be_bytes([a, b, c, d]),
            }),
            Record::Sz(&[i, j, a, b, c, d]) => Some(Order::Resize {
                link: u16::from_be_bytes([i, j]),
                slots: u32::from_be_bytes([a, b, c, d]),
            }),
            Record::Dr(&[i, j]) => Some(Order::Drop {
                link: u16::from_be_bytes([i, j]),
            }),
            Record::St(&[source1, goal1, source2, goal2]) => Some(Order::Name(Pairs {
                source1,
                goal1,
                source2,
                goal2,
            })),
            Record::Pl => Some(Order::Draw),
            _ => None,
        }
    }
}
