ghost use Rattle.std.specs.Prelude.{◌≡◌, [], ◌∷◌, Some};
ghost use Rattle.orders.specs.Lines.{mark_text};
ghost use Rattle.orders.specs.Records.{entry};
ghost use Rattle.orders.specs.Readings.{Marked};

use crate::record::RecordFault;
use std::fmt;

// The five kinds of record: add a link, resize it, drop it, name the streams, draw a plan.
#[derive(Clone, Copy, Debug, PartialEq, Eq)]
pub enum Kind {
    Lk,
    Sz,
    Dr,
    St,
    Pl,
}

impl Kind {
    // The two bytes with which a record of this kind begins.
    pub fn mark(self) -> [u8; 2]
        ensures { result ≡ (entry self).first ∷ (entry self).second ∷ [] }
    {
        match self {
            Kind::Lk => *b"LK",
            Kind::Sz => *b"SZ",
            Kind::Dr => *b"DR",
            Kind::St => *b"ST",
            Kind::Pl => *b"PL",
        }
    }

    // How many bytes follow the mark.
    pub fn body_len(self) -> usize
        ensures { result ≡ (entry self).long }
    {
        match self {
            Kind::Lk | Kind::Sz => 6,
            Kind::Dr => 2,
            Kind::St => 4,
            Kind::Pl => 0,
        }
    }
}

// Kept: three matches, here, in `mark` and in what is told, are plainer than a table that is searched.
impl TryFrom<[u8; 2]> for Kind {
    type Error = RecordFault;

    ghost try_from_gives = { Marked };

    // The kind that two bytes are the mark of, if they are one.
    fn try_from(mark: [u8; 2]) -> Result<Kind, RecordFault> {
        match &mark {
            b"LK" => Ok(Kind::Lk),
            b"SZ" => Ok(Kind::Sz),
            b"DR" => Ok(Kind::Dr),
            b"ST" => Ok(Kind::St),
            b"PL" => Ok(Kind::Pl),
            _ => Err(RecordFault::Unknown),
        }
    }
}

// A kind is told by its mark.
impl fmt::Display for Kind {
    ghost output = { λ kind. Some (mark_text kind) };

    fn fmt<W: fmt::Write>(&self, f: &mut fmt::Formatter<W>) -> fmt::Result {
        f.write_str(match self {
            Kind::Lk => "LK",
            Kind::Sz => "SZ",
            Kind::Dr => "DR",
            Kind::St => "ST",
            Kind::Pl => "PL",
        })
    }
}
