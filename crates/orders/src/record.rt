ghost use Rattle.std.specs.Prelude.{◌≡◌, length};
ghost use Rattle.orders.specs.Faults.{number as number_of};
ghost use Rattle.orders.specs.Records.{entry};
ghost use Rattle.orders.specs.Readings.{item};

use crate::kind::Kind;

// One record of an order file, with its body as a part of the file.
// Kept: by the project's rule each case holds its part of the file, so the cases repeat the kinds.
#[derive(Clone, Copy)]
pub enum Record<'a> {
    Lk(&'a [u8]),
    Sz(&'a [u8]),
    Dr(&'a [u8]),
    St(&'a [u8]),
    Pl,
}

// Why no record can be read at a place.
#[derive(Clone, Copy, Debug, PartialEq, Eq)]
pub enum RecordFault {
    // One byte is left, or a known mark has too short a body.
    Short,
    // Two or more bytes are left, and the first two are no mark.
    Unknown,
}

// Kept: `number` says which number is meant, which `u8::from` would not.
impl RecordFault {
    // The number under which the fault is reported.
    pub fn number(self) -> u8
        ensures { result ≡ number_of self }
    {
        match self {
            RecordFault::Short => 11,
            RecordFault::Unknown => 12,
        }
    }
}

impl<'a> Record<'a> {
    // The record of a kind with this body.
    pub(crate) fn new(kind: Kind, body: &'a [u8]) -> Record<'a>
        requires { length body.now ≡ (entry kind).long }
        ensures { item result ≡ record { entry = entry kind; body = body.now } }
    {
        match kind {
            Kind::Lk => Record::Lk(body),
            Kind::Sz => Record::Sz(body),
            Kind::Dr => Record::Dr(body),
            Kind::St => Record::St(body),
            Kind::Pl => Record::Pl,
        }
    }

    // The record's kind.
    pub fn kind(&self) -> Kind
        ensures { result ≡ (item self.now).entry.kind }
    {
        match self {
            Record::Lk(_) => Kind::Lk,
            Record::Sz(_) => Kind::Sz,
            Record::Dr(_) => Kind::Dr,
            Record::St(_) => Kind::St,
            Record::Pl => Kind::Pl,
        }
    }
}
