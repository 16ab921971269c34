ghost use Rattle.std.specs.Prelude.{Some};
ghost use Rattle.meshes.specs.Tellings.{refusal_text};

use std::fmt;

// A refused proposal: the fault's number and place.
#[derive(Clone, Copy, Debug, PartialEq, Eq)]
pub struct Refusal {
    pub number: u8,
    pub place: u32,
}

impl fmt::Display for Refusal {
    ghost output = { λ refusal. Some (refusal_text refusal) };

    fn fmt<W: fmt::Write>(&self, f: &mut fmt::Formatter<W>) -> fmt::Result {
        write!(f, "{} at {}", self.number, self.place)
    }
}
