ghost use Rattle.std.specs.Prelude.{◌≡◌, Some};
ghost use Rattle.mesh.specs.Faults.{number, missing_number, place, layer, layer_text, fault_text};

use crate::fault::{Fault, Layer, Missing};
use std::fmt;

// A layer is told by its name.
impl fmt::Display for Layer {
    ghost output = { λ layer. Some (layer_text layer) };

    fn fmt<W: fmt::Write>(&self, f: &mut fmt::Formatter<W>) -> fmt::Result {
        f.write_str(match self {
            Layer::Order => "order",
            Layer::Book => "book",
            Layer::Proposal => "proposal",
            Layer::Sheet => "sheet",
        })
    }
}

// Kept: here and in the crates beside it `number` says which number is meant, which `u8::from` would not.
impl Missing {
    // The number by which a sheet reports what it lacks.
    pub fn number(self) -> u8
        ensures { result ≡ missing_number self }
    {
        match self {
            Missing::Plan => 30,
            Missing::Link => 27,
            Missing::Cabinet => 22,
            Missing::Stream => 32,
            Missing::Room => 31,
        }
    }
}

impl Fault {
    // The number by which the fault is reported.
    pub fn number(self) -> u8
        ensures { result ≡ number self }
    {
        match self {
            Fault::TrialStands => 21,
            Fault::Cabinet => 22,
            Fault::Ends => 23,
            Fault::Slots => 24,
            Fault::Linked => 25,
            Fault::Full => 26,
            Fault::NoLink => 27,
            Fault::Unnamed => 28,
            Fault::NoTrial => 29,
            Fault::Proposal(flaw) => flaw.number(),
            Fault::Sheet(missing) => missing.number(),
        }
    }

    // Where in the caller's request the fault lies.
    pub fn place(self) -> u32
        ensures { result ≡ place self }
    {
        match self {
            Fault::TrialStands
            | Fault::Cabinet
            | Fault::Ends
            | Fault::Slots
            | Fault::Linked
            | Fault::Full
            | Fault::NoLink
            | Fault::Unnamed
            | Fault::NoTrial
            | Fault::Sheet(_) => 0,
            Fault::Proposal(flaw) => flaw.place(),
        }
    }

    // The layer that found it.
    pub fn layer(self) -> Layer
        ensures { result ≡ layer self }
    {
        match self {
            Fault::Cabinet | Fault::Ends | Fault::Slots => Layer::Order,
            Fault::TrialStands
            | Fault::Linked
            | Fault::Full
            | Fault::NoLink
            | Fault::Unnamed
            | Fault::NoTrial => Layer::Book,
            Fault::Proposal(_) => Layer::Proposal,
            Fault::Sheet(_) => Layer::Sheet,
        }
    }
}

// A fault is told by its number, its place and its layer.
impl fmt::Display for Fault {
    ghost output = { λ fault. Some (fault_text fault) };

    fn fmt<W: fmt::Write>(&self, f: &mut fmt::Formatter<W>) -> fmt::Result {
        write!(f, "{} at {} {}", self.number(), self.place(), self.layer())
    }
}
