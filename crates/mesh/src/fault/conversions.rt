// Faults of the layers below, as a call is refused with them.
ghost use Rattle.std.specs.Prelude.{◌≡◌};
ghost use Rattle.mesh.specs.declared.fault.Fault.TheVariants.{Proposal, Sheet};
ghost use Rattle.mesh.specs.declared.fault.Missing.TheVariants as missing;

use crate::fault::{Fault, Missing};
use flow::stream::NoStream;
use plan::flaw::Flaw;

// A flaw of a proposal is what the call is refused for.
impl From<Flaw> for Fault {
    ghost from_gives = { λ flaw fault. fault ≡ Proposal flaw };

    fn from(flaw: Flaw) -> Fault {
        Fault::Proposal(flaw)
    }
}

// What a sheet lacks is what the call is refused for.
impl From<Missing> for Fault {
    ghost from_gives = { λ m fault. fault ≡ Sheet m };

    fn from(missing: Missing) -> Fault {
        Fault::Sheet(missing)
    }
}

// A sheet lacks a stream of a number that no stream has.
impl From<NoStream> for Fault {
    ghost from_gives = { λ _ fault. fault ≡ Sheet missing.Stream };

    fn from(_number: NoStream) -> Fault {
        Fault::Sheet(Missing::Stream)
    }
}
