use plan::flaw::Flaw;

// Why a call is refused.
#[derive(Clone, Copy, Debug, PartialEq, Eq)]
pub enum Fault {
    TrialStands,
    Cabinet,
    Ends,
    Slots,
    Linked,
    Full,
    NoLink,
    Unnamed,
    NoTrial,
    // A proposed plan has a flaw.
    Proposal(Flaw),
    // A sheet lacks what was asked of it.
    Sheet(Missing),
}

// What a sheet lacks: a held plan, the link, the cabinet or the stream that was asked for, or room for a route in the caller's list.
#[derive(Clone, Copy, Debug, PartialEq, Eq)]
pub enum Missing {
    Plan,
    Link,
    Cabinet,
    Stream,
    Room,
}

// The place of check that a fault names.
#[derive(Clone, Copy, Debug, PartialEq, Eq)]
pub enum Layer {
    Order,
    Book,
    Proposal,
    Sheet,
}

mod conversions;
pub mod tell;
