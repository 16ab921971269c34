use mesh::fault::Fault;

// An outage trial that stands: the link that is out, and the slots that it had before.
#[derive(Clone, Copy, Debug, PartialEq, Eq)]
pub struct Trial {
    pub link: u16,
    pub slots: u32,
}

// What a trial hands out, with the numbers of the trial. It cannot be let go: `close` takes it.
pub struct Receipt {
    pub(crate) trial: Trial,
}

// A close that was refused: the receipt comes back with the reason.
pub struct Refused {
    pub receipt: Receipt,
    pub fault: Fault,
}

pub mod spending;
