#![tactic(auto, using(crate::proofs::Pasts::then, crate::proofs::Pasts::stays))]

ghost use Rattle.std.specs.Prelude.{◌≡◌, IfOk};
ghost use Rattle.book.specs.History.{Step, Stays, opened};
ghost use Rattle.book.specs.History.Call.{Add, Resize, Drop, Name, Begin, Close};
ghost use Rattle.book.specs.Books.{view};
ghost use Rattle.book.specs.Receipts.{begun, closed, trial_of, Received, HandedBack};

use crate::book::Book;
use crate::ledger::Ledger;
use crate::trial::{Receipt, Refused};
use flow::pairs::Pairs;
use mesh::fault::Fault;
use std::alloc::{AllocError, Global};

// Kept: what a refusal leaves is a promise of each call and no fact about a value, so each contract says it.
impl Book {
    // An empty book, with all the memory that it will need.
    pub fn open(heap: Global) -> Result<Book, AllocError>
        ensures { IfOk result (λ b. view b ≡ opened) }
    {
        let ledger = Ledger::open(heap)?;
        Ok(Book { ledger })
    }

    // Adds a link between two cabinets. It becomes the last.
    pub fn add(&mut self, one: u8, other: u8, slots: u32) -> Result<(), Fault>
        ensures step { Step (view self.old) (Add one other slots) result (view self.new) }
        ensures stays { Stays result self.old self.new }
    {
        self.ledger.add(one, other, slots)
    }

    // Gives a link other slots.
    pub fn resize(&mut self, link: u16, slots: u32) -> Result<(), Fault>
        ensures step { Step (view self.old) (Resize link slots) result (view self.new) }
        ensures stays { Stays result self.old self.new }
    {
        self.ledger.resize(link, slots)
    }

    // Drops a link. The numbers above it fall by one.
    pub fn drop_link(&mut self, link: u16) -> Result<(), Fault>
        ensures step { Step (view self.old) (Drop link) result (view self.new) }
        ensures stays { Stays result self.old self.new }
    {
        self.ledger.drop_link(link)
    }

    // Names the sources and goals of the two streams.
    pub fn name(&mut self, pairs: Pairs) -> Result<(), Fault>
        ensures step { Step (view self.old) (Name pairs) result (view self.new) }
        ensures stays { Stays result self.old self.new }
    {
        self.ledger.name(pairs)
    }

    // Begins an outage trial on a link: its slots become 0. The receipt has the link and its former slots.
    pub fn begin(&mut self, link: u16) -> Result<Receipt, Fault>
        ensures step { Step (view self.old) (Begin link) (begun result) (view self.new) }
        ensures receipt { Received link (view self.old) result }
        ensures stays { Stays (begun result) self.old self.new }
    {
        self.ledger.begin(link)
    }

    // Closes the trial of a receipt: the slots are put back. A refused close hands the receipt back.
    pub fn close(&mut self, receipt: Receipt) -> Result<(), Refused>
        ensures step { Step (view self.old) (Close (trial_of receipt)) (closed result) (view self.new) }
        ensures receipt { HandedBack receipt result }
        ensures stays { Stays (closed result) self.old self.new }
    {
        self.ledger.close(receipt)
    }
}
