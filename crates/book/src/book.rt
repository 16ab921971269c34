ghost use Rattle.book.specs.History.{Past};
ghost use Rattle.book.specs.Ledgers.{seen};

use crate::ledger::Ledger;

// A book: what it holds was reached by calls alone.
#[derive(Drop)]
pub struct Book {
    ledger: Ledger,
    ghost reached: { ∥ Past (seen ledger) ∥₁ },
}

pub mod calls;
pub mod plans;
pub mod reads;
pub mod sheets;
