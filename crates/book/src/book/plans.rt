#![tactic(auto, using(crate::proofs::Pasts::then, crate::proofs::Pasts::stays, crate::proofs::Laws::orderly))]

ghost use Rattle.book.specs.History.{Step, Stays};
ghost use Rattle.book.specs.History.Call.{Draw, Admit};
ghost use Rattle.book.specs.Ledgers.{proposed};
ghost use Rattle.book.specs.Books.{view};

use crate::book::Book;
use crate::proposal::Proposal;
use engine::engine::Engine;
use mesh::fault::Fault;

impl Book {
    // Draws the best plan with an engine and holds it.
    pub fn draw<E: Engine>(&mut self, engine: &mut E) -> Result<(), Fault>
        ensures step { Step (view self.old) Draw result (view self.new) }
        ensures stays { Stays result self.old self.new }
    {
        self.ledger.draw(engine)
    }

    // Holds a proposed plan, if it is feasible here and its two sides show it best.
    pub fn admit(&mut self, proposal: Proposal<'_>) -> Result<(), Fault>
        ensures step { Step (view self.old) (Admit (proposed proposal.entry)) result (view self.new) }
        ensures stays { Stays result self.old self.new }
    {
        self.ledger.admit(proposal)
    }
}
