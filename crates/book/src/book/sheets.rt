ghost use Rattle.std.specs.Prelude.{◌≡◌};
ghost use Rattle.sheet.specs.Readings.{Answers, Totalled};
ghost use Rattle.sheet.specs.Readings.Request.{Total};
ghost use Rattle.sheet.specs.Sheets.{shown};
ghost use Rattle.book.specs.Books.{view};
ghost use Rattle.book.specs.Law.{EveryPast, HoldsBest};
ghost use Rattle.book.specs.Sheets.{reading};

use crate::book::Book;
use mesh::fault::Fault;
use sheet::answers::Totals;
use sheet::sheet::Sheet;

impl Book {
    // A sheet over the links and the held plan. While it is read, the book cannot change.
    pub fn sheet(&self) -> Sheet<'_>
        ensures { shown result ≡ reading (view self.now) }
    {
        Sheet::new(self.ledger.links(), self.ledger.plan())
    }

    // The totals of the held plan, and why they can be trusted: in every past of a book, after every
    // call, a held plan is best, and sums stay within the slots added and taken.
    pub fn audit(&self) -> Result<Totals, Fault>
        ensures totals { Answers (reading (view self.now)) Total Totalled result }
        ensures past { EveryPast }
        ensures here { ∥ HoldsBest (view self.now) ∥₁ }
    {
        self.sheet().totals()
    }
}
