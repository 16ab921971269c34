ghost use Rattle.std.specs.Prelude.{◌≡◌};
ghost use Rattle.book.specs.Books.{view, Sound};

use crate::book::Book;
use flow::pairs::Pairs;
use mesh::row::Row;

impl Book {
    // The links in order, each of which keeps the rule of a link.
    pub fn links(&self) -> &[Row]
        ensures value { result.now ≡ (view self.now).rows }
        ensures sound { Sound (view self.now) }
    {
        self.ledger.links()
    }

    // The streams' sources and goals, if they are named.
    pub fn pairs(&self) -> Option<Pairs>
        ensures { result ≡ (view self.now).pairs }
    {
        self.ledger.pairs()
    }
}
