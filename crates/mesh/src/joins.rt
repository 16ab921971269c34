// A book's links, for an index of incident links.
// Kept: `flow` and `search` know nothing of one another, so a row is a link of both kinds.
ghost use Rattle.mesh.specs.Links.{blank, low_of, high_of};

use crate::row::Row;
use search::links::{Ends, Joins};

impl Joins for Row {
    ghost first = { low_of };

    ghost second = { high_of };

    ghost none = { blank };

    fn ends(&self) -> Ends {
        Ends {
            first: self.low,
            second: self.high,
        }
    }
}
