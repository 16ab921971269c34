// A job's links, for an index of incident links.
ghost use Rattle.engine.specs.Arcs.{blank, tail_of, head_of};

use crate::arc::Arc;
use search::links::{Ends, Joins};

impl Joins for Arc {
    ghost first = { tail_of };

    ghost second = { head_of };

    ghost none = { blank };

    fn ends(&self) -> Ends {
        Ends {
            first: self.tail,
            second: self.head,
        }
    }
}
