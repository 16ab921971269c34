// The shares of two streams on one link.
ghost use Rattle.std.specs.Prelude.{◌≡◌};
ghost use Rattle.flow.specs.Tests.{shares_fit};

use crate::edge::Edge;

// Whether the two shares without sign add up to at most the link's slots.
pub fn fit<E: Edge>(link: &E, one: i32, two: i32) -> bool
    ensures { result ≡ shares_fit E.Edge.capacity link.now one two }
{
    u64::from(one.unsigned_abs()) + u64::from(two.unsigned_abs()) <= u64::from(link.capacity())
}
