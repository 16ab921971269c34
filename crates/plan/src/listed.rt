// A plan, drawn or proposed, as lists.
ghost use Rattle.std.specs.Prelude.{◌≡◌};
ghost use Rattle.plan.specs.Listed.{shares_of};

use flow::pairs::Pairs;
use flow::stream::Stream;

// The streams' pairs, each link's shares of streams one and two, and two sides:
// the cut, which is to show the sum best, and the first side, which is to show total one best.
#[derive(Clone, Copy)]
pub struct Plan<'a> {
    pub pairs: Pairs,
    pub one: &'a [i32],
    pub two: &'a [i32],
    pub cut: &'a [bool],
    pub first: &'a [bool],
}

impl<'a> Plan<'a> {
    // The shares of one stream.
    pub fn shares(&self, stream: Stream) -> &'a [i32]
        ensures { result.now ≡ shares_of stream self.now.one.now self.now.two.now }
    {
        match stream {
            Stream::One => self.one,
            Stream::Two => self.two,
        }
    }
}
