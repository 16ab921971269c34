// The two streams' ends: a source with its goal is the stream's pair.
// Ends of different streams may coincide.
ghost use Rattle.std.specs.Prelude.{◌≡◌};
ghost use Rattle.flow.specs.Streams.{pair_of};
ghost use Rattle.flow.specs.Drawings.{turned, ends_of};

use crate::stream::Stream;
use crate::taps::Taps;

#[derive(Clone, Copy, Debug, PartialEq, Eq)]
pub struct Pairs {
    pub source1: u8,
    pub goal1: u8,
    pub source2: u8,
    pub goal2: u8,
}

// The ends of one stream.
#[derive(Clone, Copy, Debug, PartialEq, Eq)]
pub struct Pair {
    pub source: u8,
    pub goal: u8,
}

impl Pairs {
    // The ends of a stream.
    pub fn of(self, stream: Stream) -> Pair
        ensures { result ≡ pair_of self stream }
    {
        match stream {
            Stream::One => Pair {
                source: self.source1,
                goal: self.goal1,
            },
            Stream::Two => Pair {
                source: self.source2,
                goal: self.goal2,
            },
        }
    }

    // Stream 2 the other way round.
    pub fn turned(self) -> Pairs
        ensures { result ≡ turned self }
    {
        Pairs {
            source2: self.goal2,
            goal2: self.source2,
            ..self
        }
    }

    // The cabinets of a job for both streams: a stream is fed at its source and drained at its goal.
    pub fn ends(self) -> Taps<u8>
        ensures { result ≡ ends_of self }
    {
        Taps {
            feed1: self.source1,
            feed2: self.source2,
            drain1: self.goal1,
            drain2: self.goal2,
        }
    }
}
