// The two streams, which are asked for by the numbers 1 and 2.
ghost use Rattle.flow.specs.Streams.{Named};

#[derive(Clone, Copy, Debug, PartialEq, Eq)]
pub enum Stream {
    One,
    Two,
}

// A number that no stream has.
#[derive(Clone, Copy, Debug, PartialEq, Eq)]
pub struct NoStream(pub u8);

impl TryFrom<u8> for Stream {
    type Error = NoStream;

    ghost try_from_gives = { Named };

    fn try_from(number: u8) -> Result<Stream, NoStream> {
        match number {
            1 => Ok(Stream::One),
            2 => Ok(Stream::Two),
            _ => Err(NoStream(number)),
        }
    }
}
