// A job for an engine: links with limits, and two feeds and two drains, each a cabinet with a limit.
ghost use Rattle.std.specs.Prelude.{◌≤◌, length};
ghost use Rattle.flow.specs.Ranges.{cabinets, most_links};
ghost use Rattle.flow.specs.Answers.{Placed};
ghost use Rattle.engine.specs.Arcs.{AllSound, Limited};
ghost use Rattle.engine.specs.Lists.{listed};

use flow::taps::Taps;
use links::Links;

mod calls;
mod links;

// The cabinets may coincide, and so may the ends of several links.
#[derive(Clone, Copy)]
pub struct Job<'a> {
    links: Links<'a>,
    at: Taps<u8>,
    most: Taps<u32>,
    ghost few: { length (listed links) ≤ most_links },
    ghost sound: { AllSound (listed links) },
    ghost placed: { Placed cabinets at },
    ghost limited: { Limited most },
}
