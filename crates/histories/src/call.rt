// The calls of a history, but for begin and close, whose receipt stays with the caller.
ghost use Rattle.std.specs.Prelude.{◌≡◌};
ghost use Rattle.book.specs.Books.{view};
ghost use Rattle.book.specs.History.{Step};
ghost use Rattle.book.specs.History.Call.{Draw};

use augmenting::augmenting::Augmenting;
use book::book::Book;
use engine::trim::Trim;
use flow::pairs::Pairs;
use mesh::fault::Fault;
use mesh::row::Row;
use preflow::preflow::Preflow;
use std::alloc::{AllocError, Global};
use std::fmt;

// The engines that a plan is drawn with.
#[derive(Clone, Copy)]
pub(crate) enum Drawer {
    Augmenting,
    TrimOverAugmenting,
    Preflow,
    TrimOverPreflow,
}

// Kept: an order of a file draws with the engine of its run, and a call here names one.
#[derive(Clone, Copy)]
pub(crate) enum Call {
    Add(u8, u8, u32),
    Resize(u16, u32),
    DropLink(u16),
    Name(Pairs),
    Draw(Drawer),
}

impl fmt::Display for Drawer {
    fn fmt<W: fmt::Write>(&self, f: &mut fmt::Formatter<W>) -> fmt::Result {
        f.write_str(match self {
            Drawer::Augmenting => "augmenting paths",
            Drawer::TrimOverAugmenting => "Trim over augmenting paths",
            Drawer::Preflow => "preflow",
            Drawer::TrimOverPreflow => "Trim over preflow",
        })
    }
}

impl fmt::Display for Call {
    fn fmt<W: fmt::Write>(&self, f: &mut fmt::Formatter<W>) -> fmt::Result {
        match *self {
            Call::Add(one, other, slots) => write!(f, "add {one}-{other}:{slots}"),
            Call::Resize(link, slots) => write!(f, "resize {link} to {slots}"),
            Call::DropLink(link) => write!(f, "drop {link}"),
            Call::Name(pairs) => write!(
                f,
                "name {}->{} {}->{}",
                pairs.source1, pairs.goal1, pairs.source2, pairs.goal2
            ),
            Call::Draw(drawer) => write!(f, "draw with {drawer}"),
        }
    }
}

// The streams' ends: stream one's source and goal, then stream two's.
// Kept: two programs have this shorthand; a public one would give up the names that keep the four numbers apart.
pub(crate) fn ends(source1: u8, goal1: u8, source2: u8, goal2: u8) -> Pairs {
    Pairs {
        source1,
        goal1,
        source2,
        goal2,
    }
}

// Draws with one of the engines.
// Kept: the engines are of different types, and a call of a history is data that is printed, so the choice is a value.
pub(crate) fn draw(book: &mut Book, drawer: Drawer) -> Result<(), Fault>
    ensures { Step (view book.old) Draw result (view book.new) }
{
    match drawer {
        Drawer::Augmenting => book.draw(&mut Augmenting),
        Drawer::TrimOverAugmenting => book.draw(&mut Trim { below: Augmenting }),
        Drawer::Preflow => book.draw(&mut Preflow),
        Drawer::TrimOverPreflow => book.draw(&mut Trim { below: Preflow }),
    }
}

// Makes the call on the book. None of these calls begins or closes a trial.
// Kept: here and in what prints calls, that a trial stays is a promise of each function and no fact about a book.
pub(crate) fn make(book: &mut Book, call: Call) -> Result<(), Fault>
    ensures { (view book.new).trial ≡ (view book.old).trial }
{
    match call {
        Call::Add(one, other, slots) => book.add(one, other, slots),
        Call::Resize(link, slots) => book.resize(link, slots),
        Call::DropLink(link) => book.drop_link(link),
        Call::Name(pairs) => book.name(pairs),
        Call::Draw(drawer) => draw(book, drawer),
    }
}

// A new book with these links and pairs.
pub(crate) fn book_of(heap: Global, links: &[Row], pairs: Pairs) -> Result<Book, AllocError> {
    let mut book = Book::open(heap)?;
    for link in links {
        let _ = book.add(link.low, link.high, link.slots);
    }
    let _ = book.name(pairs);
    Ok(book)
}
