// Every refusal of add, resize, drop, name and draw while no trial stands, and what is just taken.
use crate::call::{Call, Drawer, ends};
use crate::telling::play;
use book::book::Book;
use std::io;

fn refuse_adds(rt: &HostRuntime, book: &mut Book) -> io::Result<()> {
    println!(rt; "# links")?;
    play(
        rt,
        book,
        &[
            Call::Add(0, 64, 2),
            Call::Add(64, 64, 3),
            Call::Add(5, 5, 3),
            Call::Add(0, 63, 3),
            Call::Add(0, 63, 1_048_578),
            Call::Add(0, 63, 1_048_576),
            Call::Add(63, 0, 2),
            Call::Add(1, 0, 0),
        ],
    )
}

fn refuse_changes(rt: &HostRuntime, book: &mut Book) -> io::Result<()> {
    println!(rt; "# changes of links")?;
    play(
        rt,
        book,
        &[
            Call::Resize(2, 3),
            Call::Resize(2, 4),
            Call::Resize(1, 1_048_578),
            Call::Resize(1, 8),
            Call::DropLink(2),
            Call::DropLink(65_535),
            Call::DropLink(0),
            Call::DropLink(1),
        ],
    )
}

fn refuse_names(rt: &HostRuntime, book: &mut Book) -> io::Result<()> {
    println!(rt; "# streams and draws")?;
    play(
        rt,
        book,
        &[
            Call::Draw(Drawer::Augmenting),
            Call::Draw(Drawer::TrimOverPreflow),
            Call::Name(ends(0, 1, 2, 64)),
            Call::Name(ends(64, 64, 2, 3)),
            Call::Name(ends(0, 0, 2, 3)),
            Call::Name(ends(0, 1, 3, 3)),
            Call::Name(ends(0, 1, 1, 0)),
            Call::Draw(Drawer::Augmenting),
            Call::Name(ends(0, 1, 0, 0)),
            Call::Draw(Drawer::TrimOverPreflow),
        ],
    )
}

// Fills a book with links on different pairs of cabinets, and tries one more.
fn fill(rt: &HostRuntime) -> io::Result<()> {
    println!(rt; "# a full book")?;
    let mut book = Book::open(rt.alloc())?;
    for high in 1..33u8 {
        for low in 0..high {
            let _ = book.add(low, high, 2);
        }
    }
    println!(rt; "  {} links", book.links().len())?;
    play(
        rt,
        &mut book,
        &[
            Call::Add(0, 33, 2),
            Call::Add(1, 33, 3),
            Call::Add(0, 1, 2),
            Call::DropLink(511),
            Call::Add(0, 33, 2),
        ],
    )
}

pub(crate) fn run(rt: &HostRuntime) -> io::Result<()> {
    let mut book = Book::open(rt.alloc())?;
    refuse_adds(rt, &mut book)?;
    refuse_changes(rt, &mut book)?;
    refuse_names(rt, &mut book)?;
    fill(rt)
}
