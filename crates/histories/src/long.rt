// One long history of a book, with draws in between, and after each call what the book holds.
use crate::call::{Call, Drawer, ends};
use crate::proposals::{plan, propose, side};
use crate::telling::{play, print_held};
use crate::trials::{begin, close};
use book::book::Book;
use std::io;

// A trunk grows, gets a way around it, and shrinks again.
fn grow(rt: &HostRuntime, book: &mut Book) -> io::Result<()> {
    play(
        rt,
        book,
        &[
            Call::Add(0, 4, 6),
            Call::Add(4, 5, 8),
            Call::Add(1, 5, 6),
            Call::Add(2, 4, 6),
            Call::Add(3, 5, 6),
            Call::Draw(Drawer::Augmenting),
            Call::Name(ends(0, 1, 2, 3)),
            Call::Draw(Drawer::TrimOverAugmenting),
            Call::Resize(1, 20),
            Call::Draw(Drawer::Preflow),
            Call::Add(1, 0, 4),
            Call::Add(0, 1, 4),
            Call::Draw(Drawer::TrimOverPreflow),
            Call::Name(ends(0, 1, 3, 2)),
            Call::Draw(Drawer::Augmenting),
            Call::Resize(1, 8),
            Call::Draw(Drawer::Preflow),
        ],
    )
}

// A plan made by hand, once wrong and once right.
fn admit(rt: &HostRuntime, book: &mut Book) -> io::Result<()> {
    let one = [6, 6, -6, 0, 0, 4];
    let cut = side(&[0, 2, 4]);
    let first = side(&[0]);
    let too_much = plan(&one, &[0, -4, 0, -4, 4, 0], &cut, &first);
    propose(rt, book, "by hand, too much of stream two", too_much)?;
    let right = plan(&one, &[0, -2, 0, -2, 2, 0], &cut, &first);
    propose(rt, book, "by hand", right)?;
    print!(rt; "  held: ")?;
    print_held(rt, book)
}

// The way around the trunk is out for a while.
fn try_out(rt: &HostRuntime, book: &mut Book) -> io::Result<()> {
    println!(rt; "  a trial of link 5")?;
    match begin(book, 5) {
        Ok(receipt) => {
            let played = play(
                rt,
                book,
                &[
                    Call::Draw(Drawer::Augmenting),
                    Call::Resize(5, 4),
                    Call::Add(0, 5, 2),
                    Call::DropLink(0),
                    Call::Name(ends(0, 1, 2, 3)),
                    Call::Draw(Drawer::TrimOverPreflow),
                ],
            );
            close(book, receipt);
            played?;
            println!(rt; "  the trial is closed")
        }
        Err(fault) => println!(rt; "{fault}"),
    }
}

// The trunk is dropped and added again, as the last link.
fn replace(rt: &HostRuntime, book: &mut Book) -> io::Result<()> {
    play(
        rt,
        book,
        &[
            Call::Draw(Drawer::TrimOverAugmenting),
            Call::DropLink(1),
            Call::Draw(Drawer::Preflow),
            Call::DropLink(5),
            Call::Add(5, 4, 8),
            Call::Draw(Drawer::Augmenting),
            Call::Resize(5, 0),
            Call::Draw(Drawer::TrimOverPreflow),
            Call::Resize(4, 1_048_576),
            Call::Draw(Drawer::Augmenting),
            Call::Name(ends(0, 1, 0, 1)),
            Call::Draw(Drawer::Preflow),
            Call::Name(ends(4, 5, 4, 5)),
            Call::Draw(Drawer::TrimOverAugmenting),
            Call::Resize(5, 8),
            Call::Draw(Drawer::Preflow),
        ],
    )
}

// Every link is dropped.
fn empty(rt: &HostRuntime, book: &mut Book) -> io::Result<()> {
    play(
        rt,
        book,
        &[
            Call::DropLink(0),
            Call::DropLink(0),
            Call::DropLink(3),
            Call::Draw(Drawer::Augmenting),
            Call::DropLink(2),
            Call::DropLink(1),
            Call::DropLink(0),
            Call::DropLink(0),
            Call::Draw(Drawer::TrimOverPreflow),
        ],
    )
}

pub(crate) fn run(rt: &HostRuntime) -> io::Result<()> {
    println!(rt; "# a long history")?;
    let mut book = Book::open(rt.alloc())?;
    grow(rt, &mut book)?;
    admit(rt, &mut book)?;
    try_out(rt, &mut book)?;
    replace(rt, &mut book)?;
    empty(rt, &mut book)
}
