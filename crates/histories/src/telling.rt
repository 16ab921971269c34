// Printing calls, answers and what a book holds.
ghost use Rattle.std.specs.Prelude.{◌≡◌};
ghost use Rattle.book.specs.Books.{view};

use crate::call::{Call, make};
use book::book::Book;
use mesh::fault::Fault;
use std::{fmt, io};

// What was answered, or what stands in its place.
pub(crate) fn print_told<T: fmt::Display + Copy, E: fmt::Display + Copy>(
    rt: &HostRuntime,
    told: Result<T, E>,
) -> io::Result<()> {
    match told {
        Ok(told) => println!(rt; "{told}"),
        Err(fault) => println!(rt; "{fault}"),
    }
}

// Whether a call was taken.
pub(crate) fn print_answer(rt: &HostRuntime, answer: Result<(), Fault>) -> io::Result<()> {
    print_told(rt, answer.map(|()| "ok"))
}

// What the book's held plan carries.
pub(crate) fn print_held(rt: &HostRuntime, book: &Book) -> io::Result<()> {
    print_told(rt, book.audit())
}

// What became of a call, and what the book then holds.
fn tell(rt: &HostRuntime, book: &Book, call: Call, answer: Result<(), Fault>) -> io::Result<()> {
    print!(rt; "  {call}: ")?;
    match answer {
        Ok(()) => {
            print!(rt; "ok, held ")?;
            print_told(rt, book.audit().map_err(|_fault| "nothing"))
        }
        Err(fault) => println!(rt; "{fault}"),
    }
}

// Makes the calls in turn, and prints what became of each. A trial that stands still stands after them.
pub(crate) fn play(rt: &HostRuntime, book: &mut Book, calls: &[Call]) -> io::Result<()>
    ensures { (view book.new).trial ≡ (view book.old).trial }
{
    for call in calls {
        let answer = make(book, *call);
        tell(rt, book, *call, answer)?;
    }
    Ok(())
}
