// Proposed plans, good ones and each that is refused.
use crate::call::{book_of, ends};
use crate::telling::{print_answer, print_held};
use crate::worked::{one_link, print_outcome, trunk};
use book::book::Book;
use book::proposal::Proposal;
use meshes::worked::Worked;
use std::io;

// The side list of these cabinets, each below 64.
pub(crate) fn side(cabinets: &[u8]) -> [bool; 64] {
    let mut list = [false; 64];
    for cabinet in cabinets {
        list[(*cabinet % 64) as usize] = true;
    }
    list
}

// Shares of both streams, with the cut and the first side that are to show them best.
pub(crate) fn plan<'a>(
    one: &'a [i32],
    two: &'a [i32],
    cut: &'a [bool],
    first: &'a [bool],
) -> Proposal<'a> {
    Proposal {
        one,
        two,
        cut,
        first,
    }
}

// Proposes a plan and prints the answer.
pub(crate) fn propose(
    rt: &HostRuntime,
    book: &mut Book,
    name: &str,
    proposal: Proposal<'_>,
) -> io::Result<()> {
    let answer = book.admit(proposal);
    print!(rt; "  {name}: ")?;
    print_answer(rt, answer)
}

// Proposals for two streams head-on over one link of 10 slots.
fn propose_head_on(rt: &HostRuntime) -> io::Result<()> {
    println!(rt; "# proposals on the head-on link")?;
    let mut book = book_of(rt.alloc(), &one_link(), ends(0, 1, 1, 0))?;
    let (five, six, ten) = ([5], [6], [10]);
    let (back, none) = ([-5], [0]);
    let zero = side(&[0]);
    propose(rt, &mut book, "5 and -5", plan(&five, &back, &zero, &zero))?;
    print_outcome(rt, Worked::HeadOnEven)?;
    propose(rt, &mut book, "6 and -5", plan(&six, &back, &zero, &zero))?;
    print_outcome(rt, Worked::HeadOnOver)?;
    propose(rt, &mut book, "10 and 0", plan(&ten, &none, &zero, &zero))?;
    print!(rt; "  held: ")?;
    print_held(rt, &book)?;
    propose(
        rt,
        &mut book,
        "5 and -5 again",
        plan(&five, &back, &zero, &zero),
    )?;
    print!(rt; "  held: ")?;
    print_held(rt, &book)
}

fn propose_lengths(rt: &HostRuntime) -> io::Result<()> {
    println!(rt; "# proposals of wrong lengths")?;
    let mut book = book_of(rt.alloc(), &one_link(), ends(0, 1, 1, 0))?;
    let (ten, none) = ([10], [0]);
    let two_shares = [0, 0];
    let zero = side(&[0]);
    let short = [true; 63];
    let long = [true; 65];
    propose(
        rt,
        &mut book,
        "two shares of stream one",
        plan(&two_shares, &none, &zero, &zero),
    )?;
    propose(
        rt,
        &mut book,
        "two shares of stream two",
        plan(&ten, &two_shares, &zero, &zero),
    )?;
    propose(
        rt,
        &mut book,
        "a cut of 63 places",
        plan(&ten, &none, &short, &zero),
    )?;
    propose(
        rt,
        &mut book,
        "a first side of 65 places",
        plan(&ten, &none, &zero, &long),
    )
}

// Shares on the shared trunk, whose best plan carries 6 and 2, that do not fit its links, are not conserved or
// carry less.
fn propose_shares(rt: &HostRuntime, book: &mut Book) -> io::Result<()> {
    let one = [6, 6, -6, 0, 0];
    let two = [0, 2, 0, 2, -2];
    let over = [6, 7, -6, 0, 5];
    let broken_one = [6, 6, -4, 0, 0];
    let broken_two = [0, 1, 0, 2, -1];
    let none = [0; 5];
    let cut = side(&[0, 2, 4]);
    let first = side(&[0]);
    propose(
        rt,
        book,
        "over at links 1 and 4",
        plan(&over, &two, &cut, &first),
    )?;
    propose(
        rt,
        book,
        "broken at 5 in stream one, at 4 in stream two",
        plan(&broken_one, &broken_two, &cut, &first),
    )?;
    propose(
        rt,
        book,
        "broken at 4 in stream two",
        plan(&one, &broken_two, &cut, &first),
    )?;
    propose(
        rt,
        book,
        "none of stream two",
        plan(&one, &none, &cut, &first),
    )
}

// The best shares with sides that do not show them best, and with those that do.
fn propose_sides(rt: &HostRuntime, book: &mut Book) -> io::Result<()> {
    let one = [6, 6, -6, 0, 0];
    let two = [0, 2, 0, 2, -2];
    let cut = side(&[0, 2, 4]);
    let first = side(&[0]);
    let both_ends = side(&[0, 2, 3, 4]);
    let goal = side(&[0, 1]);
    propose(
        rt,
        book,
        "a cut with both ends of stream two",
        plan(&one, &two, &both_ends, &first),
    )?;
    propose(
        rt,
        book,
        "a first side with goal 1",
        plan(&one, &two, &cut, &goal),
    )?;
    propose(
        rt,
        book,
        "neither side right",
        plan(&one, &two, &goal, &goal),
    )?;
    propose(
        rt,
        book,
        "a first side too wide",
        plan(&one, &two, &cut, &cut),
    )?;
    propose(rt, book, "the best", plan(&one, &two, &cut, &first))
}

fn propose_on_trunk(rt: &HostRuntime) -> io::Result<()> {
    println!(rt; "# proposals on the trunk")?;
    let mut book = book_of(rt.alloc(), &trunk(), ends(0, 1, 2, 3))?;
    propose_shares(rt, &mut book)?;
    propose_sides(rt, &mut book)?;
    print!(rt; "  held: ")?;
    print_held(rt, &book)
}

pub(crate) fn run(rt: &HostRuntime) -> io::Result<()> {
    propose_head_on(rt)?;
    propose_lengths(rt)?;
    propose_on_trunk(rt)?;
    println!(rt; "# a proposal before the streams are named")?;
    let mut book = Book::open(rt.alloc())?;
    propose(rt, &mut book, "nothing at all", plan(&[], &[], &[], &[]))
}
