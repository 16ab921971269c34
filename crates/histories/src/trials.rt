// Outage trials: the receipt, what is refused while a trial stands, and the close.
ghost use Rattle.std.specs.Prelude.{◌≡◌, true, is_some, Some, Ok, Err};
ghost use Rattle.book.specs.Books.{view};
ghost use Rattle.book.specs.Receipts.{trial_of};

use crate::call::{Call, Drawer, book_of, ends};
use crate::telling::play;
use crate::worked::{print_outcome, ring, trunk};
use book::book::Book;
use book::trial::{Receipt, Refused};
use mesh::fault::Fault;
use meshes::worked::Worked;
use std::io;

// Begins a trial, which then stands with the receipt's numbers.
pub(crate) fn begin(book: &mut Book, link: u16) -> Result<Receipt, Fault>
    ensures { elim result [ Ok receipt ↦ (view book.new).trial ≡ Some (trial_of receipt) | Err fault ↦ Unit {0} ] }
{
    book.begin(link)
}

// Closes the trial that stands with its own receipt, which is never refused.
pub(crate) fn close(book: &mut Book, receipt: Receipt)
    requires { (view book.old).trial ≡ Some (trial_of receipt) }
{
    book.close(receipt).unwrap()
}

fn print_receipt(rt: &HostRuntime, receipt: &Receipt) -> io::Result<()> {
    println!(rt;
        "  begin: a receipt of link {} with {} former slots",
        receipt.link(),
        receipt.slots()
    )
}

// A refused close, after which the receipt came back and closed its own trial.
fn print_handed_back(rt: &HostRuntime, fault: Fault) -> io::Result<()> {
    print!(rt; "  close at another book: ")?;
    println!(rt; "{fault}")?;
    println!(rt; "  closed at its own")
}

// While a trial stands, a second one is refused, whatever the link.
fn print_second(rt: &HostRuntime, book: &mut Book, link: u16) -> io::Result<()>
    requires { is_some (view book.old).trial ≡ true }
    ensures { (view book.new).trial ≡ (view book.old).trial }
{
    print!(rt; "  begin {link}: ")?;
    let fault = book.begin(link).unwrap_err();
    println!(rt; "{fault}")
}

const WHILE_OUT: [Call; 8] = [
    Call::Add(0, 1, 2),
    Call::Add(0, 64, 3),
    Call::Resize(9, 8),
    Call::DropLink(9),
    Call::Draw(Drawer::Augmenting),
    Call::Draw(Drawer::TrimOverAugmenting),
    Call::Draw(Drawer::Preflow),
    Call::Draw(Drawer::TrimOverPreflow),
];

// Runs the trunk's trial: what is refused meanwhile, the draws over what is left, and the close.
fn out(rt: &HostRuntime) -> io::Result<()> {
    println!(rt; "# the trunk while its trunk link is in a trial")?;
    let mut book = book_of(rt.alloc(), &trunk(), ends(0, 1, 2, 3))?;
    match begin(&mut book, 1) {
        Ok(receipt) => {
            let shown = print_receipt(rt, &receipt);
            let second = print_second(rt, &mut book, 9);
            let played = play(rt, &mut book, &WHILE_OUT);
            close(&mut book, receipt);
            shown?;
            second?;
            played?;
        }
        Err(fault) => println!(rt; "{fault}")?,
    }
    print_outcome(rt, Worked::TrunkInTrial)?;
    println!(rt; "  closed")?;
    play(
        rt,
        &mut book,
        &[
            Call::Draw(Drawer::TrimOverAugmenting),
            Call::Draw(Drawer::Preflow),
        ],
    )
}

// A trial begins only on a link that is there.
fn refuse_begin(rt: &HostRuntime) -> io::Result<()> {
    println!(rt; "# a trial on no link")?;
    let mut book = book_of(rt.alloc(), &trunk(), ends(0, 1, 2, 3))?;
    match begin(&mut book, 5) {
        Ok(receipt) => {
            close(&mut book, receipt);
            println!(rt; "  begun and closed")
        }
        Err(fault) => {
            print!(rt; "  begin 5: ")?;
            println!(rt; "{fault}")
        }
    }
}

// Hands the receipt of a book's trial to another book, where no trial stands; it comes back and closes the trial.
fn close_elsewhere(
    rt: &HostRuntime,
    book: &mut Book,
    other: &mut Book,
    receipt: Receipt,
) -> io::Result<()>
    requires { (view book.old).trial ≡ Some (trial_of receipt) }
{
    match other.close(receipt) {
        Ok(()) => println!(rt; "  closed elsewhere"),
        Err(Refused { receipt, fault }) => {
            close(book, receipt);
            print_handed_back(rt, fault)
        }
    }
}

// Hands the receipt of the second book's trial to the first, where another trial stands; then each closes its own.
fn close_crossed(
    rt: &HostRuntime,
    one: &mut Book,
    two: &mut Book,
    first: Receipt,
    second: Receipt,
) -> io::Result<()>
    requires first { (view one.old).trial ≡ Some (trial_of first) }
    requires second { (view two.old).trial ≡ Some (trial_of second) }
{
    if first.link() == second.link() {
        close(one, first);
        close(two, second);
        return println!(rt; "  the same link");
    }
    let Refused { receipt, fault } = one.close(second).unwrap_err();
    close(one, first);
    close(two, receipt);
    print_handed_back(rt, fault)
}

fn refuse_no_trial(rt: &HostRuntime) -> io::Result<()> {
    println!(rt; "# a receipt where no trial stands")?;
    let mut book = book_of(rt.alloc(), &trunk(), ends(0, 1, 2, 3))?;
    let mut other = Book::open(rt.alloc())?;
    match begin(&mut book, 1) {
        Ok(receipt) => close_elsewhere(rt, &mut book, &mut other, receipt)?,
        Err(fault) => println!(rt; "{fault}")?,
    }
    play(rt, &mut book, &[Call::Draw(Drawer::Augmenting)])
}

// Begins a trial on the second book too.
fn begin_second(rt: &HostRuntime, one: &mut Book, two: &mut Book, first: Receipt) -> io::Result<()>
    requires { (view one.old).trial ≡ Some (trial_of first) }
{
    match begin(two, 3) {
        Ok(second) => close_crossed(rt, one, two, first, second),
        Err(fault) => {
            close(one, first);
            println!(rt; "{fault}")
        }
    }
}

fn refuse_other_trial(rt: &HostRuntime) -> io::Result<()> {
    println!(rt; "# a receipt where another trial stands")?;
    let mut one = book_of(rt.alloc(), &trunk(), ends(0, 1, 2, 3))?;
    let mut two = book_of(rt.alloc(), &ring(), ends(0, 2, 1, 3))?;
    match begin(&mut one, 1) {
        Ok(first) => begin_second(rt, &mut one, &mut two, first)?,
        Err(fault) => println!(rt; "{fault}")?,
    }
    play(rt, &mut one, &[Call::Draw(Drawer::Preflow)])?;
    play(rt, &mut two, &[Call::Draw(Drawer::Preflow)])
}

pub(crate) fn run(rt: &HostRuntime) -> io::Result<()> {
    out(rt)?;
    refuse_begin(rt)?;
    refuse_no_trial(rt)?;
    refuse_other_trial(rt)
}
