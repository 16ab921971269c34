// What is read off a sheet, and what it refuses.
use crate::call::{Drawer, book_of, draw, ends};
use crate::telling::print_told;
use crate::worked::{one_link, trunk};
use sheet::answers::Side;
use sheet::sheet::Sheet;
use std::io;

// The links of a stream's route, in order.
fn print_route(rt: &HostRuntime, sheet: &Sheet<'_>, stream: u8) -> io::Result<()> {
    let mut path = [0u16; 64];
    match sheet.route(stream, &mut path) {
        Ok(Some(count)) => {
            for link in path.iter().take(count) {
                print!(rt; "{link} ")?;
            }
            println!(rt; "in all {count}")
        }
        Ok(None) => println!(rt; "none"),
        Err(fault) => println!(rt; "{fault}"),
    }
}

fn read(rt: &HostRuntime, sheet: &Sheet<'_>) -> io::Result<()> {
    print!(rt; "  shares of link 1: ")?;
    print_told(rt, sheet.shares(1))?;
    print!(rt; "  shares of link 5: ")?;
    print_told(rt, sheet.shares(5))?;
    print!(rt; "  cabinet 0 in the cut: ")?;
    print_told(rt, sheet.holds(Side::Cut, 0))?;
    print!(rt; "  cabinet 64 in the first side: ")?;
    print_told(rt, sheet.holds(Side::First, 64))?;
    print!(rt; "  route of stream 1: ")?;
    print_route(rt, sheet, 1)?;
    print!(rt; "  route of stream 2: ")?;
    print_route(rt, sheet, 2)?;
    print!(rt; "  route of stream 3: ")?;
    print_route(rt, sheet, 3)?;
    print!(rt; "  a route into 63 places: ")?;
    let mut path = [7u16; 63];
    print_told(rt, sheet.route(1, &mut path).map(|_| "answered"))
}

pub(crate) fn run(rt: &HostRuntime) -> io::Result<()> {
    println!(rt; "# a sheet with no plan")?;
    let mut book = book_of(rt.alloc(), &trunk(), ends(0, 1, 2, 3))?;
    read(rt, &book.sheet())?;
    println!(rt; "# a sheet of the trunk's plan")?;
    let _ = draw(&mut book, Drawer::TrimOverAugmenting);
    read(rt, &book.sheet())?;
    println!(rt; "# a sheet of the head-on link's plan, where stream two carries nothing")?;
    let mut single = book_of(rt.alloc(), &one_link(), ends(0, 1, 1, 0))?;
    let _ = draw(&mut single, Drawer::Augmenting);
    read(rt, &single.sheet())
}
