ghost use Rattle.std.specs.Prelude.{◌≡◌, IfOk, string_bytes};
ghost use Rattle.book.specs.Books.{view};
ghost use Rattle.orders.specs.Runs.{Drew, Carried, Ran, Printed, last_line};

use crate::line::{Line, MOST_BYTES};
use crate::order::Order;
use crate::reader::Reader;
use crate::record::RecordFault;
use book::book::Book;
use engine::engine::Engine;
use mesh::fault::Fault;
use sheet::answers::Totals;
use std::alloc::{AllocError, Global};

// Draws a plan on the book, and gives its totals.
fn draw_plan<E: Engine>(book: &mut Book, engine: &mut E) -> Result<Totals, Fault>
    ensures { Drew (view book.old) result (view book.new) }
{
    book.draw(engine)?;
    book.audit()
}

// Carries an order out on the book, and tells what became of it.
pub fn carry_out<E: Engine>(
    book: &mut Book,
    engine: &mut E,
    number: usize,
    at: usize,
    order: Order,
) -> Line
    ensures { Carried number at (view book.old) order result (view book.new) }
{
    let kind = order.kind();
    let answer = match order {
        Order::Add { one, other, slots } => book.add(one, other, slots),
        Order::Resize { link, slots } => book.resize(link, slots),
        Order::Drop { link } => book.drop_link(link),
        Order::Name(pairs) => book.name(pairs),
        Order::Draw => match draw_plan(book, engine) {
            Ok(totals) => {
                return Line::Planned {
                    order: number,
                    totals,
                };
            }
            Err(fault) => Err(fault),
        },
    };
    match answer {
        Ok(()) => Line::Done {
            order: number,
            kind,
        },
        Err(fault) => Line::Refused {
            order: number,
            kind,
            fault,
            at,
        },
    }
}

// The line that ends a run after so many orders: reading came to the end, or to a fault at this place.
fn last_line(orders: usize, at: usize, fault: Option<RecordFault>) -> Line
    ensures { result ≡ last_line orders at fault }
{
    match fault {
        None => Line::End { orders },
        Some(fault) => Line::Unread { fault, at },
    }
}

// Carries out the orders of a file that is not too long, and gives the lines that tell of them.
fn run_through<E: Engine>(
    heap: Global,
    book: &mut Book,
    engine: &mut E,
    file: &[u8],
) -> Result<String, AllocError>
    ensures { IfOk result (λ text. Ran (view book.old) file.now (string_bytes text) (view book.new)) }
{
    let mut text = String::new(heap);
    let mut reader = Reader::new(file);
    let mut orders = 0;
    let fault = loop {
        let at = reader.place();
        match reader.next_order() {
            Ok(Some(order)) => {
                orders += 1;
                carry_out(book, engine, orders, at, order).put(&mut text)?;
            }
            Ok(None) => break None,
            Err(fault) => break Some(fault),
        }
    };
    last_line(orders, reader.place(), fault).put(&mut text)?;
    Ok(text)
}

// Carries out the orders of a file, drawing with the engine, and gives the lines that tell of them. A file that is too long
// is refused whole.
pub fn run<E: Engine>(
    heap: Global,
    book: &mut Book,
    engine: &mut E,
    file: &[u8],
) -> Result<String, AllocError>
    ensures { IfOk result (λ text. Printed (view book.old) file.now (string_bytes text) (view book.new)) }
{
    if file.len() > MOST_BYTES {
        let mut text = String::new(heap);
        Line::TooLong.put(&mut text)?;
        return Ok(text);
    }
    run_through(heap, book, engine, file)
}
