// Runs order files that are short, damaged, at a limit or refused, each on a new book, and prints what is told.
#![tactic(auto)]

use augmenting::augmenting::Augmenting;
use book::book::Book;
use orders::line::MOST_BYTES;
use orders::run::run;
use std::alloc::{AllocError, Global};
use std::io;

#[derive(Clone, Copy)]
struct Case {
    name: &'static str,
    file: &'static [u8],
}

// Files whose whole text is printed.
const CASES: [Case; 25] = [
    Case {
        name: "empty file",
        file: b"",
    },
    Case {
        name: "one byte",
        file: b"L",
    },
    Case {
        name: "unknown mark",
        file: b"XX",
    },
    Case {
        name: "mark in small letters",
        file: b"lk\x00\x01\x00\x00\x00\x06",
    },
    Case {
        name: "one byte after an order",
        file: b"PLP",
    },
    Case {
        name: "known mark with another order for a body",
        file: b"PLLKPL",
    },
    Case {
        name: "unknown mark after an order",
        file: b"PLXX",
    },
    Case {
        name: "LK cut short",
        file: b"LK\x00\x01\x00\x00\x00",
    },
    Case {
        name: "SZ cut short",
        file: b"SZ\x00\x00\x00\x00\x00",
    },
    Case {
        name: "DR cut short",
        file: b"DR\x00",
    },
    Case {
        name: "ST cut short",
        file: b"ST\x00\x01\x02",
    },
    Case {
        name: "no slots",
        file: b"LK\x00\x01\x00\x00\x00\x00",
    },
    Case {
        name: "most slots",
        file: b"LK\x00\x01\x00\x10\x00\x00",
    },
    Case {
        name: "odd slots",
        file: b"LK\x00\x01\x00\x00\x00\x03",
    },
    Case {
        name: "too many slots",
        file: b"LK\x00\x01\x00\x10\x00\x02",
    },
    Case {
        name: "slots that fit only with the high byte first",
        file: b"LK\x00\x01\x00\x00\x01\x02",
    },
    Case {
        name: "last cabinet",
        file: b"LK\x00\x3f\x00\x00\x00\x02",
    },
    Case {
        name: "no such cabinet",
        file: b"LK\x00\x40\x00\x00\x00\x02",
    },
    Case {
        name: "equal ends",
        file: b"LK\x05\x05\x00\x00\x00\x02",
    },
    Case {
        name: "all of an order's faults at once",
        file: b"LK\x40\x40\x00\x00\x00\x03LK\x05\x05\x00\x00\x00\x03",
    },
    Case {
        name: "pair linked already, either way round",
        file: b"LK\x00\x01\x00\x00\x00\x02LK\x01\x00\x00\x00\x00\x02LK\x00\x01\x00\x00\x00\x04",
    },
    Case {
        name: "resize",
        file: b"SZ\x00\x00\x00\x00\x00\x02LK\x00\x01\x00\x00\x00\x02SZ\x00\x00\x00\x00\x00\x02SZ\x00\x00\x00\x00\x00\x03SZ\x00\x01\x00\x00\x00\x03SZ\x00\x01\x00\x00\x00\x04",
    },
    Case {
        name: "drop lets the numbers above fall",
        file: b"LK\x00\x01\x00\x00\x00\x02LK\x01\x02\x00\x00\x00\x02DR\x00\x00DR\x00\x01LK\x01\x02\x00\x00\x00\x02LK\x00\x01\x00\x00\x00\x02DR\x00\x01DR\x00\x00DR\x00\x00",
    },
    Case {
        name: "streams",
        file: b"ST\x00\x01\x00\x01ST\x00\x00\x02\x03ST\x02\x03\x04\x04ST\x40\x01\x02\x03ST\x00\x40\x02\x03ST\x00\x01\x40\x03ST\x00\x01\x02\x40ST\x40\x40\x02\x03ST\x3f\x00\x3f\x00",
    },
    Case {
        name: "a refusal does not end the run",
        file: b"DR\x00\x00DR\xff\xffPL",
    },
];

// What is told of a file that is run on a new book.
fn told(heap: Global, file: &[u8]) -> Result<String, AllocError> {
    let mut book = Book::open(heap)?;
    let mut engine = Augmenting;
    run(heap, &mut book, &mut engine, file)
}

// A file of as many bytes as are asked for, full of orders without a body.
fn draws(heap: Global, bytes: usize) -> Result<Vec<u8>, AllocError> {
    b"PL".iter().copied().cycle().take(bytes).collect(heap)
}

// A file with links on different pairs of cabinets, as many as are asked for.
fn links(heap: Global, count: usize) -> Result<Vec<u8>, AllocError> {
    let mut file = Vec::new(heap);
    let pairs = (1..64u8).flat_map(|high| (0..high).map(move |low| (low, high)));
    for (low, high) in pairs.take(count) {
        file.extend_from_slice(&[b'L', b'K', low, high, 0, 0, 0, 2])?;
    }
    Ok(file)
}

// Prints the number of lines, and the last two.
fn show_end(rt: &HostRuntime, name: &str, file: &[u8]) -> io::Result<()> {
    let text = told(rt.alloc(), file)?;
    let count = text.as_str().lines().count();
    println!(rt; "# {name}: {count} lines, the last of them")?;
    for line in text.as_str().lines().skip(count.saturating_sub(2)) {
        println!(rt; "{line}")?;
    }
    Ok(())
}

fn main(rt: HostRuntime) -> io::Result<()> {
    let heap = rt.alloc();
    for case in CASES {
        let name = case.name;
        println!(rt; "# {name}")?;
        let text = told(heap, case.file)?;
        rt.print(text.as_str())?;
    }
    show_end(
        &rt,
        "as long as a file may be",
        draws(heap, MOST_BYTES)?.as_slice(),
    )?;
    show_end(
        &rt,
        "one byte longer",
        draws(heap, MOST_BYTES + 1)?.as_slice(),
    )?;
    show_end(&rt, "512 links", links(heap, 512)?.as_slice())?;
    show_end(&rt, "513 links", links(heap, 513)?.as_slice())
}
