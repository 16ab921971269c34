// Runs the order file on standard input, and prints a line for each order.
#![tactic(auto)]

use augmenting::augmenting::Augmenting;
use book::book::Book;
use engine::trim::Trim;
use orders::line::MOST_BYTES;
use orders::run::run;
use std::io;
use std::io::Read;

fn main(rt: HostRuntime) -> io::Result<()> {
    let heap = rt.alloc();
    let mut file = Vec::new(heap);
    // One byte more than a file may have is enough to tell that it is too long.
    let mut input = rt.stdin().take(MOST_BYTES as u64 + 1);
    let _ = input.read_to_end(&mut file)?;
    let mut book = Book::open(heap)?;
    let mut engine = Trim { below: Augmenting };
    let text = run(heap, &mut book, &mut engine, file.as_slice())?;
    rt.print(text.as_str())
}
