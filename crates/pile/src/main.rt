// Runs a pile of layers, Trim over Trim over augmenting paths, beside the bare engine, and prints each job's total.
#![tactic(auto)]

use augmenting::augmenting::Augmenting;
use engine::greatest::greatest_total;
use engine::trim::Trim;
use flow::ranges::{MOST_FED, MOST_LIMIT};
use samples::jobs::{Shape, next_job};
use samples::random::Random;
use std::io;

// The shape of a job: small ones first, then the largest; small limits, so that many are 0, and wide ones in turn.
// Kept: five numbers of this shape differ from the rivals', so a shared function would be handed them all and say less.
fn shape_of(number: u8) -> Shape {
    let limits = if number % 2 == 0 { 5 } else { MOST_LIMIT };
    Shape {
        links: if number < 28 {
            3 + 2 * number as usize
        } else {
            512
        },
        cabinets: if number < 28 { 2 + number / 3 } else { 64 },
        limits,
        fed: if number % 3 == 0 {
            MOST_FED
        } else {
            3 * limits
        },
    }
}

fn main(rt: HostRuntime) -> io::Result<()> {
    let mut pile = Trim {
        below: Trim { below: Augmenting },
    };
    let mut random = Random { state: 7 };
    for number in 0..36u8 {
        match next_job(&mut random, shape_of(number)) {
            Some(job) => {
                let piled = greatest_total(&mut pile, &job);
                let bare = greatest_total(&mut Augmenting, &job);
                println!(rt; "{number}: {piled} fed by the pile, {bare} by the engine alone")?;
            }
            None => println!(rt; "{number}: no job")?,
        }
    }
    Ok(())
}
