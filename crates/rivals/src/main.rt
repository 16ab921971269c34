// Solves random jobs by both engines, and by preflow pushing under two layers of Trim, and compares the totals fed.
#![tactic(auto)]

use augmenting::augmenting::Augmenting;
use engine::greatest::greatest_total;
use engine::trim::Trim;
use flow::ranges::{MOST_FED, MOST_LIMIT};
use preflow::preflow::Preflow;
use samples::jobs::{Shape, next_job};
use samples::random::Random;
use std::io;

// Kept: five numbers of this shape differ from the pile's, so a shared function would be handed them all and say less.
// The shape of a job: from two cabinets to 64, from few links to 512; small limits, so that many are 0, and wide ones in turn.
fn shape_of(number: u8) -> Shape {
    let limits = if number % 2 == 0 { 3 } else { MOST_LIMIT };
    Shape {
        links: if number < 90 {
            2 + 2 * number as usize
        } else {
            512
        },
        cabinets: if number < 90 { 2 + number / 2 } else { 64 },
        limits,
        fed: if number % 3 == 0 {
            MOST_FED
        } else {
            4 * limits
        },
    }
}

fn main(rt: HostRuntime) -> io::Result<()> {
    let mut pile = Trim {
        below: Trim { below: Preflow },
    };
    let mut random = Random { state: 11 };
    for number in 0..100u8 {
        match next_job(&mut random, shape_of(number)) {
            Some(job) => {
                let pushed = greatest_total(&mut Preflow, &job);
                let raised = greatest_total(&mut Augmenting, &job);
                let piled = greatest_total(&mut pile, &job);
                println!(rt;
                    "{number}: {pushed} by preflow pushing, {piled} by it under Trim, {raised} by augmenting paths"
                )?;
            }
            None => println!(rt; "{number}: no job")?,
        }
    }
    Ok(())
}
