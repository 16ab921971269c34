// Measures the two engines side by side on random jobs of 64 cabinets and 64, 128, 256 and 512 links.
// Without an argument it prints the totals fed; with `times` also the nanoseconds that a solve takes of each engine,
// and with `jobs` the jobs themselves, for another solver.
#![tactic(auto)]

use augmenting::augmenting::Augmenting;
use engine::engine::Engine;
use engine::job::Job;
use flow::ranges::{MOST_FED, MOST_LIMIT};
use preflow::preflow::Preflow;
use samples::jobs::{Shape, next_job};
use samples::mode::Mode;
use samples::random::Random;
use std::time::Instant;
use std::{env, io};

// What an engine fed, and the nanoseconds of one solve.
#[derive(Clone, Copy)]
struct Measured {
    fed: u32,
    nanos: u128,
}

// Lets an engine solve a job ten times over.
fn ten<E: Engine>(rt: &HostRuntime, engine: &mut E, job: &Job<'_>) -> io::Result<Measured> {
    let mut flow = [0; 512];
    let mut side = [false; 64];
    let start = Instant::now(rt)?;
    for _ in 0..9 {
        engine.solve(job, &mut flow, &mut side);
    }
    let amounts = engine.solve(job, &mut flow, &mut side);
    let nanos = start.elapsed(rt)?.as_nanos();
    Ok(Measured {
        fed: amounts.feed1 + amounts.feed2,
        nanos: nanos / 10,
    })
}

// The quickest of some rounds, since other work on the machine only adds to the time.
fn measure<E: Engine>(
    rt: &HostRuntime,
    engine: &mut E,
    job: &Job<'_>,
    rounds: u32,
) -> io::Result<Measured> {
    let mut best = ten(rt, engine, job)?;
    for _ in 0..rounds {
        let next = ten(rt, engine, job)?;
        if next.nanos < best.nanos {
            best = next;
        }
    }
    Ok(best)
}

// Prints what the mode asks of one job.
fn show(rt: &HostRuntime, mode: Mode, number: u32, job: &Job<'_>) -> io::Result<()> {
    let links = job.links().len();
    if mode == Mode::Jobs {
        println!(rt; "{links} {number} {links}")?;
        return print!(rt; "{job}");
    }
    let rounds = if mode == Mode::Times { 100 } else { 0 };
    let paths = measure(rt, &mut Augmenting, job, rounds)?;
    let pushes = measure(rt, &mut Preflow, job, rounds)?;
    if mode == Mode::Times {
        return println!(rt;
            "{links} {number} {} {} {} {}",
            paths.fed, pushes.fed, paths.nanos, pushes.nanos
        );
    }
    println!(rt;
        "{links} links, job {number}: fed {} by augmenting paths, {} by preflow pushing",
        paths.fed, pushes.fed
    )
}

fn main(rt: HostRuntime) -> io::Result<()> {
    // The last argument that names a mode asks for it.
    let mode = env::args(&rt)?.fold(
        Mode::Totals,
        |mode, word| Mode::try_from(word.as_str()).unwrap_or(mode),
    );
    let mut random = Random { state: 1 };
    for links in [64, 128, 256, 512] {
        let shape = Shape {
            links,
            cabinets: 64,
            limits: MOST_LIMIT,
            fed: MOST_FED,
        };
        for number in 0..8u32 {
            if let Some(job) = next_job(&mut random, shape) {
                show(&rt, mode, number, &job)?;
            }
        }
    }
    Ok(())
}
