// Measures single solves and the five solves of a draw, on random jobs of the greatest size.
// Without an argument it prints the totals fed and the raises; with `times` also the microseconds that a solve takes,
// and with `jobs` the jobs themselves, for another solver.
#![tactic(auto)]

use augmenting::augmenting::augment;
use engine::arc::Arc;
use engine::job::Job;
use flow::pairs::Pairs;
use flow::ranges::{MOST_FED, MOST_LIMIT, MOST_LINKS};
use flow::taps::Taps;
use samples::jobs::{Shape, next_job};
use samples::mode::Mode;
use samples::random::Random;
use std::time::Instant;
use std::{env, io};

// What one solve came to.
#[derive(Clone, Copy)]
struct Measured {
    fed: u32,
    raises: u32,
    nanos: u128,
}

// A run of the benchmark: where it prints, and what.
#[derive(Clone, Copy)]
struct Bench<'a> {
    rt: &'a HostRuntime,
    mode: Mode,
}

impl Bench<'_> {
    // Solves a job `times` times over.
    fn measure(self, job: &Job<'_>, times: u32) -> io::Result<Measured> {
        let mut flow = [0; 512];
        let mut side = [false; 64];
        let start = Instant::now(self.rt)?;
        for _ in 1..times {
            augment(job, &mut flow, &mut side);
        }
        let answer = augment(job, &mut flow, &mut side);
        let nanos = start.elapsed(self.rt)?.as_nanos();
        Ok(Measured {
            fed: answer.amounts.feed1 + answer.amounts.feed2,
            raises: answer.raises,
            nanos: nanos / times.max(1) as u128,
        })
    }

    // Prints what the mode asks of one job, and answers what it is fed.
    fn show(self, kind: &str, number: u32, job: &Job<'_>) -> io::Result<u32> {
        let times = if self.mode == Mode::Times { 400 } else { 1 };
        let Measured { fed, raises, nanos } = self.measure(job, times)?;
        match self.mode {
            Mode::Jobs => {
                println!(self.rt; "{kind} {number} {}", job.links().len())?;
                print!(self.rt; "{job}")?;
            }
            Mode::Totals => println!(self.rt; "{kind} {number}: fed {fed}, raises {raises}")?,
            Mode::Times => println!(self.rt; "{kind} {number} {fed} {raises} {nanos}")?,
        }
        Ok(fed)
    }

    // Shows the job over these links of stream 1 up to `x` and stream 2 up to `y`, and answers what it is fed;
    // or none where a number is out of range.
    fn show_both(
        self,
        number: u32,
        links: &[Arc],
        pairs: Pairs,
        x: u32,
        y: u32,
    ) -> io::Result<Option<u32>> {
        match Job::new(links, pairs.ends(), Taps::both(x, y)) {
            Some(job) => Ok(Some(self.show("draw", number, &job)?)),
            None => Ok(None),
        }
    }

    // The first three jobs of a draw, and what they leave for each stream.
    fn bound(self, number: u32, links: &[Arc], pairs: Pairs) -> io::Result<Option<(u32, u32)>> {
        let Some(alone) = self.show_both(number, links, pairs, MOST_FED, 0)? else {
            return Ok(None);
        };
        let Some(ahead) = self.show_both(number, links, pairs, alone, MOST_FED)? else {
            return Ok(None);
        };
        let turned = pairs.turned();
        let Some(behind) = self.show_both(number, links, turned, alone, MOST_FED)? else {
            return Ok(None);
        };
        Ok(Some((alone, ahead.min(behind).saturating_sub(alone))))
    }

    // The five jobs of a draw over the links and ends of a job, in their order.
    fn draw(self, number: u32, job: &Job<'_>) -> io::Result<()> {
        let links = job.links();
        let Taps {
            feed1,
            feed2,
            drain1,
            drain2,
        } = job.at();
        let pairs = Pairs {
            source1: feed1,
            goal1: drain1,
            source2: feed2,
            goal2: drain2,
        };
        if let Some((alone, rest)) = self.bound(number, links, pairs)? {
            self.show_both(number, links, pairs, alone, rest)?;
            self.show_both(number, links, pairs.turned(), alone, rest)?;
        }
        Ok(())
    }
}

fn main(rt: HostRuntime) -> io::Result<()> {
    // The last argument that names a mode asks for it.
    let mode = env::args(&rt)?.fold(
        Mode::Totals,
        |mode, word| Mode::try_from(word.as_str()).unwrap_or(mode),
    );
    let bench = Bench { rt: &rt, mode };
    let shape = Shape {
        links: MOST_LINKS,
        cabinets: 64,
        limits: MOST_LIMIT,
        fed: MOST_FED,
    };
    let mut random = Random { state: 1 };
    for number in 0..8u32 {
        if let Some(job) = next_job(&mut random, shape) {
            bench.show("job", number, &job)?;
            bench.draw(number, &job)?;
        }
    }
    Ok(())
}
