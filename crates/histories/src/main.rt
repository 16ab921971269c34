// Runs calls on real books and prints what comes of them: the worked meshes drawn with every engine, every refusal of
// every call, proposals, trials, and a long history.
#![tactic(auto)]

mod call;
mod long;
mod proposals;
mod refusals;
mod sheets;
mod telling;
mod trials;
mod worked;

use std::io;

fn main(rt: HostRuntime) -> io::Result<()> {
    worked::run(&rt)?;
    proposals::run(&rt)?;
    refusals::run(&rt)?;
    sheets::run(&rt)?;
    trials::run(&rt)?;
    long::run(&rt)
}
