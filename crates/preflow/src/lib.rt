// Preflow pushing: an engine that sends as much as the feeds let in, and lets what the drains do not take flow back.
#![tactic(auto)]

mod distance;
mod lowest;
pub mod preflow;
mod relabel;
mod run;
mod send;
mod side;
mod start;
mod state;
mod wait;
mod way;
