// Engines: a job asks for the greatest flow from two feeds to two drains, and an engine answers it.
#![tactic(auto)]

pub mod arc;
pub mod engine;
pub mod greatest;
pub mod job;
pub mod joins;
mod print;
pub mod trim;
