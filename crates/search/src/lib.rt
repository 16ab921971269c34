// A first-in-first-out queue, links with their index, and one search for every ground.
#![tactic(auto)]

mod build;
pub mod find;
pub mod ground;
pub mod incidence;
pub mod laws;
pub mod links;
pub mod marks;
pub mod net;
pub mod queue;
mod spread;
