// The residual network of a job: what a flow leaves free, as a ground for the search, and raising the flow along a path.
#![tactic(auto)]

pub mod clear;
pub mod ground;
pub mod network;
pub mod raise;
pub mod residual;
