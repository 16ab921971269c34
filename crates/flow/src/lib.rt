// What a plan is, and why a full mesh is full.
#![tactic(auto)]

pub mod edge;
pub mod nets;
pub mod pairs;
pub mod ranges;
pub mod shares;
pub mod sides;
pub mod stream;
pub mod taps;
pub mod theorems;
