// The engine of augmenting paths.
#![tactic(auto)]

pub mod augmenting;
mod pairs;
mod run;
mod sending;
mod sides;
