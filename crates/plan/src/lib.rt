// Plans for two streams over links of any type: drawing one with any engine, and judging one that is proposed.
#![tactic(auto)]

mod cuts;
pub mod drawing;
pub mod flaw;
mod halves;
mod jobs;
pub mod judging;
pub mod listed;
mod shares;
pub mod sides;
pub mod theorems;
