// Jobs drawn by a fixed pseudo-random generator, for programs that run engines.
#![tactic(auto)]

pub mod jobs;
pub mod mode;
pub mod random;
