// Two small grounds: links that are open both ways while they have slots, and links that are open one way.
#![tactic(auto)]

pub mod grounds;
pub mod mesh;
#[cfg(test)]
mod tests;
