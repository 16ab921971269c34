// The book: a mesh of links, the two streams' pairs, and what follows from the calls on it.
#![tactic(auto)]

pub mod book;
mod ledger;
pub mod proposal;
pub mod trial;
