// The words of a mesh: rows, links with their rule, and the faults that calls are refused with.
#![tactic(auto)]

pub mod fault;
pub mod joins;
pub mod link;
pub mod row;
