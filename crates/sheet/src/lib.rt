// The sheet: what a held plan tells of itself, and a route over the shares that it carries.
#![tactic(auto)]

pub mod answers;
mod carriage;
mod carried;
pub mod sheet;
