// Order files: reading them record by record, and what each record asks for.
#![tactic(auto)]

pub mod kind;
pub mod line;
pub mod order;
pub mod reader;
pub mod record;
pub mod run;
pub mod survey;
