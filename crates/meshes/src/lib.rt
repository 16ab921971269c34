// Worked meshes: small meshes with what each comes to, shown from the definitions.
#![tactic(auto)]

pub mod refusal;
pub mod results;
pub mod worked;
