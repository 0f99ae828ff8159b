// The records that make an entry.
#![tactic(auto)]

pub mod node;
pub mod set;
