// The true cause of a refused command, told over the state before it. (02, 8/14)
#![tactic(auto)]

pub mod pr;
pub mod rup;
