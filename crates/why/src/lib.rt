// Why a check refuses. (02, 8/14)
#![tactic(auto)]

pub mod child;
pub mod line;
pub mod opening;
pub mod smallest;
