// A book's call over working arrays, once the tests are passed. (02, 10/14)
#![tactic(auto)]

pub mod sizes;
mod stage;
