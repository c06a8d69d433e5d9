// The words of a section, read from a file.
#![tactic(auto)]

pub mod pass;
pub mod spread;
mod turn;
