// Blocks of words over any coder.
#![tactic(auto)]

pub mod block;
