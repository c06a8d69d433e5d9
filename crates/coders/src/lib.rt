// The coders of slim files, and the pile of a channel.
#![tactic(auto)]

pub mod algorithm;
pub mod beside;
pub mod constant;
pub mod flagged;
pub mod kinds;
pub mod null;
pub mod pile;
pub mod reduced;
