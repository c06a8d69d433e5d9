// Reading slim files.
#![tactic(auto)]

pub mod check;
pub mod describe;
mod ends;
mod opening;
mod outline;
mod rest;
mod sections;
mod start;
pub mod totals;
pub mod unpack;
mod walk;
