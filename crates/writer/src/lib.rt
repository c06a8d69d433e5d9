// The writer of slim files: begin, open, put, more, last, void and fill.
#![tactic(auto)]

pub mod begin;
pub mod close;
pub mod fill;
mod guard;
pub mod open;
mod pour;
pub mod put;
mod rows;
mod single;
pub mod states;
pub mod void;
