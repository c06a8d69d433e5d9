// Coders: what one is, the changes that go over any, and the step of one word.
#![tactic(auto)]

pub mod coder;
pub mod delta;
pub mod form;
pub mod laws;
pub mod modular;
pub mod raw_words;
pub mod step;
pub mod steps;
pub mod turn;
pub mod width;
