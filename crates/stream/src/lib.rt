// Many words of one coder, put one after the other.
#![tactic(auto)]

pub mod streamed;
pub mod words;
