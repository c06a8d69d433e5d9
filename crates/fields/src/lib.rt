// Fields of bits in a lent buffer of bytes: lowest bit first in a byte and in a number, byte 0 before byte 1.
#![tactic(auto)]

pub mod accumulator;
pub mod bytes;
pub mod clear;
pub mod field;
pub mod part;
pub mod place;
pub mod raw;
mod word;
