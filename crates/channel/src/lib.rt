// Channel records: the settings of a channel and its memory.
#![tactic(auto)]

pub mod channel_coder;
pub mod describe;
pub mod make;
pub mod names;
pub mod pile;
pub mod record;
pub mod words;
pub mod work;
