// Reading the parts of a slim file.
#![tactic(auto)]

mod added;
pub mod block;
pub mod closing;
pub mod description;
pub mod ending;
pub mod field;
pub mod flagged;
pub mod front;
pub mod head;
pub mod item;
pub mod items;
pub mod part;
pub mod source;
pub mod taken;
