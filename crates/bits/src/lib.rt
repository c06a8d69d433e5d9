#![tactic(auto)]

// The theory of bit strings: see specs/.
pub fn nothing() {}
