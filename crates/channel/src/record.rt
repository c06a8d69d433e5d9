// A row of a channel table. No invariant is in its type, and what it names is said by numbers: what uses a row judges it.

// A channel's settings.
#[derive(Clone, Copy)]
pub struct Settings {
    // how many words it gives in a row
    pub(crate) repeats: u32,
    // whether differences are written
    pub(crate) delta: bool,
    // by how many places words are rotated right
    pub(crate) turn: u32,
    // 0 null, 1 reduced binary, 6 constant
    pub(crate) algorithm: u32,
    // the type of the words
    pub(crate) kind: u32,
    // R of reduced binary, else 0
    pub(crate) narrow: u32,
    // the pedestal of reduced binary, the constant's word, else 0
    pub(crate) value: u32,
}

// A channel: its settings and, beside them, the word before, where differences are written.
#[derive(Clone, Copy)]
pub struct Channel {
    pub(crate) settings: Settings,
    pub(crate) memory: u32,
}
