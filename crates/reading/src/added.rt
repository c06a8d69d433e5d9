// What an algorithm adds to a channel's description.

// R of reduced binary, else 0, and the pedestal or the constant's word, else 0.
#[derive(Clone, Copy, Debug, PartialEq, Eq)]
pub(crate) struct Added {
    pub(crate) narrow: u32,
    pub(crate) value: u32,
}
