// Whose word is next.

use limits::MOST_CHANNELS;

// Each channel gives its repeats in turn and has a memory of its own.
#[derive(Clone, Copy)]
pub(crate) struct Turn {
    pub(crate) channel: usize,
    // how many words it has given in a row
    pub(crate) given: u32,
    // one for each row, beside the rows, which are lent and stay as they are
    pub(crate) memories: [u32; MOST_CHANNELS],
}
