// A section whose words are not kept.
use reading::closing::Closing;

// Its raw bytes, the number of its words, and what closes it.
#[derive(Clone, Copy, Debug, PartialEq, Eq)]
pub(crate) struct Outline {
    pub(crate) raw: u32,
    pub(crate) words: u32,
    pub(crate) closing: Closing,
}
