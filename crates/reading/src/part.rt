// A part of a file, in whole bytes.
use fields::place::BytePlace;

#[derive(Clone, Copy, Debug, PartialEq, Eq)]
pub struct Part {
    pub at: BytePlace,
    pub len: usize,
}
