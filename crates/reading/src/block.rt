// Bytes of a file that are one field.
use fields::place::BitPlace;

// So many bytes from a place on, which need not be that of a whole byte.
#[derive(Clone, Copy, Debug, PartialEq, Eq)]
pub struct Block {
    pub at: BitPlace,
    pub len: usize,
}
