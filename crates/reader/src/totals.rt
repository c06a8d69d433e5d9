// A file in numbers.

// The numbers of sections, words, raw bytes and leftovers.
#[derive(Clone, Copy, Debug, PartialEq, Eq)]
pub struct Totals {
    pub sections: u32,
    pub words: u32,
    pub raw: u32,
    pub leftovers: usize,
}
