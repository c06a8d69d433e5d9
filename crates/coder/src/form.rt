// What passes between a coder and a buffer.

// A form: `len` bits, the lowest first, which are the low bits of a number.
#[derive(Clone, Copy, Debug, PartialEq, Eq)]
pub struct Form {
    pub bits: u64,
    pub len: u32,
}

// A word's form, and the memory behind the word.
#[derive(Clone, Copy)]
pub struct Coded<M> {
    pub form: Form,
    pub next: M,
}

// Why no word is read at the front of some bits: a dead form of `len` bits stands there, or a proper beginning of a form.
#[derive(Clone, Copy, Debug, PartialEq, Eq)]
pub enum Unread {
    Dead { len: u32 },
    Partial,
}
