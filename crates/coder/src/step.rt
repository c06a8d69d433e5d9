// What the step of one word answers. M is what is known behind the word.

// A word was put: its form has so many bits, and this is the memory behind it.
#[derive(Clone, Copy)]
pub struct Put<M> {
    pub len: u32,
    pub next: M,
}

// A word was read: its form has so many bits, and this is the memory behind it.
#[derive(Clone, Copy)]
pub struct Taken<M> {
    pub word: u32,
    pub len: u32,
    pub next: M,
}
