// The coders' settings, which keep the rules in every value.
ghost use Rattle.std.specs.Prelude.{ℕ, ◌^◌, ◌<◌, ◌≤◌};

// Null: each string of W bits stands for its number.
#[derive(Clone, Copy)]
pub struct Null<const W: u32> {
    ghost width: { (0 < W) × (W ≤ 32) },
}

// Constant: the empty string stands for `word`, and no other word has a form.
#[derive(Clone, Copy)]
pub struct Constant<const W: u32> {
    pub(crate) word: u32,
    ghost width: { (0 < W) × (W ≤ 32) },
    ghost small: { word < 2 ^ W },
}

// Reduced binary: the words from `pedestal` on in `narrow` bits, and any other as `narrow` ones and then the word whole.
#[derive(Clone, Copy)]
pub struct Reduced<const W: u32> {
    pub(crate) narrow: u32,
    pub(crate) pedestal: u32,
    ghost width: { (0 < W) × (W ≤ 32) },
    ghost some: { 0 < narrow },
    ghost most: { narrow ≤ W },
    ghost small: { pedestal < 2 ^ W },
}

// One of the three, chosen at run time.
#[derive(Clone, Copy)]
pub enum Algorithm<const W: u32> {
    Null(Null<W>),
    Constant(Constant<W>),
    Reduced(Reduced<W>),
}
