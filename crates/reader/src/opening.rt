// The head of a section, as it is read.
ghost use Rattle.std.specs.Prelude.{◌≤◌};

// The raw size, the pointer if there is one, and how many rows of a table the channels take.
#[derive(Clone, Copy, Debug, PartialEq, Eq)]
pub(crate) struct Opening {
    pub(crate) raw: u32,
    pub(crate) pointer: Option<u32>,
    pub(crate) rows: usize,
    ghost few: { rows ≤ 32 },
}
