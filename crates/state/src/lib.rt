// What a writer knows, as plain numbers.
#![tactic(auto)]

ghost use Rattle.std.specs.Prelude.{◌≡◌, ◌&&◌, not, nat_lt};

use fields::place::{BitPlace, BytePlace};

// The flags of a file that the caller chooses; a name and extra bytes are flagged by being there.
#[derive(Clone, Copy, Debug, PartialEq, Eq)]
pub struct Flags {
    pub sized: bool,
    pub pointed: bool,
    pub single: bool,
    pub unrepeated: bool,
}

impl Flags {
    // Are the repeats of so many channels recorded?
    pub fn records_repeats(self, channels: usize) -> bool
        ensures { result ≡ (nat_lt 1 channels && not self.unrepeated) }
    {
        channels > 1 && !self.unrepeated
    }
}

// Between two sections: the buffer's length, the flags, the byte where the next section starts, and how many sections and raw bytes are closed.
#[derive(Clone, Copy, Debug, PartialEq, Eq)]
pub struct Edge {
    pub len: usize,
    pub flags: Flags,
    pub at: BytePlace,
    pub sections: u32,
    pub raw: u32,
}

// Inside a section: where it starts, the bit where the next word goes, how many rows the table has, whose word is next,
// how many words that channel has given in a row, and the section's raw bytes so far.
#[derive(Clone, Copy, Debug, PartialEq, Eq)]
pub struct Spot {
    pub edge: Edge,
    pub at: BitPlace,
    pub rows: usize,
    pub channel: usize,
    pub given: u32,
    pub raw: u32,
}
