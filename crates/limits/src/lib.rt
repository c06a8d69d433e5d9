// The limits of a slim file.
#![tactic(auto)]

// The most bytes of a file.
pub const MOST_BYTES: usize = 16_777_216;

// The most raw bytes of a file's sections together.
pub const MOST_RAW: u32 = 16_777_216;

// The most sections of a file.
pub const MOST_SECTIONS: u32 = 64;

// The most channels of a section.
pub const MOST_CHANNELS: usize = 32;

// The most repeats of a channel.
pub const MOST_REPEATS: u32 = 16_777_215;

// The most bytes of a name.
pub const MOST_NAME: usize = 255;

// The most extra bytes.
pub const MOST_EXTRA: usize = 65535;

// The most leftovers.
pub const MOST_LEFTOVERS: usize = 7;
