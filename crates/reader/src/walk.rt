// A walk over the sections of a file.
ghost use Rattle.std.specs.Prelude.{◌≤◌};

use channel::record::Channel;
use fields::place::Cursor;
use limits::MOST_CHANNELS;
use reading::source::Source;
use state::Flags;

#[derive(Clone, Copy)]
pub(crate) struct Walk<'a> {
    pub(crate) source: Source<'a>,
    // what the head of the file says
    pub(crate) size: Option<u32>,
    pub(crate) flags: Flags,
    // behind the sections that were passed
    pub(crate) end: Cursor,
    // how many these are, and their raw bytes
    pub(crate) sections: u32,
    pub(crate) raw: u32,
    // in the first rows the channels of the section last opened
    pub(crate) rows: [Channel; MOST_CHANNELS],
    ghost counted: { sections ≤ 64 },
    ghost few: { raw ≤ 16777216 },
}
