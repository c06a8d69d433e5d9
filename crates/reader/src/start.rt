// The first section of a file.
ghost use Rattle.std.specs.Prelude.{◌≡◌};
ghost use Rattle.layout.specs.Slim.{flag};
ghost use Rattle.reader.specs.Walks.{Begins};

use crate::walk::Walk;
use channel::record::Channel;
use faults::kind::Fault;
use limits::MOST_CHANNELS;
use reading::flagged::Flag;
use reading::source::Source;
use state::Flags;

// The flags that a flag byte has.
fn flags_in(byte: u32) -> Flags
    ensures { result ≡ record { sized = flag 0 byte; pointed = flag 3 byte; single = flag 4 byte; unrepeated = flag 5 byte } }
{
    Flags {
        sized: Flag::Size.is_set(byte),
        pointed: Flag::Pointer.is_set(byte),
        single: Flag::OneChannel.is_set(byte),
        unrepeated: Flag::NoRepeats.is_set(byte),
    }
}

impl<'a> Walk<'a> {
    // Reads the head of a file, and begins at its first section. Inlined, so that the rows are copied less: they are over a kilobyte.
    #[inline(always)]
    pub(crate) fn start(file: &'a [u8]) -> Result<Walk<'a>, Fault>
        ensures { Begins file.now result }
    {
        let source = Source::new(file)?;
        let head = source.take_head()?;
        Ok(Walk {
            source,
            size: head.value.size,
            flags: flags_in(head.value.flags),
            end: head.end,
            sections: 0,
            raw: 0,
            rows: [Channel::plain(); MOST_CHANNELS],
        })
    }
}
