// Parts that are there only where they are flagged.
ghost use Rattle.std.specs.Prelude.{◌≡◌, true, false};
ghost use Rattle.reading.specs.Flags.{flag_bit, absent, Present};
ghost use Rattle.layout.specs.Slim as slim;

use crate::source::Source;
use crate::taken::Taken;
use faults::kind::Fault;
use fields::place::{BitPlace, Cursor};

// The flags of a file, by the bits of the flag byte.
#[derive(Clone, Copy, Debug, PartialEq, Eq)]
pub enum Flag {
    Size = 0,
    Name = 1,
    Extra = 2,
    Pointer = 3,
    OneChannel = 4,
    NoRepeats = 5,
}

impl Flag {
    // Is the flag set in a flag byte?
    pub fn is_set(self, byte: u32) -> bool
        ensures { result ≡ slim.flag (flag_bit self) byte }
    {
        byte >> (self as u32) & 1 == 1
    }
}

impl<'a> Source<'a> {
    // Takes what `take` takes of this file, if it is flagged. The file is handed to `take`, since a closure that holds it says nothing of its result here.
    // It requires that `take` may be called, as any function must that is handed another.
    pub fn take_flagged<T: Copy, F: FnOnce(Source<'a>, BitPlace) -> Result<Taken<T>, Fault>>(
        self,
        flagged: bool,
        from: Cursor,
        take: F,
    ) -> Result<Taken<Option<T>>, Fault>
        requires { flagged ≡ true → F.pre take self from.at }
        ensures absent { flagged ≡ false → result ≡ absent from }
        ensures present { flagged ≡ true → Present (F.post take self.entry from.at) result }
    {
        if !flagged {
            return Ok(Taken {
                value: None,
                end: from,
            });
        }
        let taken = take(self, from.at)?;
        Ok(taken.with(Some(taken.value)))
    }
}
