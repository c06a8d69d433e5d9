// A file to read, no longer than files may be.
ghost use Rattle.std.specs.Prelude.{◌≤◌, length};

use faults::kind::{Fault, Kind};
use limits::MOST_BYTES;

#[derive(Clone, Copy)]
pub struct Source<'a> {
    pub bytes: &'a [u8],
    ghost small: { length bytes.now ≤ 16777216 },
}

impl<'a> Source<'a> {
    ghost use Rattle.reading.specs.Sources.{Opened};

    // The bytes of a file. Fault 1 where they are too many.
    pub fn new(bytes: &'a [u8]) -> Result<Source<'a>, Fault>
        ensures { Opened bytes.now result }
    {
        if bytes.len() > MOST_BYTES {
            return Err(Kind::WrongLength.at_start());
        }
        Ok(Source { bytes })
    }
}
