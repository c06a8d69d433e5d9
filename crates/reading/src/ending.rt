// The end of a section.
ghost use Rattle.std.specs.Prelude.{◌≡◌, ℕ, ◌<◌, ◌≤◌};
ghost use Rattle.format.specs.Format.{Format};
ghost use Rattle.layout.specs.Slim as slim;
ghost use Rattle.reading.specs.Told.{bits_in, told};
ghost use Rattle.reading.specs.Blocks.{bytes_at, closing_of};

use crate::block::Block;
use crate::closing::Closing;
use crate::source::Source;
use crate::taken::Taken;
use faults::kind::{Fault, Kind};
use fields::place::{BitPlace, Cursor};

impl<'a> Source<'a> {
    // Takes so many bytes as one field.
    pub(crate) fn take_block(self, at: BitPlace, len: usize) -> Result<Taken<Block>, Fault>
        requires { (0 < len) × (len ≤ 65535) }
        ensures { (l : ℕ) → told (bytes_at (bits_in self.entry)) result ≡ (slim.block len).reads (bits_in self.entry) at.bits l }
    {
        let count = 8 * len;
        if !self.remains(at, count) {
            return Err(Kind::InputEnds.at(at));
        }
        let end = Cursor {
            at: at.plus(count),
            last: at,
        };
        Ok(Taken {
            value: Block { at, len },
            end,
        })
    }

    // Takes the count of leftovers, and the leftovers.
    fn take_leftovers(self, at: BitPlace) -> Result<Taken<Closing>, Fault>
        ensures { (l : ℕ) → told (closing_of (bits_in self.entry)) result ≡ (slim.leftover).reads (bits_in self.entry) at.bits l }
    {
        let count = self.take_number(at, 3)?;
        if count.value == 0 {
            return Err(Kind::LeftoverCount.at(at));
        }
        let leftovers = self.take_block(count.end.at, count.value as usize)?;
        Ok(leftovers.with(Closing::Ended(leftovers.value)))
    }

    // Takes what closes a section: the tag, and the leftovers if there are any.
    pub fn take_closing(self, at: BitPlace) -> Result<Taken<Closing>, Fault>
        ensures { (l : ℕ) → told (closing_of (bits_in self.entry)) result ≡ (slim.closing).reads (bits_in self.entry) at.bits l }
    {
        let tag = self.take_number(at, 4)?;
        match tag.value {
            8 => Ok(tag.with(Closing::Another)),
            15 => Ok(tag.with(Closing::Ended(Block {
                at: tag.end.at,
                len: 0,
            }))),
            14 => self.take_leftovers(tag.end.at),
            _ => Err(Kind::BadTag.at(at)),
        }
    }
}
