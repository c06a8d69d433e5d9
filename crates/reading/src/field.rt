// One field of a file.
ghost use Rattle.std.specs.Prelude.{◌≡◌, ℕ, ◌+◌, ◌<◌, nat_le};
ghost use Rattle.format.specs.Cells.{size};
ghost use Rattle.reading.specs.Told.{bits_in, told, taking};

use crate::source::Source;
use crate::taken::Taken;
use faults::kind::{Fault, Kind};
use fields::field::take_field;
use fields::place::{BitPlace, Cursor};

impl<'a> Source<'a> {
    // Does a field of so many bits remain? Looks first whether any bit does, and then whether enough do.
    pub(crate) fn remains(self, at: BitPlace, count: usize) -> bool
        requires { 0 < count }
        ensures { result ≡ nat_le (at.bits + count) (size (bits_in self.entry)) }
    {
        let end = 8 * self.bytes.len();
        at.bits() < end && at.plus(count).bits() <= end
    }

    // Takes the field of `count` bits at a place, of any value. Fault 11 where it does not remain.
    pub fn take(self, at: BitPlace, count: u32) -> Result<Taken<u64>, Fault>
        ensures { (l : ℕ) → told (λ v. v) result ≡ taking 64 count (bits_in self.entry) at.bits l }
    {
        if count == 0 || !self.remains(at, count as usize) {
            return Err(Kind::InputEnds.at(at));
        }
        let value = take_field(self.bytes, at, count).ok_or(Kind::InputEnds.at(at))?;
        let end = Cursor {
            at: at.plus(count as usize),
            last: at,
        };
        Ok(Taken { value, end })
    }

    // Takes the field of `count` bits at a place, at most 32, of any value. Fault 11 where it does not remain.
    pub fn take_number(self, at: BitPlace, count: u32) -> Result<Taken<u32>, Fault>
        ensures { (l : ℕ) → told (λ v. v) result ≡ taking 32 count (bits_in self.entry) at.bits l }
    {
        if count > 32 {
            return Err(Kind::InputEnds.at(at));
        }
        let taken = self.take(at, count)?;
        Ok(taken.with(taken.value as u32))
    }
}
