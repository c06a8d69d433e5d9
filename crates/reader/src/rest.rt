// Reading a section whose words are not kept.
ghost use Rattle.std.specs.Prelude.{◌≡◌, ℕ, true, IfOk};
ghost use Rattle.bits.specs.Bits.{bits_of};
ghost use Rattle.format.specs.Format.{Format};
ghost use Rattle.frames.specs.Frames.{countable};
ghost use Rattle.reading.specs.Told.{told};
ghost use Rattle.reader.specs.Walks.{standing, has_room, stepped, next_section, moved};
ghost use Rattle.reader.specs.Sections.{rest, rows_in, head_in};
ghost use Rattle.reader.specs.Counts.{seen, outline, outline_in};

use crate::ends::{names_next, take_end, take_padding};
use crate::opening::Opening;
use crate::outline::Outline;
use crate::walk::Walk;
use faults::kind::{Fault, Kind};
use frames::count_words;
use limits::MOST_SECTIONS;
use reading::taken::Taken;
use words::pass::pass_words;

impl<'a> Walk<'a> {
    // Reads what follows the head of the next section; another may follow behind fewer than 63.
    fn pass_rest(&self, opening: Taken<Opening>) -> Result<Taken<Outline>, Fault>
        requires { countable (rows_in self.now.rows opening.value.rows) ≡ true }
        ensures { let s = standing self.now in told (outline_in (bits_of s.file)) result ≡ seen outline ((rest (has_room s) (head_in self.now.rows opening.value)).reads (bits_of s.file) opening.end.at.bits opening.end.last.bits) }
    {
        let Opening { raw, pointer, rows } = opening.value;
        let rows = &self.rows[..rows];
        let words = count_words(rows, raw).ok_or(Kind::PartialWord.at(opening.end.last))?;
        let passed = pass_words(self.source.bytes, opening.end, rows, words)?;
        let room = self.sections + 1 < MOST_SECTIONS;
        let closing = take_end(self.source, passed.at, room)?;
        let padding = take_padding(self.source, closing.end)?;
        if !names_next(pointer, closing.value, padding.end.at) {
            return Err(Kind::WrongPointer.at(padding.end.last));
        }
        Ok(padding.with(Outline {
            raw,
            words,
            closing: closing.value,
        }))
    }

    // Passes the next section. Fault 9 behind 64 of them.
    pub(crate) fn pass(&mut self) -> Result<Outline, Fault>
        ensures section { let s = standing self.old in (l : ℕ) → stepped (outline_in (bits_of s.file)) (standing self.new) result ≡ next_section s l }
        ensures moves { let v = standing self.new in IfOk result (λ o. v ≡ moved (standing self.old) v.place v.tried o.raw) }
    {
        if self.sections >= MOST_SECTIONS {
            return Err(Kind::OverLimit.at(self.end.last));
        }
        let opening = self.open()?;
        let passed = self.pass_rest(opening)?;
        self.end = passed.end;
        self.sections += 1;
        self.raw += passed.value.raw;
        Ok(passed.value)
    }
}
