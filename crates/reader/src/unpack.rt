// Unpacking a whole file.
ghost use Rattle.std.specs.Prelude.{◌≡◌, ◌+◌, ◌*◌, ◌≤◌, length};
ghost use Rattle.bits.specs.Bits.{bits_of, put_bits};
ghost use Rattle.reader.specs.Walks.{standing, AtFirst, all_sections};
ghost use Rattle.faults.specs.Faults.{answered};
ghost use Rattle.reader.specs.Written.{WritesNext};
ghost use Rattle.reading.specs.Told.{bits_in};
ghost use Rattle.reading.specs.Blocks.{bytes_at};
ghost use Rattle.reader.specs.Unpacking.{unpack_answer, unpack_bytes, Unpacks, RoomFor, body_answer, body_left};

use crate::check::check;
use crate::walk::Walk;
use faults::kind::{Fault, Kind};
use fields::bytes::are_bytes;
use fields::field::{put_field, window_at};
use fields::place::BytePlace;
use frames::count_words;
use reading::block::Block;
use reading::closing::Closing;
use reading::source::Source;
use words::spread::spread_words;

// Writes at most seven bytes of a file, from a byte on; they are one field.
fn write_leftovers(source: Source, leftovers: Block, out: &mut [u8], from: u32)
    requires few { leftovers.len ≤ 7 }
    requires room { from + leftovers.len ≤ length out.old }
    ensures { out.new ≡ put_bits out.old (8 * from) (bits_of (bytes_at (bits_in source.entry) leftovers)) }
{
    let bytes = window_at(source.bytes, leftovers.at);
    let place = BytePlace::new(from as usize).first_bit();
    put_field(out, place, bytes.bits, 8 * leftovers.len as u32);
}

impl<'a> Walk<'a> {
    // Writes the raw bytes of the next section behind those of the sections that were passed.
    fn write(&mut self, out: &mut [u8])
        ensures bytes { WritesNext (standing self.old) out.old out.new }
        ensures stays { standing self.new ≡ standing self.old }
    {
        let Ok(opening) = self.open() else {
            return;
        };
        let rows = &self.rows[..opening.value.rows];
        if let Some(words) = count_words(rows, opening.value.raw) {
            let from = BytePlace::new(self.raw as usize);
            spread_words(self.source.bytes, opening.end.at, rows, words, out, from);
        }
    }

    // Writes the raw bytes of all sections, from the first on, and behind them the leftovers, and answers their number.
    fn write_all(&mut self, out: &mut [u8]) -> Result<usize, Fault>
        requires first { AtFirst (standing self.old) }
        requires room { RoomFor (all_sections (standing self.old)) (length out.old) }
        ensures answer { answered (λ n. n) result ≡ body_answer (all_sections (standing self.old)) }
        ensures bytes { out.new ≡ body_left (all_sections (standing self.old)) out.old }
    {
        are_bytes(out);
        loop {
            self.write(out);
            let section = self.pass()?;
            if let Closing::Ended(leftovers) = section.closing {
                write_leftovers(self.source, leftovers, out, self.raw);
                return Ok(self.raw as usize + leftovers.len);
            }
        }
    }
}

// Checks a whole file, and then writes the raw bytes of all sections, one after the other, and behind them the leftovers to the front of `out`.
// Answers their number. Fault 2 where they have no room; after a fault `out` is as before.
pub fn unpack(file: &[u8], out: &mut [u8]) -> Result<usize, Fault>
    ensures answer { answered (λ n. n) result ≡ unpack_answer file.now (length out.old) }
    ensures bytes { out.new ≡ unpack_bytes file.now out.old }
    ensures accepted { Unpacks file.now out.old (answered (λ n. n) result) out.new }
{
    let totals = check(file)?;
    if totals.raw as usize + totals.leftovers > out.len() {
        return Err(Kind::OutputTooShort.at_start());
    }
    let mut walk = Walk::start(file)?;
    walk.write_all(out)
}
