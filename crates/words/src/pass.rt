// Words read one after the other, and not kept.
ghost use Rattle.std.specs.Prelude.{◌≡◌, ◌≤◌, length, replicate};
ghost use Rattle.bits.specs.Bits.{bits_of};
ghost use Rattle.layout.specs.Turns.{words_from, first_turn};
ghost use Rattle.calls.specs.Calls.{settings};
ghost use Rattle.words.specs.Words.{places, pass_answer, told, coder_answer, turn_of, Running, taken, word_next, Within, turn_behind};

use crate::turn::Turn;
use channel::record::Channel;
use channel::work::{PileCoder, Work};
use coder::step::Taken;
use faults::kind::{Fault, Kind};
use fields::place::{BitPlace, Cursor};
use frames::section::Rows;
use limits::{MOST_BYTES, MOST_CHANNELS};

// So many words of a file, to read from where a reader stands.
#[derive(Clone, Copy)]
struct Passing<'a> {
    file: &'a [u8],
    from: Cursor,
    count: u32,
}

impl Work for Passing<'_> {
    type Answer = Result<Cursor, Fault>;

    ghost Does = { λ p w C b r d. told r ≡ coder_answer C p.file.now p.from.at.bits p.from.last.bits p.count };

    fn run<C: PileCoder>(self, coder: &C, _buffer: &mut [u8]) -> Result<Cursor, Fault> {
        if self.file.len() > MOST_BYTES {
            return Err(Kind::WrongLength.at_start());
        }
        let mut memory = 0;
        let mut cursor = self.from;
        for _ in 0..self.count {
            let word = coder.take_from(memory, self.file, cursor.at)?;
            memory = word.next;
            cursor = cursor.past(word.len);
        }
        Ok(cursor)
    }
}

// The turn before the first word.
pub(crate) fn first_turn() -> Turn
    ensures { (result.channel ≡ 0) × (result.given ≡ 0) × (result.memories ≡ replicate 32 0) }
{
    Turn {
        channel: 0,
        given: 0,
        memories: [0; MOST_CHANNELS],
    }
}

// Reads the word whose turn it is and, where it is read, moves on to the next.
pub(crate) fn take_next(
    turn: &mut Turn,
    rows: Rows,
    file: &[u8],
    at: BitPlace,
) -> Result<Taken<u32>, Fault>
    requires { Running (length rows.table.now) turn.old }
    ensures word { taken at.bits result ≡ word_next (settings rows.entry.table.now) (turn_of (length rows.entry.table.now) turn.old) file.now at.bits }
    ensures within { Within at.bits (length file.now) result }
    ensures turn { turn_of (length rows.entry.table.now) turn.new ≡ turn_behind (settings rows.entry.table.now) (turn_of (length rows.entry.table.now) turn.old) result }
    ensures running { Running (length rows.entry.table.now) turn.new }
{
    let channel = turn.channel;
    let row = &rows.table[channel];
    let coder = row.coder().ok_or(Kind::WrongLength.at_start())?;
    let word = coder.take(turn.memories[channel], file, at)?;
    turn.memories[channel] = word.next;
    if turn.given + 1 >= row.repeats() {
        turn.given = 0;
        turn.channel = if channel + 1 < rows.table.len() {
            channel + 1
        } else {
            0
        };
    } else {
        turn.given += 1;
    }
    Ok(word)
}

// Reads so many words of rows in turn. The loop of `Passing` over another state: a trait for both would have to say the code
// and the step of each as ghost members, which is more than the loop.
fn pass_rows(file: &[u8], from: Cursor, rows: Rows, count: u32) -> Result<Cursor, Fault>
    requires { length file.now ≤ 16777216 }
    ensures { told result ≡ places ((words_from (settings rows.entry.table.now) count (first_turn (settings rows.entry.table.now))).reads (bits_of file.now) from.at.bits from.last.bits) }
{
    let mut turn = first_turn();
    let mut cursor = from;
    for _ in 0..count {
        let word = take_next(&mut turn, rows, file, cursor.at)?;
        cursor = cursor.past(word.len);
    }
    Ok(cursor)
}

// Reads so many words of a section from where a reader stands, the memories of all channels afresh.
// Answers where it then stands, or the fault at the form's first bit.
// Fault 1 where no section can have these rows or the file is over the limit.
pub fn pass_words(file: &[u8], from: Cursor, table: &[Channel], count: u32) -> Result<Cursor, Fault>
    ensures { told result ≡ pass_answer (settings table.now) file.now from.at.bits from.last.bits count }
{
    let rows = Rows::of(table).ok_or(Kind::WrongLength.at_start())?;
    if file.len() > MOST_BYTES {
        return Err(Kind::WrongLength.at_start());
    }
    if table.len() > 1 {
        return pass_rows(file, from, rows, count);
    }
    let coder = table[0].coder().ok_or(Kind::WrongLength.at_start())?;
    coder.run(Passing { file, from, count }, &mut [])
}
