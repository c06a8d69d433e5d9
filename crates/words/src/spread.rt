// Words read one after the other and written as raw bytes.
ghost use Rattle.std.specs.Prelude.{◌≡◌, ◌+◌, ◌/◌, ◌≤◌, length};
ghost use Rattle.layout.specs.Turns.{first_turn};
ghost use Rattle.calls.specs.Calls.{settings};
ghost use Rattle.words.specs.Spread.{spread_answer, spread_bytes, coder_spread, turn_spread};

use crate::pass::{first_turn, take_next};
use channel::record::Channel;
use channel::work::{PileCoder, Work};
use fields::bytes::are_bytes;
use fields::place::{BitPlace, BytePlace, Cursor};
use fields::raw::put_raw_word;
use frames::section::Rows;
use limits::MOST_BYTES;

// So many words of a file, to read from a place on and to write from a byte on.
#[derive(Clone, Copy)]
struct Spreading<'a> {
    file: &'a [u8],
    at: BitPlace,
    count: u32,
    to: BytePlace,
}

impl Work for Spreading<'_> {
    type Answer = bool;

    ghost Does = { λ s w C b r d. (r, d) ≡ coder_spread C ((w + 7) / 8) s.file.now s.at.bits s.count b s.to.bytes };

    // Up to the first word that is not read or has no room.
    fn run<C: PileCoder>(self, coder: &C, out: &mut [u8]) -> bool {
        if self.file.len() > MOST_BYTES {
            return false;
        }
        let size = coder.width().bytes();
        let mut memory = 0;
        let mut cursor = Cursor {
            at: self.at,
            last: self.at,
        };
        let mut to = self.to.bytes();
        for _ in 0..self.count {
            let Ok(word) = coder.take_from(memory, self.file, cursor.at) else {
                return false;
            };
            if !put_raw_word(out, BytePlace::new(to), word.word, size) {
                return false;
            }
            memory = word.next;
            cursor = cursor.past(word.len);
            to += size as usize;
        }
        true
    }
}

// The words of rows in turn. The loop of `Spreading` over another state: a trait for both would have to say the code, the step
// and the size of each as ghost members, which is more than the loop.
fn spread_rows(
    file: &[u8],
    at: BitPlace,
    rows: Rows,
    count: u32,
    out: &mut [u8],
    to: BytePlace,
) -> bool
    requires { length file.now ≤ 16777216 }
    ensures { (result, out.new) ≡ turn_spread (settings rows.entry.table.now) file.now count (first_turn (settings rows.entry.table.now)) at.bits out.old to.bytes }
{
    let mut turn = first_turn();
    let mut cursor = Cursor { at, last: at };
    let mut behind = to.bytes();
    for _ in 0..count {
        let size = rows.table[turn.channel].word_bytes();
        let Ok(word) = take_next(&mut turn, rows, file, cursor.at) else {
            return false;
        };
        if !put_raw_word(out, BytePlace::new(behind), word.word, size) {
            return false;
        }
        cursor = cursor.past(word.len);
        behind += size as usize;
    }
    true
}

// Reads so many words of a section from a place on, the memories of all channels afresh, and writes them as raw bytes
// from a byte on: low byte first, each as wide as its channel's words. True where all were read and had room.
// Where one was not, those before it are written. Nothing is where no section can have these rows or the file is over the limit.
// A bool, since the one who asks has checked the file and lets the answer go.
pub fn spread_words(
    file: &[u8],
    at: BitPlace,
    table: &[Channel],
    count: u32,
    out: &mut [u8],
    from: BytePlace,
) -> bool
    ensures answer { result ≡ spread_answer (settings table.now) file.now at.bits count (length out.old) from.bytes }
    ensures bytes { out.new ≡ spread_bytes (settings table.now) file.now at.bits count out.old from.bytes }
{
    are_bytes(out);
    let Some(rows) = Rows::of(table) else {
        return false;
    };
    if file.len() > MOST_BYTES {
        return false;
    }
    if table.len() > 1 {
        return spread_rows(file, at, rows, count, out, from);
    }
    let Some(coder) = table[0].coder() else {
        return false;
    };
    let work = Spreading {
        file,
        at,
        count,
        to: from,
    };
    coder.run(work, out)
}
