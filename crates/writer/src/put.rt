// Putting one word.
ghost use Rattle.std.specs.Prelude.{◌≡◌, ◌<◌, ◌≤◌};
ghost use Rattle.layout.specs.Turns as turns;
ghost use Rattle.calls.specs.Calls.{strange, moved_on, put_result, put_spot, put_bytes, put_table};
ghost use Rattle.writer.specs.Answers.{put};

use crate::states::Inside;
use channel::record::Channel;
use faults::kind::{Fault, Kind};
use fields::place::BitPlace;
use limits::MOST_RAW;
use state::Spot;

// Are buffer and table of other lengths than before?
pub(crate) fn is_strange(spot: Spot, len: usize, rows: usize) -> bool
    ensures { result ≡ strange spot len rows }
{
    len != spot.edge.len || rows != spot.rows
}

// The channel behind another; the first follows the last.
fn following(rows: usize, channel: usize) -> usize
    requires { channel < rows }
    ensures value { result ≡ turns.following rows channel }
    ensures few { result < rows }
{
    if channel + 1 < rows { channel + 1 } else { 0 }
}

impl Inside {
    // Behind a word of a row, whose form has so many bits. A row gives way once its repeats are reached or passed.
    fn moved_on(&self, row: &Channel, len: u32) -> Spot
        ensures value { result ≡ moved_on self.now.spot row.now len }
        ensures turn { result.channel < result.rows }
        ensures given { result.given < 4294967295 }
    {
        let spot = self.spot;
        let at = BitPlace::new(spot.at.bits() + len as usize);
        let raw = spot.raw + row.word_bytes();
        let given = spot.given + 1;
        if row.repeats() <= given {
            Spot {
                at,
                channel: following(spot.rows, spot.channel),
                given: 0,
                raw,
                ..spot
            }
        } else {
            Spot {
                at,
                given,
                raw,
                ..spot
            }
        }
    }

    // Writes one word of the next channel and answers how many bits its form has. The row whose word it is moves its memory on.
    // Faults: 1 buffer or table of another length, 7 a row outside the rules, 9 over the limit of raw bytes, 7 a word without a form, 2 it does not fit.
    pub fn put(&mut self, buffer: &mut [u8], table: &mut [Channel], word: u32) -> Result<u32, Fault>
        ensures answer { put result ≡ put_result self.old.spot buffer.old table.old word }
        ensures state { self.new.spot ≡ put_spot self.old.spot buffer.old table.old word }
        ensures bytes { buffer.new ≡ put_bytes self.old.spot buffer.old table.old word }
        ensures table { table.new ≡ put_table self.old.spot buffer.old table.old word }
    {
        let spot = self.spot;
        if is_strange(spot, buffer.len(), table.len()) {
            return Err(Kind::WrongLength.at_start());
        }
        let row = table[spot.channel];
        let coder = row.coder().ok_or(Kind::NoForm.at(spot.at))?;
        if spot.edge.raw + spot.raw + row.word_bytes() > MOST_RAW {
            return Err(Kind::OverLimit.at(spot.at));
        }
        let put = coder.put(row.memory(), word, buffer, spot.at)?;
        table[spot.channel] = row.remembering(put.next);
        self.spot = self.moved_on(&row, put.len);
        Ok(put.len)
    }
}
