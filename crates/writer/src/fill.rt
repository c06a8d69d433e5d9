// Filling a section from raw bytes.
ghost use Rattle.std.specs.Prelude.{◌≡◌};
ghost use Rattle.calls.specs.Calls.{start, settings, cut_short, fill_result, fill_bytes, fill_table};
ghost use Rattle.writer.specs.Answers.{put, filled};
ghost use Rattle.writer.specs.Filling.{Opened, poured, poured_result, poured_bytes};

use crate::guard::Guard;
use crate::rows::rest;
use crate::states::{Between, Filled, Inside, Refused};
use channel::record::Channel;
use faults::kind::Fault;

impl Inside {
    // Puts all words of raw bytes, under a guard that zeroes the section where one meets a fault.
    fn pour(&mut self, buffer: &mut [u8], table: &mut [Channel], raw: &[u8]) -> Result<usize, Fault>
        requires { Opened self.old.spot buffer.old table.old }
        ensures answer { put result ≡ poured_result (poured self.old.spot buffer.old table.old raw.now) (cut_short (settings table.old) raw.now) }
        ensures state { self.new.spot ≡ (poured self.old.spot buffer.old table.old raw.now).spot }
        ensures bytes { buffer.new ≡ poured_bytes (poured self.old.spot buffer.old table.old raw.now) (cut_short (settings table.old) raw.now) (start self.old.spot.edge) }
        ensures table { table.new ≡ (poured self.old.spot buffer.old table.old raw.now).table }
    {
        let mut guard = Guard {
            buffer,
            start: self.spot.edge.at.first_bit(),
            complete: false,
        };
        let bits = if table.len() == 1 {
            self.pour_one(guard.buffer, table, raw)?
        } else {
            self.pour_each(guard.buffer, table, raw)?
        };
        guard.complete = true;
        Ok(bits)
    }
}

impl Between {
    // Opens a section, puts all words of raw bytes and leaves it open; answers how many bits the words take.
    // Faults: those of open, then those of each put in order, then 13 raw bytes that end inside a word.
    // A section that was opened and met a fault is zeroed, and its rows are at their starting memories.
    pub fn fill(
        self,
        buffer: &mut [u8],
        table: &mut [Channel],
        raw: &[u8],
    ) -> Result<Filled, Refused<Between>>
        ensures answer { filled result ≡ fill_result self.edge buffer.old table.old raw.now }
        ensures bytes { buffer.new ≡ fill_bytes self.edge buffer.old table.old raw.now }
        ensures table { table.new ≡ fill_table self.edge buffer.old table.old raw.now }
    {
        let mut inside = self.open(buffer, table)?;
        match inside.pour(buffer, table, raw) {
            Ok(bits) => Ok(Filled {
                writer: inside,
                bits,
            }),
            Err(fault) => {
                rest(table);
                Err(Refused::new(inside.edge_of(), fault))
            }
        }
    }
}
