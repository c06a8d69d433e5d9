// The slim file of raw bytes: one section of one channel.
ghost use Rattle.std.specs.Prelude.{◌≡◌, []};
ghost use Rattle.calls.specs.Calls.{fill_result, fill_bytes, fill_table, last_result, last_bytes};
ghost use Rattle.writer.specs.Answers.{put};
ghost use Rattle.slim_file.specs.Files.{spotted, only_spot, only_size, record_result, IsRecorded};

use channel::make::channel;
use channel::record::Channel;
use faults::kind::{Fault, Kind};
use state::Flags;
use writer::begin::begin;
use writer::states::{Between, Filled, Inside, Refused};

// The most raw bytes.
pub(crate) const MOST_RAW: usize = 32768;

// Fills a section with the words of raw bytes; a fault gives the writer up. By a match, since no `?` is to give a writer up unseen.
fn fill(
    between: Between,
    buffer: &mut [u8],
    table: &mut [Channel],
    raw: &[u8],
) -> Result<Inside, Fault>
    ensures answer { spotted result ≡ only_spot (fill_result between.edge buffer.old table.old raw.now) }
    ensures bytes { buffer.new ≡ fill_bytes between.edge buffer.old table.old raw.now }
    ensures table { table.new ≡ fill_table between.edge buffer.old table.old raw.now }
{
    match between.fill(buffer, table, raw) {
        Ok(Filled { writer, bits: _ }) => Ok(writer),
        Err(Refused { writer, fault }) => {
            writer.stop();
            Err(fault)
        }
    }
}

// Ends the file without leftovers and answers how many bytes it has; a fault gives the writer up.
fn end(inside: Inside, buffer: &mut [u8], table: &[Channel]) -> Result<usize, Fault>
    ensures answer { put result ≡ only_size (last_result inside.spot buffer.old table.now []) }
    ensures bytes { buffer.new ≡ last_bytes inside.spot buffer.old table.now [] }
{
    match inside.last(buffer, table, &[]) {
        Ok(ended) => Ok(ended.size()),
        Err(Refused { writer, fault }) => {
            writer.stop();
            Err(fault)
        }
    }
}

// Writes the slim file of raw bytes from the buffer's first byte on, and answers how many bytes it has.
// Each byte is a word, in reduced binary with R 3 above a pedestal of 10.
// Faults: 1 too many raw bytes, then those of begin, of fill and of last.
pub(crate) fn record_bytes(raw: &[u8], buffer: &mut [u8]) -> Result<usize, Fault>
    ensures answer { put result ≡ record_result raw.now buffer.old }
    ensures file { IsRecorded result buffer.new raw.now }
{
    if raw.len() > MOST_RAW {
        return Err(Kind::WrongLength.at_start());
    }
    let mut table = [channel(1, false, 0, 1, 7, 3, 10)?];
    let flags = Flags {
        sized: true,
        pointed: false,
        single: false,
        unrepeated: false,
    };
    let between = begin(buffer, 0, flags, None, None)?;
    let inside = fill(between, buffer, &mut table, raw)?;
    end(inside, buffer, &table)
}
