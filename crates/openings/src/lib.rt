// Writing the head of a section: the raw size and the pointer, both still 0, the channel count, and the descriptions of the channels.
#![tactic(auto)]

ghost use Rattle.std.specs.Prelude.{◌≡◌, ◌+◌, ◌*◌, ◌≤◌, true, ◌&&◌, ◌||◌, length, if◌then◌else◌, Some, None, ◌==◌};
ghost use Rattle.std.specs.Option.{option_map};
ghost use Rattle.bits.specs.Bits.{put_bits};
ghost use Rattle.layout.specs.Channels.{ruled};
ghost use Rattle.channel.specs.Records.{settings_of};
ghost use Rattle.calls.specs.Calls.{settings, describable};
ghost use Rattle.openings.specs.Openings.{opening, openable};
ghost use Rattle.openings.specs.Steps.{front, rows_bits};

use channel::record::Channel;
use fields::bytes::are_bytes;
use fields::field::put_field;
use fields::place::{BitPlace, BytePlace};
use frames::rows_describable;
use limits::{MOST_BYTES, MOST_CHANNELS};
use state::Flags;

// The bits of the raw size, and of the pointer.
const NUMBER_LEN: u32 = 32;

// The bits of the channel count.
const COUNT_LEN: u32 = 24;

// How many bits the raw size and the pointer take.
fn zeros_len(flags: Flags) -> u32
    ensures { result ≡ (if flags.pointed then 64 else 32) }
{
    if flags.pointed {
        2 * NUMBER_LEN
    } else {
        NUMBER_LEN
    }
}

// How many bits stand before the rows.
fn front_len(flags: Flags) -> u32
    ensures len { result ≡ length (front flags 0) }
    ensures most { result ≤ 88 }
{
    let zeros = zeros_len(flags);
    if flags.single {
        zeros
    } else {
        zeros + COUNT_LEN
    }
}

// How many bits the rows take.
fn rows_len(table: &[Channel], recorded: bool) -> u32
    requires { length table.now ≤ 32 }
    ensures len { result ≡ length (rows_bits recorded (settings table.now)) }
    ensures most { result ≤ 2400 }
{
    table.iter().map(|row| row.description_len(recorded)).sum()
}

// Writes what stands before the rows, and answers the place behind it.
fn put_front(buffer: &mut [u8], at: BitPlace, flags: Flags, rows: usize) -> BitPlace
    requires few { length buffer.old ≤ 16777216 }
    requires room { at.bits + length (front flags rows) ≤ 8 * length buffer.old }
    ensures place { result.bits ≡ at.bits + length (front flags rows) }
    ensures bytes { buffer.new ≡ put_bits buffer.old at.bits (front flags rows) }
{
    let zeros = zeros_len(flags);
    put_field(buffer, at, 0, zeros);
    let place = at.plus(zeros as usize);
    if flags.single {
        return place;
    }
    put_field(buffer, place, rows as u64, COUNT_LEN);
    place.plus(COUNT_LEN as usize)
}

// Writes the descriptions of rows that can be described, and answers the place behind them.
fn put_rows(buffer: &mut [u8], at: BitPlace, table: &[Channel], recorded: bool) -> BitPlace
    requires few { length buffer.old ≤ 16777216 }
    requires rows { describable recorded (settings table.now) ≡ true }
    requires room { at.bits + length (rows_bits recorded (settings table.now)) ≤ 8 * length buffer.old }
    ensures place { result.bits ≡ at.bits + length (rows_bits recorded (settings table.now)) }
    ensures bytes { buffer.new ≡ put_bits buffer.old at.bits (rows_bits recorded (settings table.now)) }
{
    are_bytes(buffer);
    let mut place = at;
    for row in table {
        row.put_description(buffer, place, recorded);
        place = place.plus(row.description_len(recorded) as usize);
    }
    place
}

// Writes the head of a section at a byte and answers the place behind it.
// Nothing, and nothing is written, where the buffer is over 16,777,216 bytes, the table over 32 rows, a row cannot be described, or the head would pass the buffer's end.
pub fn put_opening(
    buffer: &mut [u8],
    at: BytePlace,
    flags: Flags,
    table: &[Channel],
) -> Option<BitPlace>
    ensures place { option_map (λ p. p.bits) result ≡ (if openable (length buffer.old) at.bytes flags table.now then Some (8 * at.bytes + length (opening flags table.now)) else None) }
    ensures bytes { buffer.new ≡ (if openable (length buffer.old) at.bytes flags table.now then put_bits buffer.old (8 * at.bytes) (opening flags table.now) else buffer.old) }
{
    if buffer.len() > MOST_BYTES || table.len() > MOST_CHANNELS {
        return None;
    }
    let recorded = flags.records_repeats(table.len());
    if !rows_describable(table, recorded) {
        return None;
    }
    let start = at.first_bit();
    let end = start.plus((front_len(flags) + rows_len(table, recorded)) as usize);
    if end.bits() > 8 * buffer.len() {
        return None;
    }
    let place = put_front(buffer, start, flags, table.len());
    Some(put_rows(buffer, place, table, recorded))
}
