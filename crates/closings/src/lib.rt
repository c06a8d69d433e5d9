// What closes a section: a tag, leftovers behind the last, and zeros up to a whole byte.
#![tactic(auto)]

ghost use Rattle.std.specs.Prelude.{◌≡◌, ◌^◌, ◌<◌, ◌≤◌, length};
ghost use Rattle.std.specs.Option.{option_map};
ghost use Rattle.format.specs.Format.{gap};
ghost use Rattle.layout.specs.Slim.{another, ended};
ghost use Rattle.closings.specs.Closings.{padded_end, padded_bytes, closing_end, closing_bytes};

use fields::bytes::are_bytes;
use fields::field::{put_field, take_field};
use fields::place::{BitPlace, BytePlace};
use limits::{MOST_BYTES, MOST_LEFTOVERS};

// The most bits of a file.
const MOST_BITS: usize = 8 * MOST_BYTES;

// The tag of a section that another follows.
const ANOTHER: u64 = 8;

// The tag of the end.
const END: u64 = 15;

// The tag of the end with leftovers; their number follows.
const END_WITH_LEFTOVERS: u64 = 14;

// The bits of a tag.
const TAG_LEN: u32 = 4;

// The bits of a tag and the number of leftovers.
const COUNTED_LEN: u32 = 7;

// How many bits lead from a place to a whole byte.
fn gap_at(at: usize) -> u32
    ensures gap { result ≡ gap at }
    ensures few { result ≤ 7 }
{
    ((8 - at % 8) % 8) as u32
}

// Writes a number and zeros up to a whole byte, and answers the byte behind.
fn put_padded(buffer: &mut [u8], at: usize, value: u64, count: u32) -> Option<BytePlace>
    requires few { count ≤ 56 }
    requires small { value < 2 ^ count }
    requires near { at ≤ 134217735 }
    ensures place { option_map (λ (p : BytePlace). p.bytes) result ≡ padded_end at value count (length buffer.old) }
    ensures bytes { buffer.new ≡ padded_bytes at value count buffer.old }
{
    let whole = count + gap_at(at + count as usize);
    let end = BytePlace::new((at + whole as usize) / 8);
    put_field(buffer, BitPlace::new(at), value, whole).then_some(end)
}

// Closes a section that another follows, and answers the byte behind.
// Nothing is answered and nothing written where the buffer is over the limit or the closing does not fit.
pub fn put_more(buffer: &mut [u8], at: BitPlace) -> Option<BytePlace>
    ensures place { option_map (λ (p : BytePlace). p.bytes) result ≡ closing_end at.bits another (length buffer.old) }
    ensures bytes { buffer.new ≡ closing_bytes at.bits another buffer.old }
{
    let at = at.bits();
    if buffer.len() > MOST_BYTES || at > MOST_BITS {
        return None;
    }
    put_padded(buffer, at, ANOTHER, TAG_LEN)
}

// Writes the tag, the number of leftovers and the leftovers.
fn put_leftovers(buffer: &mut [u8], at: usize, leftovers: &[u8]) -> Option<BytePlace>
    requires some { 1 ≤ length leftovers.now }
    requires few { length leftovers.now ≤ 7 }
    requires near { at ≤ 134217728 }
    requires room { length buffer.old ≤ 16777216 }
    ensures place { option_map (λ (p : BytePlace). p.bytes) result ≡ closing_end at (ended leftovers.now) (length buffer.old) }
    ensures bytes { buffer.new ≡ closing_bytes at (ended leftovers.now) buffer.old }
{
    let count = 8 * leftovers.len() as u32;
    let first = at + COUNTED_LEN as usize;
    let end = first + count as usize;
    if end + gap_at(end) as usize > 8 * buffer.len() {
        return None;
    }
    let bytes = take_field(leftovers, BitPlace::new(0), count)?;
    put_field(
        buffer,
        BitPlace::new(at),
        END_WITH_LEFTOVERS + 16 * leftovers.len() as u64,
        COUNTED_LEN,
    );
    put_padded(buffer, first, bytes, count)
}

// Closes the last section, and answers the byte behind.
// Nothing is answered and nothing written where the buffer is over the limit, there are over 7 leftovers, or the closing does not fit.
pub fn put_end(buffer: &mut [u8], at: BitPlace, leftovers: &[u8]) -> Option<BytePlace>
    ensures place { option_map (λ (p : BytePlace). p.bytes) result ≡ closing_end at.bits (ended leftovers.now) (length buffer.old) }
    ensures bytes { buffer.new ≡ closing_bytes at.bits (ended leftovers.now) buffer.old }
{
    let at = at.bits();
    if buffer.len() > MOST_BYTES || at > MOST_BITS || leftovers.len() > MOST_LEFTOVERS {
        return None;
    }
    if leftovers.is_empty() {
        return put_padded(buffer, at, END, TAG_LEN);
    }
    put_leftovers(buffer, at, leftovers)
}
