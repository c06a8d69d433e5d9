// One field of at most 64 bits, written or read at a place.
ghost use Rattle.std.specs.Prelude.{◌≡◌, ℕ, ◌+◌, ◌*◌, ◌≤◌, length, if◌then◌else◌, Some, None};
ghost use Rattle.bits.specs.Bits.{bits, put_bits, field_at};
ghost use Rattle.fields.specs.Fields.{is_field, remaining};

use crate::place::BitPlace;
use crate::word::{lies_within, load, low, merged, put_by_bytes, store, take_by_bytes};

// The next 64 bits of a file, as a number, and how many of them there are; the others are zero.
#[derive(Clone, Copy)]
pub struct Window {
    pub bits: u64,
    pub len: u32,
}

// Writes the low `count` bits of `value`, where they lie within the buffer.
fn put_inside(buffer: &mut [u8], at: usize, value: u64, count: u32)
    requires { (count ≤ 64) × (at + count ≤ 8 * length buffer.old) }
    ensures { buffer.new ≡ put_bits buffer.old at (bits count value) }
{
    let p = at / 8;
    let shift = (at % 8) as u32;
    if p + 8 <= buffer.len() {
        let word = load(buffer, p);
        if shift + count <= 64 {
            store(buffer, p, merged(word, shift, value, count));
        } else {
            let have = 64 - shift;
            store(buffer, p, merged(word, shift, value, have));
            put_by_bytes(buffer, p + 8, 0, value >> have, count - have);
        }
    } else {
        put_by_bytes(buffer, p, shift, value, count);
    }
}

// Writes the low `count` bits of `value` at a place and changes no other bit.
// False, and nothing is written, where there are over 64 bits or they would pass the buffer's end.
// A bool, since there is one refusal, and a caller that has shown the room lets the answer go.
pub fn put_field(buffer: &mut [u8], at: BitPlace, value: u64, count: u32) -> bool
    ensures put { result ≡ is_field at.bits count (length buffer.old) }
    ensures bytes { buffer.new ≡ (if is_field at.bits count (length buffer.old) then put_bits buffer.old at.bits (bits count value) else buffer.old) }
{
    let at = at.bits();
    if count > 64 {
        return false;
    }
    if !lies_within(at, count, buffer.len()) {
        return false;
    }
    put_inside(buffer, at, value, count);
    true
}

// The 64 bits from a place on, as one number, where what lies past the end is zero.
fn word_at(file: &[u8], at: usize) -> u64
    ensures { result ≡ field_at file.now at 64 }
{
    let p = at / 8;
    let shift = (at % 8) as u32;
    if p + 9 <= file.len() {
        (load(file, p) >> shift) | (((file[p + 8] as u64) << 1) << (63 - shift))
    } else {
        take_by_bytes(&file[0..], p, shift, 64)
    }
}

// How many of the 64 bits from a place on there are.
fn remaining_at(size: usize, at: usize) -> u32
    ensures { result ≡ remaining at size }
{
    let p = at / 8;
    if p + 9 <= size {
        64
    } else if p < size {
        (8 * (size - p) - at % 8).min(64) as u32
    } else {
        0
    }
}

// The next 64 bits of a file from a place on.
pub fn window_at(file: &[u8], at: BitPlace) -> Window
    ensures bits { result.bits ≡ field_at file.now at.bits 64 }
    ensures len { result.len ≡ remaining at.bits (length file.now) }
{
    Window {
        bits: word_at(file, at.bits()),
        len: remaining_at(file.len(), at.bits()),
    }
}

// The number in the `count` bits from a place on; nothing where there are over 64 or the file ends before.
pub fn take_field(file: &[u8], at: BitPlace, count: u32) -> Option<u64>
    ensures { result ≡ (if is_field at.bits count (length file.now) then Some (field_at file.now at.bits count) else None) }
{
    let at = at.bits();
    if count > 64 {
        return None;
    }
    if !lies_within(at, count, file.len()) {
        return None;
    }
    Some(low(word_at(file, at), count))
}
