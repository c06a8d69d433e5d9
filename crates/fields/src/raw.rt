// Raw words of one to four bytes, the low byte first.
ghost use Rattle.std.specs.Prelude.{◌≡◌, ℕ, ◌*◌, length, if◌then◌else◌, Some, None};
ghost use Rattle.bits.specs.Bits.{bits, put_bits, field_at};
ghost use Rattle.fields.specs.Fields.{is_raw};

use crate::bytes::are_bytes;
use crate::place::BytePlace;

// Do so many bytes make a raw word that lies within a slice?
fn lies_raw(at: usize, size: u32, len: usize) -> bool
    ensures { result ≡ is_raw at size len }
{
    if size == 0 || size > 4 || at >= len {
        return false;
    }
    size as usize <= len - at
}

// The word in `size` bytes from a place on; nothing where that is no word of one to four bytes within the slice.
pub fn raw_word(raw: &[u8], at: BytePlace, size: u32) -> Option<u32>
    ensures { result ≡ (if is_raw at.bytes size (length raw.now) then Some (field_at raw.now (8 * at.bytes) (8 * size)) else None) }
{
    let p = at.bytes();
    if !lies_raw(p, size, raw.len()) {
        return None;
    }
    match size {
        1 => Some(raw[p] as u32),
        2 => Some(u16::from_le_bytes([raw[p], raw[p + 1]]) as u32),
        3 => Some(u32::from_le_bytes([raw[p], raw[p + 1], raw[p + 2], 0])),
        _ => Some(u32::from_le_bytes([raw[p], raw[p + 1], raw[p + 2], raw[p + 3]])),
    }
}

// Writes the low bytes of a word at a place. False, and nothing is written, where that is no word of one to four bytes within the slice.
// A bool, since there is one refusal, and a caller that has shown the room lets the answer go.
pub fn put_raw_word(raw: &mut [u8], at: BytePlace, word: u32, size: u32) -> bool
    ensures put { result ≡ is_raw at.bytes size (length raw.old) }
    ensures bytes { raw.new ≡ (if is_raw at.bytes size (length raw.old) then put_bits raw.old (8 * at.bytes) (bits (8 * size) word) else raw.old) }
{
    are_bytes(raw);
    let p = at.bytes();
    if !lies_raw(p, size, raw.len()) {
        return false;
    }
    let n = size as usize;
    let bytes = word.to_le_bytes();
    raw[p..p + n].copy_from_slice(&bytes[0..n]);
    true
}
