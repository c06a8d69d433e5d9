// Numbers in four bytes, the low byte first, in parts lent from the middle of a buffer.
ghost use Rattle.std.specs.Prelude.{◌≡◌, ℕ, ◌+◌, ◌*◌, leb, length, if◌then◌else◌, Some, None, ◌==◌, nat_eq, nat_le};
ghost use Rattle.bits.specs.Bits.{bits, bytes, put_bits, field_at};

use crate::bytes::are_bytes;
use crate::place::BytePlace;

// Writes a number into a part of four bytes. False, and nothing is written, where the part has another length.
// A bool, since there is one refusal, and a caller that has shown the room lets the answer go.
pub fn write_u32(part: &mut [u8], value: u32) -> bool
    ensures written { result ≡ (length part.old == 4) }
    ensures bytes { part.new ≡ (if nat_eq (length part.old) 4 then bytes 4 (bits 32 value) else part.old) }
{
    if part.len() != 4 {
        return false;
    }
    part.copy_from_slice(&value.to_le_bytes());
    true
}

// The number in a part of four bytes; nothing where the part has another length.
pub fn read_u32(part: &[u8]) -> Option<u32>
    ensures { result ≡ (if nat_eq (length part.now) 4 then Some (field_at part.now 0 32) else None) }
{
    if part.len() != 4 {
        return None;
    }
    // Byte by byte, so that an edit can take a wrong one.
    Some(u32::from_le_bytes([part[0], part[1], part[2], part[3]]))
}

// Lends the four bytes from a place on to the writer of numbers. False, and nothing is written, where they would pass the buffer's end.
// A bool, since there is one refusal, and a caller that has shown the room lets the answer go.
pub fn put_u32(buffer: &mut [u8], at: BytePlace, value: u32) -> bool
    ensures put { result ≡ nat_le (at.bytes + 4) (length buffer.old) }
    ensures bytes { buffer.new ≡ (if leb (at.bytes + 4) (length buffer.old) then put_bits buffer.old (8 * at.bytes) (bits 32 value) else buffer.old) }
{
    are_bytes(buffer);
    let p = at.bytes();
    if p >= buffer.len() || buffer.len() - p < 4 {
        return false;
    }
    write_u32(&mut buffer[p..p + 4], value)
}
