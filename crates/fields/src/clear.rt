// Zeros from a place on.
ghost use Rattle.std.specs.Prelude.{◌≡◌};
ghost use Rattle.bits.specs.Bits.{cleared_from};

use crate::bytes::are_bytes;
use crate::place::BitPlace;
use crate::word::{low, zero};

// Every bit from the place on becomes zero; the others stay.
pub fn clear_from(buffer: &mut [u8], at: BitPlace)
    ensures { buffer.new ≡ cleared_from buffer.old at.bits }
{
    are_bytes(buffer);
    let at = at.bits();
    let p = at / 8;
    if p >= buffer.len() {
        return;
    }
    buffer[p] = low(buffer[p] as u64, (at % 8) as u32) as u8;
    zero(&mut buffer[p + 1..]);
}
