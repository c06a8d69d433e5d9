// Many fields in a row: bits wait in a word until they fill eight bytes.
ghost use Rattle.std.specs.Prelude.{◌≡◌, ℕ, ◌+◌, ◌*◌, ◌^◌, ◌<◌, ◌≤◌, false, leb, length, if◌then◌else◌, MatchOption, nat_le};
ghost use Rattle.bits.specs.Bits.{bits, put_bits};
ghost use Rattle.fields.specs.Fields.{is_field, held, held_end};

use crate::bytes::are_bytes;
use crate::place::BitPlace;
use crate::word::{lies_within, low, put_by_bytes, reaches, store};

// The bits that wait, `have` of them in `word`; the first belongs at the byte `place`. The buffer is lent at each call, since the promise
// holds of any that is handed in.
#[derive(Clone, Copy)]
pub struct Accumulator {
    place: usize,
    word: u64,
    have: u32,
    ghost few: { have < 64 },
    ghost clean: { word < 2 ^ have },
}

impl Accumulator {
    // Bits are to follow at the place: the low bits of the byte that it cuts wait already.
    // Nothing where the place lies past the buffer's end.
    pub fn start(buffer: &[u8], at: BitPlace) -> Option<Accumulator>
        ensures { MatchOption result (8 * length buffer.now < at.bits) (λ a. (held buffer.now a.place a.word a.have ≡ buffer.now) × (held_end a.place a.have ≡ at.bits)) }
    {
        are_bytes(buffer);
        let at = at.bits();
        if !lies_within(at, 0, buffer.len()) {
            return None;
        }
        let place = at / 8;
        let have = (at % 8) as u32;
        let word = if have == 0 {
            0
        } else {
            low(buffer[place] as u64, have)
        };
        Some(Accumulator { place, word, have })
    }

    // Appends the low `count` bits of `value` to what waits, and writes what fills eight bytes.
    // False, and nothing is changed, where there are over 64 bits or they would pass the buffer's end.
    // A bool, since there is one refusal, and a caller that has shown the room lets the answer go.
    pub fn push(&mut self, buffer: &mut [u8], value: u64, count: u32) -> bool
        ensures pushed { result ≡ is_field (held_end self.old.place self.old.have) count (length buffer.old) }
        ensures held { held buffer.new self.new.place self.new.word self.new.have ≡ (if result then put_bits (held buffer.old self.old.place self.old.word self.old.have) (held_end self.old.place self.old.have) (bits count value) else held buffer.old self.old.place self.old.word self.old.have) }
        ensures end { held_end self.new.place self.new.have ≡ (if result then held_end self.old.place self.old.have + count else held_end self.old.place self.old.have) }
        ensures refused { result ≡ false → buffer.new ≡ buffer.old }
    {
        if count > 64 || !reaches(self.place, (self.have + count) as usize, buffer.len()) {
            return false;
        }
        are_bytes(buffer);
        let new = low(value, count);
        let word = self.word | (new << self.have);
        let have = self.have + count;
        if have < 64 {
            *self = Accumulator {
                place: self.place,
                word,
                have,
            };
            return true;
        }
        store(buffer, self.place, word);
        let left = have - 64;
        let rest = if left == 0 { 0 } else { new >> (count - left) };
        *self = Accumulator {
            place: self.place + 8,
            word: rest,
            have: left,
        };
        true
    }

    // Writes the bits that still wait. False, and nothing is changed, where they would pass the buffer's end.
    // A bool, since there is one refusal, and a caller that has shown the room lets the answer go.
    pub fn finish(self, buffer: &mut [u8]) -> bool
        ensures finished { result ≡ nat_le (held_end self.place self.have) (8 * length buffer.old) }
        ensures bytes { buffer.new ≡ (if leb (held_end self.place self.have) (8 * length buffer.old) then held buffer.old self.place self.word self.have else buffer.old) }
    {
        if !reaches(self.place, self.have as usize, buffer.len()) {
            return false;
        }
        put_by_bytes(buffer, self.place, 0, self.word, self.have);
        true
    }
}
