// The description of a channel in a section's head.
ghost use Rattle.std.specs.Prelude.{◌≡◌, ℕ, ◌≤◌, true, false, length, if◌then◌else◌};
ghost use Rattle.bits.specs.Bits.{bits, put_bits};
ghost use Rattle.layout.specs.Channels.{ruled};
ghost use Rattle.channel.specs.Records.{described, settings_of};
ghost use Rattle.channel.specs.Descriptions.{description_bits, describes};

use crate::names::{Method, WordSize};
use crate::record::{Channel, Settings};
use fields::field::put_field;
use fields::place::BitPlace;
use limits::MOST_BYTES;

// The bits of the field of repeats.
const REPEATS_LEN: u32 = 24;

// The bits of the fields that each channel has: whether there is a delta, the turn, the algorithm and the type.
const FIELDS_LEN: u32 = 14;

// The bits of the field of R.
const NARROW_LEN: u32 = 5;

impl Settings {
    // How many bits the fields behind the repeats take.
    fn fields_len(&self) -> u32
        ensures len { result ≡ length (description_bits false (described self.now)) }
        ensures most { result ≤ 51 }
    {
        let Ok(size) = WordSize::try_from(self.kind) else {
            return FIELDS_LEN;
        };
        let Ok(method) = Method::try_from(self.algorithm) else {
            return FIELDS_LEN;
        };
        match method {
            Method::Null => FIELDS_LEN,
            Method::Reduced => FIELDS_LEN + size.bits() + NARROW_LEN,
            Method::Constant => FIELDS_LEN + size.bits(),
        }
    }

    // The fields behind the repeats as one number, the first field lowest.
    fn fields(&self) -> u64
        requires { ruled (described self.now) ≡ true }
        ensures { bits (length (description_bits false (described self.now))) result ≡ description_bits false (described self.now) }
    {
        let front = (self.delta as u64)
            | ((self.turn as u64) << 1)
            | ((self.algorithm as u64) << 6)
            | ((self.kind as u64) << 10);
        let Ok(size) = WordSize::try_from(self.kind) else {
            return front;
        };
        let Ok(method) = Method::try_from(self.algorithm) else {
            return front;
        };
        match method {
            Method::Null => front,
            Method::Reduced => {
                front
                    | ((self.value as u64) << FIELDS_LEN)
                    | (((self.narrow - 1) as u64) << (FIELDS_LEN + size.bits()))
            }
            Method::Constant => front | ((self.value as u64) << FIELDS_LEN),
        }
    }
}

impl Channel {
    // How many bits the row's description takes.
    pub fn description_len(&self, recorded: bool) -> u32
        ensures len { result ≡ length (description_bits recorded (settings_of self.now)) }
        ensures most { result ≤ 75 }
    {
        if recorded {
            REPEATS_LEN + self.settings.fields_len()
        } else {
            self.settings.fields_len()
        }
    }

    // Writes the description of a row that keeps the rules at a place and changes no other bit.
    // False, and nothing is written, where the row does not, or the buffer is over 16,777,216 bytes, or the description would pass its end.
    // A bool, since there is one refusal, and a caller that has shown the room lets the answer go.
    pub fn put_description(&self, buffer: &mut [u8], at: BitPlace, recorded: bool) -> bool
        ensures put { result ≡ describes (settings_of self.now) (description_bits recorded (settings_of self.now)) at.bits (length buffer.old) }
        ensures bytes { buffer.new ≡ (if describes (settings_of self.now) (description_bits recorded (settings_of self.now)) at.bits (length buffer.old) then put_bits buffer.old at.bits (description_bits recorded (settings_of self.now)) else buffer.old) }
    {
        if buffer.len() > MOST_BYTES || !self.keeps_rules() {
            return false;
        }
        let end = at.plus(self.description_len(recorded) as usize);
        if end.bits() > 8 * buffer.len() {
            return false;
        }
        let fields = self.settings.fields();
        let len = self.settings.fields_len();
        if recorded {
            put_field(buffer, at, self.settings.repeats as u64, REPEATS_LEN);
            put_field(buffer, at.plus(REPEATS_LEN as usize), fields, len)
        } else {
            put_field(buffer, at, fields, len)
        }
    }
}
