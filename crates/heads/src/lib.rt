// The head of a file: the bytes 53 4c, the stamp, the flags, and what is flagged.
#![tactic(auto)]

ghost use Rattle.std.specs.Prelude.{◌≡◌, ◌+◌, ◌*◌, ◌≤◌, true, length, option_copied, if◌then◌else◌};
ghost use Rattle.std.specs.Option.{option_map};
ghost use Rattle.bits.specs.Bits.{bits_of, put_bits};
ghost use Rattle.calls.specs.Parts.{name_bits, extra_bits};
ghost use Rattle.calls.specs.Calls.{zero_free, name_fits, extra_fits};
ghost use Rattle.heads.specs.Heads.{first_bits, flags_in, head_of, head_end, head_bytes};

use fields::bytes::are_bytes;
use fields::field::put_field;
use fields::part::put_u32;
use fields::place::{BitPlace, BytePlace};
use limits::{MOST_BYTES, MOST_EXTRA, MOST_NAME};
use state::Flags;

// The first two bytes, 53 4c, as a number.
const MAGIC: u64 = 0x4c53;

// Where the size stands if it is flagged: behind the first two bytes, the stamp and the flags.
pub const SIZE_BYTE: usize = 7;

// The byte behind the size.
const SIZE_END: usize = 11;

// What a caller gives for a head. A name and extra bytes are flagged by being there.
#[derive(Clone, Copy, Debug, PartialEq, Eq)]
pub struct Head<'a> {
    pub stamp: u32,
    pub flags: Flags,
    pub name: Option<&'a [u8]>,
    pub extra: Option<&'a [u8]>,
}

// No byte is zero.
fn zero_free(bytes: &[u8]) -> bool
    ensures { result ≡ zero_free bytes.now }
{
    !bytes.contains(&0)
}

// A name, if there is one, has at most 255 bytes, none of them zero.
pub fn name_fits(name: Option<&[u8]>) -> bool
    ensures { result ≡ name_fits (option_copied name.entry) }
{
    name.is_none_or(|bytes| bytes.len() <= MOST_NAME && zero_free(bytes))
}

// Extra bytes, if there are any, are at most 65,535.
pub fn extra_fits(extra: Option<&[u8]>) -> bool
    ensures { result ≡ extra_fits (option_copied extra.entry) }
{
    extra.is_none_or(|bytes| bytes.len() <= MOST_EXTRA)
}

// How many bytes a name takes, with the zero byte behind it.
fn name_size(name: Option<&[u8]>) -> usize
    requires { name_fits (option_copied name) ≡ true }
    ensures size { 8 * result ≡ length (name_bits (option_copied name.entry)) }
    ensures most { result ≤ 256 }
{
    name.map_or(0, |bytes| bytes.len() + 1)
}

// How many bytes the extra bytes take, with their count.
fn extra_size(extra: Option<&[u8]>) -> usize
    requires { extra_fits (option_copied extra) ≡ true }
    ensures size { 8 * result ≡ length (extra_bits (option_copied extra.entry)) }
    ensures most { result ≤ 65537 }
{
    extra.map_or(0, |bytes| bytes.len() + 2)
}

impl Head<'_> {
    // The flag byte.
    fn flag_byte(&self) -> u32
        ensures { result ≡ flags_in self.now }
    {
        u32::from(self.flags.sized)
            + 2 * u32::from(self.name.is_some())
            + 4 * u32::from(self.extra.is_some())
            + 8 * u32::from(self.flags.pointed)
            + 16 * u32::from(self.flags.single)
            + 32 * u32::from(self.flags.unrepeated)
    }

    // How many bytes the head has.
    fn size(&self) -> usize
        requires name { name_fits (option_copied self.now.name) ≡ true }
        requires extra { extra_fits (option_copied self.now.extra) ≡ true }
        ensures { 8 * result ≡ length (head_of self.now) }
    {
        let first = if self.flags.sized {
            SIZE_END
        } else {
            SIZE_BYTE
        };
        first + name_size(self.name) + extra_size(self.extra)
    }

    // Writes what every head has, and a size of 0 if flagged, and answers the place behind.
    fn put_first(&self, buffer: &mut [u8]) -> usize
        requires { 56 + (if self.now.flags.sized then 32 else 0) ≤ 8 * length buffer.old }
        ensures place { 8 * result ≡ 56 + (if self.now.flags.sized then 32 else 0) }
        ensures bytes { buffer.new ≡ put_bits buffer.old 0 (first_bits self.now.stamp (flags_in self.now) self.now.flags.sized) }
    {
        put_field(buffer, BitPlace::new(0), MAGIC, 16);
        put_field(buffer, BitPlace::new(16), self.stamp as u64, 32);
        put_field(buffer, BitPlace::new(48), self.flag_byte() as u64, 8);
        if !self.flags.sized {
            return SIZE_BYTE;
        }
        put_u32(buffer, BytePlace::new(SIZE_BYTE), 0);
        SIZE_END
    }
}

// Copies bytes to a place.
fn put_bytes(buffer: &mut [u8], at: usize, bytes: &[u8])
    requires { at + length bytes.now ≤ length buffer.old }
    ensures { buffer.new ≡ put_bits buffer.old (8 * at) (bits_of bytes.now) }
{
    are_bytes(buffer);
    are_bytes(bytes);
    buffer[at..at + bytes.len()].copy_from_slice(bytes);
}

// Writes a name and a zero byte behind it, if there is one, and answers the place behind.
fn put_name(buffer: &mut [u8], at: usize, name: Option<&[u8]>) -> usize
    requires few { length buffer.old ≤ 16777216 }
    requires fits { name_fits (option_copied name) ≡ true }
    requires room { 8 * at + length (name_bits (option_copied name)) ≤ 8 * length buffer.old }
    ensures place { 8 * result ≡ 8 * at + length (name_bits (option_copied name.entry)) }
    ensures bytes { buffer.new ≡ put_bits buffer.old (8 * at) (name_bits (option_copied name.entry)) }
{
    are_bytes(buffer);
    let Some(bytes) = name else {
        return at;
    };
    put_bytes(buffer, at, bytes);
    let end = at + bytes.len();
    put_field(buffer, BitPlace::new(8 * end), 0, 8);
    end + 1
}

// Writes the count of extra bytes and the bytes, if there are any, and answers the place behind.
fn put_extra(buffer: &mut [u8], at: usize, extra: Option<&[u8]>) -> usize
    requires few { length buffer.old ≤ 16777216 }
    requires fits { extra_fits (option_copied extra) ≡ true }
    requires room { 8 * at + length (extra_bits (option_copied extra)) ≤ 8 * length buffer.old }
    ensures place { 8 * result ≡ 8 * at + length (extra_bits (option_copied extra.entry)) }
    ensures bytes { buffer.new ≡ put_bits buffer.old (8 * at) (extra_bits (option_copied extra.entry)) }
{
    are_bytes(buffer);
    let Some(bytes) = extra else {
        return at;
    };
    put_field(buffer, BitPlace::new(8 * at), bytes.len() as u64, 16);
    put_bytes(buffer, at + 2, bytes);
    at + 2 + bytes.len()
}

// Writes a head at the front of a buffer, with a size of 0, and answers the byte behind it.
// Nothing is answered and nothing written where the buffer, the name or the extra bytes are over their limits or the head does not fit.
pub fn put_head(buffer: &mut [u8], head: &Head) -> Option<BytePlace>
    ensures place { option_map (λ (p : BytePlace). p.bytes) result ≡ head_end head.now (length buffer.old) }
    ensures bytes { buffer.new ≡ head_bytes head.now buffer.old }
{
    if buffer.len() > MOST_BYTES || !name_fits(head.name) || !extra_fits(head.extra) {
        return None;
    }
    if head.size() > buffer.len() {
        return None;
    }
    let at = head.put_first(buffer);
    let at = put_name(buffer, at, head.name);
    let at = put_extra(buffer, at, head.extra);
    Some(BytePlace::new(at))
}
