// Whole bytes and 64-bit words of a buffer.
ghost use Rattle.std.specs.Prelude.{◌≡◌, ℕ, ◌+◌, ◌*◌, ◌/◌, ◌%◌, ◌^◌, ◌<◌, ◌≤◌, length, nat_le, replicate};
ghost use Rattle.bits.specs.Bits.{bits, bits_of, overwritten, stored, field_at};
ghost use Rattle.fields.specs.Fields.{within};

// Do so many bits from a byte's first on lie within so many bytes?
pub(crate) fn reaches(place: usize, count: usize, size: usize) -> bool
    ensures { result ≡ nat_le (8 * place + count) (8 * size) }
{
    place <= size && count.div_ceil(8) <= size - place
}

// Do the bits lie within so many bytes?
pub(crate) fn lies_within(at: usize, count: u32, size: usize) -> bool
    ensures { result ≡ within at count size }
{
    reaches(at / 8, at % 8 + count as usize, size)
}

// The low bits of a value.
pub(crate) fn low(value: u64, count: u32) -> u64
    requires { count ≤ 64 }
    ensures { result ≡ value % 2 ^ count }
{
    if count >= 64 {
        value
    } else {
        value & ((1 << count) - 1)
    }
}

// A word with some of its bits replaced.
pub(crate) fn merged(word: u64, shift: u32, value: u64, count: u32) -> u64
    requires { (shift < 8) × (shift + count ≤ 64) }
    ensures { result ≡ (word / 2 ^ (shift + count) * 2 ^ count + value % 2 ^ count) * 2 ^ shift + word % 2 ^ shift }
{
    let end = shift + count;
    let high = if end >= 64 { 0 } else { (word >> end) << end };
    high | (low(value, count) << shift) | low(word, shift)
}

// Eight bytes as one number.
pub(crate) fn load(file: &[u8], p: usize) -> u64
    requires { p + 8 ≤ length file.now }
    ensures { result ≡ field_at file.now (8 * p) 64 }
{
    u64::from_le_bytes(file[p..p + 8].try_into().unwrap())
}

// A number as eight bytes.
pub(crate) fn store(buffer: &mut [u8], p: usize, word: u64)
    requires { p + 8 ≤ length buffer.old }
    ensures { buffer.new ≡ stored buffer.old p 8 word }
{
    buffer[p..p + 8].copy_from_slice(&word.to_le_bytes());
}

// A field written byte by byte, for the last bytes of a buffer. By recursion, since the promise is that of the rest.
pub(crate) fn put_by_bytes(buffer: &mut [u8], p: usize, shift: u32, value: u64, count: u32)
    requires { (shift < 8) × ((count ≤ 64) × (8 * p + shift + count ≤ 8 * length buffer.old)) }
    ensures { bits_of buffer.new ≡ overwritten (bits_of buffer.old) (8 * p + shift) (bits count value) }
{
    if count == 0 {
        return;
    }
    let part = count.min(8 - shift);
    buffer[p] = merged(buffer[p] as u64, shift, value, part) as u8;
    if part < count {
        put_by_bytes(buffer, p + 1, 0, value >> part, count - part);
    }
}

// A field read byte by byte, for the last bytes of a file; what lies past the end is zero.
pub(crate) fn take_by_bytes(file: &[u8], p: usize, shift: u32, count: u32) -> u64
    requires { (shift < 8) × (count ≤ 64) }
    ensures { result ≡ field_at file.now (8 * p + shift) count }
{
    if count == 0 || p >= file.len() {
        return 0;
    }
    let part = count.min(8 - shift);
    let bits = low((file[p] >> shift) as u64, part);
    if part < count {
        bits | (take_by_bytes(file, p + 1, 0, count - part) << part)
    } else {
        bits
    }
}

// Every byte becomes zero.
pub(crate) fn zero(part: &mut [u8])
    ensures { part.new ≡ replicate (length part.old) 0 }
{
    part.fill(0);
}
