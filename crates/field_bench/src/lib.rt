// Fields of one width, packed and read back: exported to C, to be measured there.
#![tactic(auto)]

ghost use Rattle.std.specs.Prelude.{◌≡◌, ℕ, ◌*◌, ◌%◌, ◌^◌, true, length, if◌then◌else◌, nat_le};
ghost use Rattle.field_bench.specs.Packing.{mixed, packs, packed_size, packed, checksum};

use fields::accumulator::Accumulator;
use fields::field::window_at;
use fields::place::BitPlace;

// The value of a field, by its index.
fn value(index: usize) -> u64
    ensures { result ≡ mixed index }
{
    (index as u64).wrapping_mul(0x9e37_79b9_7f4a_7c15)
}

// Packs so many fields from the buffer's first bit on, and answers how many bytes they take.
// -1 where a field has over 64 bits or they would pass the buffer's end: C has no Result.
#[unsafe(no_mangle)]
pub extern "C" fn fields_pack(buffer: &mut [u8], count: usize, width: u32) -> i64
    ensures size { result ≡ packed_size width count (length buffer.old) }
    ensures bytes { packs width count (length buffer.old) ≡ true → buffer.new ≡ packed buffer.old width count }
{
    let Some(mut waiting) = Accumulator::start(buffer, BitPlace::new(0)) else {
        return -1;
    };
    if width > 64 {
        return -1;
    }
    for i in 0..count {
        if !waiting.push(buffer, value(i), width) {
            return -1;
        }
    }
    if !waiting.finish(buffer) {
        return -1;
    }
    let width = width as usize;
    (count / 8 * width + (count % 8 * width + 7) / 8) as i64
}

// Reads so many fields from the file's first bit on, and answers a checksum of their values.
// 0 where a field has over 64 bits or the file ends before the last of them: C has no Option.
#[unsafe(no_mangle)]
pub extern "C" fn fields_checksum(file: &[u8], count: usize, width: u32) -> u64
    ensures { result ≡ (if nat_le width 64 then checksum file.now width count 0 0 else 0) }
{
    if width > 64 {
        return 0;
    }
    let mask = if width == 64 {
        u64::MAX
    } else {
        (1 << width) - 1
    };
    let mut at = BitPlace::new(0);
    let mut sum: u64 = 0;
    for _ in 0..count {
        let window = window_at(file, at);
        if window.len < width {
            return 0;
        }
        sum = sum.rotate_left(1) ^ (window.bits & mask);
        at = at.plus(width as usize);
    }
    sum
}
