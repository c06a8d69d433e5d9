// A section of one channel, filled behind the head of a file: exported to C, to be measured there.
#![tactic(auto)]

ghost use Rattle.std.specs.Prelude.{◌≡◌};
ghost use Rattle.fill_bench.specs.Files.{halves, filled_bits, filled_bytes};

use channel::make::channel;
use state::Flags;
use writer::begin::begin;
use writer::states::{Filled, Refused};

// Begins a file with stamp 0 and the size flagged, fills its first section with the 16-bit words of one channel, and answers how many bits they take.
// `delta` is 1 where differences are written. 0 where a call meets a fault, as C has no Result; nothing is written where the settings do not keep the rules.
#[unsafe(no_mangle)]
pub extern "C" fn fill_halves(
    delta: u32,
    turn: u32,
    algorithm: u32,
    narrow: u32,
    value: u32,
    raw: &[u8],
    buffer: &mut [u8],
) -> usize
    ensures bits { result ≡ filled_bits (halves delta turn algorithm narrow value) raw.now buffer.old }
    ensures bytes { buffer.new ≡ filled_bytes (halves delta turn algorithm narrow value) raw.now buffer.old }
{
    let Ok(row) = channel(1, delta == 1, turn, algorithm, 3, narrow, value) else {
        return 0;
    };
    let mut table = [row];
    let flags = Flags {
        sized: true,
        pointed: false,
        single: false,
        unrepeated: false,
    };
    let Ok(between) = begin(buffer, 0, flags, None, None) else {
        return 0;
    };
    match between.fill(buffer, &mut table, raw) {
        Ok(Filled { writer, bits }) => {
            writer.stop();
            bits
        }
        Err(Refused { writer, fault: _ }) => {
            writer.stop();
            0
        }
    }
}
