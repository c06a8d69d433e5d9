// The block calls for host programs: one reduced binary channel of 16-bit words, with or without delta. The crate logger_c exports them to C.
#![tactic(auto)]

ghost use Rattle.std.specs.Prelude.{◌≡◌, ℕ, ◌≤◌, length, IfOk};
ghost use Rattle.faults.specs.Faults.{answered};
ghost use Rattle.logger.specs.Host.{hosted, pack_host, pack_host_bytes, read_host, read_host_bytes};

use blocks::block::{pack, read};
use coder::delta::Delta;
use coders::kinds::Reduced;
use faults::kind::{Fault, Kind};

// A count as it is, and a fault as its number negated: C has no Result.
fn host_answer(res: Result<usize, Fault>) -> i64
    requires { IfOk res (λ n. n ≤ 4194304) }
    ensures { result ≡ hosted (answered (λ n. n) res) }
{
    match res {
        Ok(n) => n as i64,
        Err(fault) => -i64::from(fault.number()),
    }
}

// Packs with the channel that the settings name.
fn pack_channel(
    delta: u32,
    narrow: u32,
    pedestal: u32,
    raw: &[u8],
    out: &mut [u8],
) -> Result<usize, Fault>
    ensures answer { answered (λ n. n) result ≡ pack_host delta narrow pedestal raw.now (length out.old) }
    ensures bytes { out.new ≡ pack_host_bytes delta narrow pedestal raw.now out.old }
    ensures most { IfOk result (λ n. n ≤ 4194304) }
{
    let inner = Reduced::<16>::new(narrow, pedestal).ok_or(Kind::BadSetting.at_start())?;
    match delta {
        0 => pack(&inner, raw, out),
        1 => pack(&Delta { inner }, raw, out),
        _ => Err(Kind::BadSetting.at_start()),
    }
}

// Reads with the channel that the settings name. The choice stands here again, since each coder has a type of its own.
fn read_channel(
    delta: u32,
    narrow: u32,
    pedestal: u32,
    block: &[u8],
    count: usize,
    out: &mut [u8],
) -> Result<usize, Fault>
    ensures answer { answered (λ n. n) result ≡ read_host delta narrow pedestal block.now count (length out.old) }
    ensures bytes { out.new ≡ read_host_bytes delta narrow pedestal block.now count out.old }
    ensures most { IfOk result (λ n. n ≤ 65536) }
{
    let inner = Reduced::<16>::new(narrow, pedestal).ok_or(Kind::BadSetting.at_start())?;
    match delta {
        0 => read(&inner, block, count, out),
        1 => read(&Delta { inner }, block, count, out),
        _ => Err(Kind::BadSetting.at_start()),
    }
}

// Packs raw 16-bit words, low byte first, and answers the number of bits of the block.
// `delta` is 0 or 1, `narrow` the number of bits of a plain form, from 1 to 16, and `pedestal` a 16-bit word; other settings are fault 6.
pub fn slim_pack(delta: u32, narrow: u32, pedestal: u32, raw: &[u8], out: &mut [u8]) -> i64
    ensures answer { result ≡ hosted (pack_host delta narrow pedestal raw.now (length out.old)) }
    ensures bytes { out.new ≡ pack_host_bytes delta narrow pedestal raw.now out.old }
{
    host_answer(pack_channel(delta, narrow, pedestal, raw, out))
}

// Reads so many 16-bit words from a block, writes them low byte first, and answers their number.
pub fn slim_read(
    delta: u32,
    narrow: u32,
    pedestal: u32,
    block: &[u8],
    count: usize,
    out: &mut [u8],
) -> i64
    ensures answer { result ≡ hosted (read_host delta narrow pedestal block.now count (length out.old)) }
    ensures bytes { out.new ≡ read_host_bytes delta narrow pedestal block.now count out.old }
{
    host_answer(read_channel(delta, narrow, pedestal, block, count, out))
}
