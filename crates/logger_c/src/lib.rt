// The block calls, exported to host programs in C: include/slim_blocks.h declares them.
#![tactic(auto)]

ghost use Rattle.std.specs.Prelude.{◌≡◌, length};
ghost use Rattle.logger.specs.Host.{hosted, pack_host, pack_host_bytes, read_host, read_host_bytes};

// Packs raw 16-bit words, low byte first, and answers the number of bits of the block.
// `delta` is 0 or 1, `narrow` the number of bits of a plain form, from 1 to 16, and `pedestal` a 16-bit word; other settings are fault 6.
#[unsafe(no_mangle)]
pub extern "C" fn slim_pack(
    delta: u32,
    narrow: u32,
    pedestal: u32,
    raw: &[u8],
    out: &mut [u8],
) -> i64
    ensures answer { result ≡ hosted (pack_host delta narrow pedestal raw.now (length out.old)) }
    ensures bytes { out.new ≡ pack_host_bytes delta narrow pedestal raw.now out.old }
{
    logger::slim_pack(delta, narrow, pedestal, raw, out)
}

// Reads so many 16-bit words from a block, writes them low byte first, and answers their number.
#[unsafe(no_mangle)]
pub extern "C" fn slim_read(
    delta: u32,
    narrow: u32,
    pedestal: u32,
    block: &[u8],
    count: usize,
    out: &mut [u8],
) -> i64
    ensures answer { result ≡ hosted (read_host delta narrow pedestal block.now count (length out.old)) }
    ensures bytes { out.new ≡ read_host_bytes delta narrow pedestal block.now count out.old }
{
    logger::slim_read(delta, narrow, pedestal, block, count, out)
}
