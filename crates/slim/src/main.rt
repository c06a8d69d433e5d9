// Packs raw bytes from standard input as 8-bit words in reduced binary, reads them back, and prints what it did.
#![tactic(auto)]

use anyhow::anyhow;
use blocks::block::{pack, read};
use coders::kinds::Reduced;
use hex_lines::HexLines;
use std::io::Read;

// The most raw bytes that are read.
const MOST_RAW: usize = 32768;

// Room for the block: no form of an 8-bit word has over 16 bits.
const ROOM: usize = 65536;

// Packs, prints the block and its counts, and says whether the words read back.
fn run(rt: &HostRuntime, raw: &[u8]) -> anyhow::Result<()> {
    let coder = Reduced::<8>::new(3, 10).ok_or(anyhow!("no coder"))?;
    let mut block = vec![in rt.alloc(); 0u8; ROOM]?;
    let bits = match pack(&coder, raw, &mut block) {
        Ok(bits) => bits,
        Err(fault) => {
            println!(rt; "{fault}")?;
            return Ok(());
        }
    };
    let bytes = bits.div_ceil(8);
    if bytes > block.len() {
        return Err(anyhow!("no room"));
    }
    print!(rt; "{}", HexLines(&block[..bytes]))?;
    let words = raw.len();
    println!(rt; "words {words} bits {bits} bytes {bytes}")?;
    let mut again = vec![in rt.alloc(); 0u8; words]?;
    match read(&coder, &block[..bytes], words, &mut again) {
        Ok(count) => println!(rt; "read back {count}")?,
        Err(fault) => println!(rt; "{fault}")?,
    }
    if again.as_slice() == raw {
        println!(rt; "the same")?;
    }
    Ok(())
}

fn main(rt: HostRuntime) -> anyhow::Result<()> {
    let mut raw = Vec::new(rt.alloc());
    rt.stdin().read_to_end(&mut raw)?;
    if raw.len() > MOST_RAW {
        println!(rt; "fault 1")?;
        return Ok(());
    }
    run(&rt, &raw)
}
