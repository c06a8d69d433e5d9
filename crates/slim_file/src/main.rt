// Makes a slim file of raw bytes from standard input, and prints it in hexadecimal.
#![tactic(auto)]

mod recorder;

use hex_lines::HexLines;
use recorder::{MOST_RAW, record_bytes};
use std::io::Read;

// Room for the file.
const ROOM: usize = 65536;

// Prints the file of raw bytes and how many bytes it has, or the fault.
fn run(rt: &HostRuntime, raw: &[u8]) -> anyhow::Result<()> {
    let mut buffer = vec![in rt.alloc(); 0u8; ROOM]?;
    match record_bytes(raw, &mut buffer) {
        Ok(size) => {
            print!(rt; "{}", HexLines(&buffer[..size]))?;
            println!(rt; "bytes {size}")?;
        }
        Err(fault) => println!(rt; "{fault}")?,
    }
    Ok(())
}

// A byte over the limit is read, so that an input over it is noticed.
fn main(rt: HostRuntime) -> anyhow::Result<()> {
    let mut raw = Vec::new(rt.alloc());
    rt.stdin().take(MOST_RAW as u64 + 1).read_to_end(&mut raw)?;
    run(&rt, &raw)
}
