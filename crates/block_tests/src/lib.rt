// Blocks, on examples.
#![tactic(auto)]

use blocks::block::{pack, read};
use coder::coder::Coder;
use coder::delta::Delta;
use coder::turn::Turn;
use coders::flagged::FlaggedDelta;
use coders::kinds::{Algorithm, Constant, Null, Reduced};
use coders::pile::Pile;
use faults::kind::Fault;
use logger::{slim_pack, slim_read};
use std::process::Abort;
use std::test::Fail;

// What a byte of an output is before a call.
const BEFORE: u8 = 0xa5;

// Room for every block and every list of words here.
const ROOM: usize = 24;

// Words of 16 bits: 1000, 1001, 1062, 65535, 1008 and 1000.
const NOISE: [u8; 12] = [232, 3, 233, 3, 38, 4, 255, 255, 240, 3, 232, 3];

// A fault's number, and 0 where there is none.
#[cfg(test)]
fn number(answer: Result<usize, Fault>) -> u32 {
    answer.err().map_or(0, |fault| fault.number())
}

// Where a fault is, and `usize::MAX` where there is none.
#[cfg(test)]
fn place(answer: Result<usize, Fault>) -> usize {
    answer.err().map_or(usize::MAX, |fault| fault.place.bits())
}

// How many bytes some bits take.
#[cfg(test)]
fn bytes(bits: usize) -> usize {
    bits.div_ceil(8)
}

// Packs words into so many bits and reads them back; what lies past either result stays.
#[cfg(test)]
fn there_and_back<C: Coder>(rt: &impl Abort, coder: &C, raw: &[u8], count: usize, bits: usize) {
    let mut block = [BEFORE; ROOM];
    assert_eq!(rt; pack(coder, raw, &mut block).ok(), Some(bits));
    let size = bytes(bits);
    assert!(rt; size < ROOM && raw.len() < ROOM);
    assert_eq!(rt; block[size], BEFORE);
    let mut back = [BEFORE; ROOM];
    assert_eq!(rt;
        read(coder, &block[0..size], count, &mut back).ok(),
        Some(count)
    );
    assert!(rt; &back[0..raw.len()] == raw);
    assert_eq!(rt; back[raw.len()], BEFORE);
}

#[test]
fn the_worked_case(rt: HostRuntime) -> Result<(), Fail> {
    let coder = Reduced::<8>::new(3, 10).ok_or(())?;
    let mut block = [BEFORE; 3];
    assert_eq!(rt; pack(&coder, &[16, 17], &mut block).ok(), Some(14));
    assert_eq!(rt; block, [0x7e, 0x04, BEFORE]);
    // The pad bits are not judged.
    let mut back = [BEFORE; 3];
    assert_eq!(rt; read(&coder, &[0x7e, 0xc4], 2, &mut back).ok(), Some(2));
    assert_eq!(rt; back, [16, 17, BEFORE]);
    Ok(())
}

#[test]
fn reduced_words(rt: HostRuntime) -> Result<(), Fail> {
    let inner = Reduced::<16>::new(6, 1000).ok_or(())?;
    there_and_back(&rt, &inner, &NOISE, 6, 52);
    Ok(())
}

#[test]
fn differences(rt: HostRuntime) -> Result<(), Fail> {
    let inner = Reduced::<16>::new(6, 65505).ok_or(())?;
    there_and_back(&rt, &Delta { inner }, &NOISE, 6, 100);
    Ok(())
}

// A channel whose converter puts its 12 bits at the top of a word.
#[test]
fn a_channel(rt: HostRuntime) -> Result<(), Fail> {
    let reduced = Reduced::<16>::new(6, 65505).ok_or(())?;
    let pile: Pile<16> = Turn {
        inner: FlaggedDelta::new(Algorithm::Reduced(reduced), true),
        by: 4,
    };
    let raw = [128, 62, 144, 62, 208, 62, 255, 255, 0, 63, 128, 62];
    there_and_back(&rt, &pile, &raw, 6, 84);
    Ok(())
}

#[test]
fn whole_words(rt: HostRuntime) -> Result<(), Fail> {
    let eight = Null::<8>::new().ok_or(())?;
    there_and_back(&rt, &eight, &[0, 1, 255], 3, 24);
    let twenty = Null::<20>::new().ok_or(())?;
    there_and_back(&rt, &twenty, &[0x45, 0x23, 0x01, 0xff, 0xff, 0x0f], 2, 40);
    let sevens = Constant::<8>::new(7).ok_or(())?;
    there_and_back(&rt, &sevens, &[7, 7, 7], 3, 0);
    Ok(())
}

#[test]
fn no_words(rt: HostRuntime) -> Result<(), Fail> {
    let coder = Reduced::<8>::new(3, 10).ok_or(())?;
    assert_eq!(rt; pack(&coder, &[], &mut []).ok(), Some(0));
    let mut out = [BEFORE; 2];
    assert_eq!(rt; pack(&coder, &[], &mut out).ok(), Some(0));
    assert_eq!(rt; read(&coder, &[], 0, &mut out).ok(), Some(0));
    assert_eq!(rt; number(read(&coder, &[0], 0, &mut out)), 18);
    assert_eq!(rt; out, [BEFORE; 2]);
    Ok(())
}

#[test]
fn packing_refused(rt: HostRuntime) -> Result<(), Fail> {
    let coder = Reduced::<16>::new(6, 1000).ok_or(())?;
    let twelve = Null::<12>::new().ok_or(())?;
    let sevens = Constant::<8>::new(7).ok_or(())?;
    let mut out = [BEFORE; 2];
    assert_eq!(rt; number(pack(&coder, &[1, 2, 3], &mut out)), 13);
    assert_eq!(rt; number(pack(&sevens, &[7; 65537], &mut out)), 9);
    assert_eq!(rt; number(pack(&sevens, &[7; 65536], &mut out)), 0);
    assert_eq!(rt; number(pack(&sevens, &[7, 8], &mut out)), 7);
    // The second word has no form, and already the first would not fit.
    assert_eq!(rt; number(pack(&twelve, &[1, 0, 0, 16], &mut [])), 7);
    assert_eq!(rt; number(pack(&coder, &NOISE, &mut out)), 2);
    assert_eq!(rt; place(pack(&coder, &NOISE, &mut out)), 0);
    assert_eq!(rt; out, [BEFORE; 2]);
    Ok(())
}

#[test]
fn reading_refused(rt: HostRuntime) -> Result<(), Fail> {
    let coder = Reduced::<8>::new(3, 10).ok_or(())?;
    let mut out = [BEFORE; 2];
    assert_eq!(rt; number(read(&coder, &[], 65537, &mut out)), 9);
    assert_eq!(rt; number(read(&coder, &[], 3, &mut out)), 2);
    // Within the second form.
    assert_eq!(rt; number(read(&coder, &[0x7e], 2, &mut out)), 11);
    assert_eq!(rt; place(read(&coder, &[0x7e], 2, &mut out)), 3);
    // The second form is dead: three ones and then 12, which three bits can say.
    assert_eq!(rt; number(read(&coder, &[0x3e, 0x03], 2, &mut out)), 16);
    assert_eq!(rt; place(read(&coder, &[0x3e, 0x03], 2, &mut out)), 3);
    assert_eq!(rt; number(read(&coder, &[0x7e, 0x04, 0], 2, &mut out)), 18);
    assert_eq!(rt; place(read(&coder, &[0x7e, 0x04, 0], 2, &mut out)), 14);
    assert_eq!(rt; out, [BEFORE; 2]);
    Ok(())
}

#[test]
fn calls_from_c(rt: HostRuntime) {
    let mut block = [BEFORE; 8];
    assert_eq!(rt; slim_pack(2, 6, 1000, &NOISE, &mut block), -6);
    assert_eq!(rt; slim_pack(0, 0, 1000, &NOISE, &mut block), -6);
    assert_eq!(rt; slim_pack(1, 17, 1000, &[0; 3], &mut block), -6);
    assert_eq!(rt; slim_pack(1, 6, 65536, &NOISE, &mut block), -6);
    assert_eq!(rt; slim_pack(0, 6, 1000, &[0; 3], &mut block), -13);
    assert_eq!(rt; slim_pack(1, 6, 65505, &NOISE, &mut block), -2);
    assert_eq!(rt; block, [BEFORE; 8]);
    assert_eq!(rt; slim_pack(0, 6, 1000, &NOISE, &mut block), 52);
    let mut back = [BEFORE; 12];
    assert_eq!(rt; slim_read(2, 6, 1000, &block[0..7], 6, &mut back), -6);
    assert_eq!(rt; slim_read(0, 6, 1000, &block[0..7], 7, &mut back), -2);
    assert_eq!(rt; slim_read(0, 6, 1000, &block[0..6], 6, &mut back), -11);
    assert_eq!(rt; slim_read(0, 6, 1000, &block, 6, &mut back), -18);
    assert_eq!(rt; back, [BEFORE; 12]);
    assert_eq!(rt; slim_read(0, 6, 1000, &block[0..7], 6, &mut back), 6);
    assert_eq!(rt; back, NOISE);
}

// Damages a block of 12 words: each of its bits in turn is flipped, and it is cut at each length.
// What is then read is a fault, or other words, or the same words where a pad bit was flipped.
#[cfg(test)]
fn damage<C: Coder>(rt: &impl Abort, coder: &C, raw: [u8; 12], bits: usize) {
    let mut whole = [0; ROOM];
    assert_eq!(rt; pack(coder, &raw, &mut whole).ok(), Some(bits));
    let size = bytes(bits);
    assert!(rt; size <= ROOM);
    for k in 0..8 * size {
        let mut block = whole;
        block[k / 8] ^= 1 << (k % 8);
        let mut back = [0; 12];
        let fault = number(read(coder, &block[0..size], 12, &mut back));
        if k >= bits {
            assert!(rt; fault == 0 && back == raw);
        } else if fault == 0 {
            let mut again = [0; ROOM];
            assert_eq!(rt; number(pack(coder, &back, &mut again)), 0);
            assert!(rt; again != whole);
        } else {
            assert!(rt; fault == 11 || fault == 16 || fault == 18);
        }
    }
    for len in 0..size {
        assert_eq!(rt; number(read(coder, &whole[0..len], 12, &mut [0; 12])), 11);
    }
}

#[test]
fn damaged_blocks(rt: HostRuntime) -> Result<(), Fail> {
    let plain = Reduced::<8>::new(3, 10).ok_or(())?;
    let inner = Reduced::<8>::new(3, 253).ok_or(())?;
    let raw = [16, 17, 10, 12, 15, 200, 11, 10, 14, 13, 16, 9];
    damage(&rt, &plain, raw, 60);
    damage(&rt, &Delta { inner }, raw, 84);
    Ok(())
}
