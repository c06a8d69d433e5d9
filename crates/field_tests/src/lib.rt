// Fields of bits, on examples.
#![tactic(auto)]

use fields::accumulator::Accumulator;
use fields::clear::clear_from;
use fields::field::{put_field, take_field, window_at};
use fields::part::{put_u32, read_u32, write_u32};
use fields::place::{BitPlace, BytePlace};
use fields::raw::{put_raw_word, raw_word};
use std::test::Fail;

#[test]
fn places_convert(rt: HostRuntime) {
    assert_eq!(rt; BitPlace::new(13).byte().bytes(), 1);
    assert_eq!(rt; BitPlace::new(13).whole_byte().bytes(), 2);
    assert_eq!(rt; BitPlace::new(16).whole_byte().bytes(), 2);
    assert_eq!(rt; BytePlace::new(3).first_bit().bits(), 24);
    assert_eq!(rt; BitPlace::new(13).plus(64).bits(), 77);
}

#[test]
fn places_end_at_the_largest(rt: HostRuntime) {
    let last = BitPlace::new(usize::MAX);
    assert_eq!(rt; last.plus(1).bits(), usize::MAX);
    assert_eq!(rt; BytePlace::new(1 << 61).first_bit().bits(), usize::MAX);
    assert_eq!(rt; last.whole_byte().bytes(), 1 << 61);
}

#[test]
fn a_field_lies_low_bit_first(rt: HostRuntime) {
    let mut buffer = [0xf0, 0xff, 0xff];
    assert!(rt; put_field(&mut buffer, BitPlace::new(6), 0x5a5, 11));
    assert_eq!(rt; buffer, [0x70, 0x69, 0xff]);
    assert_eq!(rt; take_field(&buffer, BitPlace::new(6), 11), Some(0x5a5));
}

// Each width at an odd place: the field comes back, and the bits beside it stay.
#[test]
fn every_width(rt: HostRuntime) {
    for count in 1..65u32 {
        let mut buffer = [0xff; 12];
        let at = BitPlace::new(count as usize % 11 + 8);
        let value = 0x5e37_79b9_7f4a_7c15 >> (64 - count);
        assert!(rt; put_field(&mut buffer, at, value, count));
        assert_eq!(rt; take_field(&buffer, at, count), Some(value));
        assert_eq!(rt; take_field(&buffer, BitPlace::new(0), 8), Some(255));
        assert_eq!(rt; take_field(&buffer, at.plus(count as usize), 8), Some(255));
    }
}

#[test]
fn the_last_bytes(rt: HostRuntime) {
    let mut buffer = [0; 9];
    assert!(rt; put_field(&mut buffer, BitPlace::new(8), u64::MAX - 1, 64));
    assert_eq!(rt; buffer, [0, 254, 255, 255, 255, 255, 255, 255, 255]);
    assert!(rt; put_field(&mut buffer, BitPlace::new(51), 0x12345, 21));
    assert_eq!(rt; take_field(&buffer, BitPlace::new(51), 21), Some(0x12345));
    assert!(rt; put_field(&mut buffer, BitPlace::new(72), 7, 0));
    assert_eq!(rt; take_field(&buffer, BitPlace::new(72), 0), Some(0));
}

#[test]
fn no_field_past_the_end(rt: HostRuntime) {
    let mut buffer = [3; 9];
    assert!(rt; !put_field(&mut buffer, BitPlace::new(9), 0, 64));
    assert!(rt; !put_field(&mut buffer, BitPlace::new(73), 0, 0));
    assert!(rt; !put_field(&mut buffer, BitPlace::new(0), 0, 65));
    assert_eq!(rt; buffer, [3; 9]);
    assert_eq!(rt; take_field(&buffer, BitPlace::new(9), 64), None);
    assert_eq!(rt; take_field(&buffer, BitPlace::new(usize::MAX), 1), None);
    assert_eq!(rt; take_field(&buffer, BitPlace::new(0), 65), None);
}

#[test]
fn a_window_ends_with_the_file(rt: HostRuntime) {
    let file = [0x21, 0x43, 0x65, 0x87, 0xa9, 0xcb, 0xed, 0x0f, 0x31];
    let whole = window_at(&file, BitPlace::new(4));
    assert_eq!(rt; whole.bits, 0x10fe_dcba_9876_5432);
    assert_eq!(rt; whole.len, 64);
    let short = window_at(&file, BitPlace::new(60));
    assert_eq!(rt; short.bits, 0x310);
    assert_eq!(rt; short.len, 12);
    let none = window_at(&file, BitPlace::new(72));
    assert_eq!(rt; none.bits, 0);
    assert_eq!(rt; none.len, 0);
}

// From within a byte on: what stands before and behind the pushed bits stays.
#[test]
fn pushed_fields(rt: HostRuntime) -> Result<(), Fail> {
    let mut buffer = [0xff; 12];
    let Some(mut waiting) = Accumulator::start(&buffer, BitPlace::new(3)) else {
        return Err(Fail::new("past the end"));
    };
    assert!(rt; waiting.push(&mut buffer, 0x20, 5));
    assert!(rt; waiting.push(&mut buffer, 0x1234, 13));
    assert!(rt; waiting.push(&mut buffer, 0x0123_4567_89ab_cdef, 64));
    assert!(rt; !waiting.push(&mut buffer, 0, 12));
    assert!(rt; !waiting.push(&mut buffer, 0, 65));
    assert!(rt; waiting.finish(&mut buffer));
    assert_eq!(rt; take_field(&buffer, BitPlace::new(0), 8), Some(7));
    assert_eq!(rt; take_field(&buffer, BitPlace::new(8), 13), Some(0x1234));
    assert_eq!(rt;
        take_field(&buffer, BitPlace::new(21), 64),
        Some(0x0123_4567_89ab_cdef)
    );
    assert_eq!(rt; take_field(&buffer, BitPlace::new(85), 11), Some(0x7ff));
    Ok(())
}

#[test]
fn an_accumulator_at_the_end(rt: HostRuntime) -> Result<(), Fail> {
    let mut buffer = [0xff; 2];
    assert!(rt; Accumulator::start(&buffer, BitPlace::new(17)).is_none());
    let Some(mut waiting) = Accumulator::start(&buffer, BitPlace::new(16)) else {
        return Err(Fail::new("past the end"));
    };
    assert!(rt; !waiting.push(&mut buffer, 0, 1));
    assert!(rt; waiting.push(&mut buffer, 0, 0));
    assert!(rt; waiting.finish(&mut buffer));
    assert!(rt; !waiting.finish(&mut [0; 1]));
    assert_eq!(rt; buffer, [0xff; 2]);
    Ok(())
}

#[test]
fn cleared_within_a_byte(rt: HostRuntime) {
    let mut buffer = [0xff; 4];
    clear_from(&mut buffer, BitPlace::new(32));
    assert_eq!(rt; buffer, [0xff; 4]);
    clear_from(&mut buffer, BitPlace::new(11));
    assert_eq!(rt; buffer, [0xff, 0x07, 0, 0]);
}

#[test]
fn numbers_in_four_bytes(rt: HostRuntime) {
    let mut part = [0; 4];
    assert!(rt; write_u32(&mut part, 0x1234_5678));
    assert_eq!(rt; part, [0x78, 0x56, 0x34, 0x12]);
    assert_eq!(rt; read_u32(&part), Some(0x1234_5678));
    assert!(rt; !write_u32(&mut [0; 5], 1));
    assert_eq!(rt; read_u32(&[0; 3]), None);
}

#[test]
fn numbers_put_in_a_buffer(rt: HostRuntime) {
    let mut buffer = [0xff; 6];
    assert!(rt; put_u32(&mut buffer, BytePlace::new(1), 0x1234_5678));
    assert!(rt; put_u32(&mut buffer, BytePlace::new(2), 0x9abc_def0));
    assert_eq!(rt; buffer, [0xff, 0x78, 0xf0, 0xde, 0xbc, 0x9a]);
    assert!(rt; !put_u32(&mut buffer, BytePlace::new(3), 0));
    assert!(rt; !put_u32(&mut buffer, BytePlace::new(usize::MAX), 0));
    assert_eq!(rt; buffer, [0xff, 0x78, 0xf0, 0xde, 0xbc, 0x9a]);
}

#[test]
fn raw_words(rt: HostRuntime) {
    let mut raw = [0xff; 6];
    assert!(rt; put_raw_word(&mut raw, BytePlace::new(1), 0x0123_4567, 3));
    assert_eq!(rt; raw, [0xff, 0x67, 0x45, 0x23, 0xff, 0xff]);
    assert_eq!(rt; raw_word(&raw, BytePlace::new(1), 3), Some(0x23_4567));
    assert_eq!(rt; raw_word(&raw, BytePlace::new(2), 4), Some(0xffff_2345));
    assert!(rt; !put_raw_word(&mut raw, BytePlace::new(3), 0, 4));
    assert_eq!(rt; raw_word(&raw, BytePlace::new(0), 5), None);
    assert_eq!(rt; raw_word(&raw, BytePlace::new(0), 0), None);
}
