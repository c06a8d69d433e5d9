// Coders, on examples.
#![tactic(auto)]

use coder::coder::Coder;
use coder::delta::Delta;
use coder::form::Unread;
use coder::steps::{put_word, take_word};
use coder::turn::Turn;
use coders::flagged::FlaggedDelta;
use coders::kinds::{Algorithm, Constant, Null, Reduced};
use coders::pile::Pile;
use faults::kind::Fault;
use fields::field::{Window, take_field};
use fields::place::BitPlace;
use std::process::Abort;
use std::test::Fail;

// A word's form: its bits as a number, and how many there are.
#[cfg(test)]
fn form<C: Coder>(coder: &C, memory: C::Memory, word: u32) -> Option<(u64, u32)> {
    coder
        .encode(memory, word)
        .map(|coded| (coded.form.bits, coded.form.len))
}

// Does the constant say the width?
#[cfg(test)]
fn width_told<C: Coder>(coder: &C) -> bool {
    coder.word_width().bits == C::WIDTH
}

// The number and the place of a fault.
#[cfg(test)]
fn refused<T: Drop>(answer: Result<T, Fault>) -> Option<(u32, usize)> {
    answer
        .err()
        .map(|fault| (fault.number(), fault.place.bits()))
}

// Words one after the other from within a byte on, in so many bits, and read back. The bits beside them stay.
#[cfg(test)]
fn come_back<C: Coder>(
    rt: &impl Abort,
    coder: &C,
    words: &[u32],
    buffer: &mut [u8],
    bits: usize,
) -> Result<(), Fail> {
    let start = BitPlace::new(3);
    let mut at = start;
    let mut memory = coder.start();
    for word in words {
        let Ok(put) = put_word(coder, memory, *word, buffer, at) else {
            return Err(Fail::new("not put"));
        };
        at = at.plus(put.len as usize);
        memory = put.next;
    }
    assert_eq!(rt; at.bits(), start.plus(bits).bits());
    assert_eq!(rt; take_field(buffer, BitPlace::new(0), 3), Some(7));
    assert_eq!(rt; take_field(buffer, at, 8), Some(255));
    at = start;
    memory = coder.start();
    for word in words {
        let Ok(taken) = take_word(coder, memory, buffer, at) else {
            return Err(Fail::new("not taken"));
        };
        assert_eq!(rt; taken.word, *word);
        at = at.plus(taken.len as usize);
        memory = taken.next;
    }
    assert_eq!(rt; at.bits(), start.plus(bits).bits());
    Ok(())
}

#[test]
fn reduced_forms(rt: HostRuntime) -> Result<(), Fail> {
    let ten = Reduced::<8>::new(3, 10).ok_or(())?;
    assert_eq!(rt; form(&ten, (), 16), Some((6, 3)));
    assert_eq!(rt; form(&ten, (), 17), Some((17 << 3 | 7, 11)));
    let window = Window {
        bits: 12 << 3 | 7,
        len: 11,
    };
    assert!(rt; matches!(ten.decode((), window), Err(Unread::Dead { len: 11 })));
    let high = Reduced::<8>::new(3, 254).ok_or(())?;
    assert_eq!(rt; form(&high, (), 4), Some((6, 3)));
    assert_eq!(rt; form(&high, (), 5), Some((5 << 3 | 7, 11)));
    let full = Reduced::<8>::new(8, 0).ok_or(())?;
    assert_eq!(rt; form(&full, (), 255), Some((0xffff, 16)));
    Ok(())
}

#[test]
fn settings_outside_the_rules(rt: HostRuntime) {
    assert!(rt; Null::<0>::new().is_none() && Null::<33>::new().is_none());
    assert!(rt; Constant::<4>::new(16).is_none());
    assert!(rt; Reduced::<8>::new(0, 0).is_none());
    assert!(rt; Reduced::<8>::new(9, 0).is_none());
    assert!(rt; Reduced::<8>::new(3, 256).is_none());
}

#[test]
fn widths_told(rt: HostRuntime) -> Result<(), Fail> {
    let null = Null::<8>::new().ok_or(())?;
    let delta = Delta { inner: null };
    let flagged = FlaggedDelta::new(null, true);
    assert!(rt; width_told(&null) && width_told(&delta) && width_told(&flagged));
    assert!(rt; width_told(&Turn { inner: null, by: 1 }));
    assert!(rt; width_told(&Algorithm::Null(null)));
    assert!(rt; width_told(&Constant::<8>::new(1).ok_or(())?));
    assert!(rt; width_told(&Reduced::<8>::new(1, 1).ok_or(())?));
    Ok(())
}

#[test]
fn changed_words(rt: HostRuntime) -> Result<(), Fail> {
    let turn = Turn {
        inner: Null::<32>::new().ok_or(())?,
        by: 8,
    };
    assert_eq!(rt; form(&turn, (), 0x87f7_1300), Some((0x0087_f713, 32)));
    let delta = Delta {
        inner: Null::<8>::new().ok_or(())?,
    };
    let first = delta.encode(delta.start(), 5).ok_or(())?;
    assert_eq!(rt; first.form.bits, 5);
    assert_eq!(rt; form(&delta, first.next, 3), Some((254, 8)));
    Ok(())
}

#[test]
fn words_come_back(rt: HostRuntime) -> Result<(), Fail> {
    let reduced = Reduced::<16>::new(5, 65530).ok_or(())?;
    come_back(
        &rt,
        &reduced,
        &[65530, 24, 25, 65529, 0, 40000],
        &mut [0xff; 32],
        78,
    )?;
    let pile: Pile<16> = Turn {
        inner: FlaggedDelta::new(Algorithm::Reduced(reduced), true),
        by: 3,
    };
    come_back(&rt, &pile, &[8, 16, 0, 65535, 7, 7, 8], &mut [0xff; 32], 67)
}

#[test]
fn words_without_a_form(rt: HostRuntime) -> Result<(), Fail> {
    let mut buffer = [0x5a; 4];
    let at = BitPlace::new(5);
    let null = Null::<8>::new().ok_or(())?;
    let constant = Constant::<8>::new(200).ok_or(())?;
    let reduced = Reduced::<8>::new(3, 10).ok_or(())?;
    assert_eq!(rt;
        refused(put_word(&null, (), 256, &mut buffer, at)),
        Some((7, 5))
    );
    assert_eq!(rt;
        refused(put_word(&reduced, (), 256, &mut buffer, at)),
        Some((7, 5))
    );
    assert_eq!(rt;
        refused(put_word(&constant, (), 201, &mut buffer, at)),
        Some((7, 5))
    );
    assert_eq!(rt;
        refused(put_word(&constant, (), 200, &mut buffer, at)),
        None
    );
    assert_eq!(rt; buffer, [0x5a; 4]);
    Ok(())
}

#[test]
fn no_room(rt: HostRuntime) -> Result<(), Fail> {
    let mut buffer = [0x5a; 2];
    let at = BitPlace::new(6);
    let reduced = Reduced::<8>::new(3, 10).ok_or(())?;
    assert_eq!(rt;
        refused(put_word(&reduced, (), 17, &mut buffer, at)),
        Some((2, 6))
    );
    assert_eq!(rt; buffer, [0x5a; 2]);
    assert_eq!(rt; refused(put_word(&reduced, (), 16, &mut buffer, at)), None);
    Ok(())
}

#[test]
fn cut_and_dead(rt: HostRuntime) -> Result<(), Fail> {
    let reduced = Reduced::<8>::new(3, 10).ok_or(())?;
    let file = [0xc0, 0x19];
    assert_eq!(rt;
        refused(take_word(&reduced, (), &file, BitPlace::new(6))),
        Some((11, 6))
    );
    assert_eq!(rt;
        refused(take_word(&reduced, (), &file, BitPlace::new(14))),
        Some((11, 14))
    );
    let file = [0xc0, 0x19, 0xfe];
    assert_eq!(rt;
        refused(take_word(&reduced, (), &file, BitPlace::new(6))),
        Some((16, 6))
    );
    Ok(())
}
