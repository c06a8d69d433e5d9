// A coder of words of 4 bits, beside those of slim files.
#![tactic(auto)]

ghost use Rattle.std.proofs.Common.{lit<, lit≤};
ghost use Rattle.forms.specs.Laws.{CoderLaws};
ghost use Rattle.unary.specs.Unary.{unary};
ghost use Rattle.unary.specs.Sound.{unary-sound};

use coder::coder::Coder;
use coder::form::{Coded, Form, Unread};
use coder::laws::coder_laws;
use coder::step::Taken;
use coder::width::Width;
use fields::field::Window;

// A word n below 7 is n ones and a zero; any other is seven ones and then its 4 bits, where a number below 7 is dead.
// Behind a word of 7 or more the next word is its 4 bits alone.
#[derive(Clone, Copy)]
pub struct Unary {}

// The memory: was the word before 7 or more?
impl Coder for Unary {
    type Memory = bool;

    const WIDTH: u32 = 4;

    ghost wide = { λ c. 4 };

    ghost coding = { λ c. unary };

    ghost sound = { λ c. unary-sound };

    ghost fits = { λ c. (lit< tt, lit≤ tt) };

    fn word_width(&self) -> Width {
        Width { bits: 4 }
    }

    fn start(&self) -> bool {
        false
    }

    fn encode(&self, memory: bool, word: u32) -> Option<Coded<bool>> {
        if word >= 16 {
            return None;
        }
        let large = word >= 7;
        let form = if memory {
            Form {
                bits: word as u64,
                len: 4,
            }
        } else if large {
            Form {
                bits: ((word as u64) << 7) | 127,
                len: 11,
            }
        } else {
            Form {
                bits: (1 << word) - 1,
                len: word + 1,
            }
        };
        Some(Coded { form, next: large })
    }

    fn decode(&self, memory: bool, window: Window) -> Result<Taken<bool>, Unread> {
        if memory {
            if window.len < 4 {
                return Err(Unread::Partial);
            }
            let word = (window.bits & 15) as u32;
            return Ok(Taken {
                word,
                len: 4,
                next: word >= 7,
            });
        }
        for ones in 0..7u32 {
            if window.len <= ones {
                return Err(Unread::Partial);
            }
            if (window.bits >> ones) & 1 == 0 {
                return Ok(Taken {
                    word: ones,
                    len: ones + 1,
                    next: false,
                });
            }
        }
        if window.len < 11 {
            return Err(Unread::Partial);
        }
        let word = ((window.bits >> 7) & 15) as u32;
        if word < 7 {
            return Err(Unread::Dead { len: 11 });
        }
        Ok(Taken {
            word,
            len: 11,
            next: true,
        })
    }
}

// What holds of every coder holds of this one.
pub fn unary_laws()
    ensures { CoderLaws 4 unary }
{
    coder_laws::<Unary>();
}

#[cfg(test)]
mod tests {
    use super::*;
    use coder::delta::Delta;
    use coder::steps::{put_word, take_word};
    use coder::turn::Turn;
    use faults::kind::Fault;
    use fields::field::take_field;
    use fields::place::BitPlace;
    use std::process::Abort;
    use std::test::Fail;

    // Each word, put from within a byte on and read back.
    fn every_word<C: Coder>(rt: &impl Abort, coder: &C, memory: C::Memory) -> Result<(), Fail> {
        let at = BitPlace::new(5);
        for word in 0..16u32 {
            let mut buffer = [0xff; 3];
            let Ok(put) = put_word(coder, memory, word, &mut buffer, at) else {
                return Err(Fail::new("not put"));
            };
            let Ok(taken) = take_word(coder, memory, &buffer, at) else {
                return Err(Fail::new("not taken"));
            };
            assert_eq!(rt; taken.word, word);
            assert_eq!(rt; taken.len, put.len);
        }
        Ok(())
    }

    // The number and the place of a fault.
    fn refused<T: Drop>(answer: Result<T, Fault>) -> Option<(u32, usize)> {
        answer
            .err()
            .map(|fault| (fault.number(), fault.place.bits()))
    }

    #[test]
    fn words_come_back(rt: HostRuntime) -> Result<(), Fail> {
        let inner = Unary {};
        every_word(&rt, &inner, false)?;
        every_word(&rt, &inner, true)?;
        every_word(&rt, &Delta { inner }, (9, false))?;
        every_word(&rt, &Turn { inner, by: 3 }, false)
    }

    // 2 in three bits, 9 in eleven, 3 behind it in four, and 0 in one.
    #[test]
    fn forms(rt: HostRuntime) -> Result<(), Fail> {
        let buffer: &mut [u8] = &mut [0; 3];
        let mut at = BitPlace::new(0);
        let mut memory = Unary {}.start();
        for word in [2, 9, 3, 0] {
            let Ok(put) = put_word(&Unary {}, memory, word, buffer, at) else {
                return Err(Fail::new("not put"));
            };
            at = at.plus(put.len as usize);
            memory = put.next;
        }
        assert_eq!(rt; at.bits(), 19);
        assert_eq!(rt; take_field(buffer, BitPlace::new(0), 24), Some(0xe7fb));
        Ok(())
    }

    #[test]
    fn faults(rt: HostRuntime) {
        let at = BitPlace::new(1);
        let mut buffer = [0x5a; 1];
        assert_eq!(rt;
            refused(put_word(&Unary {}, false, 16, &mut buffer, at)),
            Some((7, 1))
        );
        assert_eq!(rt;
            refused(put_word(&Unary {}, false, 7, &mut buffer, at)),
            Some((2, 1))
        );
        assert_eq!(rt; buffer, [0x5a; 1]);
        assert_eq!(rt;
            refused(take_word(&Unary {}, false, &[0xff, 0x06], at)),
            Some((16, 1))
        );
        assert_eq!(rt;
            refused(take_word(&Unary {}, false, &[0xff], at)),
            Some((11, 1))
        );
        assert_eq!(rt;
            refused(take_word(&Unary {}, true, &[0xff], BitPlace::new(6))),
            Some((11, 6))
        );
    }
}
