// The reduced binary coder.
ghost use Rattle.std.specs.Prelude.{◌≡◌, ℕ, ◌^◌, ◌<◌, ◌≤◌, false, if◌then◌else◌, Some, None, nat_le, nat_lt};
ghost use Rattle.std.specs.Option.{option_map};
ghost use Rattle.forms.specs.Coders.{plain, reduced};
ghost use Rattle.forms.proofs.Coders.{reduced-rules};

use crate::kinds::Reduced;
use coder::coder::Coder;
use coder::form::{Coded, Form, Unread};
use coder::modular::{difference, is_word, sum};
use coder::step::Taken;
use coder::width::Width;
use fields::field::Window;

impl<const W: u32> Reduced<W> {
    // Nothing where the width is not from 1 to 32, the narrow width not from 1 to it, or the pedestal no word.
    pub fn new(narrow: u32, pedestal: u32) -> Option<Reduced<W>>
        ensures { option_map {U = ℕ × ℕ} (λ (c : Reduced W). (c.narrow, c.pedestal)) result ≡ (if nat_lt 0 narrow then (if nat_le narrow W then (if nat_le W 32 then (if nat_lt pedestal (2 ^ W) then Some (narrow, pedestal) else None) else None) else None) else None) }
    {
        if narrow == 0 || narrow > W || W > 32 || pedestal as u64 >= 1u64 << W {
            return None;
        }
        Some(Reduced { narrow, pedestal })
    }
}

impl<const W: u32> Coder for Reduced<W> {
    type Memory = ();

    const WIDTH: u32 = W;

    ghost wide = { λ c. W };

    ghost coding = { λ c. plain (reduced W c.narrow c.pedestal) };

    ghost sound = { λ c m. reduced-rules W c.narrow c.pedestal c.most c.width.1 };

    ghost fits = { λ c. c.width };

    fn word_width(&self) -> Width {
        Width { bits: W }
    }

    fn start(&self) {}

    fn encode(&self, memory: (), word: u32) -> Option<Coded<()>> {
        let width = self.word_width();
        if !is_word(word, width) {
            return None;
        }
        let ones = (1u64 << self.narrow) - 1;
        let above = difference(word, self.pedestal, width) as u64;
        let form = if above < ones {
            Form {
                bits: above,
                len: self.narrow,
            }
        } else {
            Form {
                bits: ((word as u64) << self.narrow) | ones,
                len: self.narrow + W,
            }
        };
        Some(Coded { form, next: memory })
    }

    fn decode(&self, memory: (), window: Window) -> Result<Taken<()>, Unread> {
        if window.len < self.narrow {
            return Err(Unread::Partial);
        }
        let width = self.word_width();
        let ones = (1u64 << self.narrow) - 1;
        let above = window.bits & ones;
        if above < ones {
            return Ok(Taken {
                word: sum(above as u32, self.pedestal, width),
                len: self.narrow,
                next: memory,
            });
        }
        let len = self.narrow + W;
        if window.len < len {
            return Err(Unread::Partial);
        }
        let word = ((window.bits >> self.narrow) & ((1u64 << W) - 1)) as u32;
        if (difference(word, self.pedestal, width) as u64) < ones {
            return Err(Unread::Dead { len });
        }
        Ok(Taken {
            word,
            len,
            next: memory,
        })
    }
}
