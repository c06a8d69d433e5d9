// The constant coder.
ghost use Rattle.std.specs.Prelude.{◌≡◌, ℕ, ◌^◌, ◌<◌, ◌≤◌, false, if◌then◌else◌, Some, None, nat_le, nat_lt};
ghost use Rattle.std.specs.Option.{option_map};
ghost use Rattle.forms.specs.Coders.{plain, constant};
ghost use Rattle.forms.proofs.Coders.{constant-rules};

use crate::kinds::Constant;
use coder::coder::Coder;
use coder::form::{Coded, Form, Unread};
use coder::step::Taken;
use coder::width::Width;
use fields::field::Window;

impl<const W: u32> Constant<W> {
    // Nothing where the width is not from 1 to 32 or the number is no word of that width.
    pub fn new(word: u32) -> Option<Constant<W>>
        ensures { option_map (λ (c : Constant W). c.word) result ≡ (if nat_lt 0 W then (if nat_le W 32 then (if nat_lt word (2 ^ W) then Some word else None) else None) else None) }
    {
        if W == 0 || W > 32 || word as u64 >= 1u64 << W {
            return None;
        }
        Some(Constant { word })
    }
}

impl<const W: u32> Coder for Constant<W> {
    type Memory = ();

    const WIDTH: u32 = W;

    ghost wide = { λ c. W };

    ghost coding = { λ c. plain (constant c.word) };

    ghost sound = { λ c m. constant-rules W c.word c.small };

    ghost fits = { λ c. c.width };

    fn word_width(&self) -> Width {
        Width { bits: W }
    }

    fn start(&self) {}

    fn encode(&self, memory: (), word: u32) -> Option<Coded<()>> {
        if word != self.word {
            return None;
        }
        Some(Coded {
            form: Form { bits: 0, len: 0 },
            next: memory,
        })
    }

    fn decode(&self, memory: (), window: Window) -> Result<Taken<()>, Unread> {
        Ok(Taken {
            word: self.word,
            len: 0,
            next: memory,
        })
    }
}
