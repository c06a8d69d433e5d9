// The null coder.
ghost use Rattle.std.specs.Prelude.{◌≡◌, ℕ, ◌<◌, ◌≤◌, false, is_some, if◌then◌else◌, nat_le, nat_lt};
ghost use Rattle.forms.specs.Coders.{plain, null};
ghost use Rattle.forms.proofs.Coders.{null-rules};

use crate::kinds::Null;
use coder::coder::Coder;
use coder::form::{Coded, Form, Unread};
use coder::modular::is_word;
use coder::step::Taken;
use coder::width::Width;
use fields::field::Window;

impl<const W: u32> Null<W> {
    // Nothing where the width is not from 1 to 32.
    pub fn new() -> Option<Null<W>>
        ensures { is_some result ≡ (if nat_lt 0 W then nat_le W 32 else false) }
    {
        if W == 0 || W > 32 {
            return None;
        }
        Some(Null {})
    }
}

impl<const W: u32> Coder for Null<W> {
    type Memory = ();

    const WIDTH: u32 = W;

    ghost wide = { λ c. W };

    ghost coding = { λ c. plain (null W) };

    ghost sound = { λ c m. null-rules W c.width.1 };

    ghost fits = { λ c. c.width };

    fn word_width(&self) -> Width {
        Width { bits: W }
    }

    fn start(&self) {}

    fn encode(&self, memory: (), word: u32) -> Option<Coded<()>> {
        if !is_word(word, self.word_width()) {
            return None;
        }
        Some(Coded {
            form: Form {
                bits: word as u64,
                len: W,
            },
            next: memory,
        })
    }

    fn decode(&self, memory: (), window: Window) -> Result<Taken<()>, Unread> {
        if window.len < W {
            return Err(Unread::Partial);
        }
        Ok(Taken {
            word: (window.bits & ((1u64 << W) - 1)) as u32,
            len: W,
            next: memory,
        })
    }
}
