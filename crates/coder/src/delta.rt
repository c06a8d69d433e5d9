// The difference from the word before, over any coder.
ghost use Rattle.std.specs.Prelude.{◌≡◌};
ghost use Rattle.forms.specs.Coders.{delta};
ghost use Rattle.forms.proofs.Coders.{delta-sound};

use crate::coder::Coder;
use crate::form::{Coded, Unread};
use crate::modular::{difference, is_word, sum};
use crate::step::Taken;
use crate::width::Width;
use fields::field::Window;

// Passes a word less the one before to the coder within.
#[derive(Clone, Copy)]
pub struct Delta<C> {
    pub inner: C,
}

// The memory is the word before, 0 at the start, beside the memory within.
impl<C: Coder> Coder for Delta<C> {
    type Memory = (u32, C::Memory);

    const WIDTH: u32 = C::WIDTH;

    ghost wide = { λ c. C.Coder.wide c.inner };

    ghost coding = { λ c. delta (C.Coder.wide c.inner) (C.Coder.coding c.inner) };

    ghost sound = { λ c. delta-sound (C.Coder.wide c.inner) (C.Coder.coding c.inner) (C.Coder.sound c.inner) };

    ghost fits = { λ c. C.Coder.fits c.inner };

    fn word_width(&self) -> Width {
        self.inner.word_width()
    }

    fn start(&self) -> (u32, C::Memory) {
        (0, self.inner.start())
    }

    fn encode(&self, memory: (u32, C::Memory), word: u32) -> Option<Coded<(u32, C::Memory)>> {
        let width = self.inner.word_width();
        if !is_word(word, width) {
            return None;
        }
        let coded = self
            .inner
            .encode(memory.1, difference(word, memory.0, width))?;
        Some(Coded {
            form: coded.form,
            next: (word, coded.next),
        })
    }

    fn decode(
        &self,
        memory: (u32, C::Memory),
        window: Window,
    ) -> Result<Taken<(u32, C::Memory)>, Unread> {
        let inner = self.inner.decode(memory.1, window)?;
        let word = sum(inner.word, memory.0, self.inner.word_width());
        Ok(Taken {
            word,
            len: inner.len,
            next: (word, inner.next),
        })
    }
}
