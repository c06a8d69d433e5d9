// A rotation of words, over any coder.
ghost use Rattle.std.specs.Prelude.{◌≡◌, ◌%◌};
ghost use Rattle.forms.specs.Coders.{turn};
ghost use Rattle.forms.proofs.Coders.{turn-sound, within};

use crate::coder::Coder;
use crate::form::{Coded, Unread};
use crate::modular::{is_word, rotated};
use crate::step::Taken;
use crate::width::Width;
use fields::field::Window;

// Turns a word right by so many places, as a remainder of the width, and passes it to the coder within.
#[derive(Clone, Copy)]
pub struct Turn<C> {
    pub inner: C,
    pub by: u32,
}

impl<C: Coder> Coder for Turn<C> {
    type Memory = C::Memory;

    const WIDTH: u32 = C::WIDTH;

    ghost wide = { λ c. C.Coder.wide c.inner };

    ghost coding = { λ c. turn (C.Coder.wide c.inner) (c.by % C.Coder.wide c.inner) (C.Coder.coding c.inner) };

    ghost sound = { λ c. turn-sound (C.Coder.wide c.inner) (c.by % C.Coder.wide c.inner) (C.Coder.coding c.inner) (within c.by (C.Coder.wide c.inner) (C.Coder.fits c.inner).0) (C.Coder.sound c.inner) };

    ghost fits = { λ c. C.Coder.fits c.inner };

    fn word_width(&self) -> Width {
        self.inner.word_width()
    }

    fn start(&self) -> C::Memory {
        self.inner.start()
    }

    fn encode(&self, memory: C::Memory, word: u32) -> Option<Coded<C::Memory>> {
        let width = self.inner.word_width();
        if !is_word(word, width) {
            return None;
        }
        self.inner.encode(memory, rotated(word, self.by, width))
    }

    fn decode(&self, memory: C::Memory, window: Window) -> Result<Taken<C::Memory>, Unread> {
        let inner = self.inner.decode(memory, window)?;
        let width = self.inner.word_width();
        Ok(Taken {
            word: rotated(inner.word, width.bits - self.by % width.bits, width),
            ..inner
        })
    }
}
