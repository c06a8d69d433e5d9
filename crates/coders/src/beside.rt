// A coder with a delta's memory and no delta.
ghost use Rattle.std.specs.Prelude.{◌≡◌};
ghost use Rattle.forms.specs.Coders.{beside};
ghost use Rattle.forms.proofs.Coders.{beside-sound};

use coder::coder::Coder;
use coder::form::{Coded, Unread};
use coder::step::Taken;
use coder::width::Width;
use fields::field::Window;

// The coder within, beside a word of memory that stays.
#[derive(Clone, Copy)]
pub struct Beside<C> {
    pub inner: C,
}

impl<C: Coder> Coder for Beside<C> {
    type Memory = (u32, C::Memory);

    const WIDTH: u32 = C::WIDTH;

    ghost wide = { λ c. C.Coder.wide c.inner };

    ghost coding = { λ c. beside (C.Coder.coding c.inner) };

    ghost sound = { λ c. beside-sound (C.Coder.wide c.inner) (C.Coder.coding c.inner) (C.Coder.sound c.inner) };

    ghost fits = { λ c. C.Coder.fits c.inner };

    fn word_width(&self) -> Width {
        self.inner.word_width()
    }

    fn start(&self) -> (u32, C::Memory) {
        (0, self.inner.start())
    }

    fn encode(&self, memory: (u32, C::Memory), word: u32) -> Option<Coded<(u32, C::Memory)>> {
        let coded = self.inner.encode(memory.1, word)?;
        Some(Coded {
            form: coded.form,
            next: (memory.0, coded.next),
        })
    }

    fn decode(
        &self,
        memory: (u32, C::Memory),
        window: Window,
    ) -> Result<Taken<(u32, C::Memory)>, Unread> {
        let taken = self.inner.decode(memory.1, window)?;
        Ok(Taken {
            word: taken.word,
            len: taken.len,
            next: (memory.0, taken.next),
        })
    }
}
