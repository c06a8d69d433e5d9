// A delta that may be off.
ghost use Rattle.std.specs.Prelude.{◌≡◌};
ghost use Rattle.forms.specs.Coders.{delta_if};
ghost use Rattle.forms.proofs.Coders.{delta_if-sound};
ghost use Rattle.coders.specs.Flagged.{is_on, inner_of};

use crate::beside::Beside;
use coder::coder::Coder;
use coder::delta::Delta;
use coder::form::{Coded, Unread};
use coder::step::Taken;
use coder::width::Width;
use fields::field::Window;

// The delta where it is on; else the coder within, and the memory of the delta stays.
#[derive(Clone, Copy)]
pub enum FlaggedDelta<C> {
    On(Delta<C>),
    Off(Beside<C>),
}

impl<C> FlaggedDelta<C> {
    // The delta of a coder, on or off.
    pub fn new(inner: C, on: bool) -> FlaggedDelta<C>
        ensures on { is_on result ≡ on }
        ensures inner { inner_of result ≡ inner }
    {
        if on {
            FlaggedDelta::On(Delta { inner })
        } else {
            FlaggedDelta::Off(Beside { inner })
        }
    }
}

impl<C: Coder> Coder for FlaggedDelta<C> {
    type Memory = (u32, C::Memory);

    const WIDTH: u32 = C::WIDTH;

    ghost wide = { λ c. C.Coder.wide (inner_of c) };

    ghost coding = { λ c. delta_if (C.Coder.wide (inner_of c)) (is_on c) (C.Coder.coding (inner_of c)) };

    ghost sound = { λ c. delta_if-sound (C.Coder.wide (inner_of c)) (is_on c) (C.Coder.coding (inner_of c)) (C.Coder.sound (inner_of c)) };

    ghost fits = { λ c. C.Coder.fits (inner_of c) };

    fn word_width(&self) -> Width {
        match self {
            FlaggedDelta::On(delta) => delta.word_width(),
            FlaggedDelta::Off(beside) => beside.word_width(),
        }
    }

    fn start(&self) -> (u32, C::Memory) {
        match self {
            FlaggedDelta::On(delta) => delta.start(),
            FlaggedDelta::Off(beside) => beside.start(),
        }
    }

    fn encode(&self, memory: (u32, C::Memory), word: u32) -> Option<Coded<(u32, C::Memory)>> {
        match self {
            FlaggedDelta::On(delta) => delta.encode(memory, word),
            FlaggedDelta::Off(beside) => beside.encode(memory, word),
        }
    }

    fn decode(
        &self,
        memory: (u32, C::Memory),
        window: Window,
    ) -> Result<Taken<(u32, C::Memory)>, Unread> {
        match self {
            FlaggedDelta::On(delta) => delta.decode(memory, window),
            FlaggedDelta::Off(beside) => beside.decode(memory, window),
        }
    }
}
