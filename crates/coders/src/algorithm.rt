// The coder that was chosen.
ghost use Rattle.std.specs.Prelude.{◌≡◌, ℕ, ◌<◌, ◌≤◌};
ghost use Rattle.coders.specs.Chosen.{coding_of, sound_of, fits_of};

use crate::kinds::Algorithm;
use coder::coder::Coder;
use coder::form::{Coded, Unread};
use coder::step::Taken;
use coder::width::Width;
use fields::field::Window;

impl<const W: u32> Coder for Algorithm<W> {
    type Memory = ();

    const WIDTH: u32 = W;

    ghost wide = { λ c. W };

    ghost coding = { coding_of W };

    ghost sound = { sound_of W };

    ghost fits = { fits_of W };

    fn word_width(&self) -> Width {
        match self {
            Algorithm::Null(c) => c.word_width(),
            Algorithm::Constant(c) => c.word_width(),
            Algorithm::Reduced(c) => c.word_width(),
        }
    }

    fn start(&self) {}

    fn encode(&self, memory: (), word: u32) -> Option<Coded<()>> {
        match self {
            Algorithm::Null(c) => c.encode(memory, word),
            Algorithm::Constant(c) => c.encode(memory, word),
            Algorithm::Reduced(c) => c.encode(memory, word),
        }
    }

    fn decode(&self, memory: (), window: Window) -> Result<Taken<()>, Unread> {
        match self {
            Algorithm::Null(c) => c.decode(memory, window),
            Algorithm::Constant(c) => c.decode(memory, window),
            Algorithm::Reduced(c) => c.decode(memory, window),
        }
    }
}
