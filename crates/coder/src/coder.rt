// What a coder is.
ghost use Rattle.std.specs.Prelude.{◌≡◌, ℕ, ◌<◌, ◌≤◌};
ghost use Rattle.bits.specs.Bits.{bits};
ghost use Rattle.forms.specs.Coding.{Coding, Sound, encoded, decoded};
ghost use Rattle.coder.specs.Told.{wrote, found};

use crate::form::{Coded, Unread};
use crate::step::Taken;
use crate::width::Width;
use fields::field::Window;

// A coder turns one channel's words into bits: it says which forms there are, shows that they keep the rules, and has code that does as it says.
pub trait Coder {
    // What a coder remembers of the words before.
    type Memory: Copy;

    // The width of its words in bits, from 1 to 32.
    const WIDTH: u32;

    ghost wide: { Self → ℕ };

    ghost coding: { Self → Coding Self.Memory };

    ghost sound: { (c : Self) → Sound (wide c) (coding c) };

    ghost fits: { (c : Self) → (0 < wide c) × (wide c ≤ 32) };

    // The width again: generic code asks here.
    fn word_width(&self) -> Width
        ensures { result.bits ≡ wide self.now };

    // The memory before the first word.
    fn start(&self) -> Self::Memory
        ensures { result ≡ (coding self.now).start };

    // The word's form and the memory behind it; nothing where the word has no form.
    fn encode(&self, memory: Self::Memory, word: u32) -> Option<Coded<Self::Memory>>
        ensures { wrote result ≡ encoded (coding self.now) memory word };

    // The word whose form stands at the front of the bits that remain.
    fn decode(&self, memory: Self::Memory, window: Window) -> Result<Taken<Self::Memory>, Unread>
        ensures { found result ≡ decoded (coding self.now) memory (bits window.len window.bits) };
}
