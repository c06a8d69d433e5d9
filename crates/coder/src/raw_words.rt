// The raw words of a slice, one after the other.
ghost use Rattle.std.specs.Prelude.{◌≡◌, ℕ, ◌+◌, ◌/◌, length};
ghost use Rattle.std.specs.Iterator.{YieldsFirst, item_count};
ghost use Rattle.bits.specs.Raw.{words_in};

use crate::width::Width;
use fields::place::BytePlace;
use fields::raw::raw_word;

// The whole words of some bytes: each takes the bytes of its width, the low byte first. Bytes that end inside a word are left over.
#[derive(Clone, Copy)]
pub struct RawWords<'a> {
    left: &'a [u8],
    width: Width,
}

impl Width {
    // The words of this width in a slice.
    pub fn words(self, raw: &[u8]) -> RawWords<'_>
        ensures { words_in ((result.width.bits + 7) / 8) result.left.now ≡ words_in ((self.bits + 7) / 8) raw.now }
    {
        RawWords {
            left: raw,
            width: self,
        }
    }
}

impl<'a> Iterator for RawWords<'a> {
    type Item = u32;

    ghost next_gives = { YieldsFirst (λ s. words_in ((s.width.bits + 7) / 8) s.left.now) };

    ghost remaining = { item_count (λ s. words_in ((s.width.bits + 7) / 8) s.left.now) };

    fn next(&mut self) -> Option<u32> {
        let size = self.width.bytes();
        let word = raw_word(self.left, BytePlace::new(0), size)?;
        self.left = &self.left[size as usize..];
        Some(word)
    }
}
