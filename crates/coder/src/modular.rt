// Sums, differences and rotations of words within a width.
ghost use Rattle.std.specs.Prelude.{◌≡◌, ℕ, ◌-◌, ◌%◌, ◌^◌, nat_lt};
ghost use Rattle.forms.specs.Coders.{minus, plus, rotr};

use crate::width::Width;

// The largest word.
fn largest(width: Width) -> u32
    ensures { result ≡ 2 ^ width.bits - 1 }
{
    ((1u64 << width.bits) - 1) as u32
}

// Is the number a word of that width?
pub fn is_word(number: u32, width: Width) -> bool
    ensures { result ≡ nat_lt number (2 ^ width.bits) }
{
    (number as u64) < 1u64 << width.bits
}

// The number cut to a word of that width.
pub fn cut(number: u32, width: Width) -> u32
    ensures { result ≡ number % 2 ^ width.bits }
{
    number & largest(width)
}

// `word` less `other`.
pub fn difference(word: u32, other: u32, width: Width) -> u32
    ensures { result ≡ minus width.bits other word }
{
    word.wrapping_sub(other) & largest(width)
}

// `word` and `other` together.
pub fn sum(word: u32, other: u32, width: Width) -> u32
    ensures { result ≡ plus width.bits other word }
{
    word.wrapping_add(other) & largest(width)
}

// `word` turned right by `by` places; a number too large for a word is cut first.
pub fn rotated(word: u32, by: u32, width: Width) -> u32
    ensures { result ≡ rotr width.bits (by % width.bits) (word % 2 ^ width.bits) }
{
    let word = cut(word, width);
    match width.bits {
        8 => (word as u8).rotate_right(by) as u32,
        16 => (word as u16).rotate_right(by) as u32,
        32 => word.rotate_right(by),
        bits => {
            let by = by % bits;
            let word = word as u64;
            (((word & ((1 << by) - 1)) << (bits - by)) + (word >> by)) as u32
        }
    }
}
