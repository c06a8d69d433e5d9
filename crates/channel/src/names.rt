// What the numbers in a channel's settings name.
ghost use Rattle.std.specs.Prelude.{◌≡◌, ℕ, ◌/◌};
ghost use Rattle.channel.specs.Names.{method_named, size_named, size_bits};

use std::fmt;

// An algorithm.
#[derive(Clone, Copy, Debug, PartialEq, Eq)]
pub enum Method {
    Null = 0,
    Reduced = 1,
    Constant = 6,
}

// The size of a type's words.
#[derive(Clone, Copy, Debug, PartialEq, Eq)]
pub enum WordSize {
    Byte,
    Half,
    Full,
}

// A number that names no algorithm, or no type that is covered.
#[derive(Clone, Copy, Debug, PartialEq, Eq)]
pub struct Unnamed(pub u32);

impl fmt::Display for Unnamed {
    fn fmt<W: fmt::Write>(&self, f: &mut fmt::Formatter<W>) -> fmt::Result {
        write!(f, "{} names nothing", self.0)
    }
}

impl TryFrom<u32> for Method {
    type Error = Unnamed;

    ghost try_from_gives = { λ number r. r ≡ method_named number };

    fn try_from(number: u32) -> Result<Method, Unnamed> {
        match number {
            0 => Ok(Method::Null),
            1 => Ok(Method::Reduced),
            6 => Ok(Method::Constant),
            _ => Err(Unnamed(number)),
        }
    }
}

// By the number of a type.
impl TryFrom<u32> for WordSize {
    type Error = Unnamed;

    ghost try_from_gives = { λ kind r. r ≡ size_named kind };

    fn try_from(kind: u32) -> Result<WordSize, Unnamed> {
        match kind {
            1 | 2 | 5 => Ok(WordSize::Full),
            3 | 4 => Ok(WordSize::Half),
            7 | 8 => Ok(WordSize::Byte),
            _ => Err(Unnamed(kind)),
        }
    }
}

impl WordSize {
    // How many bits a word has.
    pub fn bits(self) -> u32
        ensures { result ≡ size_bits self }
    {
        match self {
            WordSize::Byte => 8,
            WordSize::Half => 16,
            WordSize::Full => 32,
        }
    }

    // How many bytes a raw word has.
    pub fn bytes(self) -> u32
        ensures { result ≡ size_bits self / 8 }
    {
        self.bits() / 8
    }
}
