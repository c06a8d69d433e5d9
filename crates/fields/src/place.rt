// Places in a buffer. A place in bits and a place in bytes are two types, and only the conversions named here lead from one to the other.
ghost use Rattle.std.specs.Prelude.{◌≡◌, ℕ, ◌+◌, ◌-◌, ◌*◌, ◌/◌, ◌^◌, ◌<◌, min};

// How many bits stand before the place.
#[derive(Clone, Copy, Debug, PartialEq, Eq)]
pub struct BitPlace {
    bits: usize,
}

// How many bytes stand before the place.
#[derive(Clone, Copy, Debug, PartialEq, Eq)]
pub struct BytePlace {
    bytes: usize,
}

impl BitPlace {
    pub fn new(bits: usize) -> BitPlace
        ensures { result.bits ≡ bits }
    {
        BitPlace { bits }
    }

    pub fn bits(self) -> usize
        ensures { result ≡ self.bits }
    {
        self.bits
    }

    // So many bits further on, as far as places go.
    pub fn plus(self, count: usize) -> BitPlace
        ensures { result.bits ≡ min (self.bits + count) (2 ^ 64 - 1) }
    {
        BitPlace {
            bits: self.bits.saturating_add(count),
        }
    }

    // The byte in which the bit lies.
    pub fn byte(self) -> BytePlace
        ensures { result.bytes ≡ self.bits / 8 }
    {
        BytePlace {
            bytes: self.bits / 8,
        }
    }

    // The first whole byte that does not begin before the place.
    pub fn whole_byte(self) -> BytePlace
        ensures { result.bytes ≡ (self.bits + 7) / 8 }
    {
        BytePlace {
            bytes: self.bits.div_ceil(8),
        }
    }
}

impl BytePlace {
    pub fn new(bytes: usize) -> BytePlace
        ensures { result.bytes ≡ bytes }
    {
        BytePlace { bytes }
    }

    pub fn bytes(self) -> usize
        ensures { result ≡ self.bytes }
    {
        self.bytes
    }

    // The first bit of the byte, as far as places go.
    pub fn first_bit(self) -> BitPlace
        ensures { result.bits ≡ min (8 * self.bytes) (2 ^ 64 - 1) }
    {
        BitPlace {
            bits: self.bytes.saturating_mul(8),
        }
    }
}

// Where a reader stands: the place of the next field, and the first bit of the field last tried.
#[derive(Clone, Copy, Debug, PartialEq, Eq)]
pub struct Cursor {
    pub at: BitPlace,
    pub last: BitPlace,
}

impl Cursor {
    // Behind a field of so many bits that was taken.
    pub fn past(self, count: u32) -> Cursor
        ensures behind { result ≡ record { at = record { bits = min (self.at.bits + count) (2 ^ 64 - 1) }; last = self.at } }
        ensures fits { self.at.bits < 2 ^ 64 }
    {
        Cursor {
            at: self.at.plus(count as usize),
            last: self.at,
        }
    }
}
