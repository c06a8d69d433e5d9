// The width of words in bits.
ghost use Rattle.std.specs.Prelude.{◌≡◌, ℕ, ◌+◌, ◌/◌, ◌<◌, ◌≤◌};

#[derive(Clone, Copy, Debug, PartialEq, Eq)]
pub struct Width {
    pub bits: u32,
    ghost some: { 0 < bits },
    ghost most: { bits ≤ 32 },
}

impl Width {
    // How many bytes a raw word has.
    pub fn bytes(self) -> u32
        ensures { result ≡ (self.bits + 7) / 8 }
    {
        self.bits.div_ceil(8)
    }
}
