// The guard of a section that is being filled.
ghost use Rattle.std.specs.Prelude.{◌≡◌};
ghost use Rattle.writer.specs.Filling.{guarded};

use fields::clear::clear_from;
use fields::place::BitPlace;

// Holds the buffer while a section is filled: what lies from the section's start on is zeroed at the guard's end, unless the fill was marked complete.
pub(crate) struct Guard<'a> {
    pub(crate) buffer: &'a mut [u8],
    pub(crate) start: BitPlace,
    pub(crate) complete: bool,
}

impl Drop for Guard<'_> {
    fn drop(self)
        ensures { self.exit.0.now ≡ guarded self.entry.complete self.entry.buffer.now self.entry.start.bits }
    {
        if !self.complete {
            let start = self.start;
            clear_from(self.buffer, start);
        }
        let Guard {
            buffer: _,
            start: _,
            complete: _,
        } = self;
    }
}
