// The rows of a section.
ghost use Rattle.std.specs.Prelude.{◌≡◌, true};
ghost use Rattle.calls.specs.Calls.{settings};
ghost use Rattle.frames.specs.Frames.{countable};

use channel::record::Channel;

// From 1 to 32 rows, each of which keeps the rules.
#[derive(Clone, Copy)]
pub struct Rows<'a> {
    pub table: &'a [Channel],
    ghost countable: { countable (settings table.now) ≡ true },
}
