// What was read of a file.
ghost use Rattle.std.specs.Prelude.{◌≡◌};

use fields::place::Cursor;

// A value, and where the reader stands behind it.
#[derive(Clone, Copy, Debug, PartialEq, Eq)]
pub struct Taken<T> {
    pub value: T,
    pub end: Cursor,
}

impl<T: Copy> Taken<T> {
    // Another value, which ends at the same place.
    pub fn with<U>(self, value: U) -> Taken<U>
        ensures { result ≡ record { value = value; end = self.end } }
    {
        Taken {
            value,
            end: self.end,
        }
    }
}
