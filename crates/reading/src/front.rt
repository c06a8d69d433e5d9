// What stands in front of a file's sections.
use crate::part::Part;

// The stamp, the flag byte, and what is flagged: the size, the name and the extra bytes.
#[derive(Clone, Copy, Debug, PartialEq, Eq)]
pub struct Front {
    pub stamp: u32,
    pub flags: u32,
    pub size: Option<u32>,
    pub name: Option<Part>,
    pub extra: Option<Part>,
}
