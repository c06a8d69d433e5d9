// What the head of a file holds.

// A number, or bytes that are a part of the file.
#[derive(Clone, Copy, Debug, PartialEq, Eq)]
pub enum Item<'a> {
    Number(u32),
    Bytes(&'a [u8]),
}

// The items of a head; one that is not flagged is absent.
#[derive(Clone, Copy, Debug, PartialEq, Eq)]
pub struct Head<'a> {
    pub stamp: Item<'a>,
    pub flags: Item<'a>,
    pub size: Option<Item<'a>>,
    pub name: Option<Item<'a>>,
    pub extra: Option<Item<'a>>,
}
