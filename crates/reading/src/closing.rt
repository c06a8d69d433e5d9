// What closes a section.
use crate::block::Block;

// Another section follows, or the file ends with some leftovers. An enum and no Option, since the names say which.
#[derive(Clone, Copy, Debug, PartialEq, Eq)]
pub enum Closing {
    Another,
    Ended(Block),
}
