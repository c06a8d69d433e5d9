// What many words in a row answer.
use faults::kind::Kind;
use fields::place::BitPlace;

// So many words were put: the place and the memory behind them, and the fault if one stopped them.
#[derive(Clone, Copy)]
pub struct Streamed {
    pub words: usize,
    pub at: BitPlace,
    pub memory: u32,
    pub fault: Option<Kind>,
}
