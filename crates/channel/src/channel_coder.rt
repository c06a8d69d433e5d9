// The coder of a channel: its pile, at the width of its type.
use coders::pile::Pile;

#[derive(Clone, Copy)]
pub enum ChannelCoder {
    Byte(Pile<8>),
    Half(Pile<16>),
    Full(Pile<32>),
}
