// A channel's pile of coders: the turn, then the delta if flagged, then the algorithm.
use crate::flagged::FlaggedDelta;
use crate::kinds::Algorithm;
use coder::turn::Turn;

pub type Pile<const W: u32> = Turn<FlaggedDelta<Algorithm<W>>>;
