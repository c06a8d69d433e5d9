// From a channel's settings to its coder.
ghost use Rattle.std.specs.Prelude.{◌≡◌};
ghost use Rattle.channel.specs.Records.{settings_of, described};
ghost use Rattle.channel.specs.Piles.{AlgorithmOf, PileOf, CoderOf};

use crate::channel_coder::ChannelCoder;
use crate::names::{Method, WordSize};
use crate::record::{Channel, Settings};
use coder::turn::Turn;
use coders::flagged::FlaggedDelta;
use coders::kinds::{Algorithm, Constant, Null, Reduced};
use coders::pile::Pile;

// The algorithm that the settings name, at a width.
fn algorithm_of<const W: u32>(s: &Settings) -> Option<Algorithm<W>>
    ensures { AlgorithmOf W (described s.now) result }
{
    match Method::try_from(s.algorithm).ok()? {
        Method::Null => Null::new().map(Algorithm::Null),
        Method::Reduced => Reduced::new(s.narrow, s.value).map(Algorithm::Reduced),
        Method::Constant => Constant::new(s.value).map(Algorithm::Constant),
    }
}

// The pile of the settings, at a width.
fn pile_of<const W: u32>(s: &Settings) -> Option<Pile<W>>
    ensures { PileOf W (described s.now) result }
{
    let algorithm = algorithm_of::<W>(s)?;
    Some(Turn {
        inner: FlaggedDelta::new(algorithm, s.delta),
        by: s.turn,
    })
}

impl Settings {
    // The channel's coder; nothing where the settings do not keep the rules.
    pub fn coder(&self) -> Option<ChannelCoder>
        ensures { CoderOf (described self.now) result }
    {
        if !self.keeps_rules() {
            return None;
        }
        match WordSize::try_from(self.kind).ok()? {
            WordSize::Byte => pile_of(self).map(ChannelCoder::Byte),
            WordSize::Half => pile_of(self).map(ChannelCoder::Half),
            WordSize::Full => pile_of(self).map(ChannelCoder::Full),
        }
    }
}

impl Channel {
    // The channel's coder; nothing where its settings do not keep the rules.
    pub fn coder(&self) -> Option<ChannelCoder>
        ensures { CoderOf (settings_of self.now) result }
    {
        self.settings.coder()
    }
}
