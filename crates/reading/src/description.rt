// The description of a channel.
ghost use Rattle.std.specs.Prelude.{◌≡◌, ℕ, IfOk};
ghost use Rattle.format.specs.Format.{choose, field, whole, Format};
ghost use Rattle.layout.specs.Slim as slim;
ghost use Rattle.layout.specs.Slim.{any};
ghost use Rattle.channel.specs.Records.{settings_of};
ghost use Rattle.reading.specs.Told.{bits_in, told};
ghost use Rattle.reading.specs.Descriptions.{with_added};

use crate::added::Added;
use crate::source::Source;
use crate::taken::Taken;
use channel::make::channel;
use channel::names::{Method, WordSize};
use channel::record::Channel;
use faults::kind::{Fault, Kind};
use fields::place::{BitPlace, Cursor};

impl<'a> Source<'a> {
    // Takes the repeats, which are 1 where they are not recorded.
    fn take_repeats(self, at: BitPlace, recorded: bool) -> Result<Taken<u32>, Fault>
        ensures { told (λ v. v) result ≡ (choose recorded (field 24 any 0) (whole 1)).reads (bits_in self.entry) at.bits at.bits }
    {
        if !recorded {
            return Ok(Taken {
                value: 1,
                end: Cursor { at, last: at },
            });
        }
        self.take_number(at, 24)
    }

    // Takes what the algorithm adds behind the type: nothing where one of them is outside the rules.
    fn take_added(self, from: Cursor, algorithm: u32, kind: u32) -> Result<Taken<Added>, Fault>
        ensures { (n d b : ℕ) → told (with_added n d b algorithm kind) result ≡ (slim.added n d b algorithm kind).reads (bits_in self.entry) from.at.bits from.last.bits }
    {
        let nothing = Taken {
            value: Added {
                narrow: 0,
                value: 0,
            },
            end: from,
        };
        let Ok(size) = WordSize::try_from(kind) else {
            return Ok(nothing);
        };
        let Ok(method) = Method::try_from(algorithm) else {
            return Ok(nothing);
        };
        match method {
            Method::Null => Ok(nothing),
            Method::Reduced => {
                let pedestal = self.take_number(from.at, size.bits())?;
                let less = self.take_number(pedestal.end.at, 5)?;
                Ok(less.with(Added {
                    narrow: less.value + 1,
                    value: pedestal.value,
                }))
            }
            Method::Constant => {
                let word = self.take_number(from.at, size.bits())?;
                Ok(word.with(Added {
                    narrow: 0,
                    value: word.value,
                }))
            }
        }
    }

    // Takes a channel's description, whose repeats may not be recorded: a record at its starting memory.
    // The fields are taken whole before they are judged.
    pub fn take_channel(self, at: BitPlace, recorded: bool) -> Result<Taken<Channel>, Fault>
        ensures settings { (l : ℕ) → told settings_of result ≡ (slim.channel recorded).reads (bits_in self.entry) at.bits l }
        ensures rest { IfOk result (λ t. t.value.memory ≡ 0) }
    {
        let repeats = self.take_repeats(at, recorded)?;
        let delta = self.take_number(repeats.end.at, 1)?;
        let turn = self.take_number(delta.end.at, 5)?;
        let algorithm = self.take_number(turn.end.at, 4)?;
        let kind = self.take_number(algorithm.end.at, 4)?;
        let added = self.take_added(kind.end, algorithm.value, kind.value)?;
        let row = channel(
            repeats.value,
            delta.value == 1,
            turn.value,
            algorithm.value,
            kind.value,
            added.value.narrow,
            added.value.value,
        )
        .map_err(|_| Kind::BadSetting.at(added.end.last))?;
        Ok(added.with(row))
    }
}
