// All words of raw bytes, put at once into a section of one channel.
ghost use Rattle.std.specs.Prelude.{◌≡◌, length};
ghost use Rattle.writer.specs.Answers.{put};
ghost use Rattle.writer.specs.Filling.{Opened, Pours};

use crate::states::Inside;
use channel::record::Channel;
use faults::kind::{Fault, Kind};
use limits::MOST_RAW;
use state::Spot;
use stream::words::put_stream;

impl Inside {
    // Puts the words of a table's only row by one loop.
    pub(crate) fn pour_one(
        &mut self,
        buffer: &mut [u8],
        table: &mut [Channel],
        raw: &[u8],
    ) -> Result<usize, Fault>
        requires opened { Opened self.old.spot buffer.old table.old }
        requires single { length table.old ≡ 1 }
        ensures { Pours self.old.spot buffer.old table.old raw.now (put result) self.new.spot buffer.new table.new }
    {
        let spot = self.spot;
        let row = table[0];
        let coder = row.coder().ok_or(Kind::NoForm.at(spot.at))?;
        let size = row.word_bytes();
        let all = raw.len() / size as usize;
        let count = all.min(((MOST_RAW - spot.edge.raw) / size) as usize);
        let streamed = put_stream(&coder, row.memory(), raw, count, buffer, spot.at);
        table[0] = row.remembering(streamed.memory);
        let words = streamed.words as u32;
        self.spot = Spot {
            at: streamed.at,
            given: words % row.repeats(),
            raw: size * words,
            ..spot
        };
        let more = (count < all).then_some(Kind::OverLimit);
        let cut = (raw.len() % size as usize != 0).then_some(Kind::PartialWord);
        match streamed.fault.or(more).or(cut) {
            Some(kind) => Err(kind.at(streamed.at)),
            None => Ok(streamed.at.bits() - spot.at.bits()),
        }
    }
}
