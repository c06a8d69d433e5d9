// All words of raw bytes, put into a section that has just been opened.
ghost use Rattle.writer.specs.Answers.{put};
ghost use Rattle.writer.specs.Filling.{Opened, Pours};

use crate::states::Inside;
use channel::record::Channel;
use faults::kind::{Fault, Kind};
use fields::place::BytePlace;
use fields::raw::raw_word;

impl Inside {
    // Puts one word after the other, each as wide as its channel's words.
    pub(crate) fn pour_each(
        &mut self,
        buffer: &mut [u8],
        table: &mut [Channel],
        raw: &[u8],
    ) -> Result<usize, Fault>
        requires { Opened self.old.spot buffer.old table.old }
        ensures { Pours self.old.spot buffer.old table.old raw.now (put result) self.new.spot buffer.new table.new }
    {
        let mut rest = raw;
        let mut bits = 0;
        while !rest.is_empty() {
            let size = table[self.spot.channel].word_bytes();
            let cut = Kind::PartialWord.at(self.spot.at);
            let word = raw_word(rest, BytePlace::new(0), size).ok_or(cut)?;
            bits += self.put(buffer, table, word)? as usize;
            rest = &rest[size as usize..];
        }
        Ok(bits)
    }
}
