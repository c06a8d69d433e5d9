// One word of a channel, by the generic step at its pile.
ghost use Rattle.std.specs.Prelude.{◌≡◌, length};
ghost use Rattle.faults.specs.Faults.{answered};
ghost use Rattle.coder.specs.Steps.{put_answer, put_bytes, put_parts, take_answer, taken_parts};
ghost use Rattle.channel.specs.Piles.{coder_coding};
ghost use Rattle.channel.specs.Words.{kept_put, kept_taken};

use crate::channel_coder::ChannelCoder;
use crate::work::{PileCoder, Work};
use coder::step::{Put, Taken};
use faults::kind::Fault;
use fields::place::BitPlace;

// A word to put behind a memory, at a place.
#[derive(Clone, Copy)]
struct Putting {
    memory: u32,
    word: u32,
    at: BitPlace,
}

impl Work for Putting {
    type Answer = Result<Put<u32>, Fault>;

    ghost Does = { λ p w C b r d. (answered put_parts r ≡ kept_put (put_answer C (p.memory, tt) p.word p.at.bits (length b))) × (d ≡ put_bytes C (p.memory, tt) p.word p.at.bits b) };

    fn run<C: PileCoder>(self, coder: &C, buffer: &mut [u8]) -> Result<Put<u32>, Fault> {
        coder.put_from(self.memory, self.word, buffer, self.at)
    }
}

// A word to take behind a memory, at a place of a file.
#[derive(Clone, Copy)]
struct Taking<'a> {
    memory: u32,
    file: &'a [u8],
    at: BitPlace,
}

impl Work for Taking<'_> {
    type Answer = Result<Taken<u32>, Fault>;

    ghost Does = { λ t w C b r d. answered taken_parts r ≡ kept_taken (take_answer C (t.memory, tt) t.file.now t.at.bits) };

    fn run<C: PileCoder>(self, coder: &C, _buffer: &mut [u8]) -> Result<Taken<u32>, Fault> {
        coder.take_from(self.memory, self.file, self.at)
    }
}

impl ChannelCoder {
    // Writes a word's form at a place and changes no other bit. A fault changes nothing.
    pub fn put(
        &self,
        memory: u32,
        word: u32,
        buffer: &mut [u8],
        at: BitPlace,
    ) -> Result<Put<u32>, Fault>
        ensures answer { answered put_parts result ≡ kept_put (put_answer (coder_coding self.now) (memory, tt) word at.bits (length buffer.old)) }
        ensures bytes { buffer.new ≡ put_bytes (coder_coding self.now) (memory, tt) word at.bits buffer.old }
    {
        self.run(Putting { memory, word, at }, buffer)
    }

    // Reads the word whose form begins at a place.
    pub fn take(&self, memory: u32, file: &[u8], at: BitPlace) -> Result<Taken<u32>, Fault>
        ensures { answered taken_parts result ≡ kept_taken (take_answer (coder_coding self.now) (memory, tt) file.now at.bits) }
    {
        self.run(Taking { memory, file, at }, &mut [])
    }
}
