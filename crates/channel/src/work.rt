// Work on a channel's words that is written once, for any coder.
ghost use Rattle.std.specs.Prelude.{◌≡◌, ℕ, ◌%◌, List, length};
ghost use Rattle.forms.specs.Coders.{turn};
ghost use Rattle.forms.specs.Coding.{Coding, Sound, encoded};
ghost use Rattle.faults.specs.Faults.{answered};
ghost use Rattle.coder.specs.Steps.{put_answer, put_bytes, put_parts, take_answer, taken_parts};
ghost use Rattle.channel.specs.Words.{kept_form, kept_put, kept_taken};
ghost use Rattle.channel.specs.Piles.{pile_coding, coder_coding, coder_width};

use crate::channel_coder::ChannelCoder;
use coder::coder::Coder;
use coder::delta::Delta;
use coder::form::Coded;
use coder::step::{Put, Taken};
use coder::steps::{put_word, take_word};
use coder::turn::Turn;
use coder::width::Width;
use coders::beside::Beside;
use coders::flagged::FlaggedDelta;
use coders::kinds::Algorithm;
use coders::pile::Pile;
use faults::kind::Fault;
use fields::place::BitPlace;

// A coder whose memory is one word, as a channel keeps it. A trait of its own, since a bound with a pair in a trait's method,
// `Coder<Memory = (u32, ())>`, gets no proof for an impl in another crate.
pub trait PileCoder {
    ghost wide: { Self → ℕ };

    ghost coding: { Self → Coding (ℕ × Unit {0}) };

    ghost sound: { (c : Self) → Sound (wide c) (coding c) };

    fn width(&self) -> Width
        ensures { result.bits ≡ wide self.now };

    // The word's form and the memory behind it; nothing where the word has no form.
    fn encode_from(&self, memory: u32, word: u32) -> Option<Coded<u32>>
        ensures { kept_form result ≡ encoded (coding self.now) (memory, tt) word };

    // Writes a word's form at a place and changes no other bit. A fault changes nothing.
    fn put_from(
        &self,
        memory: u32,
        word: u32,
        buffer: &mut [u8],
        at: BitPlace,
    ) -> Result<Put<u32>, Fault>
        ensures answer { answered put_parts result ≡ kept_put (put_answer (coding self.now) (memory, tt) word at.bits (length buffer.old)) }
        ensures bytes { buffer.new ≡ put_bytes (coding self.now) (memory, tt) word at.bits buffer.old };

    // Reads the word whose form begins at a place.
    fn take_from(&self, memory: u32, file: &[u8], at: BitPlace) -> Result<Taken<u32>, Fault>
        ensures { answered taken_parts result ≡ kept_taken (take_answer (coding self.now) (memory, tt) file.now at.bits) };
}

impl<C: Coder<Memory = (u32, ())>> PileCoder for C {
    ghost wide = { C.Coder.wide };

    ghost coding = { C.Coder.coding };

    ghost sound = { C.Coder.sound };

    fn width(&self) -> Width {
        self.word_width()
    }

    fn encode_from(&self, memory: u32, word: u32) -> Option<Coded<u32>> {
        let coded = self.encode((memory, ()), word)?;
        Some(Coded {
            form: coded.form,
            next: coded.next.0,
        })
    }

    fn put_from(
        &self,
        memory: u32,
        word: u32,
        buffer: &mut [u8],
        at: BitPlace,
    ) -> Result<Put<u32>, Fault> {
        let put = put_word(self, (memory, ()), word, buffer, at)?;
        Ok(Put {
            len: put.len,
            next: put.next.0,
        })
    }

    fn take_from(&self, memory: u32, file: &[u8], at: BitPlace) -> Result<Taken<u32>, Fault> {
        let taken = take_word(self, (memory, ()), file, at)?;
        Ok(Taken {
            word: taken.word,
            len: taken.len,
            next: taken.next.0,
        })
    }
}

// What is to be done with one coder, and with a buffer that is lent for it.
pub trait Work {
    type Answer;

    // What may be answered, and left of the buffer, by a coding of words of so many bits.
    ghost Does: { Self → ℕ → Coding (ℕ × Unit {0}) → List ℕ → Self.Answer → List ℕ → Type 0 };

    fn run<C: PileCoder>(self, coder: &C, buffer: &mut [u8]) -> Self::Answer
        ensures { Does self (C.wide coder.now) (C.coding coder.now) buffer.old result buffer.new };
}

// Behind the turn, which any coder of a channel has.
fn run_turned<C: Coder<Memory = (u32, ())> + Copy, T: Work>(
    inner: C,
    by: u32,
    work: T,
    buffer: &mut [u8],
) -> T::Answer
    ensures { T.Does work (C.Coder.wide inner) (turn (C.Coder.wide inner) (by % C.Coder.wide inner) (C.Coder.coding inner)) buffer.old result buffer.new }
{
    work.run(&Turn { inner, by }, buffer)
}

// Chooses the algorithm and whether differences are taken once, for all words. Written out, since no closure is generic over the coder.
fn run_pile<const W: u32, T: Work>(pile: &Pile<W>, work: T, buffer: &mut [u8]) -> T::Answer
    ensures { T.Does work W (pile_coding W pile.now) buffer.old result buffer.new }
{
    let by = pile.by;
    match &pile.inner {
        FlaggedDelta::On(delta) => match &delta.inner {
            Algorithm::Null(c) => run_turned(Delta { inner: *c }, by, work, buffer),
            Algorithm::Constant(c) => run_turned(Delta { inner: *c }, by, work, buffer),
            Algorithm::Reduced(c) => run_turned(Delta { inner: *c }, by, work, buffer),
        },
        FlaggedDelta::Off(beside) => match &beside.inner {
            Algorithm::Null(c) => run_turned(Beside { inner: *c }, by, work, buffer),
            Algorithm::Constant(c) => run_turned(Beside { inner: *c }, by, work, buffer),
            Algorithm::Reduced(c) => run_turned(Beside { inner: *c }, by, work, buffer),
        },
    }
}

impl ChannelCoder {
    // Does the work with the channel's coder.
    pub fn run<T: Work>(&self, work: T, buffer: &mut [u8]) -> T::Answer
        ensures { T.Does work (coder_width self.now) (coder_coding self.now) buffer.old result buffer.new }
    {
        match self {
            ChannelCoder::Byte(pile) => run_pile(pile, work, buffer),
            ChannelCoder::Half(pile) => run_pile(pile, work, buffer),
            ChannelCoder::Full(pile) => run_pile(pile, work, buffer),
        }
    }
}
