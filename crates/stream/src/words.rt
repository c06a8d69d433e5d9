// Many words of one coder, put into a buffer through the accumulator.
ghost use Rattle.std.specs.Prelude.{◌≡◌, ℕ, ◌+◌, ◌/◌};
ghost use Rattle.channel.specs.Piles.{coder_coding, coder_width};
ghost use Rattle.stream.specs.Stream.{put_stream, told};

use crate::streamed::Streamed;
use channel::channel_coder::ChannelCoder;
use channel::work::{PileCoder, Work};
use faults::kind::Kind;
use fields::accumulator::Accumulator;
use fields::place::BitPlace;
use limits::MOST_BYTES;

// The first `count` raw words, to put behind a memory from a place on. A count beside the bytes, since the promise of `put_stream` speaks of it.
#[derive(Clone, Copy)]
struct Streaming<'a> {
    memory: u32,
    raw: &'a [u8],
    count: usize,
    at: BitPlace,
}

impl Work for Streaming<'_> {
    type Answer = Streamed;

    ghost Does = { λ s w C b r d. told r d ≡ put_stream C ((w + 7) / 8) s.memory s.raw.now s.count s.at.bits b };

    // Stops before the first word that meets a fault.
    fn run<C: PileCoder>(self, coder: &C, buffer: &mut [u8]) -> Streamed {
        let size = coder.width().bytes() as usize;
        let unfit = Streamed {
            words: 0,
            at: self.at,
            memory: self.memory,
            fault: Some(Kind::WrongLength),
        };
        if buffer.len() > MOST_BYTES
            || self.at.bits() > 8 * buffer.len()
            || self.raw.len() / size < self.count
        {
            return unfit;
        }
        let Some(mut waiting) = Accumulator::start(buffer, self.at) else {
            return unfit;
        };
        let mut done = Streamed {
            fault: None,
            ..unfit
        };
        for word in coder.width().words(&self.raw[..size * self.count]) {
            let Some(coded) = coder.encode_from(done.memory, word) else {
                waiting.finish(buffer);
                return Streamed {
                    fault: Some(Kind::NoForm),
                    ..done
                };
            };
            if !waiting.push(buffer, coded.form.bits, coded.form.len) {
                waiting.finish(buffer);
                return Streamed {
                    fault: Some(Kind::OutputTooShort),
                    ..done
                };
            }
            // A plain sum: `plus` stops at the last place that there is, which costs a branch for each word.
            done = Streamed {
                words: done.words + 1,
                at: BitPlace::new(done.at.bits() + coded.form.len as usize),
                memory: coded.next,
                fault: None,
            };
        }
        waiting.finish(buffer);
        done
    }
}

// Puts the first `count` raw words of a channel, low byte first, one after the other from a place on.
// Stops before the first that has no form or whose form does not fit, and changes no bit behind those before it.
pub fn put_stream(
    coder: &ChannelCoder,
    memory: u32,
    raw: &[u8],
    count: usize,
    buffer: &mut [u8],
    at: BitPlace,
) -> Streamed
    ensures { told result buffer.new ≡ put_stream (coder_coding coder.now) (coder_width coder.now / 8) memory raw.now count at.bits buffer.old }
{
    let work = Streaming {
        memory,
        raw,
        count,
        at,
    };
    coder.run(work, buffer)
}
