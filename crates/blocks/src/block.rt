// One block code for every coder: a block is its words' forms in order, filled up with zero bits to a whole byte.
ghost use Rattle.std.specs.Prelude.{◌≡◌, ℕ, ◌+◌, ◌*◌, ◌/◌, ◌≤◌, length, take, IfSome, IfOk, Some, Ok};
ghost use Rattle.bits.specs.Bits.{bits, put_bits, field_at};
ghost use Rattle.bits.specs.Raw.{words_in};
ghost use Rattle.forms.specs.Blocks.{block_bits, Apart};
ghost use Rattle.faults.specs.Faults.{answered, gives};
ghost use Rattle.blocks.specs.Loops.{measured, laid, read_words, end_of, spread};
ghost use Rattle.blocks.specs.Blocks.{bytes_per, over, pack_answer, pack_bytes, read_answer, read_bytes, ReadsExactly};

use coder::coder::Coder;
use coder::steps::take_word;
use faults::kind::{Fault, Kind};
use fields::accumulator::Accumulator;
use fields::bytes::are_bytes;
use fields::place::{BitPlace, BytePlace};
use fields::raw::put_raw_word;

// The most words of a block.
const MOST_WORDS: usize = 65536;

// How many bytes a raw word has.
fn word_size<C: Coder>(coder: &C) -> u32
    ensures size { result ≡ bytes_per (C.Coder.wide coder.now) }
    ensures some { 1 ≤ result }
    ensures most { result ≤ 4 }
{
    coder.word_width().bytes()
}

// How many bits the words take; nothing where one has no form.
fn measure<C: Coder>(coder: &C, raw: &[u8]) -> Option<usize>
    requires few { length (words_in (bytes_per (C.Coder.wide coder.now)) raw.now) ≤ 65536 }
    ensures bits { result ≡ measured (C.Coder.coding coder.now) (C.Coder.coding coder.now).start 0 (words_in (bytes_per (C.Coder.wide coder.now)) raw.now) }
    ensures few { IfSome result (λ n. n ≤ 4194304) }
{
    let mut memory = coder.start();
    let mut len = 0;
    for word in coder.word_width().words(raw) {
        let coded = coder.encode(memory, word)?;
        len += coded.form.len as usize;
        memory = coded.next;
    }
    Some(len)
}

// Writes the forms of the words, which take `len` bits, and zero bits up to a whole byte.
fn lay<C: Coder>(coder: &C, raw: &[u8], len: usize, out: &mut [u8])
    requires room { (len + 7) / 8 ≤ length out.old }
    requires measured { measured (C.Coder.coding coder.now) (C.Coder.coding coder.now).start 0 (words_in (bytes_per (C.Coder.wide coder.now)) raw.now) ≡ Some len }
    ensures { out.new ≡ over out.old (block_bits (C.Coder.coding coder.now) (C.Coder.coding coder.now).start (words_in (bytes_per (C.Coder.wide coder.now)) raw.now)) }
{
    are_bytes(out);
    let Some(mut waiting) = Accumulator::start(out, BitPlace::new(0)) else {
        return;
    };
    let mut memory = coder.start();
    for word in coder.word_width().words(raw) {
        let Some(coded) = coder.encode(memory, word) else {
            return;
        };
        waiting.push(out, coded.form.bits, coded.form.len);
        memory = coded.next;
    }
    waiting.push(out, 0, ((8 - len % 8) % 8) as u32);
    waiting.finish(out);
}

// Packs words that are raw bytes.
fn pack_words<C: Coder>(coder: &C, raw: &[u8], out: &mut [u8]) -> Result<usize, Fault>
    ensures answer { answered (λ n. n) result ≡ pack_answer (bytes_per (C.Coder.wide coder.now)) (C.Coder.coding coder.now) raw.now (length out.old) }
    ensures bytes { out.new ≡ pack_bytes (bytes_per (C.Coder.wide coder.now)) (C.Coder.coding coder.now) raw.now out.old }
    ensures most { IfOk result (λ n. n ≤ 4194304) }
{
    let size = word_size(coder) as usize;
    if raw.len() % size != 0 {
        return Err(Kind::PartialWord.at_start());
    }
    if raw.len() / size > MOST_WORDS {
        return Err(Kind::OverLimit.at_start());
    }
    let len = measure(coder, raw).ok_or(Kind::NoForm.at_start())?;
    if len.div_ceil(8) > out.len() {
        return Err(Kind::OutputTooShort.at_start());
    }
    lay(coder, raw, len, out);
    Ok(len)
}

// Reads so many words and answers the place behind them.
fn scan<C: Coder>(coder: &C, block: &[u8], count: usize) -> Result<BitPlace, Fault>
    requires { count ≤ 65536 }
    ensures { answered (λ (p : BitPlace). p.bits) result ≡ end_of (read_words (C.Coder.coding coder.now) (C.Coder.coding coder.now).start block.now 0 count) }
{
    let mut memory = coder.start();
    let mut at = BitPlace::new(0);
    for _ in 0..count {
        // A match and no `?`, so that the fault is a value here and a wrong place in it is noticed as such.
        let taken = match take_word(coder, memory, block, at) {
            Ok(taken) => taken,
            Err(fault) => return Err(fault),
        };
        at = BitPlace::new(at.bits() + taken.len as usize);
        memory = taken.next;
    }
    Ok(at)
}

// Writes a word at an index of raw bytes, `size` bytes each.
fn put_word_at(raw: &mut [u8], index: usize, word: u32, size: u32)
    requires some { 1 ≤ size }
    requires most { size ≤ 4 }
    requires room { size * (index + 1) ≤ length raw.old }
    ensures { raw.new ≡ put_bits raw.old (8 * (size * index)) (bits (8 * size) word) }
{
    are_bytes(raw);
    let n = size as usize;
    let p = index * n;
    put_raw_word(&mut raw[p..p + n], BytePlace::new(0), word, size);
}

// Reads so many words, which are there, and writes them out. The index says where each goes.
fn unpack<C: Coder>(coder: &C, block: &[u8], count: usize, out: &mut [u8])
    requires few { count ≤ 65536 }
    requires room { bytes_per (C.Coder.wide coder.now) * count ≤ length out.old }
    ensures { out.new ≡ spread (bytes_per (C.Coder.wide coder.now)) (C.Coder.coding coder.now) (C.Coder.coding coder.now).start block.now 0 out.old 0 count }
{
    let size = word_size(coder);
    let mut memory = coder.start();
    let mut at = BitPlace::new(0);
    for i in 0..count {
        let Ok(taken) = take_word(coder, memory, block, at) else {
            return;
        };
        put_word_at(out, i, taken.word, size);
        at = BitPlace::new(at.bits() + taken.len as usize);
        memory = taken.next;
    }
}

// Reads words and writes them as raw bytes.
fn read_words<C: Coder>(
    coder: &C,
    block: &[u8],
    count: usize,
    out: &mut [u8],
) -> Result<usize, Fault>
    ensures answer { answered (λ n. n) result ≡ read_answer (bytes_per (C.Coder.wide coder.now)) (C.Coder.coding coder.now) block.now count (length out.old) }
    ensures bytes { out.new ≡ read_bytes (bytes_per (C.Coder.wide coder.now)) (C.Coder.coding coder.now) block.now count out.old }
    ensures most { IfOk result (λ n. n ≤ 65536) }
{
    are_bytes(out);
    if count > MOST_WORDS {
        return Err(Kind::OverLimit.at_start());
    }
    let size = word_size(coder) as usize;
    if size * count > out.len() {
        return Err(Kind::OutputTooShort.at_start());
    }
    let end = scan(coder, block, count)?;
    if end.whole_byte().bytes() < block.len() {
        return Err(Kind::TrailingBytes.at(end));
    }
    unpack(coder, block, count, out);
    Ok(count)
}

// Packs raw words, low byte first, into a block at the front of `out`, and answers how many bits it has.
// A fault writes nothing, and what lies past the block stays.
pub fn pack<C: Coder>(coder: &C, raw: &[u8], out: &mut [u8]) -> Result<usize, Fault>
    ensures answer { answered (λ n. n) result ≡ pack_answer (bytes_per (C.Coder.wide coder.now)) (C.Coder.coding coder.now) raw.now (length out.old) }
    ensures bytes { out.new ≡ pack_bytes (bytes_per (C.Coder.wide coder.now)) (C.Coder.coding coder.now) raw.now out.old }
    ensures apart { (m : C.Memory) → Apart (C.Coder.coding coder.now) m }
    ensures back { (n : ℕ) → result ≡ Ok n → read_words (C.Coder.coding coder.now) (C.Coder.coding coder.now).start (take ((n + 7) / 8) out.new) 0 (length (words_in (bytes_per (C.Coder.wide coder.now)) raw.now)) ≡ gives (words_in (bytes_per (C.Coder.wide coder.now)) raw.now, n) }
    ensures most { IfOk result (λ n. n ≤ 4194304) }
{
    pack_words(coder, raw, out)
}

// Reads so many words from a block and writes them to the front of `out`, low byte first; answers their number.
// Pad bits are not judged. A fault writes nothing, and what lies past the words stays.
pub fn read<C: Coder>(coder: &C, block: &[u8], count: usize, out: &mut [u8]) -> Result<usize, Fault>
    ensures answer { answered (λ n. n) result ≡ read_answer (bytes_per (C.Coder.wide coder.now)) (C.Coder.coding coder.now) block.now count (length out.old) }
    ensures bytes { out.new ≡ read_bytes (bytes_per (C.Coder.wide coder.now)) (C.Coder.coding coder.now) block.now count out.old }
    ensures exact { (m : C.Memory) → ReadsExactly (C.Coder.coding coder.now) m block.now count }
    ensures most { IfOk result (λ n. n ≤ 65536) }
{
    read_words(coder, block, count, out)
}
