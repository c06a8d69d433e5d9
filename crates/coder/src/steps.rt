// The step of one word, for any coder.
ghost use Rattle.std.specs.Prelude.{◌≡◌, length};
ghost use Rattle.faults.specs.Faults.{answered};
ghost use Rattle.coder.specs.Steps.{put_answer, put_bytes, put_parts, take_answer, taken_parts};

use crate::coder::Coder;
use crate::form::Unread;
use crate::step::{Put, Taken};
use faults::kind::{Fault, Kind};
use fields::field::{put_field, window_at};
use fields::place::BitPlace;

// Writes a word's form at a place and changes no other bit. A fault changes nothing.
pub fn put_word<C: Coder>(
    coder: &C,
    memory: C::Memory,
    word: u32,
    buffer: &mut [u8],
    at: BitPlace,
) -> Result<Put<C::Memory>, Fault>
    ensures answer { answered put_parts result ≡ put_answer (C.Coder.coding coder.now) memory word at.bits (length buffer.old) }
    ensures bytes { buffer.new ≡ put_bytes (C.Coder.coding coder.now) memory word at.bits buffer.old }
{
    let coded = coder.encode(memory, word).ok_or(Kind::NoForm.at(at))?;
    if !put_field(buffer, at, coded.form.bits, coded.form.len) {
        return Err(Kind::OutputTooShort.at(at));
    }
    Ok(Put {
        len: coded.form.len,
        next: coded.next,
    })
}

// Reads the word whose form begins at a place.
pub fn take_word<C: Coder>(
    coder: &C,
    memory: C::Memory,
    file: &[u8],
    at: BitPlace,
) -> Result<Taken<C::Memory>, Fault>
    ensures { answered taken_parts result ≡ take_answer (C.Coder.coding coder.now) memory file.now at.bits }
{
    match coder.decode(memory, window_at(file, at)) {
        Ok(taken) => Ok(taken),
        Err(Unread::Dead { len: _ }) => Err(Kind::DeadForm.at(at)),
        Err(Unread::Partial) => Err(Kind::InputEnds.at(at)),
    }
}
