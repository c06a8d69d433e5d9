// Beginning a file.
ghost use Rattle.std.specs.Prelude.{◌≡◌, None, option_copied};
ghost use Rattle.calls.specs.Calls.{begin_result, begin_bytes};
ghost use Rattle.writer.specs.Answers.{begun};

use crate::states::Between;
use faults::kind::{Fault, Kind};
use fields::clear::clear_from;
use heads::{Head, extra_fits, name_fits, put_head};
use limits::MOST_BYTES;
use state::{Edge, Flags};

// No name, or no extra bytes. A plain `None` says the same.
pub fn absent<'a>() -> Option<&'a [u8]>
    ensures { result ≡ None }
{
    None
}

// Writes the head of a file, with size 0, and zeros behind it. A name and extra bytes are flagged where they are given.
// Faults: 1 the buffer is over the limit, 4 name or extra too long or a zero in the name, 2 the head does not fit.
pub fn begin(
    buffer: &mut [u8],
    stamp: u32,
    flags: Flags,
    name: Option<&[u8]>,
    extra: Option<&[u8]>,
) -> Result<Between, Fault>
    ensures answer { begun result ≡ begin_result stamp flags (option_copied name.entry) (option_copied extra.entry) buffer.old }
    ensures bytes { buffer.new ≡ begin_bytes stamp flags (option_copied name.entry) (option_copied extra.entry) buffer.old }
{
    let len = buffer.len();
    if len > MOST_BYTES {
        return Err(Kind::WrongLength.at_start());
    }
    if !name_fits(name) || !extra_fits(extra) {
        return Err(Kind::BadNameOrExtra.at_start());
    }
    let head = Head {
        stamp,
        flags,
        name,
        extra,
    };
    let at = put_head(buffer, &head).ok_or(Kind::OutputTooShort.at_start())?;
    clear_from(buffer, at.first_bit());
    Ok(Between {
        edge: Edge {
            len,
            flags,
            at,
            sections: 0,
            raw: 0,
        },
    })
}
