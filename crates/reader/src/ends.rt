// Reading what closes a section.
ghost use Rattle.std.specs.Prelude.{◌≡◌, ℕ, ◌/◌, not, ◌||◌, if◌then◌else◌};
ghost use Rattle.format.specs.Format.{Format, judged, padding};
ghost use Rattle.layout.specs.Slim as slim;
ghost use Rattle.layout.specs.Slim.{goes_on};
ghost use Rattle.reading.specs.Told.{bits_in, told};
ghost use Rattle.reading.specs.Blocks.{closing_of};
ghost use Rattle.reader.specs.Sections.{agrees};
ghost use Rattle.reader.specs.Counts.{follows};

use faults::kind::{Fault, Kind};
use fields::place::{BitPlace, Cursor};
use reading::closing::Closing;
use reading::source::Source;
use reading::taken::Taken;

// Does another section follow?
fn goes_on(closing: Closing) -> bool
    ensures { result ≡ follows closing }
{
    matches!(closing, Closing::Another)
}

// Takes what closes a section; another may follow only where there is room for it.
pub(crate) fn take_end(source: Source, at: BitPlace, room: bool) -> Result<Taken<Closing>, Fault>
    ensures { (l : ℕ) → told (closing_of (bits_in source.entry)) result ≡ (judged slim.closing (λ e q. not (goes_on e) || room) 9).reads (bits_in source.entry) at.bits l }
{
    let closing = source.take_closing(at)?;
    if goes_on(closing.value) && !room {
        return Err(Kind::OverLimit.at(closing.end.last));
    }
    Ok(closing)
}

// Takes the pad bits up to the next whole byte, which are not judged.
pub(crate) fn take_padding(source: Source, from: Cursor) -> Result<Taken<()>, Fault>
    ensures { told (λ u. u) result ≡ padding.reads (bits_in source.entry) from.at.bits from.last.bits }
{
    let at = from.at.whole_byte().first_bit();
    if at.bits() > 8 * source.bytes.len() {
        return Err(Kind::InputEnds.at(from.at));
    }
    Ok(Taken {
        value: (),
        end: Cursor {
            at,
            last: from.last,
        },
    })
}

// Does the pointer, if there is one, name the byte where the next section starts, or 0 where none follows?
pub(crate) fn names_next(pointer: Option<u32>, closing: Closing, end: BitPlace) -> bool
    ensures { result ≡ agrees pointer (if follows closing then end.bits / 8 else 0) }
{
    let next = if goes_on(closing) {
        end.byte().bytes()
    } else {
        0
    };
    pointer.is_none_or(|place| place as usize == next)
}
