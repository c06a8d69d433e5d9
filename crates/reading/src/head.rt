// The head of a file.
ghost use Rattle.std.specs.Prelude.{◌≡◌, ℕ, ◌+◌, ◌*◌, ◌/◌, ◌%◌, IfOk, Some};
ghost use Rattle.std.specs.Option.{option_map};
ghost use Rattle.format.specs.Format.{Format};
ghost use Rattle.layout.specs.Slim as slim;
ghost use Rattle.layout.specs.Slim.{name_bytes, extra_bytes};
ghost use Rattle.reading.specs.Told.{bytes_in, bits_in, told};
ghost use Rattle.reading.specs.Heads as heads;
ghost use Rattle.reading.specs.Heads.{part_bytes, size_field, head_in, PartAt, size_room, name_room, name_place, extra_place};

use crate::flagged::Flag;
use crate::front::Front;
use crate::part::Part;
use crate::source::Source;
use crate::taken::Taken;
use faults::kind::{Fault, Kind};
use fields::bytes::are_bytes;
use fields::place::BitPlace;
use limits::MOST_NAME;

// The bytes 53 4c, as one number.
const MAGIC: u32 = 0x4c53;

impl<'a> Source<'a> {
    // Takes a name and the zero byte behind it; each byte is a field.
    fn take_name(self, at: BitPlace) -> Result<Taken<Part>, Fault>
        requires { at.bits % 8 ≡ 0 }
        ensures bytes { (l : ℕ) → told (part_bytes (bytes_in self.entry)) result ≡ (name_bytes 255).reads (bits_in self.entry) at.bits l }
        ensures place { IfOk result (λ t. PartAt (bytes_in self.entry) (at.bits / 8) (Some t.value)) }
        ensures behind { IfOk result (λ t. t.end.at.bits ≡ at.bits + 8 * (t.value.len + 1)) }
    {
        are_bytes(self.bytes);
        let start = at.byte();
        let mut place = at;
        // Byte by byte and no search, since each is a field whose fault has a place of its own.
        for len in 0..MOST_NAME {
            let byte = self.take_number(place, 8)?;
            if byte.value == 0 {
                return Ok(byte.with(Part { at: start, len }));
            }
            place = byte.end.at;
        }
        let end = self.take_number(place, 8)?;
        if end.value != 0 {
            return Err(Kind::BadNameOrExtra.at(place));
        }
        Ok(end.with(Part {
            at: start,
            len: MOST_NAME,
        }))
    }

    // Takes a count and so many extra bytes, which are one field.
    fn take_extra(self, at: BitPlace) -> Result<Taken<Part>, Fault>
        requires { at.bits % 8 ≡ 0 }
        ensures bytes { (l : ℕ) → told (part_bytes (bytes_in self.entry)) result ≡ extra_bytes.reads (bits_in self.entry) at.bits l }
        ensures place { IfOk result (λ t. PartAt (bytes_in self.entry) (at.bits / 8 + 2) (Some t.value)) }
    {
        are_bytes(self.bytes);
        let count = self.take_number(at, 16)?;
        let part = Part {
            at: count.end.at.byte(),
            len: count.value as usize,
        };
        if part.len == 0 {
            return Ok(count.with(part));
        }
        let block = self.take_block(count.end.at, part.len)?;
        Ok(block.with(part))
    }

    // Takes the head of the file.
    pub fn take_head(self) -> Result<Taken<Front>, Fault>
        ensures head { told (head_in (bytes_in self.entry)) result ≡ (heads.head).reads (bits_in self.entry) 0 0 }
        ensures name { IfOk result (λ t. PartAt (bytes_in self.entry) (name_place t.value) t.value.name) }
        ensures extra { IfOk result (λ t. PartAt (bytes_in self.entry) (extra_place t.value) t.value.extra) }
    {
        let start = BitPlace::new(0);
        let magic = self.take_number(start, 16)?;
        if magic.value != MAGIC {
            return Err(Kind::NotSlim.at(start));
        }
        let stamp = self.take_number(magic.end.at, 32)?;
        let flags = self.take_number(stamp.end.at, 8)?;
        if flags.value >= 64 {
            return Err(Kind::ReservedFlag.at(stamp.end.at));
        }
        let sized = Flag::Size.is_set(flags.value);
        let size = self.take_flagged(sized, flags.end, |file, at| file.take_number(at, 32))?;
        let named = Flag::Name.is_set(flags.value);
        let name = self.take_flagged(named, size.end, Source::take_name)?;
        let extended = Flag::Extra.is_set(flags.value);
        let extra = self.take_flagged(extended, name.end, Source::take_extra)?;
        Ok(extra.with(Front {
            stamp: stamp.value,
            flags: flags.value,
            size: size.value,
            name: name.value,
            extra: extra.value,
        }))
    }
}
