// Reading the head of a section.
ghost use Rattle.std.specs.Prelude.{◌≡◌, ℕ, ◌≤◌, length, IfOk};
ghost use Rattle.bits.specs.Bits.{bits_of};
ghost use Rattle.format.specs.Format.{Format, times};
ghost use Rattle.layout.specs.Slim.{channel_count, channel};
ghost use Rattle.calls.specs.Calls as calls;
ghost use Rattle.calls.specs.Parts.{described};
ghost use Rattle.reading.specs.Told.{bits_in, told};
ghost use Rattle.reader.specs.Walks.{standing};
ghost use Rattle.reader.specs.Sections.{raw_field, head, rows_in, head_in, AtRest};

use crate::opening::Opening;
use crate::walk::Walk;
use channel::record::Channel;
use faults::kind::{Fault, Kind};
use fields::place::Cursor;
use limits::{MOST_CHANNELS, MOST_RAW};
use reading::source::Source;
use reading::taken::Taken;
use state::Flags;

// Takes the number of channels, which is 1 under one-channel.
fn take_count(source: Source, from: Cursor, flags: Flags) -> Result<Taken<usize>, Fault>
    ensures count { told (λ n. n) result ≡ (channel_count (calls.flags flags)).reads (bits_in source.entry) from.at.bits from.last.bits }
    ensures most { IfOk result (λ t. t.value ≤ 32) }
{
    if flags.single {
        return Ok(Taken {
            value: 1,
            end: from,
        });
    }
    let count = source.take_number(from.at, 24)?;
    let rows = count.value as usize;
    if rows == 0 || rows > MOST_CHANNELS {
        return Err(Kind::ChannelCount.at(from.at));
    }
    Ok(count.with(rows))
}

// Takes the descriptions of as many channels as there are rows into these, at their starting memories.
fn take_rows(
    source: Source,
    from: Cursor,
    recorded: bool,
    rows: &mut [Channel],
) -> Result<Taken<usize>, Fault>
    ensures rows { told (rows_in rows.new) result ≡ (times (length rows.old) (channel recorded)).reads (bits_in source.entry) from.at.bits from.last.bits }
    ensures rest { AtRest (λ n. n) rows.new result }
    ensures many { IfOk result (λ t. t.value ≡ length rows.new) }
{
    let mut end = from;
    for row in rows.iter_mut() {
        let taken = source.take_channel(end.at, recorded)?;
        *row = taken.value;
        end = taken.end;
    }
    Ok(Taken {
        value: rows.len(),
        end,
    })
}

// Takes the number of channels and their descriptions; these go to the first rows of a table.
fn take_channels(
    source: Source,
    from: Cursor,
    flags: Flags,
    table: &mut [Channel; MOST_CHANNELS],
) -> Result<Taken<usize>, Fault>
    ensures rows { told (rows_in table.new) result ≡ (described (calls.flags flags)).reads (bits_in source.entry) from.at.bits from.last.bits }
    ensures rest { AtRest (λ n. n) table.new result }
    ensures most { IfOk result (λ t. t.value ≤ 32) }
{
    let count = take_count(source, from, flags)?;
    let recorded = flags.records_repeats(count.value);
    take_rows(source, count.end, recorded, &mut table[..count.value])
}

impl<'a> Walk<'a> {
    // Takes the raw size of the next section.
    fn take_raw(&self) -> Result<Taken<u32>, Fault>
        ensures { let s = standing self.now in (l : ℕ) → told (λ v. v) result ≡ (raw_field s.raw).reads (bits_of s.file) s.place l }
    {
        let at = self.end.at;
        let raw = self.source.take_number(at, 32)?;
        if raw.value == 0 {
            return Err(Kind::NoSection.at(at));
        }
        if raw.value > MOST_RAW - self.raw {
            return Err(Kind::OverLimit.at(raw.end.last));
        }
        Ok(raw)
    }

    // Reads the head of the next section; the channels go to the first rows, at their starting memories.
    pub(crate) fn open(&mut self) -> Result<Taken<Opening>, Fault>
        ensures head { let s = standing self.old in (l : ℕ) → told (head_in self.new.rows) result ≡ (head s.flags s.raw).reads (bits_of s.file) s.place l }
        ensures rest { AtRest (λ o. o.rows) self.new.rows result }
        ensures stays { standing self.new ≡ standing self.old }
    {
        let raw = self.take_raw()?;
        let pointer = self.source.take_flagged(
            self.flags.pointed,
            raw.end,
            |source, at| source.take_number(at, 32),
        )?;
        let rows = take_channels(self.source, pointer.end, self.flags, &mut self.rows)?;
        Ok(rows.with(Opening {
            raw: raw.value,
            pointer: pointer.value,
            rows: rows.value,
        }))
    }
}
