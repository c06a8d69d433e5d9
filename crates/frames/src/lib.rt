// How many words some raw bytes are. Each channel gives its repeats in turn, frame after frame, so whole frames are counted by division.
#![tactic(auto)]

pub mod section;

ghost use Rattle.std.specs.Prelude.{◌≡◌, ◌&&◌, ◌||◌, ◌==◌, ◌<◌, ◌≤◌, true, if◌then◌else◌, Some, None};
ghost use Rattle.std.specs.Option.{option_map};
ghost use Rattle.layout.specs.Channels.{ruled};
ghost use Rattle.layout.specs.Turns.{first, count_words};
ghost use Rattle.channel.specs.Records.{settings_of};
ghost use Rattle.calls.specs.Calls.{settings, describable};
ghost use Rattle.frames.specs.Frames.{countable, row_bytes, frame_words, frame_bytes};

use channel::record::Channel;
use limits::MOST_CHANNELS;
use section::Rows;

// The words of a frame, and their raw bytes.
#[derive(Clone, Copy)]
struct Frame {
    words: u32,
    bytes: u32,
}

// Can a row be described?
fn row_describable(row: &Channel, recorded: bool) -> bool
    ensures { result ≡ (ruled (settings_of row.now) && (recorded || (settings_of row.now).repeats == 1)) }
{
    row.keeps_rules() && (recorded || row.repeats() == 1)
}

// Can the rows be described? They keep the rules, and repeats that are not recorded are 1.
pub fn rows_describable(table: &[Channel], recorded: bool) -> bool
    ensures { result ≡ describable recorded (settings table.now) }
{
    table.iter().all(|row| row_describable(row, recorded))
}

// Can a section have these rows?
pub fn is_countable(table: &[Channel]) -> bool
    ensures { result ≡ countable (settings table.now) }
{
    if table.is_empty() || table.len() > MOST_CHANNELS {
        return false;
    }
    rows_describable(table, true)
}

// The raw bytes of a row in a frame.
fn row_bytes(row: &Channel) -> u32
    requires { ruled (settings_of row.now) ≡ true }
    ensures bytes { result ≡ row_bytes (settings_of row.now) }
    ensures most { result ≤ 67108860 }
{
    row.word_bytes() * row.repeats()
}

impl<'a> Rows<'a> {
    // Nothing where no section can have these rows.
    pub fn of(table: &'a [Channel]) -> Option<Rows<'a>>
        ensures { option_map (λ (r : Rows). r.table.now) result ≡ (if countable (settings table.now) then Some table.now else None) }
    {
        if !is_countable(table) {
            return None;
        }
        Some(Rows { table })
    }

    // The frame of the rows.
    fn frame(self) -> Frame
        ensures words { result.words ≡ frame_words (settings self.entry.table.now) }
        ensures bytes { result.bytes ≡ frame_bytes (settings self.entry.table.now) }
    {
        let mut words = 0;
        let mut bytes = 0;
        for row in self.table {
            words += row.repeats();
            bytes += row_bytes(row);
        }
        Frame { words, bytes }
    }

    // How many words some raw bytes are that end within a frame.
    fn words_within(self, raw: u32) -> Option<u32>
        requires { raw < frame_bytes (settings self.table.now) }
        ensures { result ≡ count_words (settings self.entry.table.now) first raw raw }
    {
        let mut words = 0;
        let mut left = raw;
        for row in self.table {
            let bytes = row_bytes(row);
            if left < bytes {
                let size = row.word_bytes();
                return if left % size == 0 {
                    Some(words + left / size)
                } else {
                    None
                };
            }
            words += row.repeats();
            left -= bytes;
        }
        None
    }

    // How many words some raw bytes are, from the first row on. Nothing where they end inside a word.
    pub fn count_words(self, raw: u32) -> Option<u32>
        ensures { result ≡ count_words (settings self.entry.table.now) first raw raw }
    {
        let frame = self.frame();
        let words = self.words_within(raw % frame.bytes)?;
        Some(frame.words * (raw / frame.bytes) + words)
    }
}

// How many words of a table's rows some raw bytes are, from the first row on.
// Nothing where they end inside a word, or where no section can have these rows.
pub fn count_words(table: &[Channel], raw: u32) -> Option<u32>
    ensures { result ≡ (if countable (settings table.now) then count_words (settings table.now) first raw raw else None) }
{
    Rows::of(table)?.count_words(raw)
}
