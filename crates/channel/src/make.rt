// Making a channel record, and the judgement of a row.
ghost use Rattle.std.specs.Prelude.{◌≡◌, ◌/◌, ◌≤◌};
ghost use Rattle.faults.specs.Faults.{answered};
ghost use Rattle.layout.specs.Channels.{width, suits, ruled};
ghost use Rattle.channel.specs.Names.{size_bits};
ghost use Rattle.channel.specs.Records.{described, settings_of, rested, remembering, channel_answer, parts, plain};

use crate::names::{Method, WordSize};
use crate::record::{Channel, Settings};
use faults::kind::{Fault, Kind};
use limits::MOST_REPEATS;

// The width of a type's words, and 0 where the type is not covered.
pub fn width_of(kind: u32) -> u32
    ensures { result ≡ width kind }
{
    WordSize::try_from(kind).map_or(0, |size| size.bits())
}

// Do R and the value suit the algorithm, for words of a size?
fn suits_algorithm(size: WordSize, algorithm: u32, narrow: u32, value: u32) -> bool
    ensures { result ≡ suits (size_bits size) algorithm narrow value }
{
    let Ok(method) = Method::try_from(algorithm) else {
        return false;
    };
    let is_word = (value as u64) < 1u64 << size.bits();
    match method {
        Method::Null => narrow == 0 && value == 0,
        Method::Reduced => 0 < narrow && narrow <= size.bits() && is_word,
        Method::Constant => narrow == 0 && is_word,
    }
}

impl Settings {
    // Do the settings keep the rules?
    pub fn keeps_rules(&self) -> bool
        ensures { result ≡ ruled (described self.now) }
    {
        let Ok(size) = WordSize::try_from(self.kind) else {
            return false;
        };
        if self.repeats == 0 || self.repeats > MOST_REPEATS || self.turn >= size.bits() {
            return false;
        }
        suits_algorithm(size, self.algorithm, self.narrow, self.value)
    }
}

impl Channel {
    // A plain row, which keeps the rules: words of 8 bits as they are.
    pub fn plain() -> Channel
        ensures { parts result ≡ (plain, 0) }
    {
        let settings = Settings {
            repeats: 1,
            delta: false,
            turn: 0,
            algorithm: 0,
            kind: 7,
            narrow: 0,
            value: 0,
        };
        let memory = 0;
        Channel { settings, memory }
    }

    // Do the row's settings keep the rules?
    pub fn keeps_rules(&self) -> bool
        ensures { result ≡ ruled (settings_of self.now) }
    {
        self.settings.keeps_rules()
    }

    // How many words the channel gives in a row.
    pub fn repeats(&self) -> u32
        ensures { result ≡ (settings_of self.now).repeats }
    {
        self.settings.repeats
    }

    // The row's memory: the word before, where differences are written.
    pub fn memory(&self) -> u32
        ensures { result ≡ self.now.memory }
    {
        self.memory
    }

    // How many bytes a raw word of the row has.
    pub fn word_bytes(&self) -> u32
        ensures bytes { result ≡ width self.now.settings.kind / 8 }
        ensures most { result ≤ 4 }
    {
        WordSize::try_from(self.settings.kind).map_or(0, |size| size.bytes())
    }

    // The row with another memory.
    pub fn remembering(&self, memory: u32) -> Channel
        ensures { result ≡ remembering self.now memory }
    {
        Channel { memory, ..*self }
    }

    // The row at its starting memory.
    pub fn at_rest(&self) -> Channel
        ensures { result ≡ rested self.now }
    {
        self.remembering(0)
    }
}

// A record with these settings at its starting memory, or fault 6.
// They are plain numbers, as in a row; what they name is judged here.
pub fn channel(
    repeats: u32,
    delta: bool,
    turn: u32,
    algorithm: u32,
    kind: u32,
    narrow: u32,
    value: u32,
) -> Result<Channel, Fault>
    ensures { answered parts result ≡ channel_answer (record { repeats = repeats; delta = delta; turn = turn; algorithm = algorithm; kind = kind; narrow = narrow; value = value }) }
{
    let settings = Settings {
        repeats,
        delta,
        turn,
        algorithm,
        kind,
        narrow,
        value,
    };
    if !settings.keeps_rules() {
        return Err(Kind::BadSetting.at_start());
    }
    Ok(Channel {
        settings,
        memory: 0,
    })
}
