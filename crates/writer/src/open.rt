// Opening a section.
ghost use Rattle.std.specs.Prelude.{◌≡◌};
ghost use Rattle.calls.specs.Calls.{wrong_count, open_result, open_bytes, open_table};
ghost use Rattle.writer.specs.Answers.{opened};

use crate::rows::rest;
use crate::states::{Between, Inside, Refused};
use channel::record::Channel;
use faults::kind::Kind;
use frames::rows_describable;
use limits::MOST_CHANNELS;
use openings::put_opening;
use state::{Flags, Spot};

// May a section not have so many channels? It is no method of the flags, whose crate knows no limits.
fn is_wrong_count(flags: Flags, count: usize) -> bool
    ensures { result ≡ wrong_count flags count }
{
    count == 0 || count > MOST_CHANNELS || flags.single && count != 1
}

impl Between {
    // Writes the head of a section, with raw size and pointer 0, and puts all rows at their starting memories.
    // Faults: 1 buffer of another length, 5 wrong number of channels, 6 a row that cannot be described, 2 it does not fit.
    pub fn open(self, buffer: &mut [u8], table: &mut [Channel]) -> Result<Inside, Refused<Between>>
        ensures answer { opened result ≡ open_result self.edge buffer.old table.old }
        ensures bytes { buffer.new ≡ open_bytes self.edge buffer.old table.old }
        ensures table { table.new ≡ open_table self.edge buffer.old table.old }
    {
        let edge = self.edge;
        if buffer.len() != edge.len {
            return Err(Refused::new(self, Kind::WrongLength.at_start()));
        }
        let start = edge.at.first_bit();
        if is_wrong_count(edge.flags, table.len()) {
            return Err(Refused::new(self, Kind::ChannelCount.at(start)));
        }
        if !rows_describable(table, edge.flags.records_repeats(table.len())) {
            return Err(Refused::new(self, Kind::BadSetting.at(start)));
        }
        let Some(at) = put_opening(buffer, edge.at, edge.flags, table) else {
            return Err(Refused::new(self, Kind::OutputTooShort.at(start)));
        };
        let Between { edge: _ } = self;
        rest(table);
        Ok(Inside {
            spot: Spot {
                edge,
                at,
                rows: table.len(),
                channel: 0,
                given: 0,
                raw: 0,
            },
        })
    }
}
