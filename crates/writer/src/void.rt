// Dropping the open section, and giving a writer up.
ghost use Rattle.std.specs.Prelude.{◌≡◌};
ghost use Rattle.calls.specs.Calls.{void_result, void_bytes, void_table};
ghost use Rattle.writer.specs.Answers.{closed};

use crate::put::is_strange;
use crate::rows::rest;
use crate::states::{Between, Inside, Refused};
use channel::record::Channel;
use faults::kind::Kind;
use fields::clear::clear_from;

impl Inside {
    // Drops the open section: zeros from its start on, and all rows at their starting memories.
    // Fault: 1 buffer or table of another length.
    pub fn void(self, buffer: &mut [u8], table: &mut [Channel]) -> Result<Between, Refused<Inside>>
        ensures answer { closed result ≡ void_result self.spot buffer.old table.old }
        ensures bytes { buffer.new ≡ void_bytes self.spot buffer.old table.old }
        ensures table { table.new ≡ void_table self.spot buffer.old table.old }
    {
        let spot = self.spot;
        if is_strange(spot, buffer.len(), table.len()) {
            return Err(Refused::new(self, Kind::WrongLength.at_start()));
        }
        clear_from(buffer, spot.edge.at.first_bit());
        rest(table);
        Ok(self.edge_of())
    }

    // Back at the edge where the section began.
    pub(crate) fn edge_of(self) -> Between
        ensures { result.edge ≡ self.spot.edge }
    {
        let Inside { spot } = self;
        Between { edge: spot.edge }
    }

    // Gives the writer up, with its file unfinished.
    pub fn stop(self) {
        let Inside { spot: _ } = self;
    }
}

impl Between {
    // Gives the writer up, with its file unfinished.
    pub fn stop(self) {
        let Between { edge: _ } = self;
    }
}
