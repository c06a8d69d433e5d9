// Closing a section, and ending a file.
ghost use Rattle.std.specs.Prelude.{◌≡◌, ◌+◌, ◌*◌, ◌≤◌, length, if◌then◌else◌};
ghost use Rattle.calls.specs.Calls.{fields_filled, size_filled, more_result, more_bytes, last_result, last_bytes};
ghost use Rattle.calls.specs.Runs.{EndsRecorded};
ghost use Rattle.writer.specs.Answers.{closed, ended};

use crate::put::is_strange;
use crate::states::{Between, Ended, Inside, Refused};
use channel::record::Channel;
use closings::{put_end, put_more};
use faults::kind::Kind;
use fields::part::put_u32;
use fields::place::BytePlace;
use heads::SIZE_BYTE;
use limits::{MOST_LEFTOVERS, MOST_SECTIONS};
use state::Edge;

impl Inside {
    // Writes the section's raw size and, if flagged, its pointer into their own bytes.
    fn fill_fields(&self, buffer: &mut [u8], pointer: u32)
        requires { length buffer.old ≡ self.now.spot.edge.len }
        ensures { buffer.new ≡ fields_filled self.now.spot pointer buffer.old }
    {
        let start = self.spot.edge.at;
        put_u32(buffer, start, self.spot.raw);
        if self.spot.edge.flags.pointed {
            put_u32(buffer, BytePlace::new(start.bytes() + 4), pointer);
        }
    }

    // Writes the size of the file's raw bytes into its own bytes, if flagged.
    fn fill_size(&self, buffer: &mut [u8])
        requires { length buffer.old ≡ self.now.spot.edge.len }
        ensures { buffer.new ≡ size_filled self.now.spot buffer.old }
    {
        let edge = self.spot.edge;
        if edge.flags.sized {
            put_u32(buffer, BytePlace::new(SIZE_BYTE), edge.raw + self.spot.raw);
        }
    }

    // Closes the section; another follows. Fills in its raw size and its pointer.
    // Faults: 1 buffer or table of another length, 8 no words, 9 the 64th section, 2 it does not fit.
    pub fn more(self, buffer: &mut [u8], table: &[Channel]) -> Result<Between, Refused<Inside>>
        ensures answer { closed result ≡ more_result self.spot buffer.old table.now }
        ensures bytes { buffer.new ≡ more_bytes self.spot buffer.old table.now }
    {
        let spot = self.spot;
        if is_strange(spot, buffer.len(), table.len()) {
            return Err(Refused::new(self, Kind::WrongLength.at_start()));
        }
        if spot.raw == 0 {
            return Err(Refused::new(self, Kind::NoSection.at(spot.at)));
        }
        if spot.edge.sections + 1 >= MOST_SECTIONS {
            return Err(Refused::new(self, Kind::OverLimit.at(spot.at)));
        }
        let Some(end) = put_more(buffer, spot.at) else {
            return Err(Refused::new(self, Kind::OutputTooShort.at(spot.at)));
        };
        self.fill_fields(buffer, end.bytes() as u32);
        let Inside { spot: _ } = self;
        Ok(Between {
            edge: Edge {
                at: end,
                sections: spot.edge.sections + 1,
                raw: spot.edge.raw + spot.raw,
                ..spot.edge
            },
        })
    }

    // Closes the section and the file, with at most 7 leftovers. Fills in its raw size, a pointer of 0 and the size.
    // Faults: 1 buffer or table of another length, 8 no words, 10 over 7 leftovers, 2 it does not fit.
    pub fn last(
        self,
        buffer: &mut [u8],
        table: &[Channel],
        leftovers: &[u8],
    ) -> Result<Ended, Refused<Inside>>
        ensures answer { ended result ≡ last_result self.spot buffer.old table.now leftovers.now }
        ensures bytes { buffer.new ≡ last_bytes self.spot buffer.old table.now leftovers.now }
        ensures recorded { EndsRecorded self.spot buffer.old table.now leftovers.now (ended result) buffer.new }
    {
        let spot = self.spot;
        if is_strange(spot, buffer.len(), table.len()) {
            return Err(Refused::new(self, Kind::WrongLength.at_start()));
        }
        if spot.raw == 0 {
            return Err(Refused::new(self, Kind::NoSection.at(spot.at)));
        }
        if leftovers.len() > MOST_LEFTOVERS {
            return Err(Refused::new(self, Kind::LeftoverCount.at(spot.at)));
        }
        let Some(end) = put_end(buffer, spot.at, leftovers) else {
            return Err(Refused::new(self, Kind::OutputTooShort.at(spot.at)));
        };
        self.fill_fields(buffer, 0);
        self.fill_size(buffer);
        let Inside { spot: _ } = self;
        Ok(Ended { size: end.bytes() })
    }
}

impl Ended {
    // How many bytes the file has.
    pub fn size(self) -> usize
        ensures { result ≡ self.size }
    {
        let Ended { size } = self;
        size
    }
}
