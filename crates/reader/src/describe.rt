// Describing a section of a file.
ghost use Rattle.std.specs.Prelude.{◌≡◌, length};
ghost use Rattle.faults.specs.Faults.{answered};
ghost use Rattle.reader.specs.Walks.{standing, AtFirst, all_sections};
ghost use Rattle.reader.specs.Describing.{HasSection, section_in, Found, describe_answer, describe_table, HoldsSection};

use crate::check::check;
use crate::opening::Opening;
use crate::walk::Walk;
use channel::record::Channel;
use faults::kind::{Fault, Kind};
use reading::taken::Taken;

// How many channels a section has, and its raw size.
#[derive(Clone, Copy, Debug, PartialEq, Eq)]
pub struct Described {
    pub rows: usize,
    pub raw: u32,
}

impl<'a> Walk<'a> {
    // Passes so many sections, from the first on, and reads the head of the next, which is there.
    fn find(&mut self, section: usize) -> Result<Taken<Opening>, Fault>
        requires first { AtFirst (standing self.old) }
        requires there { HasSection (all_sections (standing self.old)) section }
        ensures { Found (section_in (all_sections (standing self.old)) section) self.new.rows result }
    {
        for _ in 0..section {
            self.pass()?;
        }
        self.open()
    }
}

// Checks a whole file and fills the first rows of a table with the channels of one section, numbered from 0, at their starting memories.
// Fault 8 where there is no such section, and 2 where the table has too few rows.
pub fn describe(file: &[u8], section: usize, table: &mut [Channel]) -> Result<Described, Fault>
    ensures answer { answered (λ d. (d.rows, d.raw)) result ≡ describe_answer file.now section (length table.old) }
    ensures table { table.new ≡ describe_table file.now section table.old }
    ensures accepted { HoldsSection file.now section (length table.old) table.new }
{
    let totals = check(file)?;
    if section >= totals.sections as usize {
        return Err(Kind::NoSection.at_start());
    }
    let mut walk = Walk::start(file)?;
    let found = walk.find(section)?;
    let count = found.value.rows;
    if count > table.len() {
        return Err(Kind::OutputTooShort.at_start());
    }
    table[..count].copy_from_slice(&walk.rows[..count]);
    Ok(Described {
        rows: count,
        raw: found.value.raw,
    })
}
