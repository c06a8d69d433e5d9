// Checking a whole file.
ghost use Rattle.std.specs.Prelude.{◌≡◌, IfOk};
ghost use Rattle.faults.specs.Faults.{answered};
ghost use Rattle.reader.specs.Walks.{standing, AtFirst, stepped, all_sections};
ghost use Rattle.reader.specs.Counts.{seen, body_totals, check_answer};
ghost use Rattle.reader.specs.Claims.{CheckingStands};

use crate::totals::Totals;
use crate::walk::Walk;
use faults::kind::{Fault, Kind};
use reading::closing::Closing;

impl<'a> Walk<'a> {
    // Passes all sections, from the first on.
    fn pass_all(&mut self) -> Result<Totals, Fault>
        requires { AtFirst (standing self.old) }
        ensures totals { stepped (λ t. t) (standing self.new) result ≡ seen body_totals (all_sections (standing self.old)) }
        ensures size { IfOk result (λ t. self.new.size ≡ self.old.size) }
    {
        let mut words = 0;
        loop {
            let section = self.pass()?;
            words += section.words;
            if let Closing::Ended(leftovers) = section.closing {
                return Ok(Totals {
                    sections: self.sections,
                    words,
                    raw: self.raw,
                    leftovers: leftovers.len,
                });
            }
        }
    }
}

// Reads a whole file and answers the numbers of its sections, words, raw bytes and leftovers.
pub fn check(file: &[u8]) -> Result<Totals, Fault>
    ensures answer { answered (λ t. t) result ≡ check_answer file.now }
    ensures stands { CheckingStands }
{
    let mut walk = Walk::start(file)?;
    let totals = walk.pass_all()?;
    if !walk.size.is_none_or(|size| size == totals.raw) {
        return Err(Kind::WrongSize.at(walk.end.last));
    }
    if walk.end.at.bits() != 8 * file.len() {
        return Err(Kind::TrailingBytes.at(walk.end.last));
    }
    Ok(totals)
}
