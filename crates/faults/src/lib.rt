// The closed table of faults: each has a number and a place in bits.
#![tactic(auto)]

ghost use Rattle.std.specs.Prelude.{◌≡◌};
ghost use Rattle.faults.specs.Faults.{number_of};

pub mod kind;

use fields::place::BitPlace;
use kind::{Fault, Kind};
use std::fmt;

impl Kind {
    // The number of the fault in the table.
    pub fn number(self) -> u32
        ensures { result ≡ number_of self }
    {
        self as u32
    }

    // A fault of this kind at a place.
    pub fn at(self, place: BitPlace) -> Fault
        ensures { result ≡ record { kind = self; place = place } }
    {
        Fault { kind: self, place }
    }

    // A fault of this kind at the first bit.
    pub fn at_start(self) -> Fault
        ensures { result ≡ record { kind = self; place = record { bits = 0 } } }
    {
        self.at(BitPlace::new(0))
    }
}

impl Fault {
    // The number of the fault in the table.
    pub fn number(self) -> u32
        ensures { result ≡ number_of self.kind }
    {
        self.kind.number()
    }
}

impl fmt::Display for Fault {
    fn fmt<W: fmt::Write>(&self, f: &mut fmt::Formatter<W>) -> fmt::Result {
        write!(f, "fault {}", self.number())
    }
}
