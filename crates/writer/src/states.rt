// A writer is between sections, inside one, or at its end. Each state is moved into the call that ends it.
ghost use Rattle.std.specs.Prelude.{◌≡◌, ◌+◌, ◌*◌, ◌<◌, ◌≤◌, if◌then◌else◌};

use faults::kind::Fault;
use state::{Edge, Spot};

// Between two sections.
#[derive(Debug, PartialEq, Eq)]
pub struct Between {
    pub(crate) edge: Edge,
    ghost limit: { edge.len ≤ 16777216 },
    ghost place: { edge.at.bytes ≤ edge.len },
    ghost head: { (if edge.flags.sized then 11 else 7) ≤ edge.at.bytes },
    ghost sections: { edge.sections ≤ 63 },
    ghost raw: { edge.raw ≤ 16777216 },
}

// Inside a section.
#[derive(Debug, PartialEq, Eq)]
pub struct Inside {
    pub(crate) spot: Spot,
    ghost limit: { spot.edge.len ≤ 16777216 },
    ghost place: { spot.at.bits ≤ 8 * spot.edge.len },
    ghost head: { (if spot.edge.flags.sized then 11 else 7) ≤ spot.edge.at.bytes },
    ghost fields: { 8 * spot.edge.at.bytes + (if spot.edge.flags.pointed then 64 else 32) ≤ spot.at.bits },
    ghost sections: { spot.edge.sections ≤ 63 },
    ghost raw: { spot.edge.raw + spot.raw ≤ 16777216 },
    ghost turn: { spot.channel < spot.rows },
    ghost given: { spot.given < 4294967295 },
}

// At the end of its file, which has so many bytes.
#[derive(Debug, PartialEq, Eq)]
pub struct Ended {
    pub(crate) size: usize,
}

// A writer that may not take a step comes back as it was, with the fault.
#[derive(Debug, PartialEq, Eq)]
pub struct Refused<W> {
    pub writer: W,
    pub fault: Fault,
}

impl<W> Refused<W> {
    // Each call that ends a state makes one by hand: `?` would leave without the writer.
    pub(crate) fn new(writer: W, fault: Fault) -> Refused<W>
        ensures writer { result.writer ≡ writer }
        ensures fault { result.fault ≡ fault }
    {
        Refused { writer, fault }
    }
}

// A section was filled: its words take so many bits, and it is still open.
#[derive(Debug, PartialEq, Eq)]
pub struct Filled {
    pub writer: Inside,
    pub bits: usize,
}
