//! What is recorded of a start.
ghost use Rattle.std.specs.Prelude.{◌≡◌};

use crate::starting::StartEnd;
use mm_base::{CellWrite, Denial, Ended, Guid, Invocation, List, Records};

/// A start: the driver's name, the round in which it was started, how that ended, and what its entry was denied and wrote to cells, in
/// order.
#[derive(Debug, Drop)]
pub struct StartRecord {
    /// The name of the driver.
    pub name: Guid,
    /// The round, counted from 1.
    pub round: u32,
    /// How the start ended.
    pub ended: StartEnd,
    /// What the entry was denied.
    pub denials: List<Denial>,
    /// What the entry wrote to cells.
    pub writes: List<CellWrite>,
}

impl StartRecord {
    /// The record of a start with what its entry was denied and wrote. It takes no memory.
    pub fn new(name: Guid, round: u32, ended: StartEnd, records: Records) -> StartRecord
        ensures { result ≡ record {
          name = name;
          round = round;
          ended = ended;
          denials = records.denials;
          writes = records.writes;
        } }
    {
        let Invocation {
            denials,
            writes,
            ..
        } = records.ended(0, Ended::Returned(0));
        StartRecord {
            name,
            round,
            ended,
            denials,
            writes,
        }
    }
}
