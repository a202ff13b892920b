//! One run of one handler, with what it was denied and what it wrote.
ghost use Rattle.std.specs.Prelude.{◌≡◌, ◌<◌, ◌≤◌, [], ◌∷◌, ◌++◌, length, IfOk};

use crate::{CellWrite, Denial, List, NoMemory, Room, Why};
use std::alloc::Global;
use std::marker::Model;

/// How many denials an invocation may have: the last of them stops it.
pub const MOST_DENIALS: usize = 8;

/// How many cell writes an invocation may make.
pub const MOST_WRITES: usize = 16;

/// A fault of byte code.
#[derive(Clone, Copy, Debug, PartialEq, Eq)]
pub enum FaultKind {
    /// The bytes begin no instruction.
    Encoding,
    /// A division by 0.
    Divide,
    /// Code at an odd address.
    Alignment,
    /// BREAK 0.
    Break,
    /// A native call to neither a service nor code.
    NativeCall,
}

/// How an invocation ended. A number is the status that it returned, or the address at which it stopped.
#[derive(Clone, Copy, Debug, PartialEq, Eq)]
pub enum Ended {
    Returned(u64),
    /// An access was denied that stops it.
    Denied(Why, u64),
    /// Its fuel was used up.
    Fuel(u64),
    Fault(FaultKind, u64),
    /// A service was refused a growth.
    NoMemory(NoMemory),
}

/// One run of one handler: its number, how it ended, and its records in the order in which they were made.
#[derive(Debug, Drop)]
pub struct Invocation {
    pub handler: u32,
    pub ended: Ended,
    pub denials: List<Denial>,
    pub writes: List<CellWrite>,
}

/// The records of one invocation while it runs, with room for all that it may have.
#[derive(Debug, Drop)]
pub struct Records {
    denials: Room<Denial>,
    writes: Room<CellWrite>,
}

impl Model for Records {
    ghost use Rattle.std.specs.Prelude.{◌≡◌};
    ghost use Rattle.mm_base.specs.Records.{RecordsState};

    ghost Value = { RecordsState };

    ghost view = { λ r. record { denials = r.denials.items; writes = r.writes.items } };

    ghost invariant = { λ r. (r.denials.room ≡ 8) × (r.writes.room ≡ 16) };
}

impl Records {
    /// No records, and room for all.
    pub fn new(alloc: Global) -> Result<Records, NoMemory>
        ensures { IfOk result (λ r. r ≡ record { denials = []; writes = [] }) }
    {
        let denials = Room::new(alloc, MOST_DENIALS)?;
        let writes = Room::new(alloc, MOST_WRITES)?;
        Ok(Records { denials, writes })
    }

    /// Drops the records and keeps their room.
    pub fn clear(&mut self)
        ensures { self.new ≡ record { denials = []; writes = [] } }
    {
        self.denials.clear();
        self.writes.clear();
    }

    /// How many denials there are: 8 at most.
    pub fn denials(&self) -> usize
        ensures value { result ≡ length self.now.denials }
        ensures within { length self.now.denials ≤ 8 }
    {
        self.denials.len()
    }

    /// How many cell writes there are: 16 at most.
    pub fn writes(&self) -> usize
        ensures value { result ≡ length self.now.writes }
        ensures within { length self.now.writes ≤ 16 }
    {
        self.writes.len()
    }

    /// Records a denial. There are fewer than 8, which `denials` tells.
    pub fn deny(&mut self, denial: Denial)
        requires { length self.old.denials < 8 }
        ensures { self.new ≡ record { denials = self.old.denials ++ denial ∷ []; writes = self.old.writes } }
    {
        self.denials.push(denial);
    }

    /// Records a cell write. There are fewer than 16, which `writes` tells.
    pub fn write(&mut self, write: CellWrite)
        requires { length self.old.writes < 16 }
        ensures { self.new ≡ record { denials = self.old.denials; writes = self.old.writes ++ write ∷ [] } }
    {
        self.writes.push(write);
    }

    /// The invocation of a handler that ended so, with these records. It takes no memory.
    pub fn ended(self, handler: u32, ended: Ended) -> Invocation
        ensures { result ≡ record { handler = handler; ended = ended; denials = self.denials; writes = self.writes } }
    {
        let Records { denials, writes } = self;
        Invocation {
            handler,
            ended,
            denials: denials.into_list(),
            writes: writes.into_list(),
        }
    }
}
