//! A line of a script, as it is written.
use mm_base::{Guid, List};

/// The word that a line begins with.
#[derive(Clone, Copy, Debug, PartialEq, Eq)]
pub enum Keyword {
    Lanes,
    Cell,
    Handler,
    Poke,
    Fill,
    Ring,
    Step,
    Run,
}

/// What a `cell` line sets.
#[derive(Clone, Copy, Debug, PartialEq, Eq)]
pub enum CellKind {
    /// A port.
    Io,
    /// A model-specific register.
    Msr,
    /// A byte of the device window, counted from its begin.
    Device,
}

/// A saved register that a `ring` line names, and its value.
#[derive(Clone, Copy, Debug, PartialEq, Eq)]
pub struct Named {
    pub register: u64,
    pub value: u64,
}

/// A line of a script, with its numbers as they are written; they are not judged for their ranges.
#[derive(Debug, Drop)]
pub enum Line {
    Lanes { lanes: u64, words: u64 },
    Cell { kind: CellKind, at: u64, value: u64 },
    /// A stub of a GUID, or a root handler where there is none.
    Handler { guid: Option<Guid>, status: u64 },
    Poke { lane: u64, word: u64, value: u64 },
    Fill { lane: u64, bytes: List<u8> },
    Ring { lane: u64, registers: List<Named> },
    /// `step L`, without a count.
    Step { lane: u64 },
    /// `step L N`.
    Steps { lane: u64, count: u64 },
    Run { lane: u64 },
}
