//! What may happen to the core from outside.
use mm_base::Saved;

/// One event of a script.
#[derive(Clone, Copy, Debug, PartialEq, Eq)]
pub enum Event {
    /// The processor of a lane is rung, with these saved registers. Away from rest that does nothing.
    Ring { lane: u32, saved: Saved },
    /// Somebody stores a value to a word of a lane.
    Poke { lane: u32, word: u32, value: u64 },
    /// The processor of a lane makes `count` actions, or fewer where it comes to rest before.
    Steps { lane: u32, count: u32 },
    /// The processor of a lane makes actions until it rests.
    Run { lane: u32 },
}
