//! What a processor does next.

/// The word of a lane that holds the length.
pub(crate) const LENGTH_WORD: u32 = 0;

/// The word of a lane that holds the status.
pub(crate) const STATUS_WORD: u32 = 1;

/// The first data word of a lane, and how many words stand before it.
pub(crate) const FIRST_DATA_WORD: u32 = 2;

/// The next action of the processor of a lane.
#[derive(Clone, Copy, Debug, PartialEq, Eq)]
pub enum Action {
    /// Nothing, until it is rung.
    Rest,
    /// It loads this word of its lane.
    Load(u32),
    /// It has the core answer its request.
    Turn,
    /// It stores this value to this word of its lane.
    Store(u32, u64),
}
