//! What did happen.

/// One record of the trace. The first number is the lane.
#[derive(Clone, Copy, Debug, PartialEq, Eq)]
pub enum Trace {
    /// The lane's processor loaded this word and found this value.
    Loaded(u32, u32, u64),
    /// The lane's processor stored this value to this word.
    Stored(u32, u32, u64),
    /// Somebody else stored this value to this word.
    Poked(u32, u32, u64),
    /// The core answered the lane's request; the entry has this position in the recorded order.
    Turned(u32, u64),
}
