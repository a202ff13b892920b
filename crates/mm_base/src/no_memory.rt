//! Out of memory, the one answer that no clause ties to a cause.
use std::alloc::{AllocError, AllocFailed};

/// A growth was refused. Its field is private, and it is made only of what std's growing calls answer where they are refused:
/// so no body can answer out of memory unless a growth was.
#[derive(Clone, Copy, Debug, PartialEq, Eq)]
pub struct NoMemory(());

impl From<AllocError> for NoMemory {
    fn from(_: AllocError) -> Self {
        NoMemory(())
    }
}

impl<T: Drop> From<AllocFailed<T>> for NoMemory {
    fn from(_: AllocFailed<T>) -> Self {
        NoMemory(())
    }
}
