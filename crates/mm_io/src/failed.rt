//! The answer of a read or a write that met a fault.

/// A read gave nothing or a write took nothing, since a fault came. The count of faults tells that it did.
#[derive(Clone, Copy, Debug, PartialEq, Eq)]
pub struct Failed;
