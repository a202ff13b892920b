//! One row of a database.
use mm_base::Guid;

/// An interface that an image installed on a handle for a GUID.
#[derive(Clone, Copy, Debug, PartialEq, Eq)]
pub struct Row {
    /// The handle that it is installed on.
    pub handle: u64,
    /// The protocol that it speaks.
    pub guid: Guid,
    /// Where it lies.
    pub interface: u64,
    /// The image that installed it.
    pub owner: u32,
}
