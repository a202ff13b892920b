//! Handlers of management-mode interrupts, as they are registered.
use crate::Guid;

/// What runs when a handler is called.
#[derive(Clone, Copy, Debug, PartialEq, Eq)]
pub enum HandlerBody {
    /// The built-in handler that answers the version of the core.
    Version,
    /// A built-in handler that returns this status and leaves the buffer as it is.
    Stub(u64),
    /// Byte code of an image.
    Code { image: u32, address: u64 },
}

/// A registered handler: of the GUID's chain, or of the root chain where it has none.
#[derive(Clone, Copy, Debug, PartialEq, Eq)]
pub struct Handler {
    pub number: u32,
    pub guid: Option<Guid>,
    pub body: HandlerBody,
}
