//! One entry of the core: the request that was captured, and what came of it.
ghost use Rattle.std.specs.Prelude.{◌≡◌, []};
ghost use Rattle.mm_base.specs.Entry.{blank_entry, was_dispatched};

use crate::{Guid, Invocation, List, Saved};
use std::alloc::Global;

/// How many bytes the header of a communicate buffer has: no request is shorter.
pub const HEADER_BYTES: u64 = 24;

/// What a request is taken for.
#[derive(Clone, Copy, Debug, PartialEq, Eq)]
pub enum Shape {
    /// Its length is below a header's, or over the lane's capacity.
    BadLength,
    /// Its MessageLength exceeds the message.
    BadHeader,
    /// No handler is registered for its GUID.
    NoHandler(Guid),
    /// The handlers of its GUID run.
    Dispatched(Guid),
}

/// A request as it was captured: the lane, the length word, that many bytes where the length is lawful and
/// else none, and the saved registers of the processor that rang.
#[derive(Debug, Drop)]
pub struct Request {
    pub lane: u32,
    pub length: u64,
    pub bytes: List<u8>,
    pub saved: Saved,
}

/// What came of a request: its status and reply, and the invocations of the GUID's chain and of the root chain.
#[derive(Debug, Drop)]
pub struct Outcome {
    pub shape: Shape,
    pub status: u64,
    pub reply: List<u8>,
    pub chain: List<Invocation>,
    pub root: List<Invocation>,
}

/// A request and what came of it.
#[derive(Debug, Drop)]
pub struct Entry {
    pub request: Request,
    pub outcome: Outcome,
}

impl Shape {
    /// Whether handlers of the GUID ran.
    pub fn is_dispatched(&self) -> bool
        ensures { result ≡ was_dispatched self.now }
    {
        matches!(self, Shape::Dispatched(_))
    }
}

impl Entry {
    /// No request and no outcome yet. It takes no memory.
    pub fn blank(alloc: Global) -> Entry
        ensures { result ≡ blank_entry }
    {
        Entry {
            request: Request {
                lane: 0,
                length: 0,
                bytes: List::new(alloc),
                saved: Saved::ZERO,
            },
            outcome: Outcome {
                shape: Shape::BadLength,
                status: 0,
                reply: List::new(alloc),
                chain: List::new(alloc),
                root: List::new(alloc),
            },
        }
    }
}
