//! What one instruction comes to.
ghost use Rattle.std.specs.Prelude.{◌≡◌};
ghost use Rattle.ebc_machine.specs.Told.{turn_of};

use mm_base::{Denial, FaultKind};

/// What one instruction came to. Its registers change with `Next` alone.
#[derive(Clone, Copy, Debug, PartialEq, Eq)]
pub enum Turn {
    /// It is done.
    Next,
    /// It is a native call of the service with this number, which isn't made yet.
    Service(u8),
    /// The invocation returns this status.
    Returned(u64),
    /// An access was denied.
    Denied(Denial),
    /// A fault, and the instruction's address.
    Fault(FaultKind, u64),
}

/// What an instruction came to, before the address of a fault is told, and with what a service goes on.
#[derive(Clone, Copy, Debug, PartialEq, Eq)]
pub(crate) enum Progress {
    Next,
    /// A service, and the address of the instruction after its call.
    Service { number: u8, next: u64 },
    Returned(u64),
    Denied(Denial),
    Fault(FaultKind),
}

impl Progress {
    /// The turn of an instruction at this address.
    #[inline(always)]
    pub(crate) fn turn(self, at: u64) -> Turn
        ensures { result ≡ turn_of self at }
    {
        match self {
            Progress::Next => Turn::Next,
            Progress::Service { number, .. } => Turn::Service(number),
            Progress::Returned(status) => Turn::Returned(status),
            Progress::Denied(denial) => Turn::Denied(denial),
            Progress::Fault(kind) => Turn::Fault(kind, at),
        }
    }
}
