//! Faults of images.
ghost use Rattle.std.specs.Prelude.{◌≡◌};

use mm_base::{PeFault, PeKind};

/// The fault of this kind at a place.
pub(crate) fn fault(at: u32, kind: PeKind) -> PeFault
    ensures { result ≡ record { at = at; kind = kind } }
{
    PeFault { at, kind }
}
