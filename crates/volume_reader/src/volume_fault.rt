//! Why bytes are no volume.
ghost use Rattle.std.specs.Prelude.{◌≡◌};
ghost use Rattle.mm_base.specs.declared.end.End.TheVariants.{Fault as FaultOf};

use mm_base::{End, VolumeKind};

/// The first fault of bytes that are no volume, and its place in them.
#[derive(Clone, Copy, Debug, PartialEq, Eq)]
pub struct VolumeFault {
    pub at: u32,
    pub kind: VolumeKind,
}

/// Why bytes were not read as a volume: their first fault, or out of memory.
pub type VolumeEnd = End<VolumeFault>;

impl From<VolumeFault> for End<VolumeFault> {
    ghost from_gives = { λ fault end. end ≡ FaultOf fault };

    fn from(fault: VolumeFault) -> Self {
        End::Fault(fault)
    }
}

/// The fault of this kind at a place.
pub(crate) fn fault(at: u32, kind: VolumeKind) -> VolumeFault
    ensures { result ≡ record { at = at; kind = kind } }
{
    VolumeFault { at, kind }
}
