//! An access of an image.
ghost use Rattle.std.specs.Prelude.{◌≡◌};
ghost use Rattle.mm_base.specs.declared.access.Kind.TheVariants as kinds;
ghost use Rattle.supervisor_calls.specs.Accesses.{denial_of};

use mm_base::{Denial, Kind, Right, Why};

/// A right to some units of a kind, from a place on.
#[derive(Clone, Copy, Debug, PartialEq, Eq)]
pub(crate) struct Access {
    pub(crate) kind: Kind,
    pub(crate) right: Right,
    pub(crate) at: u64,
    pub(crate) n: u8,
}

impl Access {
    /// An access to bytes of memory.
    #[inline(always)]
    pub(crate) fn of_memory(right: Right, at: u64, n: u8) -> Access
        ensures { result ≡ record { kind = kinds.Memory; right = right; at = at; n = n } }
    {
        Access {
            kind: Kind::Memory,
            right,
            at,
            n,
        }
    }

    /// The access that is denied for this.
    #[inline(always)]
    pub(crate) fn denied(self, why: Why) -> Denial
        ensures { result ≡ denial_of self.kind self.right self.at self.n why }
    {
        Denial {
            kind: self.kind,
            right: self.right,
            at: self.at,
            n: self.n,
            why,
        }
    }
}
