//! Fixups of an image.
ghost use Rattle.std.specs.Prelude.{◌≡◌, ◌+◌, ◌≤◌, ◌<◌, ◌^◌, length};
ghost use Rattle.pe_loader.specs.Fixups.{fixup_of, changed_by, fixup_passes, StaysWithin};
ghost use Rattle.pe_loader.specs.Loading.{fixed};

use crate::fixup_kind::FixupKind;
use crate::writing::{raise_u16, raise_u32, raise_u64};
use mm_base::Range;

/// What an entry of a relocation block says: its kind, and the place that it is for, counted from the image's begin.
#[derive(Clone, Copy, Debug, PartialEq, Eq)]
pub(crate) struct Fixup {
    kind: FixupKind,
    at: usize,
}

impl Fixup {
    /// What this entry of a block says whose page is this.
    pub(crate) fn of(page: u32, word: u16) -> Fixup
        ensures { result ≡ fixup_of page word }
    {
        Fixup {
            kind: FixupKind::of((word / 4096) as u8),
            at: page as usize + (word % 4096) as usize,
        }
    }

    /// The bytes that the fixup changes.
    fn changed(&self) -> Range
        ensures { result ≡ changed_by self.now }
    {
        Range {
            base: self.at as u64,
            length: match self.kind {
                FixupKind::HighLow => 4,
                FixupKind::Dir64 => 8,
                _ => 2,
            },
        }
    }

    /// Whether the fixup may be applied to an image of so many bytes with this directory.
    pub(crate) fn passes(&self, size: u32, directory: &Range) -> bool
        requires { self.now.at < 2 ^ 33 }
        ensures { result ≡ fixup_passes size directory.now self.now }
    {
        let changed = self.changed();
        match self.kind {
            FixupKind::Absolute => true,
            FixupKind::High | FixupKind::Low | FixupKind::HighLow | FixupKind::Dir64 => {
                changed.base + changed.length <= size as u64 && !changed.overlaps(directory)
            }
            FixupKind::Unknown => false,
        }
    }

    /// Applies the fixup to an image, for how far it is placed behind the address that it was linked for.
    #[tactic(auto, unfolding(crate::specs::Loading::fixed))]
    pub(crate) fn apply(&self, difference: u64, out: &mut [u8])
        requires { StaysWithin (length out.old) self.now }
        ensures { out.new ≡ fixed difference out.old self.now }
    {
        match self.kind {
            FixupKind::High => raise_u16(out, self.at, (difference / 0x1_0000 % 0x1_0000) as u16),
            FixupKind::Low => raise_u16(out, self.at, (difference % 0x1_0000) as u16),
            FixupKind::HighLow => raise_u32(out, self.at, (difference % 0x1_0000_0000) as u32),
            FixupKind::Dir64 => raise_u64(out, self.at, difference),
            FixupKind::Absolute | FixupKind::Unknown => {}
        }
    }
}
