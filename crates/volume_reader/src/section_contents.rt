//! What sections tell together.
ghost use Rattle.std.specs.Prelude.{◌≡◌, ◌==◌, ◌||◌, [], ◌∷◌, ◌++◌, List};
ghost use Rattle.mm_base.specs.declared.volume.Section.{Section as SectionValue};
ghost use Rattle.volume_reader.specs.Contents.{contents_of};

use crate::section_search::first_among;
use mm_base::Section;

/// EFI_SECTION_COMPRESSION: the type of a section that is compressed.
const COMPRESSION: u8 = 0x01;

/// EFI_SECTION_GUID_DEFINED: the type of a section that a GUID says how to read.
const GUID_DEFINED: u8 = 0x02;

/// EFI_SECTION_PE32: the type of a section that is an image.
const PE32: u8 = 0x10;

/// EFI_SECTION_MM_DEPEX: the type of a section that is an MM dependency expression.
const MM_DEPEX: u8 = 0x1c;

/// What the sections of a file tell: whether one is compressed, whether one is defined by a GUID, the first one that is an
/// image, and the first one that is an MM dependency expression.
#[derive(Clone, Copy, Debug, PartialEq, Eq)]
pub struct Contents {
    pub compressed: bool,
    pub guid_defined: bool,
    pub image: Option<Section>,
    pub depex: Option<Section>,
}

/// Whether a section has a type, where this one stands behind others.
fn is_among(kind: u8, others: bool, section: Section) -> bool
    ensures { result ≡ (others || section.kind == kind) }
{
    others || section.kind == kind
}

impl Contents {
    /// What no section tells.
    pub(crate) fn none() -> Contents
        ensures { result ≡ contents_of [] }
    {
        Contents {
            compressed: false,
            guid_defined: false,
            image: None,
            depex: None,
        }
    }

    /// What sections tell with one more behind them.
    pub(crate) fn with(self, section: Section) -> Contents
        ensures { (sections : List SectionValue) → self ≡ contents_of sections → result ≡ contents_of (sections ++ section ∷ []) }
    {
        Contents {
            compressed: is_among(COMPRESSION, self.compressed, section),
            guid_defined: is_among(GUID_DEFINED, self.guid_defined, section),
            image: first_among(PE32, self.image, section),
            depex: first_among(MM_DEPEX, self.depex, section),
        }
    }
}
