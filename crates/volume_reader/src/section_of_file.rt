//! A section of a file, by its number.
ghost use Rattle.std.specs.Prelude.{◌≡◌, ◌+◌, ◌≤◌, ◌↔◌, length, Ok, Err, Some, None};
ghost use Rattle.mm_base.specs.declared.volume.Section.{Section as SectionValue};
ghost use Rattle.mm_base.specs.declared.volume.SectionFault.{SectionFault as SectionFaultValue};
ghost use Rattle.volume_reader.specs.Sections.{body_of, HasSection, HasAtMost, HasSectionFault};

use crate::section_walk::Sections;
use mm_base::{File, Section, SectionFault};

/// The section of a file with this number, counted from 0; None where the file has no more than that. It walks over the
/// sections before it.
pub fn sections(bytes: &[u8], file: &File, index: u32) -> Result<Option<Section>, SectionFault>
    requires within { file.now.body_at + file.now.body ≤ length bytes.now }
    requires few { length bytes.now ≤ 16777216 }
    ensures some { (section : SectionValue)
        → (result ≡ Ok (Some section)) ↔ HasSection (body_of bytes.now file.now) file.now.body_at index section }
    ensures none { (result ≡ Ok None) ↔ HasAtMost (body_of bytes.now file.now) file.now.body_at index }
    ensures fault { (fault : SectionFaultValue)
        → (result ≡ Err fault) ↔ HasSectionFault (body_of bytes.now file.now) file.now.body_at index fault }
{
    let mut walk = Sections::of(bytes, file);
    let mut before = 0;
    while before < index {
        if walk.next_section()?.is_none() {
            return Ok(None);
        }
        before += 1;
    }
    walk.next_section()
}
