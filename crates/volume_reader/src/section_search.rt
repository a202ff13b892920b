//! Sections of a file by their type.
ghost use Rattle.std.specs.Prelude.{◌≡◌, ◌+◌, ◌≤◌, ◌==◌, if◌then◌else◌, List, length, Ok, Err, Some, None, IfOk, IfErr};
ghost use Rattle.std.specs.Option.{option_or};
ghost use Rattle.mm_base.specs.declared.volume.Section.{Section as SectionValue};
ghost use Rattle.mm_base.specs.declared.volume.SectionFault.{SectionFault as SectionFaultValue};
ghost use Rattle.volume_reader.specs.Sections.{HasSections, HasRefusedSection};
ghost use Rattle.volume_reader.specs.Search.{first_section, is_any_section, HasFirstSection};

use crate::section_walk::Sections;
use mm_base::{File, Section, SectionFault};

/// The first section of a type, where this one stands after others.
pub(crate) fn first_among(kind: u8, others: Option<Section>, section: Section) -> Option<Section>
    ensures { result ≡ option_or others (if section.kind == kind then Some section else None) }
{
    if others.is_none() && section.kind == kind {
        return Some(section);
    }
    others
}

/// The first section of a file with this type, by one pass over all of them: a section that is refused is answered, wherever it
/// stands. Linear in their number.
pub fn first_of(bytes: &[u8], file: &File, kind: u8) -> Result<Option<Section>, SectionFault>
    requires within { file.now.body_at + file.now.body ≤ length bytes.now }
    requires few { length bytes.now ≤ 16777216 }
    ensures ok { IfOk result (HasFirstSection bytes.now file.now kind) }
    ensures fault { IfErr result (HasRefusedSection bytes.now file.now) }
    ensures found { (sections : List SectionValue) → HasSections bytes.now file.now sections → result ≡ Ok (first_section kind sections) }
    ensures first { (fault : SectionFaultValue) → HasRefusedSection bytes.now file.now fault → result ≡ Err fault }
{
    let mut walk = Sections::of(bytes, file);
    let mut found = None;
    while let Some(section) = walk.next_section()? {
        found = first_among(kind, found, section);
    }
    Ok(found)
}

/// Whether a file has a section with this type, by one pass over all of them: a section that is refused is answered, wherever it
/// stands. Linear in their number.
pub fn any_of(bytes: &[u8], file: &File, kind: u8) -> Result<bool, SectionFault>
    requires within { file.now.body_at + file.now.body ≤ length bytes.now }
    requires few { length bytes.now ≤ 16777216 }
    ensures fault { IfErr result (HasRefusedSection bytes.now file.now) }
    ensures found { (sections : List SectionValue) → HasSections bytes.now file.now sections → result ≡ Ok (is_any_section kind sections) }
    ensures first { (fault : SectionFaultValue) → HasRefusedSection bytes.now file.now fault → result ≡ Err fault }
{
    let found = first_of(bytes, file, kind)?;
    Ok(found.is_some())
}
