//! What the sections of a file tell together.
ghost use Rattle.std.specs.Prelude.{◌≡◌, ◌+◌, ◌≤◌, length, List, Ok, Err, IfOk, IfErr};
ghost use Rattle.mm_base.specs.declared.volume.Section.{Section as SectionValue};
ghost use Rattle.mm_base.specs.declared.volume.SectionFault.{SectionFault as SectionFaultValue};
ghost use Rattle.volume_reader.specs.Sections.{HasSections, HasRefusedSection};
ghost use Rattle.volume_reader.specs.Contents.{contents_of, HasContents};

use crate::section_contents::Contents;
use crate::section_walk::Sections;
use mm_base::{File, SectionFault};

/// What the sections of a file tell, by one pass over them; linear in their number.
pub fn contents(bytes: &[u8], file: &File) -> Result<Contents, SectionFault>
    requires within { file.now.body_at + file.now.body ≤ length bytes.now }
    requires few { length bytes.now ≤ 16777216 }
    ensures contents { IfOk result (HasContents bytes.now file.now) }
    ensures fault { IfErr result (HasRefusedSection bytes.now file.now) }
    ensures found { (sections : List SectionValue) → HasSections bytes.now file.now sections → result ≡ Ok (contents_of sections) }
    ensures first { (fault : SectionFaultValue) → HasRefusedSection bytes.now file.now fault → result ≡ Err fault }
{
    let mut walk = Sections::of(bytes, file);
    let mut told = Contents::none();
    while let Some(section) = walk.next_section()? {
        told = told.with(section);
    }
    Ok(told)
}
