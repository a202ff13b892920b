//! Whether bytes are an image, and what it is made of.
ghost use Rattle.std.specs.Prelude.{◌≡◌, ◌+◌, ◌≤◌, ◌<◌, List, length, None, Ok, Err, OnOk, IfOk, IfErr};
ghost use Rattle.mm_base.specs.Checks.{first_failing};
ghost use Rattle.mm_base.specs.declared.image.Image.{Image as ImageValue};
ghost use Rattle.mm_base.specs.declared.image.PeFault.{PeFault as PeFaultValue};
ghost use Rattle.pe_loader.specs.Headers.{image_size as image_size_told, relocs_of, FailsFirst};
ghost use Rattle.pe_loader.specs.Sections.{layout_of, part_at as part_told, section_checks, checks};
ghost use Rattle.pe_loader.specs.Images.{image_of as image_told, IsImage, IsImageOf, HasFault, HasBadRelocations};
ghost use Rattle.pe_loader.specs.Forms.{plain_form};
ghost use Rattle.pe_loader.specs.Fixups.{AreRead};
ghost use Rattle.pe_loader.specs.LayoutInside.{HasHeaders, IsLaidOut};
ghost use Rattle.pe_loader.specs.declared.fixup.Fixup.{Fixup as FixupValue};

use crate::fields::{ADDRESS_OF_ENTRY_POINT, IMAGE_BASE, RELOCATIONS_ADDRESS};
use crate::header::{
    SECTION_HEADER_BYTES, check_header, field, headers_size, image_size, machine, optional_at,
    part_count, relocs, table_at,
};
use crate::layout::{Layout, part_from};
use crate::pe_fault::fault;
use crate::relocations::Relocations;
use crate::sections::{check_entry, check_sections};
use mm_base::{Image, Part, PeFault, PeKind, check, number_at};

/// What the headers say.
#[tactic(auto, unfolding(crate::specs::Images::image_of))]
fn image_of(bytes: &[u8]) -> Image
    requires headers { HasHeaders bytes.now }
    requires few { length bytes.now ≤ 16777216 }
    ensures { result ≡ image_told bytes.now }
{
    Image {
        machine: machine(bytes),
        entry: field(bytes, ADDRESS_OF_ENTRY_POINT),
        base: number_at(bytes, optional_at(bytes) + IMAGE_BASE, 8),
        size: image_size(bytes),
        headers: headers_size(bytes),
        parts: part_count(bytes),
        table: table_at(bytes) as u32,
        relocs: relocs(bytes),
    }
}

/// Checks the sections in the order of their table; the first that fails is the fault.
fn check_table(bytes: &[u8]) -> Result<(), PeFault>
    requires headers { HasHeaders bytes.now }
    requires few { length bytes.now ≤ 16777216 }
    ensures ok { OnOk result (first_failing (section_checks bytes.now (layout_of bytes.now)) ≡ None) }
    ensures fault { IfErr result (FailsFirst (section_checks bytes.now (layout_of bytes.now))) }
{
    check_sections(bytes, &Layout::of(bytes))
}

/// Makes all checks but that of the relocations; the first that fails is the fault.
fn check_headers_and_sections(bytes: &[u8]) -> Result<(), PeFault>
    requires { length bytes.now ≤ 16777216 }
    ensures ok { OnOk result (first_failing (checks bytes.now) ≡ None) }
    ensures laid_out { OnOk result (IsLaidOut bytes.now (layout_of bytes.now)) }
    ensures fault { IfErr result (FailsFirst (checks bytes.now)) }
{
    check_header(bytes)?;
    check_table(bytes)?;
    check_entry(bytes)
}

/// Checks the relocations.
fn check_relocs(bytes: &[u8]) -> Result<(), PeFault>
    requires headers { HasHeaders bytes.now }
    requires laid_out { IsLaidOut bytes.now (layout_of bytes.now) }
    requires few { length bytes.now ≤ 16777216 }
    requires passes { first_failing (checks bytes.now) ≡ None }
    ensures ok { OnOk result (AreRead (plain_form bytes.now) (image_size_told bytes.now) (relocs_of bytes.now)) }
    ensures fault { IfErr result (HasBadRelocations bytes.now) }
{
    let relocations = Relocations {
        layout: Layout::of(bytes),
        directory: relocs(bytes),
    };
    check(
        relocations.pass(bytes),
        fault(
            optional_at(bytes) as u32 + RELOCATIONS_ADDRESS as u32,
            PeKind::Reloc,
        ),
    )
}

/// The image that bytes are, or the first fault that they have. Takes no memory, and 65,536 bytes of stack where the table is out of order
/// or the relocation directory large. Linear in the bytes, the fixups and the sections where each section ends before the next of the
/// table begins; else at most one pass over the sections for each 65,536 places of the image that a section reaches, and one for each
/// 65,536 bytes of the directory.
pub fn inspect(bytes: &[u8]) -> Result<Image, PeFault>
    requires { length bytes.now ≤ 16777216 }
    ensures image { IfOk result (IsImageOf bytes.now) }
    ensures fault { IfErr result (HasFault bytes.now) }
    ensures found { (image : ImageValue) (fixups : List FixupValue) → IsImage bytes.now image fixups → result ≡ Ok image }
    ensures first { (fault : PeFaultValue) → HasFault bytes.now fault → result ≡ Err fault }
{
    check_headers_and_sections(bytes)?;
    check_relocs(bytes)?;
    Ok(image_of(bytes))
}

/// The k-th section of an image.
pub fn part(bytes: &[u8], image: &Image, k: u16) -> Part
    requires image { IsImageOf bytes.now image.now }
    requires within { k < image.now.parts }
    ensures { result ≡ part_told bytes.now k }
{
    part_from(
        bytes,
        image.table as usize + SECTION_HEADER_BYTES * k as usize,
    )
}
