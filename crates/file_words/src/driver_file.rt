//! How a driver file is taken apart.
ghost use Rattle.std.specs.Prelude.{◌≡◌, ◌+◌, ◌≤◌, [], length, Ok, Err, IfOk, IfErr, IfSome, MatchOption};
ghost use Rattle.file_words.specs.Causes.{IsRefusedFor};
ghost use Rattle.file_words.specs.JudgingInside.{LieIn, JudgesImage, JudgesContents, Judges};
ghost use Rattle.file_words.specs.Parts.{data_of, HasBadExpression, HasExpression, HasParts};
ghost use Rattle.file_words.specs.declared.driver_parts.DriverParts.{DriverParts as PartsValue};
ghost use Rattle.file_words.specs.declared.file_word.Cause.{Cause as CauseValue};

use crate::driver_parts::DriverParts;
use crate::file_word::Cause;
use depex::judge;
use mm_base::{DepexFault, File, Section};
use pe_loader::inspect;
use volume_reader::{Contents, contents};

/// The data of a section, which follows its header.
pub fn data<'a>(bytes: &'a [u8], section: &Section) -> &'a [u8]
    requires { section.now.at + section.now.length ≤ length bytes.now }
    ensures { result.now ≡ data_of bytes.now section.now }
{
    let (_, rest) = bytes.split_at(section.at as usize);
    let (data, _) = rest.split_at(section.length as usize);
    data
}

/// The first fault of a file's dependency expression, if it has one; linear in its bytes.
fn expression_fault(bytes: &[u8], depex: Option<Section>) -> Option<DepexFault>
    requires within { IfSome depex (λ section. section.at + section.length ≤ length bytes.now) }
    requires few { length bytes.now ≤ 16777216 }
    ensures { MatchOption result (HasExpression bytes.now depex) (HasBadExpression bytes.now depex) }
{
    match judge(data(bytes, &depex?)) {
        Ok(()) => None,
        Err(fault) => Some(fault),
    }
}

/// Its parts by its first image and its first dependency expression.
fn parts_by_image(
    bytes: &[u8],
    section: Section,
    depex: Option<Section>,
) -> Result<DriverParts, Cause>
    requires image { section.at + section.length ≤ length bytes.now }
    requires depex { IfSome depex (λ section. section.at + section.length ≤ length bytes.now) }
    requires few { length bytes.now ≤ 16777216 }
    ensures { JudgesImage bytes.now section depex result }
{
    let image = match inspect(data(bytes, &section)) {
        Ok(image) => image,
        Err(fault) => return Err(Cause::Pe(fault)),
    };
    match expression_fault(bytes, depex) {
        Some(fault) => Err(Cause::Depex(fault)),
        None => Ok(DriverParts {
            section,
            image,
            depex,
        }),
    }
}

/// Its parts by what its sections tell together.
fn parts_by_contents(bytes: &[u8], found: &Contents) -> Result<DriverParts, Cause>
    requires within { LieIn (length bytes.now) found.now }
    requires few { length bytes.now ≤ 16777216 }
    ensures { JudgesContents bytes.now found.now result }
{
    if found.compressed {
        return Err(Cause::Compressed);
    }
    if found.guid_defined {
        return Err(Cause::GuidDefined);
    }
    match found.image {
        Some(section) => parts_by_image(bytes, section, found.depex),
        None => Err(Cause::NoImage),
    }
}

/// Its parts, step by step.
fn judged(bytes: &[u8], file: &File) -> Result<DriverParts, Cause>
    requires within { file.now.body_at + file.now.body ≤ length bytes.now }
    requires few { length bytes.now ≤ 16777216 }
    ensures { Judges bytes.now file.now result }
{
    if !file.sound {
        return Err(Cause::BodySum);
    }
    match contents(bytes, file) {
        Ok(found) => parts_by_contents(bytes, &found),
        Err(_) => Err(Cause::SectionSize),
    }
}

/// The parts of a driver file, or the first cause to refuse it, whatever other files there are. Linear in its bytes and in its
/// image's fixups; where the section table of its image isn't in the order of their places, its entries are read at most
/// twice for each 65,536 places that a section or the relocation directory reaches, and three times more. It takes no
/// memory.
pub fn parts_of(bytes: &[u8], file: &File) -> Result<DriverParts, Cause>
    requires within { file.now.body_at + file.now.body ≤ length bytes.now }
    requires few { length bytes.now ≤ 16777216 }
    ensures ok { IfOk result (HasParts bytes.now file.now) }
    ensures err { IfErr result (IsRefusedFor bytes.now [] file.now) }
    ensures found { (parts : PartsValue) → HasParts bytes.now file.now parts → result ≡ Ok parts }
    ensures first { (cause : CauseValue) → IsRefusedFor bytes.now [] file.now cause → result ≡ Err cause }
{
    judged(bytes, file)
}
