//! The lines of a volume and its files.
ghost use Rattle.std.specs.Prelude.{◌≡◌, ◌++◌, length, codes, OnOk};
ghost use Rattle.mm_text.specs.AddsInside.{Adds};
ghost use Rattle.mm_text.specs.VolumeLines.{system_word, volume_line, pe_word, depex_word, cause_words, file_words, file_line, files_lines};

use crate::page::Page;
use mm_base::{DepexFault, File, NoMemory, PeFault, PeKind, Volume};
use mm_core::{Cause, FileWord};

/// The line of a volume.
pub fn put_volume(page: &mut Page, volume: &Volume) -> Result<(), NoMemory>
    ensures { OnOk result (Adds page.old (volume_line volume.now) page.new) }
{
    page.put(b"volume ")?;
    page.put_x8(volume.length)?;
    page.put(b" ")?;
    page.put_text(word_of_system(volume.ffs3))?;
    page.put(b" files ")?;
    page.put_decimal(volume.files.len() as u64)?;
    page.put(b"\n")?;
    Ok(())
}

fn word_of_system(ffs3: bool) -> &'static str
    ensures { result.now ≡ system_word ffs3 }
{
    if ffs3 { "ffs3" } else { "ffs2" }
}

/// The lines of files, each with its word.
pub fn put_files(page: &mut Page, files: &[File], words: &[FileWord]) -> Result<(), NoMemory>
    requires { length words.now ≡ length files.now }
    ensures { OnOk result (Adds page.old (files_lines files.now words.now) page.new) }
{
    for (k, file) in files.iter().enumerate() {
        put_file(page, file, words[k])?;
    }
    Ok(())
}

fn put_file(page: &mut Page, file: &File, word: FileWord) -> Result<(), NoMemory>
    ensures { OnOk result (Adds page.old (file_line file.now word) page.new) }
{
    page.put(b"file ")?;
    page.put_x8(file.at)?;
    page.put(b" ")?;
    page.put(&file.name.text())?;
    page.put(b" type ")?;
    page.put_hex(&[file.kind])?;
    page.put(b" size ")?;
    page.put_x8(file.size)?;
    page.put(b" ")?;
    put_word(page, word)?;
    page.put(b"\n")?;
    Ok(())
}

fn put_word(page: &mut Page, word: FileWord) -> Result<(), NoMemory>
    ensures { OnOk result (Adds page.old (file_words word) page.new) }
{
    match word {
        FileWord::Driver => page.put(b"driver"),
        FileWord::Native => page.put(b"native"),
        FileWord::Policy => page.put(b"policy"),
        FileWord::Pad => page.put(b"pad"),
        FileWord::Passed => page.put(b"passed"),
        FileWord::Refused(cause) => put_refused(page, cause),
    }
}

fn put_refused(page: &mut Page, cause: Cause) -> Result<(), NoMemory>
    ensures { OnOk result (Adds page.old (file_words (FileWord.Refused cause)) page.new) }
{
    page.put(b"refused ")?;
    put_cause(page, cause)?;
    Ok(())
}

fn put_cause(page: &mut Page, cause: Cause) -> Result<(), NoMemory>
    ensures { OnOk result (Adds page.old (cause_words cause) page.new) }
{
    match cause {
        Cause::BodySum => page.put(b"bodysum"),
        Cause::SectionSize => page.put(b"sectionsize"),
        Cause::Compressed => page.put(b"compressed"),
        Cause::GuidDefined => page.put(b"guiddefined"),
        Cause::NoImage => page.put(b"noimage"),
        Cause::Pe(fault) => put_pe(page, fault),
        Cause::Depex(fault) => put_depex(page, fault),
        Cause::Duplicate => page.put(b"duplicate"),
    }
}

fn put_pe(page: &mut Page, fault: PeFault) -> Result<(), NoMemory>
    ensures { OnOk result (Adds page.old (cause_words (Cause.Pe fault)) page.new) }
{
    page.put(b"pe ")?;
    page.put_text(word_of_pe(fault.kind))?;
    page.put(b" at ")?;
    page.put_x8(fault.at)?;
    Ok(())
}

fn word_of_pe(kind: PeKind) -> &'static str
    ensures { result.now ≡ pe_word kind }
{
    match kind {
        PeKind::Short => "short",
        PeKind::Mz => "mz",
        PeKind::Lfanew => "lfanew",
        PeKind::Signature => "signature",
        PeKind::Machine => "machine",
        PeKind::Magic => "magic",
        PeKind::Optional => "optional",
        PeKind::Subsystem => "subsystem",
        PeKind::Size => "size",
        PeKind::Headers => "headers",
        PeKind::Section => "section",
        PeKind::Entry => "entry",
        PeKind::Reloc => "reloc",
    }
}

fn put_depex(page: &mut Page, fault: DepexFault) -> Result<(), NoMemory>
    ensures { OnOk result (Adds page.old (cause_words (Cause.Depex fault)) page.new) }
{
    page.put(b"depex ")?;
    page.put_text(word_of_depex(fault))?;
    Ok(())
}

fn word_of_depex(fault: DepexFault) -> &'static str
    ensures { result.now ≡ depex_word fault }
{
    match fault {
        DepexFault::Empty => "empty",
        DepexFault::NoEnd => "noend",
        DepexFault::Unknown(_) => "unknown",
        DepexFault::Underflow(_) => "underflow",
        DepexFault::Leftover(_) => "leftover",
        DepexFault::BeforeNotFirst(_) => "beforenotfirst",
        DepexFault::TooDeep(_) => "toodeep",
    }
}
