//! What a boot takes the files of a volume for.
ghost use Rattle.std.specs.Prelude.{◌≡◌, ◌+◌, ◌≤◌, List as Items, length, All, IfOk};
ghost use Rattle.file_words.specs.Catalog.{word_of_other, HasWord, AreWords};
ghost use Rattle.file_words.specs.Causes.{Known};
ghost use Rattle.file_words.specs.KnownFilesInside.{Keeps};

use crate::driver_word::driver_word;
use crate::earlier::Earlier;
use crate::file_word::FileWord;
use crate::policy_file::is_policy;
use mm_base::{File, List, NoMemory, Volume};
use std::alloc::Global;

/// EFI_FV_FILETYPE_MM_STANDALONE: the type of a Standalone MM driver.
const MM_STANDALONE: u8 = 0x0e;

/// EFI_FV_FILETYPE_FFS_PAD: the type of a pad file.
const PAD: u8 = 0xf0;

/// The word of each file of a volume, in order; of the volume no more is asked than that the bodies of its files lie in the
/// bytes. It takes memory for the words and for the names of drivers, after each word is known. It costs one pass over the
/// files, over the bytes of drivers and over the fixups of their images, and for each driver a comparison for each doubling
/// of their number. Where the section table of an image isn't in the order of their places, its entries are read at most
/// twice for each 65,536 places that a section or the relocation directory reaches, and three times more.
pub fn catalog(alloc: Global, bytes: &[u8], volume: &Volume) -> Result<List<FileWord>, NoMemory>
    requires within { All (λ file. file.body_at + file.body ≤ length bytes.now) volume.now.files }
    requires few { length bytes.now ≤ 16777216 }
    ensures words { IfOk result (AreWords bytes.now volume.now.files) }
    ensures one_each { IfOk result (λ words. length words ≡ length volume.now.files) }
{
    let mut words = List::new(alloc);
    let mut earlier = Earlier::none(alloc);
    for file in volume.files.as_slice() {
        let word = word_of(bytes, file, &earlier);
        words.push(word)?;
        earlier.keep(file, word)?;
    }
    Ok(words)
}

/// The word of a file after others; what a driver's costs, `parts_of` says.
fn word_of(bytes: &[u8], file: &File, earlier: &Earlier) -> FileWord
    requires within { file.now.body_at + file.now.body ≤ length bytes.now }
    requires few { length bytes.now ≤ 16777216 }
    ensures { (known : Items Known) → Keeps earlier.now known → HasWord bytes.now known file.now result }
{
    if file.kind == MM_STANDALONE {
        driver_word(bytes, file, earlier)
    } else {
        plain_word(file, earlier)
    }
}

/// The word of a file that is no driver, after others.
fn plain_word(file: &File, earlier: &Earlier) -> FileWord
    ensures { (known : Items Known) → Keeps earlier.now known → result ≡ word_of_other known file.now }
{
    if file.kind == PAD {
        FileWord::Pad
    } else if is_policy(file) && !earlier.has_policy() {
        FileWord::Policy
    } else {
        FileWord::Passed
    }
}
