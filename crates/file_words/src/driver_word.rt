//! The word of a driver file.
ghost use Rattle.std.specs.Prelude.{◌≡◌, ◌+◌, ◌≤◌, List, length};
ghost use Rattle.file_words.specs.Catalog.{HasDriverWord};
ghost use Rattle.file_words.specs.Causes.{Known};
ghost use Rattle.file_words.specs.JudgingInside.{word_of_machine};
ghost use Rattle.file_words.specs.KnownFilesInside.{Keeps};

use crate::driver_file::parts_of;
use crate::earlier::Earlier;
use crate::file_word::{Cause, FileWord};
use mm_base::File;

/// IMAGE_FILE_MACHINE_EBC: the machine of EFI Byte Code.
const EBC: u16 = 0x0ebc;

/// The word of a driver file after others; what it costs, `parts_of` says.
pub(crate) fn driver_word(bytes: &[u8], file: &File, earlier: &Earlier) -> FileWord
    requires within { file.now.body_at + file.now.body ≤ length bytes.now }
    requires few { length bytes.now ≤ 16777216 }
    ensures { (known : List Known) → Keeps earlier.now known → HasDriverWord bytes.now known file.now result }
{
    match parts_of(bytes, file) {
        Ok(parts) => image_word(file, parts.image.machine, earlier),
        Err(cause) => FileWord::Refused(cause),
    }
}

/// The word of a driver file whose image is for this machine, and is as it should be.
fn image_word(file: &File, machine: u16, earlier: &Earlier) -> FileWord
    ensures { (known : List Known) → Keeps earlier.now known → result ≡ word_of_machine known file.now machine }
{
    if earlier.has_driver(file.name) {
        FileWord::Refused(Cause::Duplicate)
    } else if machine == EBC {
        FileWord::Driver
    } else {
        FileWord::Native
    }
}
