//! The file that has the policy.
ghost use Rattle.std.specs.Prelude.{◌≡◌};
ghost use Rattle.file_words.specs.Causes.{is_policy_file};

use mm_base::{File, Guid};

/// EFI_FV_FILETYPE_FREEFORM: the type of the policy file.
const FREEFORM: u8 = 0x02;

/// The policy file's name, 4d4d5350-0002-4000-8000-000000000002, as it is stored.
const POLICY_NAME: Guid = Guid([
    0x50, 0x53, 0x4d, 0x4d, 0x02, 0x00, 0x00, 0x40, 0x80, 0x00, 0x00, 0x00, 0x00, 0x00, 0x00, 0x02,
]);

/// Whether a file is a freeform file by the policy's name; the first of them is the policy file.
pub fn is_policy(file: &File) -> bool
    ensures { result ≡ is_policy_file file.now }
{
    file.kind == FREEFORM && file.name == POLICY_NAME
}
