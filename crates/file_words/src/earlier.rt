//! What is kept of the files of a volume that come before one.
ghost use Rattle.std.specs.Prelude.{◌≡◌, [], ◌∷◌, ◌++◌, List, OnOk};
ghost use Rattle.file_words.specs.Causes.{Known, is_policy_among, is_driver_among};
ghost use Rattle.file_words.specs.KnownFilesInside.{Keeps};

use crate::file_word::FileWord;
use crate::policy_file::is_policy;
use mm_base::{File, Guid, NoMemory};
use std::alloc::Global;
use std::collections::BTreeSet;

/// Whether the policy was among them, and the names of the drivers, by their bytes.
#[derive(Drop)]
pub(crate) struct Earlier {
    has_policy: bool,
    drivers: BTreeSet<[u8; 16]>,
}

impl Earlier {
    /// What is kept of no file.
    pub(crate) fn none(alloc: Global) -> Earlier
        ensures { Keeps result [] }
    {
        Earlier {
            has_policy: false,
            drivers: BTreeSet::new(alloc),
        }
    }

    /// Whether the policy was among the files.
    pub(crate) fn has_policy(&self) -> bool
        ensures { (earlier : List Known) → Keeps self.now earlier → result ≡ is_policy_among earlier }
    {
        self.has_policy
    }

    /// Whether a driver of this name was among them; it costs a comparison for each doubling of their number.
    pub(crate) fn has_driver(&self, name: Guid) -> bool
        ensures { (earlier : List Known) → Keeps self.now earlier → result ≡ is_driver_among earlier name }
    {
        self.drivers.contains(&name.0)
    }

    /// Keeps one file more, with its word.
    pub(crate) fn keep(&mut self, file: &File, word: FileWord) -> Result<(), NoMemory>
        ensures { OnOk result ((earlier : List Known) → Keeps self.old earlier
            → Keeps self.new (earlier ++ record { file = file.now; word = word } ∷ [])) }
    {
        self.has_policy = self.has_policy || is_policy(file);
        if word.is_driver() {
            self.drivers.insert(file.name.0)?;
        }
        Ok(())
    }
}
