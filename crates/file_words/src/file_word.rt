//! What a boot takes a file of a volume for.
ghost use Rattle.std.specs.Prelude.{◌≡◌};
ghost use Rattle.file_words.specs.Causes.{is_driver_word};

use mm_base::{DepexFault, PeFault};

/// What a file is taken for, by its type, its name, its sections and the files before it.
#[derive(Clone, Copy, Debug, PartialEq, Eq)]
pub enum FileWord {
    /// A driver in EFI Byte Code, which a boot may start.
    Driver,
    /// A driver in a processor's own code, which is never started.
    Native,
    /// The policy: the first freeform file by the policy's name.
    Policy,
    /// A pad file.
    Pad,
    /// A file of another type than a Standalone MM driver's, which a boot passes over.
    Passed,
    /// A driver file that is refused.
    Refused(Cause),
}

/// Why a driver file is refused, in the order in which causes are tried.
#[derive(Clone, Copy, Debug, PartialEq, Eq)]
pub enum Cause {
    /// Its body has not the sum that its header asks for.
    BodySum,
    /// One of its sections has a size that is refused.
    SectionSize,
    /// It has a compressed section.
    Compressed,
    /// It has a GUID-defined section.
    GuidDefined,
    /// It has no section with a PE32+ image.
    NoImage,
    /// Its first PE32+ image has this fault, whose place counts from the image's begin.
    Pe(PeFault),
    /// Its first dependency expression has this fault.
    Depex(DepexFault),
    /// An earlier driver has its name.
    Duplicate,
}

impl FileWord {
    /// Whether it is the word of a driver, in EFI Byte Code or in a processor's own code.
    pub fn is_driver(self) -> bool
        ensures { result ≡ is_driver_word self }
    {
        matches!(self, FileWord::Driver | FileWord::Native)
    }
}
