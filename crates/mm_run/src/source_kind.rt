//! The kinds of sources that commands read.
ghost use Rattle.std.specs.Prelude.{◌≡◌};
ghost use Rattle.mm_run.specs.SourceKinds.{most_of};

/// The most bytes that a script may have.
const MOST_SCRIPT_BYTES: u32 = 4_194_304;

/// The most bytes that a volume may have.
const MOST_VOLUME_BYTES: u32 = 16_777_216;

/// What a source has to be.
#[derive(Clone, Copy, Debug, PartialEq, Eq)]
pub enum SourceKind {
    /// The text of a script.
    ScriptText,
    /// The bytes of a firmware volume.
    VolumeBytes,
    /// The text of a script without handler lines.
    EventsText,
}

impl SourceKind {
    /// The most bytes that a source of this kind may have.
    pub fn most_bytes(self) -> u32
        ensures { result ≡ most_of self }
    {
        match self {
            SourceKind::ScriptText | SourceKind::EventsText => MOST_SCRIPT_BYTES,
            SourceKind::VolumeBytes => MOST_VOLUME_BYTES,
        }
    }
}
