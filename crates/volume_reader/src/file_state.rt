//! The state of a file, as its state byte tells.
ghost use Rattle.std.specs.Prelude.{◌≡◌};
ghost use Rattle.volume_reader.specs.FileHeader.{state_of};

/// The state of a file, EFI_FFS_FILE_STATE, by the highest of its bits that is set.
#[derive(Clone, Copy, Debug, PartialEq, Eq)]
pub(crate) enum FileState {
    /// No bit is set: nothing was written here.
    Free,
    /// EFI_FILE_HEADER_CONSTRUCTION: its header is being written.
    HeaderConstruction,
    /// EFI_FILE_HEADER_VALID: its header is valid, and its data isn't yet.
    HeaderValid,
    /// EFI_FILE_DATA_VALID: its data is valid.
    DataValid,
    /// EFI_FILE_MARKED_FOR_UPDATE: its data is valid, and being replaced.
    MarkedForUpdate,
    /// EFI_FILE_DELETED: it is deleted.
    Deleted,
    /// EFI_FILE_HEADER_INVALID: its header was found wrong.
    HeaderInvalid,
}

impl FileState {
    /// The state that these bits tell.
    pub(crate) fn of(bits: u8) -> FileState
        ensures { result ≡ state_of bits }
    {
        if bits == 0 {
            FileState::Free
        } else if bits < 0x02 {
            FileState::HeaderConstruction
        } else if bits < 0x04 {
            FileState::HeaderValid
        } else if bits < 0x08 {
            FileState::DataValid
        } else if bits < 0x10 {
            FileState::MarkedForUpdate
        } else if bits < 0x20 {
            FileState::Deleted
        } else {
            FileState::HeaderInvalid
        }
    }
}
