//! Firmware volumes, as they are read: the files of a volume and the sections of a file.
use crate::{Guid, List};

/// What a volume is refused for, or a place in it.
#[derive(Clone, Copy, Debug, PartialEq, Eq)]
pub enum VolumeKind {
    /// There are fewer bytes than the fixed part of a volume header has.
    Short,
    /// The signature isn't `_FVH`.
    Signature,
    /// The header's length is too small, odd, or over the input.
    HeaderLength,
    /// The 16-bit sum over the header isn't 0.
    HeaderSum,
    /// The header's revision isn't 2.
    Revision,
    /// The file system is neither FFS2 nor FFS3.
    FileSystem,
    /// The volume's length is below its header's, or over the input.
    Length,
    /// The extended header has fewer than 20 bytes, or doesn't fit the volume.
    ExtHeader,
    /// The 8-bit sum over a file header isn't 0.
    FileSum,
    /// A file's size is below its header's, or leads past the volume; or a file says that it is large where there is no room
    /// for a large header, or in FFS2, which knows no large files.
    FileSize,
}

/// A file of a volume. `at` is the place of its header, `size` counts the header, and the body is the `body` bytes from
/// `body_at`. `sound` tells whether the body has the sum that its header asks for.
#[derive(Clone, Copy, Debug, PartialEq, Eq)]
pub struct File {
    pub at: u32,
    pub name: Guid,
    pub kind: u8,
    pub size: u32,
    pub body_at: u32,
    pub body: u32,
    pub sound: bool,
}

/// A volume: how many bytes it has, whether its file system is FFS3, and its files in order.
#[derive(Debug, Drop)]
pub struct Volume {
    pub length: u32,
    pub ffs3: bool,
    pub files: List<File>,
}

/// A section of a file: its type, and the place and length of its data after its header.
#[derive(Clone, Copy, Debug, PartialEq, Eq)]
pub struct Section {
    pub kind: u8,
    pub at: u32,
    pub length: u32,
}

/// A section's size is refused; `at` is the place of its header.
#[derive(Clone, Copy, Debug, PartialEq, Eq)]
pub struct SectionFault {
    pub at: u32,
}
