//! Images in the PE32+ format, as they are read.
use crate::Range;

/// What an image is refused for, in the order in which it is checked.
#[derive(Clone, Copy, Debug, PartialEq, Eq)]
pub enum PeKind {
    /// There are fewer bytes than the DOS header has.
    Short,
    /// The DOS header's signature isn't `MZ`.
    Mz,
    /// The place of the PE header leaves too few bytes after it.
    Lfanew,
    /// The PE header's signature isn't there.
    Signature,
    /// The machine is none of EBC, x64 and AArch64.
    Machine,
    /// The optional header isn't one of PE32+.
    Magic,
    /// The optional header is too small for its directories, or it or the section table leaves the file.
    Optional,
    /// The subsystem is neither a boot service driver nor a runtime driver.
    Subsystem,
    /// The image has no byte, or more than 16,777,216.
    Size,
    /// The headers end before the section table does, or leave the file or the image.
    Headers,
    /// A section leaves the image, its copied bytes leave the file, or it overlaps an earlier one.
    Section,
    /// The entry point isn't where code can begin.
    Entry,
    /// A relocation block or a fixup is refused.
    Reloc,
}

/// The first check that an image fails, and the place in the file that it names.
#[derive(Clone, Copy, Debug, PartialEq, Eq)]
pub struct PeFault {
    pub at: u32,
    pub kind: PeKind,
}

/// An image: what its headers say. `entry` counts from the image's begin, `base` is the address that it was linked for, `size`
/// and `headers` are the bytes of the whole image and of its headers, `parts` is how many sections there are, `table` the
/// place of the section table in the file, and `relocs` the relocation directory, counted from the image's begin.
#[derive(Clone, Copy, Debug, PartialEq, Eq)]
pub struct Image {
    pub machine: u16,
    pub entry: u32,
    pub base: u64,
    pub size: u32,
    pub headers: u32,
    pub parts: u16,
    pub table: u32,
    pub relocs: Range,
}

/// A section of an image: `length` bytes from `at` on, counted from the image's begin, of which the first `copied` are those of
/// the file from `raw` on. Bits 1, 2 and 4 of `rights` are read, write and execute.
#[derive(Clone, Copy, Debug, PartialEq, Eq)]
pub struct Part {
    pub at: u32,
    pub length: u32,
    pub raw: u32,
    pub copied: u32,
    pub rights: u8,
}
