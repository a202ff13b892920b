//! How an image is laid out, and what the entries of its section table say.
ghost use Rattle.std.specs.Prelude.{◌≡◌, ◌+◌, ◌*◌, ◌≤◌, ◌<◌, length};
ghost use Rattle.mm_base.specs.declared.image.Image.{Image as ImageValue};
ghost use Rattle.pe_loader.specs.Sections.{rights_of, part_from as part_told, part_of, entry_at, layout_of};
ghost use Rattle.pe_loader.specs.LayoutInside.{HasHeaders, HasTable};

use crate::fields::{
    CHARACTERISTICS, POINTER_TO_RAW_DATA, SIZE_OF_RAW_DATA, VIRTUAL_ADDRESS, VIRTUAL_SIZE,
};
use crate::header::{SECTION_HEADER_BYTES, headers_size, image_size, part_count, table_at};
use crate::numbers::u32_at;
use mm_base::{Image, Part};

/// The bit of a section's characteristics that it may be executed, IMAGE_SCN_MEM_EXECUTE.
const MEM_EXECUTE: u32 = 0x2000_0000;

/// The bit of a section's characteristics that it may be read, IMAGE_SCN_MEM_READ.
const MEM_READ: u32 = 0x4000_0000;

/// The bit of a section's characteristics that it may be written, IMAGE_SCN_MEM_WRITE.
const MEM_WRITE: u32 = 0x8000_0000;

/// The bit of a section's rights that it may be read.
const READ: u8 = 1;

/// The bit of a section's rights that it may be written.
const WRITE: u8 = 2;

/// The bit of a section's rights that it may be executed.
pub(crate) const EXECUTE: u8 = 4;

/// How many bytes the headers and the whole image have, where the section table stands in the file, and how many sections it has.
#[derive(Clone, Copy, Debug, PartialEq, Eq)]
pub(crate) struct Layout {
    pub(crate) headers: u32,
    pub(crate) size: u32,
    pub(crate) table: usize,
    pub(crate) count: u16,
}

/// The rights that a section's characteristics tell.
fn rights(bits: u32) -> u8
    ensures { result ≡ rights_of bits }
{
    let read = if bits & MEM_READ != 0 { READ } else { 0 };
    let write = if bits & MEM_WRITE != 0 { WRITE } else { 0 };
    let execute = if bits & MEM_EXECUTE != 0 { EXECUTE } else { 0 };
    read + write + execute
}

/// The section whose entry of the table stands at a place.
#[tactic(auto, unfolding(crate::specs::Sections::part_from))]
pub(crate) fn part_from(bytes: &[u8], entry: usize) -> Part
    requires { entry + 40 ≤ length bytes.now }
    ensures { result ≡ part_told bytes.now entry }
{
    let raw_size = u32_at(bytes, entry + SIZE_OF_RAW_DATA);
    let virtual_size = u32_at(bytes, entry + VIRTUAL_SIZE);
    let length = if virtual_size == 0 {
        raw_size
    } else {
        virtual_size
    };
    Part {
        at: u32_at(bytes, entry + VIRTUAL_ADDRESS),
        length,
        raw: u32_at(bytes, entry + POINTER_TO_RAW_DATA),
        copied: length.min(raw_size),
        rights: rights(u32_at(bytes, entry + CHARACTERISTICS)),
    }
}

impl Layout {
    /// That of an image in the PE32+ format whose headers passed their checks.
    pub(crate) fn of(bytes: &[u8]) -> Layout
        requires { HasHeaders bytes.now }
        ensures layout { result ≡ layout_of bytes.now }
        ensures table { HasTable bytes.now result }
    {
        Layout {
            headers: headers_size(bytes),
            size: image_size(bytes),
            table: table_at(bytes),
            count: part_count(bytes),
        }
    }

    /// That of an image.
    pub(crate) fn of_image(image: &Image) -> Layout
        ensures { result
            ≡ record { headers = image.now.headers; size = image.now.size; table = image.now.table; count = image.now.parts } }
    {
        Layout {
            headers: image.headers,
            size: image.size,
            table: image.table as usize,
            count: image.parts,
        }
    }

    /// Where the k-th entry of the table stands, or where the table ends.
    pub(crate) fn entry(&self, bytes: &[u8], k: u16) -> usize
        requires table { HasTable bytes.now self.now }
        requires within { k ≤ self.now.count }
        ensures place { result ≡ entry_at self.now k }
        ensures within { result ≤ length bytes.now }
    {
        self.table + SECTION_HEADER_BYTES * k as usize
    }

    /// The k-th section.
    pub(crate) fn part(&self, bytes: &[u8], k: u16) -> Part
        requires table { HasTable bytes.now self.now }
        requires within { k < self.now.count }
        ensures { result ≡ part_of bytes.now self.now k }
    {
        part_from(bytes, self.table + SECTION_HEADER_BYTES * k as usize)
    }
}
