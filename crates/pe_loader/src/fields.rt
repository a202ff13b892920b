//! Where the fields of an image's headers stand, by their names in PE/COFF.

/// Machine, behind the PE signature's begin.
pub(crate) const MACHINE: usize = 4;

/// NumberOfSections, behind the PE signature's begin.
pub(crate) const NUMBER_OF_SECTIONS: usize = 6;

/// SizeOfOptionalHeader, behind the PE signature's begin.
pub(crate) const SIZE_OF_OPTIONAL_HEADER: usize = 20;

/// The optional header, behind the PE signature's begin.
pub(crate) const OPTIONAL_HEADER: usize = 24;

/// AddressOfEntryPoint, in the optional header.
pub(crate) const ADDRESS_OF_ENTRY_POINT: usize = 16;

/// ImageBase, in the optional header.
pub(crate) const IMAGE_BASE: usize = 24;

/// SizeOfImage, in the optional header.
pub(crate) const SIZE_OF_IMAGE: usize = 56;

/// SizeOfHeaders, in the optional header.
pub(crate) const SIZE_OF_HEADERS: usize = 60;

/// Subsystem, in the optional header.
pub(crate) const SUBSYSTEM: usize = 68;

/// NumberOfRvaAndSizes, in the optional header.
pub(crate) const NUMBER_OF_RVA_AND_SIZES: usize = 108;

/// VirtualAddress of the Base Relocation Table, in the optional header.
pub(crate) const RELOCATIONS_ADDRESS: usize = 152;

/// Size of the Base Relocation Table, in the optional header.
pub(crate) const RELOCATIONS_SIZE: usize = 156;

/// VirtualSize, in a section header.
pub(crate) const VIRTUAL_SIZE: usize = 8;

/// VirtualAddress, in a section header.
pub(crate) const VIRTUAL_ADDRESS: usize = 12;

/// SizeOfRawData, in a section header.
pub(crate) const SIZE_OF_RAW_DATA: usize = 16;

/// PointerToRawData, in a section header.
pub(crate) const POINTER_TO_RAW_DATA: usize = 20;

/// Characteristics, in a section header.
pub(crate) const CHARACTERISTICS: usize = 36;
