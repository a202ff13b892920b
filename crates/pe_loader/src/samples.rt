//! Sample images, and bytes that differ from them.
use mm_base::NoMemory;
use std::alloc::Global;

/// Bytes and the place that they are written to.
pub(crate) type Piece = (usize, &'static [u8]);

/// So many bytes, 0 but for these pieces.
#[derive(Clone, Copy)]
pub(crate) struct Sample {
    pub(crate) length: usize,
    pub(crate) pieces: &'static [Piece],
}

/// An image of EBC with one section and no directories.
pub(crate) const ONE_SECTION: Sample = Sample {
    length: 336,
    pieces: &[
        (0x0, b"MZ"),
        (0x3c, b"\x40"),
        (0x40, b"PE\0\0\xbc\x0e\x01"),
        (0x54, b"\x70"),
        (0x58, b"\x0b\x02"),
        (0x68, b"\x00\x01\x00\x00"),
        (0x78, b"\x20"),
        (0x90, b"\x60\x01\x00\x00\x00\x01\x00\x00"),
        (0x9c, b"\x0b"),
        (
            0xd0,
            b"\x50\x00\x00\x00\x00\x01\x00\x00\x50\x00\x00\x00\x00\x01\x00\x00",
        ),
        (0xec, b"\x20\x00\x00\x60"),
        (
            0x100,
            b"\x60\x81\x18\x00\x6b\x05\x20\x04\x6b\x04\x79\x02\x32\x00\x6b\x02\x79\x02\x0e\x00\x6b\x02\x60\x13\x90\x01\x03\x23\x60\x00\x20\x00\x04\x00\x60\x81\x20\x00\x6b\x01",
        ),
        (
            0x128,
            b"\x77\x32\x70\x00\x6b\x02\x77\x32\x01\x00\x6b\x02\x60\x13\x37\x52\x03\x23\x60\x00\x18\x00\x04\x00\x11\x11\x11\x11\x22\x22\x33\x33\x44\x44\x55\x55\x55\x55\x55\x55",
        ),
    ],
};

/// An image with two sections that touch, at 120 and at 160 of the image and of the file.
pub(crate) const TWO_SECTIONS: Sample = Sample {
    length: 512,
    pieces: &[
        (0x0, b"MZ"),
        (0x3c, b"\x40"),
        (0x40, b"PE\0\0\xbc\x0e\x02"),
        (0x54, b"\x70"),
        (0x58, b"\x0b\x02"),
        (0x68, b"\x20\x01\x00\x00"),
        (0x90, b"\x00\x02\x00\x00\x20\x01\x00\x00"),
        (0x9c, b"\x0c"),
        (
            0xd0,
            b"\x40\x00\x00\x00\x20\x01\x00\x00\x40\x00\x00\x00\x20\x01\x00\x00",
        ),
        (0xec, b"\x20\x00\x00\x60"),
        (
            0xf8,
            b"\x40\x00\x00\x00\x60\x01\x00\x00\x40\x00\x00\x00\x60\x01\x00\x00",
        ),
        (0x114, b"\x40\x00\x00\xc0"),
        (0x120, b"\x11\x12\x13\x14"),
        (0x15c, b"\x1c\x1d\x1e\x1f"),
        (0x160, b"\x21\x22\x23\x24"),
        (0x19c, b"\x2c\x2d\x2e\x2f"),
        (0x1fc, b"\x3c\x3d\x3e\x3f"),
    ],
};

/// An image with six directories, whose one section has the file from 120 on at 180 of the image. Its relocations stand at 260 of the
/// image, and have one block for the page 100, with one fixup of 64 bits at 1A0. It was linked for 1000.
pub(crate) const RELOCATED: Sample = Sample {
    length: 544,
    pieces: &[
        (0x0, b"MZ"),
        (0x3c, b"\x40"),
        (0x40, b"PE\0\0\xbc\x0e\x01"),
        (0x54, b"\xa0"),
        (0x58, b"\x0b\x02"),
        (0x68, b"\x80\x01\x00\x00"),
        (0x70, b"\x00\x10\x00\x00\x00\x00\x00\x00"),
        (0x90, b"\x00\x03\x00\x00\x20\x01\x00\x00"),
        (0x9c, b"\x0b"),
        (0xc4, b"\x06"),
        (0xf0, b"\x60\x02\x00\x00\x0c\x00\x00\x00"),
        (
            0x100,
            b"\x00\x01\x00\x00\x80\x01\x00\x00\x00\x01\x00\x00\x20\x01\x00\x00",
        ),
        (0x11c, b"\x20\x00\x00\xe0"),
        (0x140, b"\x00\x11\x00\x00\x00\x00\x00\x00"),
        (0x200, b"\x00\x01\x00\x00\x0c\x00\x00\x00\xa0\xa0\x00\x00"),
    ],
};

/// Writes a piece over bytes.
pub(crate) fn write(bytes: &mut [u8], piece: &Piece) {
    let (at, written) = piece;
    for (byte, value) in bytes.iter_mut().skip(*at).zip(*written) {
        *byte = *value;
    }
}

/// So many bytes of this value.
pub(crate) fn filled(alloc: Global, count: usize, value: u8) -> Result<Vec<u8>, NoMemory> {
    Ok(vec![in alloc; value; count]?)
}

/// The bytes of a sample, cut or filled up with zeros to so many, with these pieces written over them.
pub(crate) fn made(
    alloc: Global,
    sample: &Sample,
    length: usize,
    edits: &[Piece],
) -> Result<Vec<u8>, NoMemory> {
    let mut bytes = filled(alloc, length, 0)?;
    for piece in sample.pieces {
        write(bytes.as_mut_slice(), piece);
    }
    for piece in edits {
        write(bytes.as_mut_slice(), piece);
    }
    Ok(bytes)
}
