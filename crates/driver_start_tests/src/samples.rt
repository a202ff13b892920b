//! Sample images, byte by byte, and what is written over them.
use mm_base::NoMemory;
use std::alloc::Global;

/// Bytes and the place in a file that they are written to.
pub type Piece = (usize, &'static [u8]);

/// Bytes that are 0 but for these pieces.
#[derive(Clone, Copy)]
pub struct Sample {
    pub length: usize,
    pub pieces: &'static [Piece],
}

/// The place of the size of an image in memory.
pub const SIZE: usize = 0x90;

/// The place of the code of the sample driver.
pub const CODE: usize = 0x100;

/// The sample driver. It is one page, whose code begins at 100 (hexadecimal) of it and takes 13 units. It registers a handler at 122 for
/// the GUID that stands at 140, and returns the status of that.
pub const DRIVER: Sample = Sample {
    length: 336,
    pieces: &[
        (0x0, b"MZ"),
        (0x3c, b"\x40"),
        (0x40, b"PE\0\0\xbc\x0e\x01"),
        (0x54, b"\x70"),
        (0x58, b"\x0b\x02"),
        (0x68, b"\0\x01\0\0"),
        (0x78, b"\x20"),
        (0x90, b"\x60\x01\0\0\0\x01\0\0"),
        (0x9c, b"\x0b"),
        (0xd0, b"\x50\0\0\0\0\x01\0\0\x50\0\0\0\0\x01\0\0"),
        (0xec, b"\x20\0\0\x60"),
        // R1 = @R0(+24), the service page; PUSH64 R5; R4 = R0; PUSH64 R4; R2 = the GUID; PUSH64 R2
        (
            0x100,
            b"\x60\x81\x18\0\x6b\x05\x20\x04\x6b\x04\x79\x02\x32\0\x6b\x02",
        ),
        // R2 = the handler; PUSH64 R2; R3 = R1(+400); native call of R3; R0 = R0(+32); RET
        (
            0x110,
            b"\x79\x02\x0e\0\x6b\x02\x60\x13\x90\x01\x03\x23\x60\0\x20\0\x04\0",
        ),
        // the handler reads port 70
        (
            0x122,
            b"\x60\x81\x20\0\x6b\x01\x77\x32\x70\0\x6b\x02\x77\x32\x01\0\x6b\x02\x60\x13\x37\x52\x03\x23\x60\0\x18\0\x04\0",
        ),
        (
            0x140,
            b"\x11\x11\x11\x11\x22\x22\x33\x33\x44\x44\x55\x55\x55\x55\x55\x55",
        ),
    ],
};

/// A driver that returns a word of itself. It was linked for 1000 (hexadecimal), where the word, at 1A0, would be 1100; its one fixup
/// raises the word by what the image is moved.
pub const RELOCATED: Sample = Sample {
    length: 544,
    pieces: &[
        (0x0, b"MZ"),
        (0x3c, b"\x40"),
        (0x40, b"PE\0\0\xbc\x0e\x01"),
        (0x54, b"\xa0"),
        (0x58, b"\x0b\x02"),
        (0x68, b"\x80\x01\0\0"),
        (0x70, b"\0\x10\0\0\0\0\0\0"),
        (0x90, b"\0\x03\0\0\x20\x01\0\0"),
        (0x9c, b"\x0b"),
        (0xc4, b"\x06"),
        (0xf0, b"\x60\x02\0\0\x0c\0\0\0"),
        (0x100, b"\0\x01\0\0\x80\x01\0\0\0\x01\0\0\x20\x01\0\0"),
        (0x11c, b"\x20\0\0\x60"),
        // R1 = the word's address; R7 = @R1; RET
        (0x120, b"\x79\x01\x1c\0\x20\x97\x04\0"),
        (0x140, b"\0\x11\0\0\0\0\0\0"),
        // the block for the page at 100: a fixup of 64 bits at its A0
        (0x200, b"\0\x01\0\0\x0c\0\0\0\xa0\xa0\0\0"),
    ],
};

/// Writes a piece over bytes.
fn write(bytes: &mut [u8], piece: &Piece) {
    let (at, written) = piece;
    for (byte, value) in bytes.iter_mut().skip(*at).zip(*written) {
        *byte = *value;
    }
}

/// This many zeros.
fn blank(alloc: Global, count: usize) -> Result<Vec<u8>, NoMemory> {
    Ok(vec![in alloc; 0u8; count]?)
}

/// The bytes of a sample, with these pieces written over them.
pub fn made(alloc: Global, sample: &Sample, edits: &[Piece]) -> Result<Vec<u8>, NoMemory> {
    let mut bytes = blank(alloc, sample.length)?;
    for piece in sample.pieces {
        write(bytes.as_mut_slice(), piece);
    }
    for piece in edits {
        write(bytes.as_mut_slice(), piece);
    }
    Ok(bytes)
}
