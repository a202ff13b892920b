//! Sample volumes, and volumes that are put together for tests.
use mm_base::{Bytes, List, NoMemory};
use std::alloc::Global;

/// Bytes, and the place that they stand at.
pub type Piece = (usize, &'static [u8]);

/// So many bytes, 0 but for these pieces.
pub struct Layout {
    pub length: usize,
    pub pieces: &'static [Piece],
}

/// The header of a volume of 72 bytes: FFS2, the volume's length, the signature, the attributes, the header's length, its
/// checksum, no extended header, revision 2, and a block map of one block.
pub const EMPTY: Layout = Layout {
    length: 72,
    pieces: &[
        (
            16,
            b"\x78\xe5\x8c\x8c\x3d\x8a\x1c\x4f\x99\x35\x89\x61\x85\xc3\x2d\xd3\x48",
        ),
        (40, b"_FVH\0\x08\0\0\x48\0\x41\xed\0\0\0\x02"),
        (56, b"\x01\0\0\0\x48"),
    ],
};

/// The header of a volume of 448 bytes.
const HEADER: Layout = Layout {
    length: 72,
    pieces: &[
        (
            16,
            b"\x78\xe5\x8c\x8c\x3d\x8a\x1c\x4f\x99\x35\x89\x61\x85\xc3\x2d\xd3\xc0\x01",
        ),
        (40, b"_FVH\0\x08\0\0\x48\0\x51\xea\0\0\0\x02"),
        (56, b"\x01\0\0\0\xc0\x01"),
    ],
};

/// The header of a driver file: its name, the header's checksum, a body without a checksum, the type, 372 bytes, and the
/// state of a file whose data is valid, inverted.
const FILE_HEADER: Layout = Layout {
    length: 24,
    pieces: &[
        (0, b"\xaa\xaa\xaa\xaa"),
        (15, b"\x01\xd4\xaa\x0e\0\x74\x01\0\xf8"),
    ],
};

/// A section with the dependency expression TRUE END, and two bytes up to the next section.
const EXPRESSION: Layout = Layout {
    length: 8,
    pieces: &[(0, b"\x06\0\0\x1c\x06\x08")],
};

/// The header of a section with an image of 336 bytes.
const IMAGE_HEADER: Layout = Layout {
    length: 4,
    pieces: &[(0, b"\x54\x01\0\x10")],
};

/// An image of EFI byte code with one section, whose code registers a handler for a GUID behind it.
pub const IMAGE: Layout = Layout {
    length: 336,
    pieces: &[
        (0, b"MZ"),
        (0x3c, b"\x40"),
        (0x40, b"PE\0\0\xbc\x0e\x01"),
        (0x54, b"\x70"),
        (0x58, b"\x0b\x02"),
        (0x68, b"\0\x01"),
        (0x78, b"\x20"),
        (0x90, b"\x60\x01\0\0\0\x01"),
        (0x9c, b"\x0b"),
        (0xd0, b"\x50\0\0\0\0\x01\0\0\x50\0\0\0\0\x01"),
        (0xec, b"\x20\0\0\x60"),
        (
            0x100,
            b"\x60\x81\x18\0\x6b\x05\x20\x04\x6b\x04\x79\x02\x32\0\x6b\x02\x79\x02\x0e\0\x6b\x02",
        ),
        (0x116, b"\x60\x13\x90\x01\x03\x23\x60\0\x20\0\x04\0"),
        (
            0x122,
            b"\x60\x81\x20\0\x6b\x01\x77\x32\x70\0\x6b\x02\x77\x32\x01\0\x6b\x02",
        ),
        (0x134, b"\x60\x13\x37\x52\x03\x23\x60\0\x18\0\x04\0"),
        (
            0x140,
            b"\x11\x11\x11\x11\x22\x22\x33\x33\x44\x44\x55\x55\x55\x55\x55\x55",
        ),
    ],
};

/// What is erased behind the file.
const ERASED: Layout = Layout {
    length: 4,
    pieces: &[(0, b"\xff\xff\xff\xff")],
};

/// A volume of 448 bytes with one driver file.
pub const ONE_FILE: &[Layout] = &[HEADER, FILE_HEADER, EXPRESSION, IMAGE_HEADER, IMAGE, ERASED];

/// The body of a driver file that nothing is wrong with.
pub const DRIVER: &[Layout] = &[EXPRESSION, IMAGE_HEADER, IMAGE];

/// A driver's body, and 3 bytes behind it that are no section.
pub const DRIVER_AND_REST: &[Layout] = &[
    EXPRESSION,
    IMAGE_HEADER,
    IMAGE,
    Layout {
        length: 3,
        pieces: &[(0, b"\x03")],
    },
];

/// A body of four letters.
pub const TEXT: &[Layout] = &[Layout {
    length: 4,
    pieces: &[(0, b"text")],
}];

/// A body of an expression alone.
pub const NO_IMAGE: &[Layout] = &[EXPRESSION];

/// A section of 3 bytes, which is less than its header.
const TOO_SHORT: Layout = Layout {
    length: 4,
    pieces: &[(0, b"\x03\0\0\x19")],
};

/// A driver's body behind a section of 3 bytes.
pub const SHORT_SECTION: &[Layout] = &[TOO_SHORT, EXPRESSION, IMAGE_HEADER, IMAGE];

/// A compressed section of 12 bytes.
const COMPRESSED_SECTION: Layout = Layout {
    length: 12,
    pieces: &[(0, b"\x0c\0\0\x01")],
};

/// A compressed section, and a driver's body with a section of 3 bytes in front behind it.
pub const SHORT_BEHIND: &[Layout] = &[
    COMPRESSED_SECTION,
    TOO_SHORT,
    EXPRESSION,
    IMAGE_HEADER,
    IMAGE,
];

/// A driver's body with a section behind it that leads past the end by one byte.
pub const LONG_SECTION: &[Layout] = &[
    EXPRESSION,
    IMAGE_HEADER,
    IMAGE,
    Layout {
        length: 8,
        pieces: &[(0, b"\x09\0\0\x19")],
    },
];

/// A GUID-defined section of 24 bytes.
const GUID_DEFINED_SECTION: Layout = Layout {
    length: 24,
    pieces: &[(0, b"\x18\0\0\x02\x11\x11\x11\x11"), (20, b"\x18")],
};

/// A driver's body with a compressed section behind it.
pub const COMPRESSED: &[Layout] = &[EXPRESSION, IMAGE_HEADER, IMAGE, COMPRESSED_SECTION];

/// A GUID-defined section, and a compressed one behind it.
pub const COMPRESSED_BEHIND: &[Layout] = &[GUID_DEFINED_SECTION, COMPRESSED_SECTION];

/// A driver's body behind a GUID-defined section.
pub const GUID_DEFINED: &[Layout] = &[GUID_DEFINED_SECTION, EXPRESSION, IMAGE_HEADER, IMAGE];

/// The name of the policy file, as it is stored.
pub const POLICY_NAME: &[u8] = b"PSMM\x02\0\0\x40\x80\0\0\0\0\0\0\x02";

/// A raw section with a policy of no rules, which gives 65,536 of fuel.
pub const NO_RULES: &[Layout] = &[Layout {
    length: 20,
    pieces: &[(0, b"\x14\0\0\x19MMSP\x01"), (18, b"\x01")],
}];

/// A policy of one rule, of 56 bytes: the image aaaaaaaa-0000-0000-0000-000000000001 may read port 70.
pub const ONE_RULE: &[Piece] = &[
    (0, b"MMSP\x01\0\0\0\x01\0\0\0\0\0\x01\0"),
    (16, b"\x02\0\x01\0\x01\0\0\0\xaa\xaa\xaa\xaa"),
    (39, b"\x01\x70"),
    (48, b"\x01"),
];

/// A file that goes into a volume. `off` is added to the right file checksum: 0 leaves the body sound.
#[derive(Drop)]
pub struct Part {
    /// The name, 16 bytes as they are stored.
    pub name: &'static [u8],
    pub kind: u8,
    pub attributes: u8,
    pub off: u8,
    pub body: &'static [Layout],
}

/// Writes a piece over bytes.
fn write(bytes: &mut [u8], piece: &Piece) {
    let (at, written) = piece;
    for (byte, value) in bytes.iter_mut().skip(*at).zip(*written) {
        *byte = *value;
    }
}

/// Puts bytes of this layout behind others.
fn put_layout(bytes: &mut Bytes, alloc: Global, layout: &Layout) -> Result<(), NoMemory> {
    let mut memory = vec![in alloc; 0u8; layout.length]?;
    for piece in layout.pieces {
        write(memory.as_mut_slice(), piece);
    }
    bytes.extend(memory.as_slice())
}

/// Bytes of these layouts, one after the other. It costs a step a byte, and so do the other builders.
pub fn joined(alloc: Global, layouts: &[Layout]) -> Result<Bytes, NoMemory> {
    let mut bytes = List::new(alloc);
    for layout in layouts {
        put_layout(&mut bytes, alloc, layout)?;
    }
    Ok(bytes)
}

/// The first so many of these bytes, or all where there are fewer, with pieces written over them; what of a piece leads past their end
/// is left out.
pub fn edited(
    alloc: Global,
    bytes: &[u8],
    length: usize,
    edits: &[Piece],
) -> Result<Bytes, NoMemory> {
    let mut all = Vec::new(alloc);
    for byte in bytes.iter().take(length) {
        all.push(*byte)?;
    }
    for piece in edits {
        write(all.as_mut_slice(), piece);
    }
    Ok(List::from_vec(all))
}

fn sum_of_bytes(bytes: &[u8]) -> u8 {
    let mut total: u8 = 0;
    for byte in bytes {
        total = total.wrapping_add(*byte);
    }
    total
}

/// The sum of the 16-bit words of bytes; every other byte is the upper half of a word.
fn sum_of_words(bytes: &[u8]) -> u16 {
    let mut total: u16 = 0;
    for (place, byte) in bytes.iter().enumerate() {
        let weight: u16 = if place % 2 == 0 { 1 } else { 256 };
        total = total.wrapping_add(u16::from(*byte).wrapping_mul(weight));
    }
    total
}

/// The header of a volume of so many bytes.
fn volume_header(
    alloc: Global,
    ffs3: bool,
    length: usize,
    checksum: u16,
) -> Result<Bytes, NoMemory> {
    let system: &[u8] = if ffs3 {
        b"\x7a\xc0\x73\x54\xcb\x3d\xca\x4d\xbd\x6f\x1e\x96\x89\xe7\x34\x9a"
    } else {
        b"\x78\xe5\x8c\x8c\x3d\x8a\x1c\x4f\x99\x35\x89\x61\x85\xc3\x2d\xd3"
    };
    let mut header = List::from_slice(alloc, &[0; 16])?;
    header.extend(system)?;
    header.extend(&(length as u64).to_le_bytes())?;
    header.extend(b"_FVH\0\x08\0\0\x48\0")?;
    header.extend(&checksum.to_le_bytes())?;
    header.extend(b"\0\0\0\x02")?;
    header.extend(&[0; 16])?;
    Ok(header)
}

/// The header of a file with a body of so many bytes; a large one has 32 bytes.
fn file_header(
    alloc: Global,
    part: &Part,
    body: usize,
    header_sum: u8,
    file_sum: u8,
    state: u8,
) -> Result<Bytes, NoMemory> {
    let mut header = List::from_slice(alloc, part.name)?;
    header.extend(&[header_sum, file_sum, part.kind, part.attributes])?;
    if part.attributes & 1 == 0 {
        let [low, middle, high, ..] = (body as u64).wrapping_add(24).to_le_bytes();
        header.extend(&[low, middle, high, state])?;
    } else {
        header.extend(&[0xff, 0xff, 0xff, state])?;
        header.extend(&(body as u64).wrapping_add(32).to_le_bytes())?;
    }
    Ok(header)
}

/// The file checksum of a part with this body.
fn file_sum(part: &Part, body: &[u8]) -> u8 {
    let right = if part.attributes & 0x40 == 0 {
        0xaa
    } else {
        0u8.wrapping_sub(sum_of_bytes(body))
    };
    right.wrapping_add(part.off)
}

/// Puts a file behind others, and what is erased up to the next one.
fn put_part(files: &mut Bytes, alloc: Global, part: &Part) -> Result<(), NoMemory> {
    let body = joined(alloc, part.body)?;
    put_file(files, alloc, part, body.as_slice())
}

/// Puts files after others: of each its header, with the right checksums but for `off`, its body, and what is erased up to the next
/// multiple of 8.
pub fn put_parts(files: &mut Bytes, alloc: Global, parts: &[Part]) -> Result<(), NoMemory> {
    for part in parts {
        put_part(files, alloc, part)?;
    }
    Ok(())
}

/// Puts a file after others, whose body is given in place of the part's own, and what is erased up to the next multiple of 8. The body
/// has fewer than 16,777,192 bytes, or the part tells that it is a large file.
pub fn put_file(
    files: &mut Bytes,
    alloc: Global,
    part: &Part,
    body: &[u8],
) -> Result<(), NoMemory> {
    let blank = file_header(alloc, part, body.len(), 0, 0, 0)?;
    let header_sum = 0u8.wrapping_sub(sum_of_bytes(blank.as_slice()));
    let file_sum = file_sum(part, body);
    let header = file_header(alloc, part, body.len(), header_sum, file_sum, 0xf8)?;
    files.extend(header.as_slice())?;
    files.extend(body)?;
    for _ in 0..(8 - files.len() % 8) % 8 {
        files.push(0xff)?;
    }
    Ok(())
}

/// A volume of these files, without a block map, whose header has the right checksum.
pub fn volume_of(alloc: Global, ffs3: bool, parts: &[Part]) -> Result<Bytes, NoMemory> {
    let mut files = List::new(alloc);
    put_parts(&mut files, alloc, parts)?;
    volume_around(alloc, ffs3, files.as_slice())
}

/// A volume around the bytes of its files, without a block map, whose header has the right checksum. They begin at 72.
pub fn volume_around(alloc: Global, ffs3: bool, files: &[u8]) -> Result<Bytes, NoMemory> {
    let length = files.len().wrapping_add(72);
    let blank = volume_header(alloc, ffs3, length, 0)?;
    let checksum = 0u16.wrapping_sub(sum_of_words(blank.as_slice()));
    let mut volume = volume_header(alloc, ffs3, length, checksum)?;
    volume.extend(files)?;
    Ok(volume)
}
