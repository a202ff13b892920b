//! Images that are placed. What is expected was worked out from the rules of the format, apart from this loader.
use crate::inspect_tests::MOST_BYTES;
use crate::samples::{Piece, RELOCATED, Sample, TWO_SECTIONS, filled, made, write};
use crate::{Image, inspect, place};
use mm_base::NoMemory;
use std::alloc::Global;

/// So many bytes that are copied to a place of the image, from one of the file.
type Copied = (usize, usize, usize);

/// What is changed of the image with two sections, and what its sections copy then.
const COPIED: &[(&str, &[Piece], &[Copied])] = &[
    (
        "two sections that touch",
        &[],
        &[(0x120, 0x120, 0x40), (0x160, 0x160, 0x40)],
    ),
    (
        "another order, and zeros in between",
        &[(0xd4, b"\xc0"), (0xfc, b"\x60"), (0x68, b"\xc0")],
        &[(0x1c0, 0x120, 0x40), (0x160, 0x160, 0x40)],
    ),
    (
        "a section whose end isn't in the file",
        &[(0x100, b"\x10")],
        &[(0x120, 0x120, 0x40), (0x160, 0x160, 0x10)],
    ),
    (
        "more in the file than is taken",
        &[(0xf8, b"\x10")],
        &[(0x120, 0x120, 0x40), (0x160, 0x160, 0x10)],
    ),
    (
        "nothing in the file",
        &[(0x100, b"\0"), (0x104, b"\xff\xff\xff\xff")],
        &[(0x120, 0x120, 0x40)],
    ),
];

/// What is changed of the image with relocations, where it is placed, and the eight bytes that stand at 1A0 then: fixups of each
/// type, at differences that carry and wrap.
const FIXED: &[(&str, &[Piece], u64, &[u8])] = &[
    (
        "64 bits far from where they were linked",
        &[],
        0x80000000,
        b"\x00\x01\x00\x80\x00\x00\x00\x00",
    ),
    (
        "type 0 and the difference 0",
        &[
            (0x140, b"\xfe\xff\xfe\xff\xfc\xfd\xfe\xff"),
            (0x208, b"\xa0\x00"),
        ],
        0x1000,
        b"\xfe\xff\xfe\xff\xfc\xfd\xfe\xff",
    ),
    (
        "type 1 and the difference 0",
        &[
            (0x140, b"\xff\xff\xfe\xff\xfc\xfd\xfe\xff"),
            (0x208, b"\xa0\x10"),
        ],
        0x1000,
        b"\xff\xff\xfe\xff\xfc\xfd\xfe\xff",
    ),
    (
        "type 2 and the difference 0",
        &[
            (0x140, b"\xfe\xff\xfe\xff\xfc\xfd\xfe\xff"),
            (0x208, b"\xa0\x20"),
        ],
        0x1000,
        b"\xfe\xff\xfe\xff\xfc\xfd\xfe\xff",
    ),
    (
        "type 3 and the difference 0",
        &[
            (0x140, b"\xff\xff\xff\xff\xfc\xfd\xfe\xff"),
            (0x208, b"\xa0\x30"),
        ],
        0x1000,
        b"\xff\xff\xff\xff\xfc\xfd\xfe\xff",
    ),
    (
        "type 10 and the difference 0",
        &[
            (0x140, b"\xff\xff\xff\xff\xff\xff\xff\xff"),
            (0x208, b"\xa0\xa0"),
        ],
        0x1000,
        b"\xff\xff\xff\xff\xff\xff\xff\xff",
    ),
    (
        "type 0 and the difference 1",
        &[
            (0x140, b"\xfe\xff\xfe\xff\xfc\xfd\xfe\xff"),
            (0x208, b"\xa0\x00"),
        ],
        0x1001,
        b"\xfe\xff\xfe\xff\xfc\xfd\xfe\xff",
    ),
    (
        "type 1 and the difference 1",
        &[
            (0x140, b"\xff\xff\xfe\xff\xfc\xfd\xfe\xff"),
            (0x208, b"\xa0\x10"),
        ],
        0x1001,
        b"\xff\xff\xfe\xff\xfc\xfd\xfe\xff",
    ),
    (
        "type 2 and the difference 1",
        &[
            (0x140, b"\xfe\xff\xfe\xff\xfc\xfd\xfe\xff"),
            (0x208, b"\xa0\x20"),
        ],
        0x1001,
        b"\xff\xff\xfe\xff\xfc\xfd\xfe\xff",
    ),
    (
        "type 3 and the difference 1",
        &[
            (0x140, b"\xff\xff\xff\xff\xfc\xfd\xfe\xff"),
            (0x208, b"\xa0\x30"),
        ],
        0x1001,
        b"\x00\x00\x00\x00\xfc\xfd\xfe\xff",
    ),
    (
        "type 10 and the difference 1",
        &[
            (0x140, b"\xff\xff\xff\xff\xff\xff\xff\xff"),
            (0x208, b"\xa0\xa0"),
        ],
        0x1001,
        b"\x00\x00\x00\x00\x00\x00\x00\x00",
    ),
    (
        "type 0 and the difference 2^16",
        &[
            (0x140, b"\xfe\xff\xfe\xff\xfc\xfd\xfe\xff"),
            (0x208, b"\xa0\x00"),
        ],
        0x11000,
        b"\xfe\xff\xfe\xff\xfc\xfd\xfe\xff",
    ),
    (
        "type 1 and the difference 2^16",
        &[
            (0x140, b"\xff\xff\xfe\xff\xfc\xfd\xfe\xff"),
            (0x208, b"\xa0\x10"),
        ],
        0x11000,
        b"\x00\x00\xfe\xff\xfc\xfd\xfe\xff",
    ),
    (
        "type 2 and the difference 2^16",
        &[
            (0x140, b"\xfe\xff\xfe\xff\xfc\xfd\xfe\xff"),
            (0x208, b"\xa0\x20"),
        ],
        0x11000,
        b"\xfe\xff\xfe\xff\xfc\xfd\xfe\xff",
    ),
    (
        "type 3 and the difference 2^16",
        &[
            (0x140, b"\xff\xff\xff\xff\xfc\xfd\xfe\xff"),
            (0x208, b"\xa0\x30"),
        ],
        0x11000,
        b"\xff\xff\x00\x00\xfc\xfd\xfe\xff",
    ),
    (
        "type 10 and the difference 2^16",
        &[
            (0x140, b"\xff\xff\xff\xff\xff\xff\xff\xff"),
            (0x208, b"\xa0\xa0"),
        ],
        0x11000,
        b"\xff\xff\x00\x00\x00\x00\x00\x00",
    ),
    (
        "type 0 and the difference 2^32",
        &[
            (0x140, b"\xfe\xff\xfe\xff\xfc\xfd\xfe\xff"),
            (0x208, b"\xa0\x00"),
        ],
        0x100001000,
        b"\xfe\xff\xfe\xff\xfc\xfd\xfe\xff",
    ),
    (
        "type 1 and the difference 2^32",
        &[
            (0x140, b"\xff\xff\xfe\xff\xfc\xfd\xfe\xff"),
            (0x208, b"\xa0\x10"),
        ],
        0x100001000,
        b"\xff\xff\xfe\xff\xfc\xfd\xfe\xff",
    ),
    (
        "type 2 and the difference 2^32",
        &[
            (0x140, b"\xfe\xff\xfe\xff\xfc\xfd\xfe\xff"),
            (0x208, b"\xa0\x20"),
        ],
        0x100001000,
        b"\xfe\xff\xfe\xff\xfc\xfd\xfe\xff",
    ),
    (
        "type 3 and the difference 2^32",
        &[
            (0x140, b"\xff\xff\xff\xff\xfc\xfd\xfe\xff"),
            (0x208, b"\xa0\x30"),
        ],
        0x100001000,
        b"\xff\xff\xff\xff\xfc\xfd\xfe\xff",
    ),
    (
        "type 10 and the difference 2^32",
        &[
            (0x140, b"\xff\xff\xff\xff\xff\xff\xff\xff"),
            (0x208, b"\xa0\xa0"),
        ],
        0x100001000,
        b"\xff\xff\xff\xff\x00\x00\x00\x00",
    ),
    (
        "type 0 and the difference -1",
        &[
            (0x140, b"\xfe\xff\xfe\xff\xfc\xfd\xfe\xff"),
            (0x208, b"\xa0\x00"),
        ],
        0xfff,
        b"\xfe\xff\xfe\xff\xfc\xfd\xfe\xff",
    ),
    (
        "type 1 and the difference -1",
        &[
            (0x140, b"\xff\xff\xfe\xff\xfc\xfd\xfe\xff"),
            (0x208, b"\xa0\x10"),
        ],
        0xfff,
        b"\xfe\xff\xfe\xff\xfc\xfd\xfe\xff",
    ),
    (
        "type 2 and the difference -1",
        &[
            (0x140, b"\xfe\xff\xfe\xff\xfc\xfd\xfe\xff"),
            (0x208, b"\xa0\x20"),
        ],
        0xfff,
        b"\xfd\xff\xfe\xff\xfc\xfd\xfe\xff",
    ),
    (
        "type 3 and the difference -1",
        &[
            (0x140, b"\xff\xff\xff\xff\xfc\xfd\xfe\xff"),
            (0x208, b"\xa0\x30"),
        ],
        0xfff,
        b"\xfe\xff\xff\xff\xfc\xfd\xfe\xff",
    ),
    (
        "type 10 and the difference -1",
        &[
            (0x140, b"\xff\xff\xff\xff\xff\xff\xff\xff"),
            (0x208, b"\xa0\xa0"),
        ],
        0xfff,
        b"\xfe\xff\xff\xff\xff\xff\xff\xff",
    ),
    (
        "two at one place",
        &[(0x208, b"\xa0\xa0\xa0\xa0")],
        0x2000,
        b"\x00\x31\x00\x00\x00\x00\x00\x00",
    ),
    (
        "two that overlap, in order",
        &[
            (0x140, b"\xff\x00\xff\xff\xff\x00\x00\x00"),
            (0x208, b"\xa0\x30\xa1\x30"),
        ],
        0x1101,
        b"\x00\x03\x00\x00\x00\x00\x00\x00",
    ),
];

/// Copies so many bytes from one place to another.
fn copy(out: &mut [u8], bytes: &[u8], copied: &Copied) {
    let (to, from, count) = copied;
    for (byte, value) in out
        .iter_mut()
        .skip(*to)
        .zip(bytes.iter().skip(*from).take(*count))
    {
        *byte = *value;
    }
}

/// What is wanted of an image: its headers, what is copied behind them, and then one piece.
fn wanted(
    alloc: Global,
    bytes: &[u8],
    image: &Image,
    copies: &[Copied],
    piece: &Piece,
) -> Result<Vec<u8>, NoMemory> {
    let mut out = filled(alloc, image.size as usize, 0)?;
    copy(out.as_mut_slice(), bytes, &(0, 0, image.headers as usize));
    for copied in copies {
        copy(out.as_mut_slice(), bytes, copied);
    }
    write(out.as_mut_slice(), piece);
    Ok(out)
}

/// Whether the image of these bytes is placed as it is wanted, over bytes that were no zeros.
fn is_placed(
    alloc: Global,
    bytes: &[u8],
    at: u64,
    copies: &[Copied],
    piece: &Piece,
) -> Result<bool, NoMemory> {
    if bytes.len() > MOST_BYTES {
        return Ok(false);
    }
    let Ok(image) = inspect(bytes) else {
        return Ok(false);
    };
    let wanted = wanted(alloc, bytes, &image, copies, piece)?;
    let mut out = filled(alloc, image.size as usize, 0xaa)?;
    if out.len() != image.size as usize {
        return Ok(false);
    }
    place(bytes, &image, at, out.as_mut_slice());
    Ok(out.as_slice() == wanted.as_slice())
}

/// Whether a sample is placed so once it is changed.
fn is_right(
    alloc: Global,
    sample: &Sample,
    edits: &[Piece],
    at: u64,
    copies: &[Copied],
    piece: &Piece,
) -> bool {
    let Ok(bytes) = made(alloc, sample, sample.length, edits) else {
        return false;
    };
    is_placed(alloc, bytes.as_slice(), at, copies, piece) == Ok(true)
}

/// The first case whose sections are copied otherwise than they have to be.
fn first_miscopied(alloc: Global) -> Option<&'static str> {
    for (name, edits, copies) in COPIED {
        if !is_right(alloc, &TWO_SECTIONS, edits, 0, copies, &(0, b"")) {
            return Some(*name);
        }
    }
    None
}

/// The first case whose fixups are applied otherwise than they have to be.
fn first_misfixed(alloc: Global) -> Option<&'static str> {
    for (name, edits, at, fixed) in FIXED {
        if !is_right(
            alloc,
            &RELOCATED,
            edits,
            *at,
            &[(0x180, 0x120, 0x100)],
            &(0x1a0, *fixed),
        ) {
            return Some(*name);
        }
    }
    None
}

#[test]
fn copies_sections(rt: HostRuntime) {
    assert_eq!(rt; first_miscopied(rt.alloc()), None);
}

#[test]
fn applies_fixups(rt: HostRuntime) {
    assert_eq!(rt; first_misfixed(rt.alloc()), None);
}
