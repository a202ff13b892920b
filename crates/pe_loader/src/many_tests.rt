//! Images of 300 sections of 1,024 bytes that touch, with tables in each order. What is expected was worked out from the rules of the format.
use crate::inspect_tests::{MOST_BYTES, read};
use crate::samples::{Sample, filled, made};
use crate::{PeKind, inspect, place};
use mm_base::NoMemory;
use std::alloc::Global;

/// How many sections there are.
const COUNT: u32 = 300;

/// Where the table stands.
const TABLE: usize = 0xf8;

/// How many bytes the file and the image have.
const SIZE: usize = 0x4e000;

/// The headers, but for the table: the entry lies in the section at 35000, and SizeOfHeaders is 3000.
const HEAD: Sample = Sample {
    length: SIZE,
    pieces: &[
        (0x0, b"MZ"),
        (0x3c, b"\x40"),
        (0x40, b"PE\0\0\xbc\x0e\x2c\x01"),
        (0x54, b"\xa0"),
        (0x58, b"\x0b\x02"),
        (0x68, b"\x00\x50\x03\x00"),
        (0x90, b"\x00\xe0\x04\x00\x00\x30\x00\x00"),
        (0x9c, b"\x0b"),
        (0xc4, b"\x06"),
    ],
};

/// In which order the sections stand in the table; shuffled is by one multiplication modulo 300.
#[derive(Clone, Copy)]
enum Order {
    Rising,
    Falling,
    Shuffled,
}

/// A section by its number in the order of places, and the place and the length that it gets.
type Change = (u32, u32, u32);

/// What is changed of an image without relocations, and which entry of its table is refused.
const SECTIONS: &[(&str, Order, &[Change], Option<u32>)] = &[
    ("rising", Order::Rising, &[], None),
    ("falling", Order::Falling, &[], None),
    ("shuffled", Order::Shuffled, &[], None),
    (
        "the first by a byte, rising",
        Order::Rising,
        &[(0, 0x3000, 0x401)],
        Some(1),
    ),
    (
        "the first by a byte, falling",
        Order::Falling,
        &[(0, 0x3000, 0x401)],
        Some(299),
    ),
    (
        "the first by a byte, shuffled",
        Order::Shuffled,
        &[(0, 0x3000, 0x401)],
        Some(280),
    ),
    (
        "the last by a byte, rising",
        Order::Rising,
        &[(298, 0x4d800, 0x401)],
        Some(299),
    ),
    (
        "the last by a byte, falling",
        Order::Falling,
        &[(298, 0x4d800, 0x401)],
        Some(1),
    ),
    (
        "the last by a byte, shuffled",
        Order::Shuffled,
        &[(298, 0x4d800, 0x401)],
        Some(234),
    ),
    (
        "a window's first byte, falling",
        Order::Falling,
        &[(51, 0xfc00, 0x401)],
        Some(248),
    ),
    (
        "a window's first byte, shuffled",
        Order::Shuffled,
        &[(51, 0xfc00, 0x401)],
        Some(230),
    ),
    (
        "a window's last byte, falling",
        Order::Falling,
        &[(52, 0xffff, 0x401)],
        Some(248),
    ),
    (
        "a window's last byte, shuffled",
        Order::Shuffled,
        &[(52, 0xffff, 0x401)],
        Some(230),
    ),
    (
        "across a window's edge",
        Order::Falling,
        &[(51, 0xfc00, 0x800)],
        Some(248),
    ),
    (
        "two, of which the one behind is earlier in the table",
        Order::Falling,
        &[(0, 0x3000, 0x401), (298, 0x4d800, 0x401)],
        Some(1),
    ),
    (
        "two far apart, shuffled",
        Order::Shuffled,
        &[(51, 0xfc00, 0x401), (0, 0x3000, 0x401)],
        Some(230),
    ),
    (
        "one over three windows",
        Order::Falling,
        &[(20, 0x8000, 0x30000)],
        Some(279),
    ),
    (
        "one that leaves the image, behind an overlap",
        Order::Falling,
        &[(0, 0x3000, 0x4b001), (298, 0x4d800, 0x401)],
        Some(1),
    ),
    (
        "one that leaves the image, in front of an overlap",
        Order::Falling,
        &[(0, 0x3000, 0x401), (298, 0x4d800, 0x801)],
        Some(1),
    ),
    (
        "without bytes, in their places",
        Order::Shuffled,
        &[
            (0, 0x3000, 0),
            (51, 0xfc00, 0),
            (52, 0x10000, 0),
            (299, 0x4dc00, 0),
        ],
        None,
    ),
    (
        "without bytes, within others",
        Order::Falling,
        &[(0, 0x4dc01, 0), (51, 0x10001, 0), (299, 0x3001, 0)],
        None,
    ),
    (
        "without bytes, in order",
        Order::Rising,
        &[(7, 0x20001, 0), (51, 0x3000, 0), (299, 0x4e000, 0)],
        None,
    ),
];

/// A block by its number, its size and its entry, which all others have as 10 and 0; where the directory begins; and the place of the
/// image that gets the difference, or nothing where the relocations are refused.
type Relocated = (&'static str, u32, u32, u16, u32, Option<usize>);

/// The blocks have one entry each, so that the size of block 6,553 stands across the 65,536th byte of the directory.
const RELOCATIONS: &[Relocated] = &[
    (
        "a fixup in the first block",
        0,
        10,
        0xa123,
        0x20000,
        Some(0x40123),
    ),
    (
        "a fixup in front of the edge",
        6_552,
        10,
        0xafff,
        0x20000,
        Some(0x40fff),
    ),
    (
        "a fixup at the edge",
        6_553,
        10,
        0xa008,
        0x20000,
        Some(0x40008),
    ),
    (
        "a fixup behind the edge",
        6_554,
        10,
        0xa00c,
        0x20000,
        Some(0x4000c),
    ),
    (
        "a fixup in the last block",
        6_559,
        10,
        0xa7ff,
        0x20000,
        Some(0x407ff),
    ),
    ("an odd size at the edge", 6_553, 11, 0, 0x20000, None),
    (
        "a size at the edge past the end",
        6_553,
        0x10000,
        0,
        0x20000,
        None,
    ),
    ("no kind at the edge", 6_553, 10, 0x5000, 0x20000, None),
    (
        "no kind in the last block",
        6_559,
        10,
        0x5000,
        0x20000,
        None,
    ),
    (
        "an odd begin, a fixup at the edge",
        6_553,
        10,
        0xa008,
        0x20401,
        Some(0x40008),
    ),
    (
        "an odd begin, no kind behind the edge",
        6_554,
        10,
        0x5000,
        0x20401,
        None,
    ),
];

/// How many blocks there are.
const BLOCKS: u32 = 6_560;

/// How far behind the address that it was linked for, which is 0, an image is placed.
const DIFFERENCE: u64 = 0x1234_5678_9abc_def0;

/// Writes bytes at a place.
fn write_at(bytes: &mut [u8], at: usize, written: &[u8]) {
    if at <= bytes.len() && written.len() <= bytes.len() - at {
        bytes[at..at + written.len()].copy_from_slice(written);
    }
}

/// The number of the section of the k-th entry, in the order of places.
fn number(order: Order, k: u32) -> u32 {
    match order {
        Order::Rising => k,
        Order::Falling => (COUNT - 1).saturating_sub(k),
        Order::Shuffled => k.wrapping_mul(137).wrapping_add(41) % COUNT,
    }
}

/// The place and the length of a section.
fn placed(number: u32, changes: &[Change]) -> (u32, u32) {
    for (changed, at, length) in changes {
        if *changed == number {
            return (*at, *length);
        }
    }
    (number.wrapping_mul(0x400).wrapping_add(0x3000), 0x400)
}

/// Writes an entry of the table. What a section has in the file stands where it would lie in the image, had it not been changed.
fn write_entry(bytes: &mut [u8], k: u32, number: u32, changes: &[Change]) {
    let entry = TABLE.wrapping_add((k as usize).wrapping_mul(40));
    let (at, length) = placed(number, changes);
    let raw_size: u32 = if length == 0 { 0 } else { 0x400 };
    let raw = number.wrapping_mul(0x400).wrapping_add(0x3000);
    write_at(bytes, entry.wrapping_add(8), &length.to_le_bytes());
    write_at(bytes, entry.wrapping_add(12), &at.to_le_bytes());
    write_at(bytes, entry.wrapping_add(16), &raw_size.to_le_bytes());
    write_at(bytes, entry.wrapping_add(20), &raw.to_le_bytes());
    write_at(bytes, entry.wrapping_add(36), b"\x20\x00\x00\x60");
}

/// The file of an image of 300 sections.
fn many(alloc: Global, order: Order, changes: &[Change]) -> Result<Vec<u8>, NoMemory> {
    let mut bytes = made(alloc, &HEAD, SIZE, &[])?;
    for k in 0..COUNT {
        write_entry(bytes.as_mut_slice(), k, number(order, k), changes);
    }
    Ok(bytes)
}

/// Writes blocks for the page 40000 one behind another, one of them with another size and another entry, and the directory.
fn write_blocks(bytes: &mut [u8], case: &Relocated) {
    let (_, other, size, entry, base, _) = case;
    write_at(bytes, 0xf0, &base.to_le_bytes());
    write_at(bytes, 0xf4, &65_600u32.to_le_bytes());
    for k in 0..BLOCKS {
        let at = (*base as usize).wrapping_add((k as usize).wrapping_mul(10));
        let (size, entry) = if k == *other {
            (*size, *entry)
        } else {
            (10, 0)
        };
        write_at(bytes, at, &0x40000u32.to_le_bytes());
        write_at(bytes, at.wrapping_add(4), &size.to_le_bytes());
        write_at(bytes, at.wrapping_add(8), &entry.to_le_bytes());
    }
}

/// Whether an image without relocations is refused as it has to be.
fn is_judged(alloc: Global, order: Order, changes: &[Change], entry: &Option<u32>) -> bool {
    let Ok(bytes) = many(alloc, order, changes) else {
        return false;
    };
    match (read(bytes.as_slice()), entry) {
        (Some(Ok(_)), None) => true,
        (Some(Err(found)), Some(k)) => {
            found.at == k.wrapping_mul(40).wrapping_add(0xf8) && found.kind == PeKind::Section
        }
        _ => false,
    }
}

/// Whether an image with this fixup is placed as it has to be: its plain form is its file.
fn is_placed(alloc: Global, bytes: &[u8], at: usize) -> Result<bool, NoMemory> {
    if bytes.len() > MOST_BYTES {
        return Ok(false);
    }
    let Ok(image) = inspect(bytes) else {
        return Ok(false);
    };
    let mut out = filled(alloc, image.size as usize, 0xaa)?;
    if out.len() != image.size as usize {
        return Ok(false);
    }
    place(bytes, &image, DIFFERENCE, out.as_mut_slice());
    let mut wanted = filled(alloc, bytes.len(), 0)?;
    write_at(wanted.as_mut_slice(), 0, bytes);
    write_at(wanted.as_mut_slice(), at, &DIFFERENCE.to_le_bytes());
    Ok(out.as_slice() == wanted.as_slice())
}

/// Whether an image with relocations over sections in falling order is refused, or placed, as it has to be.
fn is_relocated(alloc: Global, case: &Relocated) -> bool {
    let Ok(mut bytes) = many(alloc, Order::Falling, &[]) else {
        return false;
    };
    write_blocks(bytes.as_mut_slice(), case);
    match (read(bytes.as_slice()), case.5) {
        (Some(Ok(_)), Some(at)) => is_placed(alloc, bytes.as_slice(), at) == Ok(true),
        (Some(Err(found)), None) => found.at == 0xf0 && found.kind == PeKind::Reloc,
        _ => false,
    }
}

/// The first image without relocations that is judged otherwise than it has to be.
fn first_misjudged(alloc: Global) -> Option<&'static str> {
    for (name, order, changes, entry) in SECTIONS {
        if !is_judged(alloc, *order, changes, entry) {
            return Some(*name);
        }
    }
    None
}

/// The first image with relocations that is refused, or placed, otherwise than it has to be.
fn first_misplaced(alloc: Global) -> Option<&'static str> {
    for case in RELOCATIONS {
        if !is_relocated(alloc, case) {
            return Some(case.0);
        }
    }
    None
}

#[test]
fn judges_many_sections(rt: HostRuntime) {
    assert_eq!(rt; first_misjudged(rt.alloc()), None);
}

#[test]
fn reads_relocations_over_many_sections(rt: HostRuntime) {
    assert_eq!(rt; first_misplaced(rt.alloc()), None);
}
