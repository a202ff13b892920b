//! Images that are read and refused. What is expected was worked out from the rules of the format, apart from this reader.
use crate::samples::{ONE_SECTION, Piece, RELOCATED, Sample, TWO_SECTIONS, made};
use crate::{Image, Part, PeFault, PeKind, inspect, part};
use mm_base::Range;
use std::alloc::Global;

/// The most bytes that are read.
pub(crate) const MOST_BYTES: usize = 16_777_216;

/// The place and the kind of a fault.
type Fault = (u32, PeKind);

/// What is changed of a sample, and the fault that it has then.
type Case = (&'static str, &'static [Piece], Option<Fault>);

/// To how many bytes the image with one section is cut, and its fault.
const CUTS: &[(usize, Fault)] = &[
    (0, (0x0, PeKind::Short)),
    (63, (0x0, PeKind::Short)),
    (64, (0x3c, PeKind::Lfanew)),
    (199, (0x3c, PeKind::Lfanew)),
    (200, (0x54, PeKind::Optional)),
    (239, (0x54, PeKind::Optional)),
    (240, (0x94, PeKind::Headers)),
    (256, (0xc8, PeKind::Section)),
    (335, (0xc8, PeKind::Section)),
];

/// The headers and the entry of the image with one section.
const HEADERS: &[Case] = &[
    ("as it is", &[], None),
    (
        "another DOS signature",
        &[(0x0, b"\0")],
        Some((0x0, PeKind::Mz)),
    ),
    (
        "the PE header at the largest place",
        &[(0x3c, b"\xff\xff\xff\xff")],
        Some((0x3c, PeKind::Lfanew)),
    ),
    (
        "another PE signature",
        &[(0x40, b"\0")],
        Some((0x40, PeKind::Signature)),
    ),
    (
        "a signature with another end",
        &[(0x43, b"\x01")],
        Some((0x40, PeKind::Signature)),
    ),
    (
        "no machine",
        &[(0x44, b"\0\0")],
        Some((0x44, PeKind::Machine)),
    ),
    (
        "the machine of x86",
        &[(0x44, b"\x4c\x01")],
        Some((0x44, PeKind::Machine)),
    ),
    ("PE32", &[(0x58, b"\x0b\x01")], Some((0x58, PeKind::Magic))),
    (
        "a short optional header",
        &[(0x54, b"\x6f")],
        Some((0x54, PeKind::Optional)),
    ),
    (
        "a directory without room",
        &[(0xc4, b"\x01")],
        Some((0x54, PeKind::Optional)),
    ),
    (
        "the most directories",
        &[(0xc4, b"\xff\xff\xff\xff")],
        Some((0x54, PeKind::Optional)),
    ),
    (
        "the most sections",
        &[(0x46, b"\xff\xff")],
        Some((0x54, PeKind::Optional)),
    ),
    (
        "an application",
        &[(0x9c, b"\x0a")],
        Some((0x9c, PeKind::Subsystem)),
    ),
    ("a runtime driver", &[(0x9c, b"\x0c")], None),
    (
        "no byte",
        &[(0x90, b"\0\0\0\0")],
        Some((0x90, PeKind::Size)),
    ),
    ("the most bytes", &[(0x90, b"\0\0\0\x01")], None),
    (
        "one byte more",
        &[(0x90, b"\x01\0\0\x01")],
        Some((0x90, PeKind::Size)),
    ),
    ("headers up to the table's end", &[(0x94, b"\xf0\0")], None),
    (
        "headers that end before it",
        &[(0x94, b"\xef\0")],
        Some((0x94, PeKind::Headers)),
    ),
    (
        "headers that leave the file",
        &[(0x94, b"\x51\x01")],
        Some((0x94, PeKind::Headers)),
    ),
    (
        "headers that leave the image",
        &[(0x90, b"\xff\0")],
        Some((0x94, PeKind::Headers)),
    ),
    (
        "an odd entry",
        &[(0x68, b"\x01\x01")],
        Some((0x68, PeKind::Entry)),
    ),
    (
        "an entry at a section's last two bytes",
        &[(0x68, b"\x4e\x01")],
        None,
    ),
    (
        "an entry behind a section",
        &[(0x68, b"\x50\x01")],
        Some((0x68, PeKind::Entry)),
    ),
    (
        "an entry in the headers",
        &[(0x68, b"\0\0")],
        Some((0x68, PeKind::Entry)),
    ),
    (
        "an entry that isn't executed",
        &[(0xef, b"\x40")],
        Some((0x68, PeKind::Entry)),
    ),
    (
        "native, at the last byte",
        &[(0x44, b"\x64\x86"), (0x68, b"\x5f\x01")],
        None,
    ),
    (
        "native, behind the image",
        &[(0x44, b"\x64\xaa"), (0x68, b"\x60\x01")],
        Some((0x68, PeKind::Entry)),
    ),
];

/// The sections of the image with two.
const SECTIONS: &[Case] = &[
    ("as they are, which touch", &[], None),
    (
        "one byte in both",
        &[(0xfc, b"\x5f\x01")],
        Some((0xf0, PeKind::Section)),
    ),
    (
        "one byte in both, the later in front",
        &[(0xd4, b"\x9f\x01")],
        Some((0xf0, PeKind::Section)),
    ),
    (
        "another order",
        &[(0xd4, b"\x60"), (0xfc, b"\x20"), (0x68, b"\x60")],
        None,
    ),
    (
        "an empty one in another",
        &[(0xf8, b"\0"), (0xfc, b"\x30"), (0x100, b"\0")],
        None,
    ),
    (
        "an empty one at the headers' end",
        &[(0xf8, b"\0"), (0xfc, b"\x20"), (0x100, b"\0")],
        None,
    ),
    (
        "an empty one in the headers",
        &[(0xf8, b"\0"), (0xfc, b"\x1f"), (0x100, b"\0")],
        Some((0xf0, PeKind::Section)),
    ),
    (
        "an empty one at the image's end",
        &[(0xf8, b"\0"), (0xfc, b"\0\x02"), (0x100, b"\0")],
        None,
    ),
    (
        "an empty one behind the image",
        &[(0xf8, b"\0"), (0xfc, b"\x01\x02"), (0x100, b"\0")],
        Some((0xf0, PeKind::Section)),
    ),
    ("one at the image's end", &[(0xfc, b"\xc0")], None),
    (
        "one that leaves the image",
        &[(0xfc, b"\xc1")],
        Some((0xf0, PeKind::Section)),
    ),
    (
        "the largest size",
        &[(0xf8, b"\xff\xff\xff\xff")],
        Some((0xf0, PeKind::Section)),
    ),
    ("no virtual size", &[(0xf8, b"\0")], None),
    (
        "one that leaves the file",
        &[(0x104, b"\xc1")],
        Some((0xf0, PeKind::Section)),
    ),
    (
        "one that leaves it by what isn't copied",
        &[(0xf8, b"\x20"), (0x104, b"\xe0")],
        None,
    ),
    (
        "a pointer that isn't judged",
        &[(0x100, b"\0"), (0x104, b"\xff\xff\xff\xff")],
        None,
    ),
    (
        "an entry behind what is copied",
        &[(0xd8, b"\x20"), (0x68, b"\x50")],
        None,
    ),
    (
        "an entry into the next section",
        &[(0xd0, b"\x3f"), (0x68, b"\x5e"), (0x114, b"\0\0\0\x60")],
        Some((0x68, PeKind::Entry)),
    ),
];

/// The relocations of the image that has some.
const RELOCATIONS: &[Case] = &[
    ("as they are", &[], None),
    (
        "only five directories",
        &[(0xc4, b"\x05"), (0xf0, b"\xff\xff\xff\xff")],
        None,
    ),
    (
        "a directory of no byte",
        &[(0xf0, b"\xff\xff\xff\xff\0")],
        None,
    ),
    ("at the image's end", &[(0xf0, b"\xf4\x02")], None),
    (
        "leaving the image",
        &[(0xf0, b"\xf5\x02")],
        Some((0xf0, PeKind::Reloc)),
    ),
    (
        "the largest place and size",
        &[(0xf0, b"\xff\xff\xff\xff\xff\xff\xff\xff")],
        Some((0xf0, PeKind::Reloc)),
    ),
    (
        "1 at the image's end",
        &[(0xf0, b"\xff\x02\x00\x00\x01\x00\x00\x00")],
        None,
    ),
    (
        "2 at the image's end",
        &[(0xf0, b"\xfe\x02\x00\x00\x02\x00\x00\x00")],
        None,
    ),
    (
        "3 at the image's end",
        &[(0xf0, b"\xfd\x02\x00\x00\x03\x00\x00\x00")],
        None,
    ),
    (
        "4 at the image's end",
        &[(0xf0, b"\xfc\x02\x00\x00\x04\x00\x00\x00")],
        None,
    ),
    (
        "5 at the image's end",
        &[(0xf0, b"\xfb\x02\x00\x00\x05\x00\x00\x00")],
        None,
    ),
    (
        "6 at the image's end",
        &[(0xf0, b"\xfa\x02\x00\x00\x06\x00\x00\x00")],
        None,
    ),
    (
        "7 at the image's end",
        &[(0xf0, b"\xf9\x02\x00\x00\x07\x00\x00\x00")],
        None,
    ),
    (
        "1 behind the image",
        &[(0xf0, b"\x00\x03\x00\x00\x01\x00\x00\x00")],
        Some((0xf0, PeKind::Reloc)),
    ),
    (
        "7 leaving the image",
        &[(0xf0, b"\xfa\x02\x00\x00\x07\x00\x00\x00")],
        Some((0xf0, PeKind::Reloc)),
    ),
    (
        "a block of 7 bytes",
        &[(0x204, b"\x07")],
        Some((0xf0, PeKind::Reloc)),
    ),
    ("a block of 8 bytes, and 4 left", &[(0x204, b"\x08")], None),
    (
        "a block of 9 bytes",
        &[(0x204, b"\x09")],
        Some((0xf0, PeKind::Reloc)),
    ),
    (
        "a block that leads past the end",
        &[(0x204, b"\x0e")],
        Some((0xf0, PeKind::Reloc)),
    ),
    (
        "the largest block",
        &[(0x204, b"\xfe\xff\xff\xff")],
        Some((0xf0, PeKind::Reloc)),
    ),
    (
        "size 0, and what isn't read",
        &[(0x204, b"\0\0\0\0\xff\xff")],
        None,
    ),
    (
        "a second block that is wrong",
        &[(0xf4, b"\x14"), (0x210, b"\x09")],
        Some((0xf0, PeKind::Reloc)),
    ),
    ("a second block of size 0", &[(0xf4, b"\x14")], None),
    (
        "type 4",
        &[(0x208, b"\xa0\x40")],
        Some((0xf0, PeKind::Reloc)),
    ),
    (
        "type 9",
        &[(0x208, b"\xa0\x90")],
        Some((0xf0, PeKind::Reloc)),
    ),
    (
        "type 15",
        &[(0x208, b"\xa0\xf0")],
        Some((0xf0, PeKind::Reloc)),
    ),
    (
        "type 0 at any place",
        &[(0x200, b"\xff\xff\xff\xff"), (0x208, b"\xff\x0f")],
        None,
    ),
    ("64 bits at the image's end", &[(0x208, b"\xf8\xa1")], None),
    (
        "64 bits leaving the image",
        &[(0x208, b"\xf9\xa1")],
        Some((0xf0, PeKind::Reloc)),
    ),
    (
        "the largest page",
        &[(0x200, b"\xff\xff\xff\xff")],
        Some((0xf0, PeKind::Reloc)),
    ),
    (
        "64 bits in front of the directory",
        &[(0x208, b"\x58\xa1")],
        None,
    ),
    (
        "64 bits that touch its first byte",
        &[(0x208, b"\x59\xa1")],
        Some((0xf0, PeKind::Reloc)),
    ),
    (
        "32 bits that touch it",
        &[(0x208, b"\x5d\x31")],
        Some((0xf0, PeKind::Reloc)),
    ),
    ("16 bits in front of it", &[(0x208, b"\x5e\x21")], None),
    (
        "16 bits that touch its last byte",
        &[(0x208, b"\x6b\x11")],
        Some((0xf0, PeKind::Reloc)),
    ),
    ("16 bits behind it", &[(0x208, b"\x6c\x11")], None),
];

/// What is read of bytes that aren't too many.
pub(crate) fn read(bytes: &[u8]) -> Option<Result<Image, PeFault>> {
    if bytes.len() > MOST_BYTES {
        return None;
    }
    Some(inspect(bytes))
}

/// Whether a sample has this fault once it is changed.
fn is_right(
    alloc: Global,
    sample: &Sample,
    length: usize,
    edits: &[Piece],
    fault: &Option<Fault>,
) -> bool {
    let Ok(bytes) = made(alloc, sample, length, edits) else {
        return false;
    };
    match (read(bytes.as_slice()), fault) {
        (Some(Ok(_)), None) => true,
        (Some(Err(found)), Some((at, kind))) => found.at == *at && found.kind == *kind,
        _ => false,
    }
}

/// The first case of a sample that is read otherwise than it has to be.
fn first_wrong(alloc: Global, sample: &Sample, cases: &[Case]) -> Option<&'static str> {
    for (name, edits, fault) in cases {
        if !is_right(alloc, sample, sample.length, edits, fault) {
            return Some(*name);
        }
    }
    None
}

/// The first cut that has another fault.
fn first_wrong_cut(alloc: Global) -> Option<usize> {
    for (length, fault) in CUTS {
        if !is_right(alloc, &ONE_SECTION, *length, &[], &Some(*fault)) {
            return Some(*length);
        }
    }
    None
}

/// A section of the image of these bytes.
fn part_of(bytes: &[u8], k: u16) -> Option<Part> {
    if bytes.len() > MOST_BYTES {
        return None;
    }
    let image = inspect(bytes).ok()?;
    if k < image.parts {
        Some(part(bytes, &image, k))
    } else {
        None
    }
}

/// Whether the headers of the image with relocations, and its section, say what they have to.
fn says_so(alloc: Global) -> bool {
    let Ok(bytes) = made(alloc, &RELOCATED, RELOCATED.length, &[]) else {
        return false;
    };
    let image = Image {
        machine: 0x0ebc,
        entry: 0x180,
        base: 0x1000,
        size: 0x300,
        headers: 0x120,
        parts: 1,
        table: 0xf8,
        relocs: Range {
            base: 0x260,
            length: 12,
        },
    };
    let section = Part {
        at: 0x180,
        length: 0x100,
        raw: 0x120,
        copied: 0x100,
        rights: 7,
    };
    read(bytes.as_slice()) == Some(Ok(image)) && part_of(bytes.as_slice(), 0) == Some(section)
}

/// Whether a section with less in the file than its length, which may be read and written, is told so.
fn tells_part(alloc: Global) -> bool {
    let Ok(bytes) = made(
        alloc,
        &TWO_SECTIONS,
        TWO_SECTIONS.length,
        &[(0x100, b"\x10")],
    ) else {
        return false;
    };
    let section = Part {
        at: 0x160,
        length: 0x40,
        raw: 0x160,
        copied: 0x10,
        rights: 3,
    };
    part_of(bytes.as_slice(), 1) == Some(section)
}

#[test]
fn refuses_cut_images(rt: HostRuntime) {
    assert_eq!(rt; first_wrong_cut(rt.alloc()), None);
}

#[test]
fn checks_headers(rt: HostRuntime) {
    assert_eq!(rt; first_wrong(rt.alloc(), &ONE_SECTION, HEADERS), None);
}

#[test]
fn checks_sections(rt: HostRuntime) {
    assert_eq!(rt; first_wrong(rt.alloc(), &TWO_SECTIONS, SECTIONS), None);
}

#[test]
fn checks_relocations(rt: HostRuntime) {
    assert_eq!(rt; first_wrong(rt.alloc(), &RELOCATED, RELOCATIONS), None);
}

#[test]
fn tells_images(rt: HostRuntime) {
    assert!(rt; says_so(rt.alloc()));
}

#[test]
fn tells_parts(rt: HostRuntime) {
    assert!(rt; tells_part(rt.alloc()));
}
