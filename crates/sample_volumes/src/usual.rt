//! A usual volume: an extended header in a pad file, a policy, and files of several types, among them two drivers in byte code.
use crate::drivers::{Contents, Driver, NATIVE, SOUND, TRUE, USUAL, volume_with};
use crate::volumes::{Layout, NO_RULES, POLICY_NAME, Part, TEXT, edited};
use mm_base::{Bytes, NoMemory};
use std::alloc::Global;

/// A name with a size of 20 bytes after it, as a volume's extended header has.
const EXTENDED_HEADER: Layout = Layout {
    length: 20,
    pieces: &[(0, b"the volume's own\x14")],
};

/// A pad file around the extended header, the policy, and a file of another type.
const FRONT: &[Part] = &[
    Part {
        name: b"\xff\xff\xff\xff\xff\xff\xff\xff\xff\xff\xff\xff\xff\xff\xff\xff",
        kind: 0xf0,
        attributes: 0,
        off: 0,
        body: &[EXTENDED_HEADER],
    },
    Part {
        name: POLICY_NAME,
        kind: 0x02,
        attributes: 0,
        off: 0,
        body: NO_RULES,
    },
    Part {
        name: b"the core, number",
        kind: 0x0d,
        attributes: 0,
        off: 0,
        body: TEXT,
    },
];

/// A driver for x64, one that is compressed, and two of byte code.
const DRIVERS: &[Driver] = &[
    (b"driver number 01", &[TRUE, NATIVE, USUAL]),
    (
        b"driver number 02",
        &[TRUE, (0x01, Contents::Bytes(b"\0\0\0\0\x01")), USUAL],
    ),
    (b"driver number 03", &[TRUE, SOUND, USUAL]),
    (
        b"driver number 04",
        &[
            (0x1c, Contents::Bytes(b"\x01driver number 03\x08")),
            SOUND,
            USUAL,
        ],
    ),
];

/// A pad file.
const BACK: &[Part] = &[Part {
    name: b"\xff\xff\xff\xff\xff\xff\xff\xff\xff\xff\xff\xff\xff\xff\xff\xff",
    kind: 0xf0,
    attributes: 0,
    off: 0,
    body: TEXT,
}];

/// The usual volume, of 1,488 bytes, whose header tells its extended header.
pub fn usual_volume(alloc: Global) -> Result<Bytes, NoMemory> {
    let plain = volume_with(alloc, FRONT, DRIVERS, BACK)?;
    let length = plain.len();
    let edits = &[(50, b"\xa2\xe7\x60\0" as &[u8])];
    edited(alloc, plain.as_slice(), length, edits)
}
