//! Volumes that are read and refused. What is expected was worked out from the rules of volumes, apart from this reader.
use crate::{File, Volume, VolumeEnd, VolumeKind, read_volume};
use mm_base::{End, NoMemory};
use std::alloc::Global;

/// The most bytes that the reader takes.
const MOST_BYTES: usize = 16_777_216;

/// Bytes and the place that they are written to.
type Piece = (usize, &'static [u8]);

/// A file by its place, its type, its size, the place and the length of its body, and whether this is sound.
type Row = (u32, u8, u32, u32, u32, bool);

/// So many bytes, 0 but for these pieces, and the files or the fault that they have.
struct Case {
    name: &'static str,
    length: usize,
    base: &'static [Piece],
    edits: &'static [Piece],
    files: Result<&'static [Row], (u32, VolumeKind)>,
}

/// A volume of 72 bytes without files.
const EMPTY: &[Piece] = &[
    (
        16,
        b"\x78\xe5\x8c\x8c\x3d\x8a\x1c\x4f\x99\x35\x89\x61\x85\xc3\x2d\xd3\x48",
    ),
    (
        40,
        b"\x5f\x46\x56\x48\0\x08\0\0\x48\0\x41\xed\0\0\0\x02\x01\0\0\0\x48",
    ),
];

/// A volume of 448 bytes with one file.
const ONE_FILE: &[Piece] = &[
    (
        16,
        b"\x78\xe5\x8c\x8c\x3d\x8a\x1c\x4f\x99\x35\x89\x61\x85\xc3\x2d\xd3\xc0\x01",
    ),
    (
        40,
        b"\x5f\x46\x56\x48\0\x08\0\0\x48\0\x51\xea\0\0\0\x02\x01\0\0\0\xc0\x01",
    ),
    (72, b"\xaa\xaa\xaa\xaa"),
    (
        87,
        b"\x01\xd4\xaa\x0e\0\x74\x01\0\xf8\x06\0\0\x1c\x06\x08\0\0\x54\x01\0\x10",
    ),
    (444, b"\xff\xff\xff\xff"),
];

/// The sample volumes, cut and damaged.
const SAMPLES: &[Case] = &[
    Case {
        name: "a volume without files",
        length: 72,
        base: EMPTY,
        edits: &[],
        files: Ok(&[]),
    },
    Case {
        name: "a volume with one file",
        length: 448,
        base: ONE_FILE,
        edits: &[],
        files: Ok(&[(72, 14, 372, 96, 348, true)]),
    },
    Case {
        name: "bytes past the volume are not read",
        length: 500,
        base: ONE_FILE,
        edits: &[(
            448,
            b"\xff\xff\xff\xff\xff\xff\xff\xff\xff\xff\xff\xff\xff\xff\xff\xff\xff\xff\xff\xff",
        )],
        files: Ok(&[(72, 14, 372, 96, 348, true)]),
    },
    Case {
        name: "cut to 0 bytes",
        length: 0,
        base: ONE_FILE,
        edits: &[],
        files: Err((0, VolumeKind::Short)),
    },
    Case {
        name: "cut to 63 bytes",
        length: 63,
        base: ONE_FILE,
        edits: &[],
        files: Err((0, VolumeKind::Short)),
    },
    Case {
        name: "cut to 71 bytes",
        length: 71,
        base: ONE_FILE,
        edits: &[],
        files: Err((48, VolumeKind::HeaderLength)),
    },
    Case {
        name: "cut to 72 bytes",
        length: 72,
        base: ONE_FILE,
        edits: &[],
        files: Err((32, VolumeKind::Length)),
    },
    Case {
        name: "cut to 447 bytes",
        length: 447,
        base: ONE_FILE,
        edits: &[],
        files: Err((32, VolumeKind::Length)),
    },
    Case {
        name: "another signature",
        length: 448,
        base: ONE_FILE,
        edits: &[(40, b"\0")],
        files: Err((40, VolumeKind::Signature)),
    },
    Case {
        name: "another header checksum",
        length: 448,
        base: ONE_FILE,
        edits: &[(50, b"\0")],
        files: Err((50, VolumeKind::HeaderSum)),
    },
    Case {
        name: "another file header checksum",
        length: 448,
        base: ONE_FILE,
        edits: &[(88, b"\0")],
        files: Err((72, VolumeKind::FileSum)),
    },
];

/// Volume headers.
const HEADERS: &[Case] = &[
    Case {
        name: "a header of 62 bytes",
        length: 448,
        base: ONE_FILE,
        edits: &[(48, b"\x3e\0\x5b")],
        files: Err((48, VolumeKind::HeaderLength)),
    },
    Case {
        name: "an odd header",
        length: 448,
        base: ONE_FILE,
        edits: &[(48, b"\x49\0\x50")],
        files: Err((48, VolumeKind::HeaderLength)),
    },
    Case {
        name: "a header longer than what there is",
        length: 448,
        base: ONE_FILE,
        edits: &[(48, b"\xc2\x01\xd7\xe8")],
        files: Err((48, VolumeKind::HeaderLength)),
    },
    Case {
        name: "a signature goes before a header's length",
        length: 448,
        base: ONE_FILE,
        edits: &[(43, b"\x58"), (48, b"\x3e\0\x5b\xda")],
        files: Err((40, VolumeKind::Signature)),
    },
    Case {
        name: "revision 1",
        length: 448,
        base: ONE_FILE,
        edits: &[(51, b"\xeb\0\0\0\x01")],
        files: Err((55, VolumeKind::Revision)),
    },
    Case {
        name: "an unknown file system",
        length: 448,
        base: ONE_FILE,
        edits: &[(16, b"\0\0\0\0\0\0\0\0\0\0\0\0\0\0\0\0"), (50, b"\x82\x63")],
        files: Err((16, VolumeKind::FileSystem)),
    },
    Case {
        name: "a revision goes before a file system",
        length: 448,
        base: ONE_FILE,
        edits: &[
            (16, b"\0\0\0\0\0\0\0\0\0\0\0\0\0\0\0\0"),
            (50, b"\x82\x62\0\0\0\x03"),
        ],
        files: Err((55, VolumeKind::Revision)),
    },
    Case {
        name: "a volume shorter than its header",
        length: 448,
        base: ONE_FILE,
        edits: &[(32, b"\x47\0"), (50, b"\x43\xed"), (60, b"\x47\0")],
        files: Err((32, VolumeKind::Length)),
    },
    Case {
        name: "a volume of 2^63 bytes",
        length: 448,
        base: ONE_FILE,
        edits: &[
            (32, b"\0\0"),
            (39, b"\x80"),
            (50, b"\xd0\x6d"),
            (60, b"\x01\0"),
        ],
        files: Err((32, VolumeKind::Length)),
    },
    Case {
        name: "an extended header at the volume's end",
        length: 448,
        base: ONE_FILE,
        edits: &[(50, b"\x91\xe8\xc0\x01")],
        files: Err((52, VolumeKind::ExtHeader)),
    },
    Case {
        name: "an extended header with 19 bytes of room",
        length: 448,
        base: ONE_FILE,
        edits: &[(50, b"\xa4\xe8\xad\x01")],
        files: Err((52, VolumeKind::ExtHeader)),
    },
    Case {
        name: "an extended header of 19 bytes",
        length: 448,
        base: ONE_FILE,
        edits: &[(50, b"\x89\xe9\xc8"), (216, b"\x13")],
        files: Err((52, VolumeKind::ExtHeader)),
    },
    Case {
        name: "an extended header that leads past the end",
        length: 448,
        base: ONE_FILE,
        edits: &[(50, b"\x89\xe9\xc8"), (216, b"\xf9")],
        files: Err((52, VolumeKind::ExtHeader)),
    },
    Case {
        name: "a header of 80 bytes",
        length: 80,
        base: EMPTY,
        edits: &[
            (32, b"\x50"),
            (48, b"\x50\0\xf5\xda"),
            (60, b"\x50"),
            (72, b"\x34\x12"),
        ],
        files: Ok(&[]),
    },
    Case {
        name: "an extended header that ends with the volume",
        length: 100,
        base: EMPTY,
        edits: &[
            (32, b"\x64"),
            (50, b"\xc1\xec\x48"),
            (60, b"\x64"),
            (88, b"\x1c"),
        ],
        files: Ok(&[]),
    },
];

/// What stands at places.
const PLACES: &[Case] = &[
    Case {
        name: "a file behind an extended header",
        length: 128,
        base: EMPTY,
        edits: &[
            (32, b"\x80"),
            (50, b"\x89\xec\x48"),
            (60, b"\x80"),
            (88, b"\x1d"),
            (104, b"\xaa\xaa\xaa\xaa"),
            (119, b"\x01\x31\xaa\x0e\0\x18\0\0\xf8"),
        ],
        files: Ok(&[(104, 14, 24, 128, 0, true)]),
    },
    Case {
        name: "24 bytes are a file's header",
        length: 96,
        base: EMPTY,
        edits: &[
            (32, b"\x60"),
            (50, b"\x11"),
            (60, b"\x60"),
            (72, b"\xaa\xaa\xaa\xaa"),
            (87, b"\x01\x31\xaa\x0e\0\x18\0\0\xf8"),
        ],
        files: Ok(&[(72, 14, 24, 96, 0, true)]),
    },
    Case {
        name: "23 bytes are none",
        length: 95,
        base: EMPTY,
        edits: &[
            (32, b"\x5f"),
            (50, b"\x13"),
            (60, b"\x5f"),
            (72, b"\xaa\xaa\xaa\xaa"),
            (87, b"\x01\x31\xaa\x0e\0\x18\0\0\xf8"),
        ],
        files: Ok(&[]),
    },
    Case {
        name: "what is erased reads as zeros",
        length: 448,
        base: ONE_FILE,
        edits: &[(45, b"\0"), (51, b"\xf2"), (95, b"\x07")],
        files: Ok(&[(72, 14, 372, 96, 348, true)]),
    },
    Case {
        name: "an invalid header by its state, where what is erased reads as zeros",
        length: 448,
        base: ONE_FILE,
        edits: &[(45, b"\0"), (51, b"\xf2")],
        files: Ok(&[]),
    },
    Case {
        name: "erased bytes are no file",
        length: 448,
        base: ONE_FILE,
        edits: &[(
            72,
            b"\xff\xff\xff\xff\xff\xff\xff\xff\xff\xff\xff\xff\xff\xff\xff\xff\xff\xff\xff\xff\xff\xff\xff\xff",
        )],
        files: Ok(&[]),
    },
    Case {
        name: "deleted files, invalid headers and files without data between files",
        length: 200,
        base: EMPTY,
        edits: &[
            (32, b"\xc8"),
            (51, b"\xec"),
            (60, b"\xc8"),
            (72, b"\xaa\xaa\xaa\xaa"),
            (87, b"\x01\x30\xaa\x0e\0\x19\0\0\xe0"),
            (104, b"\xaa\xaa\xaa\xaa"),
            (119, b"\x01\x01\xaa\x0e\0\x18\0\0\xc0\xaa\xaa\xaa\xaa"),
            (143, b"\x01\x37\xaa\x02\0\x1e\0\0\xf0"),
            (160, b"\xaa\xaa\xaa\xaa"),
            (175, b"\x01\x31\xaa\x0e\0\x18\0\0\xfc"),
        ],
        files: Ok(&[(128, 2, 30, 152, 6, true)]),
    },
    Case {
        name: "a file behind a pad file",
        length: 120,
        base: EMPTY,
        edits: &[
            (32, b"\x78"),
            (50, b"\xe1\xec"),
            (60, b"\x78"),
            (72, b"\xaa\xaa\xaa\xaa"),
            (87, b"\x01\x4f\0\xf0\0\x18\0\0\xf8\xaa\xaa\xaa\xaa"),
            (111, b"\x01\x31\xaa\x0e\0\x18\0\0\xf8"),
        ],
        files: Ok(&[(72, 240, 24, 96, 0, true), (96, 14, 24, 120, 0, true)]),
    },
    Case {
        name: "a header under construction is passed over, whatever its size",
        length: 144,
        base: EMPTY,
        edits: &[
            (32, b"\x90"),
            (50, b"\xb1\xec"),
            (60, b"\x90"),
            (72, b"\xaa\xaa\xaa\xaa"),
            (87, b"\x01\x07\xaa\x0e\0\x28\x23\0\xfe\xaa\xaa\xaa\xaa"),
            (111, b"\x01\x19\xaa\x0e\0\x30\0\0\xf8"),
        ],
        files: Ok(&[(96, 14, 48, 120, 24, true)]),
    },
    Case {
        name: "a file that ends with the volume",
        length: 448,
        base: ONE_FILE,
        edits: &[(88, b"\xd0\xaa\x0e\0\x78")],
        files: Ok(&[(72, 14, 376, 96, 352, true)]),
    },
    Case {
        name: "a file that ends one byte behind it",
        length: 448,
        base: ONE_FILE,
        edits: &[(88, b"\xcf\xaa\x0e\0\x79")],
        files: Err((72, VolumeKind::FileSize)),
    },
    Case {
        name: "a size below the header's",
        length: 448,
        base: ONE_FILE,
        edits: &[(88, b"\x32\xaa\x0e\0\x17\0")],
        files: Err((72, VolumeKind::FileSize)),
    },
    Case {
        name: "a large file in FFS2",
        length: 448,
        base: ONE_FILE,
        edits: &[(88, b"\xd3\xaa\x0e\x01")],
        files: Err((72, VolumeKind::FileSize)),
    },
    Case {
        name: "a sum goes before a size",
        length: 448,
        base: ONE_FILE,
        edits: &[(88, b"\0\xaa\x0e\0\x17\0")],
        files: Err((72, VolumeKind::FileSum)),
    },
    Case {
        name: "the second file's fault is at its place",
        length: 448,
        base: ONE_FILE,
        edits: &[
            (88, b"\x21\xaa\x0e\0\x28\0"),
            (112, b"\xaa\xaa\xaa\xaa"),
            (127, b"\x01\0\xaa\x0e\0\x18\0\0\xf8"),
        ],
        files: Err((112, VolumeKind::FileSum)),
    },
    Case {
        name: "a deleted file's size is asked for too",
        length: 448,
        base: ONE_FILE,
        edits: &[(88, b"\x32\xaa\x0e\0\x17\0\0\xef")],
        files: Err((72, VolumeKind::FileSize)),
    },
    Case {
        name: "a large file",
        length: 128,
        base: EMPTY,
        edits: &[
            (
                16,
                b"\x7a\xc0\x73\x54\xcb\x3d\xca\x4d\xbd\x6f\x1e\x96\x89\xe7\x34\x9a\x80",
            ),
            (50, b"\xe8\x3d"),
            (60, b"\x80"),
            (72, b"\xaa\xaa\xaa\xaa"),
            (87, b"\x01\x23\xaa\x0e\x01\xff\xff\xff\xf8\x28"),
        ],
        files: Ok(&[(72, 14, 40, 104, 8, true)]),
    },
    Case {
        name: "a small file in FFS3",
        length: 128,
        base: EMPTY,
        edits: &[
            (
                16,
                b"\x7a\xc0\x73\x54\xcb\x3d\xca\x4d\xbd\x6f\x1e\x96\x89\xe7\x34\x9a\x80",
            ),
            (50, b"\xe8\x3d"),
            (60, b"\x80"),
            (72, b"\xaa\xaa\xaa\xaa"),
            (87, b"\x01\x11\xaa\x0e\0\x38\0\0\xf8"),
        ],
        files: Ok(&[(72, 14, 56, 96, 32, true)]),
    },
    Case {
        name: "a large file without room for its header",
        length: 103,
        base: EMPTY,
        edits: &[
            (
                16,
                b"\x7a\xc0\x73\x54\xcb\x3d\xca\x4d\xbd\x6f\x1e\x96\x89\xe7\x34\x9a\x67",
            ),
            (50, b"\x1a\x3e"),
            (60, b"\x67"),
            (72, b"\xaa\xaa\xaa\xaa"),
            (87, b"\x01\x30\xaa\x0e\x01\x18\0\0\xf8"),
        ],
        files: Err((72, VolumeKind::FileSize)),
    },
    Case {
        name: "a large file of 31 bytes",
        length: 128,
        base: EMPTY,
        edits: &[
            (
                16,
                b"\x7a\xc0\x73\x54\xcb\x3d\xca\x4d\xbd\x6f\x1e\x96\x89\xe7\x34\x9a\x80",
            ),
            (50, b"\xe8\x3d"),
            (60, b"\x80"),
            (72, b"\xaa\xaa\xaa\xaa"),
            (87, b"\x01\x29\xaa\x0e\x01\0\0\0\xf8\x1f"),
        ],
        files: Err((72, VolumeKind::FileSize)),
    },
    Case {
        name: "a large file of nearly 2^64 bytes",
        length: 128,
        base: EMPTY,
        edits: &[
            (
                16,
                b"\x7a\xc0\x73\x54\xcb\x3d\xca\x4d\xbd\x6f\x1e\x96\x89\xe7\x34\x9a\x80",
            ),
            (50, b"\xe8\x3d"),
            (60, b"\x80"),
            (72, b"\xaa\xaa\xaa\xaa"),
            (
                87,
                b"\x01\x57\xaa\x0e\x01\0\0\0\xf8\xf8\xff\xff\xff\xff\xff\xff\xff",
            ),
        ],
        files: Err((72, VolumeKind::FileSize)),
    },
];

/// Bodies and their checksums.
const BODIES: &[Case] = &[
    Case {
        name: "a body with a checksum",
        length: 104,
        base: EMPTY,
        edits: &[
            (32, b"\x68"),
            (50, b"\x01"),
            (60, b"\x68"),
            (72, b"\xaa\xaa\xaa\xaa"),
            (87, b"\x01\xed\x0a\x0e\x40\x1c\0\0\xf8\x01\x02\x03\xf0"),
        ],
        files: Ok(&[(72, 14, 28, 96, 4, true)]),
    },
    Case {
        name: "a body with a wrong checksum",
        length: 104,
        base: EMPTY,
        edits: &[
            (32, b"\x68"),
            (50, b"\x01"),
            (60, b"\x68"),
            (72, b"\xaa\xaa\xaa\xaa"),
            (87, b"\x01\xed\xaa\x0e\x40\x1c\0\0\xf8\x01\x02\x03\xf0"),
        ],
        files: Ok(&[(72, 14, 28, 96, 4, false)]),
    },
    Case {
        name: "a body that sums up to 0 by itself",
        length: 104,
        base: EMPTY,
        edits: &[
            (32, b"\x68"),
            (50, b"\x01"),
            (60, b"\x68"),
            (72, b"\xaa\xaa\xaa\xaa"),
            (87, b"\x01\xed\xaa\x0e\x40\x1c\0\0\xf8\x01\x02\x03\xfa"),
        ],
        files: Ok(&[(72, 14, 28, 96, 4, false)]),
    },
    Case {
        name: "a body without a checksum",
        length: 104,
        base: EMPTY,
        edits: &[
            (32, b"\x68"),
            (50, b"\x01"),
            (60, b"\x68"),
            (72, b"\xaa\xaa\xaa\xaa"),
            (87, b"\x01\x2d\xaa\x0e\0\x1c\0\0\xf8\x01\x02\x03\xf0"),
        ],
        files: Ok(&[(72, 14, 28, 96, 4, true)]),
    },
    Case {
        name: "a file checksum where there is none",
        length: 104,
        base: EMPTY,
        edits: &[
            (32, b"\x68"),
            (50, b"\x01"),
            (60, b"\x68"),
            (72, b"\xaa\xaa\xaa\xaa"),
            (87, b"\x01\x2d\xab\x0e\0\x1c\0\0\xf8\x01\x02\x03\xf0"),
        ],
        files: Ok(&[(72, 14, 28, 96, 4, false)]),
    },
    Case {
        name: "a pad file",
        length: 104,
        base: EMPTY,
        edits: &[
            (32, b"\x68"),
            (50, b"\x01"),
            (60, b"\x68"),
            (72, b"\xaa\xaa\xaa\xaa"),
            (87, b"\x01\x4b\0\xf0\0\x1c\0\0\xf8\x01\x02\x03\xf0"),
        ],
        files: Ok(&[(72, 240, 28, 96, 4, true)]),
    },
];

/// Writes a piece, as far as there are bytes.
fn write(bytes: &mut [u8], piece: &Piece) {
    let (at, written) = piece;
    for (byte, value) in bytes.iter_mut().skip(*at).zip(*written) {
        *byte = *value;
    }
}

/// The bytes of a case.
fn made(alloc: Global, case: &Case) -> Result<Vec<u8>, NoMemory> {
    let mut bytes = Vec::new(alloc);
    for _ in 0..case.length {
        bytes.push(0)?;
    }
    for piece in case.base {
        write(bytes.as_mut_slice(), piece);
    }
    for piece in case.edits {
        write(bytes.as_mut_slice(), piece);
    }
    Ok(bytes)
}

/// What is read of bytes, unless they are too many.
fn read(alloc: Global, bytes: &[u8]) -> Option<Result<Volume, VolumeEnd>> {
    if bytes.len() > MOST_BYTES {
        return None;
    }
    Some(read_volume(alloc, bytes))
}

fn is_row(file: &File, row: &Row) -> bool {
    (
        file.at,
        file.kind,
        file.size,
        file.body_at,
        file.body,
        file.sound,
    ) == *row
}

fn has_rows(volume: &Volume, rows: &[Row]) -> bool {
    let files = volume.files.as_slice();
    files.len() == rows.len() && files.iter().zip(rows).all(|(file, row)| is_row(file, row))
}

fn is_right(alloc: Global, case: &Case) -> bool {
    let Ok(bytes) = made(alloc, case) else {
        return false;
    };
    match (read(alloc, bytes.as_slice()), &case.files) {
        (Some(Ok(volume)), Ok(rows)) => has_rows(&volume, rows),
        (Some(Err(End::Fault(fault))), Err((at, kind))) => fault.at == *at && fault.kind == *kind,
        _ => false,
    }
}

/// The first case that is read otherwise than it has to be.
fn first_wrong(alloc: Global, cases: &[Case]) -> Option<&'static str> {
    cases
        .iter()
        .find(|case| !is_right(alloc, case))
        .map(|case| case.name)
}

#[test]
fn reads_sample_volumes(rt: HostRuntime) {
    assert_eq!(rt; first_wrong(rt.alloc(), SAMPLES), None);
}

#[test]
fn checks_headers_in_order(rt: HostRuntime) {
    assert_eq!(rt; first_wrong(rt.alloc(), HEADERS), None);
}

#[test]
fn finds_files_at_their_places(rt: HostRuntime) {
    assert_eq!(rt; first_wrong(rt.alloc(), PLACES), None);
}

#[test]
fn tells_sound_bodies(rt: HostRuntime) {
    assert_eq!(rt; first_wrong(rt.alloc(), BODIES), None);
}
