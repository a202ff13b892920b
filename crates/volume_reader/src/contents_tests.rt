//! What sections tell together. What is expected was worked out from the rules of sections, apart from this reader.
use crate::{Contents, File, Section, contents};
use mm_base::Guid;

/// The most bytes that the reader takes.
const MOST_BYTES: usize = 16_777_216;

/// What no section tells.
const NOTHING: Contents = Contents {
    compressed: false,
    guid_defined: false,
    image: None,
    depex: None,
};

/// Bytes, the place where the body begins in them, and what its sections tell, or the place of the fault.
struct Case {
    name: &'static str,
    bytes: &'static [u8],
    body_at: u32,
    contents: Result<Contents, u32>,
}

const CASES: &[Case] = &[
    Case {
        name: "no sections",
        bytes: b"",
        body_at: 0,
        contents: Ok(NOTHING),
    },
    Case {
        name: "an image behind an expression, counted from the front of the bytes",
        bytes: b"\0\0\0\0\x06\0\0\x1c\x06\x08\0\0\x05\0\0\x10\x01",
        body_at: 4,
        contents: Ok(Contents {
            compressed: false,
            guid_defined: false,
            image: Some(Section {
                kind: 0x10,
                at: 16,
                length: 1,
            }),
            depex: Some(Section {
                kind: 0x1c,
                at: 8,
                length: 2,
            }),
        }),
    },
    Case {
        name: "the first of two images and of two expressions",
        bytes: b"\x04\0\0\x10\x04\0\0\x1c\x05\0\0\x10\x02\0\0\0\x05\0\0\x1c\x08",
        body_at: 0,
        contents: Ok(Contents {
            compressed: false,
            guid_defined: false,
            image: Some(Section {
                kind: 0x10,
                at: 4,
                length: 0,
            }),
            depex: Some(Section {
                kind: 0x1c,
                at: 8,
                length: 0,
            }),
        }),
    },
    Case {
        name: "a compressed section behind a raw one",
        bytes: b"\x04\0\0\x19\x04\0\0\x01",
        body_at: 0,
        contents: Ok(Contents {
            compressed: true,
            guid_defined: false,
            image: None,
            depex: None,
        }),
    },
    Case {
        name: "a section that a GUID defines, in front of a raw one",
        bytes: b"\x04\0\0\x02\x04\0\0\x19",
        body_at: 0,
        contents: Ok(Contents {
            compressed: false,
            guid_defined: true,
            image: None,
            depex: None,
        }),
    },
    Case {
        name: "sections of other types",
        bytes: b"\x04\0\0\x11\x04\0\0\x12\x04\0\0\x13\x04\0\0\x1b",
        body_at: 0,
        contents: Ok(NOTHING),
    },
    Case {
        name: "a fault behind an image",
        bytes: b"\0\0\x04\0\0\x10\x03\0\0\x01",
        body_at: 2,
        contents: Err(6),
    },
];

/// The file of a case, whose body reaches to the end of its bytes.
fn file_of(case: &Case) -> Option<File> {
    let length = u32::try_from(case.bytes.len()).ok()?;
    let body = length.checked_sub(case.body_at)?;
    Some(File {
        at: 0,
        name: Guid([0; 16]),
        kind: 1,
        size: length,
        body_at: case.body_at,
        body,
        sound: true,
    })
}

/// What the sections of a file tell, or the place of the fault.
fn told(bytes: &[u8], file: &File) -> Result<Contents, u32> {
    let begin = file.body_at as usize;
    if bytes.len() > MOST_BYTES || begin > bytes.len() || file.body as usize > bytes.len() - begin {
        return Err(u32::MAX);
    }
    match contents(bytes, file) {
        Ok(found) => Ok(found),
        Err(fault) => Err(fault.at),
    }
}

fn is_right(case: &Case) -> bool {
    match file_of(case) {
        Some(file) => told(case.bytes, &file) == case.contents,
        None => false,
    }
}

#[test]
fn tells_contents(rt: HostRuntime) {
    let wrong = CASES
        .iter()
        .find(|case| !is_right(case))
        .map(|case| case.name);
    assert_eq!(rt; wrong, None);
}
