//! Sections of files. What is expected was worked out from the rules of sections, apart from this reader.
use crate::{File, Sections, any_of, first_of, sections};
use mm_base::Guid;

/// The most bytes that the reader takes.
const MOST_BYTES: usize = 16_777_216;

/// Bytes, the place where the body begins in them, its sections by their types, places and lengths, and the place of the
/// fault behind these, if there is one.
struct Case {
    name: &'static str,
    bytes: &'static [u8],
    body_at: u32,
    sections: &'static [(u8, u32, u32)],
    fault: Option<u32>,
}

const CASES: &[Case] = &[
    Case {
        name: "an empty body",
        bytes: b"",
        body_at: 0,
        sections: &[],
        fault: None,
    },
    Case {
        name: "three bytes are no header",
        bytes: b"\x03\0\0",
        body_at: 0,
        sections: &[],
        fault: None,
    },
    Case {
        name: "a section of a header alone",
        bytes: b"\x04\0\0\x19",
        body_at: 0,
        sections: &[(0x19, 4, 0)],
        fault: None,
    },
    Case {
        name: "a size of 3",
        bytes: b"\x03\0\0\x19",
        body_at: 0,
        sections: &[],
        fault: Some(0),
    },
    Case {
        name: "a size past the body",
        bytes: b"\x09\0\0\x19\0\0\0\0",
        body_at: 0,
        sections: &[],
        fault: Some(0),
    },
    Case {
        name: "a longer header with 7 bytes left",
        bytes: b"\xff\xff\xff\x19\x07\0\0",
        body_at: 0,
        sections: &[],
        fault: Some(0),
    },
    Case {
        name: "a longer header alone",
        bytes: b"\xff\xff\xff\x19\x08\0\0\0",
        body_at: 0,
        sections: &[(0x19, 8, 0)],
        fault: None,
    },
    Case {
        name: "a longer header with a size of 7",
        bytes: b"\xff\xff\xff\x19\x07\0\0\0",
        body_at: 0,
        sections: &[],
        fault: Some(0),
    },
    Case {
        name: "sections at multiples of 4 in a body that isn't at one",
        bytes: b"\0\0\0\0\0\x05\0\0\x10\x01\0\0\0\xff\xff\xff\x11\x09\0\0\0\x02",
        body_at: 5,
        sections: &[(0x10, 9, 1), (0x11, 21, 1)],
        fault: None,
    },
    Case {
        name: "a fault behind a section is at its place",
        bytes: b"\0\0\x05\0\0\x10\x01\0\0\0\x03\0\0\x10",
        body_at: 2,
        sections: &[(0x10, 6, 1)],
        fault: Some(10),
    },
];

/// The file of a case, whose body reaches to the end of its bytes.
fn file_of(case: &Case) -> Option<File> {
    let length = u32::try_from(case.bytes.len()).ok()?;
    let body = length.checked_sub(case.body_at)?;
    Some(File {
        at: 0,
        name: Guid([0; 16]),
        kind: 1,
        size: length,
        body_at: case.body_at,
        body,
        sound: true,
    })
}

/// What is found by a number, as a section's type, place and length, or the place of a fault.
fn found(bytes: &[u8], file: &File, index: u32) -> Result<Option<(u8, u32, u32)>, u32> {
    let begin = file.body_at as usize;
    if bytes.len() > MOST_BYTES || begin > bytes.len() || file.body as usize > bytes.len() - begin {
        return Err(u32::MAX);
    }
    match sections(bytes, file, index) {
        Ok(section) => Ok(section.map(|s| (s.kind, s.at, s.length))),
        Err(fault) => Err(fault.at),
    }
}

/// What has to be found by a number.
fn wanted(case: &Case, index: u32) -> Result<Option<(u8, u32, u32)>, u32> {
    match (case.sections.get(index as usize), case.fault) {
        (Some(section), _) => Ok(Some(*section)),
        (None, Some(at)) => Err(at),
        (None, None) => Ok(None),
    }
}

/// Whether that is found by each number, up to some behind the last section.
fn is_right(case: &Case) -> bool {
    let Some(file) = file_of(case) else {
        return false;
    };
    for index in 0..5 {
        if found(case.bytes, &file, index) != wanted(case, index) {
            return false;
        }
    }
    true
}

/// How many sections a walk gives, up to ten, and whether a fault ends it.
fn walked(bytes: &[u8], file: &File) -> (usize, bool) {
    let begin = file.body_at as usize;
    if bytes.len() > MOST_BYTES || begin > bytes.len() || file.body as usize > bytes.len() - begin {
        return (10, false);
    }
    let mut walk = Sections::of(bytes, file);
    for count in 0..10 {
        match walk.next_section() {
            Ok(Some(_)) => {}
            Ok(None) => return (count, false),
            Err(_) => return (count, true),
        }
    }
    (10, false)
}

fn is_walked(case: &Case) -> bool {
    match file_of(case) {
        Some(file) => walked(case.bytes, &file) == (case.sections.len(), case.fault.is_some()),
        None => false,
    }
}

#[test]
fn finds_sections(rt: HostRuntime) {
    let wrong = CASES
        .iter()
        .find(|case| !is_right(case) || !is_walked(case))
        .map(|case| case.name);
    assert_eq!(rt; wrong, None);
}

/// The place of the first section of a type, or None where no other is; and the place of a fault.
fn first_place(bytes: &[u8], file: &File, kind: u8) -> Result<Option<u32>, u32> {
    let begin = file.body_at as usize;
    if bytes.len() > MOST_BYTES || begin > bytes.len() || file.body as usize > bytes.len() - begin {
        return Err(u32::MAX);
    }
    match first_of(bytes, file, kind) {
        Ok(section) => Ok(section.map(|s| s.at)),
        Err(fault) => Err(fault.at),
    }
}

/// Whether there is a section of a type; None at a fault.
fn is_there(bytes: &[u8], file: &File, kind: u8) -> Option<bool> {
    let begin = file.body_at as usize;
    if bytes.len() > MOST_BYTES || begin > bytes.len() || file.body as usize > bytes.len() - begin {
        return None;
    }
    any_of(bytes, file, kind).ok()
}

/// What has to be found by a type: the first in the table, or the fault that stands after all.
fn is_found_by_type(case: &Case, kind: u8) -> bool {
    let Some(file) = file_of(case) else {
        return false;
    };
    let first = case.sections.iter().find(|s| s.0 == kind).map(|s| s.1);
    let place = first_place(case.bytes, &file, kind);
    let there = is_there(case.bytes, &file, kind);
    match case.fault {
        Some(at) => place == Err(at) && there.is_none(),
        None => place == Ok(first) && there == Some(first.is_some()),
    }
}

#[test]
fn finds_sections_by_type(rt: HostRuntime) {
    let wrong = CASES
        .iter()
        .find(|case| !is_found_by_type(case, 0x19) || !is_found_by_type(case, 0x11))
        .map(|case| case.name);
    assert_eq!(rt; wrong, None);
}
