//! What is said of a status.
use super::*;
use crate::stopped::Stopped;
use mm_base::{NoMemory, PolicyKind, VolumeKind};
use std::alloc::Global;
use std::test::Fail;

/// What is said of a status, where the sources are `one` and `two`, and the system's last error was this; nothing where all went
/// well.
fn said_of(
    alloc: Global,
    command: Option<Command>,
    error: Option<io::Error>,
    status: Status,
) -> Result<String, NoMemory> {
    let facts = RunFacts {
        command,
        first: SourceFacts::new("one", error),
        second: SourceFacts::new("two", error),
        out: Cause(error),
    };
    match Fault::of(status, &facts) {
        None => Ok(String::new(alloc)),
        Some(fault) => Ok(format!(in alloc; "{fault}")?),
    }
}

/// What is said of a status without an error of the system.
fn said(alloc: Global, command: Option<Command>, status: Status) -> Result<String, NoMemory> {
    said_of(alloc, command, None, status)
}

/// What is said of a growth that is refused: no memory has so many bytes.
fn said_of_refusal(alloc: Global) -> Result<String, NoMemory> {
    match grown(alloc, usize::MAX) {
        Ok(_) => Ok(String::new(alloc)),
        Err(refused) => said(alloc, Some(Command::Check), Status::NoMemory(refused)),
    }
}

fn grown(alloc: Global, count: usize) -> Result<Vec<u8>, NoMemory> {
    Ok(Vec::with_capacity(alloc, count)?)
}

#[test]
fn names_what_was_refused(rt: HostRuntime) -> Result<(), Fail> {
    let alloc = rt.alloc();
    let expected = [
        (Some(Command::Script), Status::Done, ""),
        (
            None,
            Status::Usage,
            "usage: mm_main script FILE, mm_main check FILE, mm_main boot FILE, or mm_main serve FILE SCRIPT",
        ),
        (
            Some(Command::Script),
            Status::ReadFault(Which::First),
            "\"one\" could not be opened or read",
        ),
        (
            Some(Command::Check),
            Status::ReadFault(Which::Second),
            "\"two\" could not be opened or read",
        ),
        (
            Some(Command::Script),
            Status::TooLong(Which::First),
            "\"one\" has more than 4194304 bytes",
        ),
        (
            Some(Command::Check),
            Status::TooLong(Which::First),
            "\"one\" has more than 16777216 bytes",
        ),
        (
            Some(Command::Script),
            Status::BadText {
                line: 7,
                kind: TextKind::Range,
            },
            "\"one\", line 7: a number is out of its range or names what isn't there, there are more bytes than the lane holds, a register is named twice, or it is a handler line past the 64th or a ring line past the 8192nd",
        ),
        (
            Some(Command::Check),
            Status::BadVolume {
                at: 55,
                kind: BadKind::Policy(PolicyKind::Short),
            },
            "\"one\", byte 0x37 of the policy in its policy file: the policy ends here, and its header has 16 bytes and each of its rules 40",
        ),
        (
            Some(Command::Check),
            Status::WriteFault,
            "standard output could not be written",
        ),
        (
            Some(Command::Serve),
            Status::TooLong(Which::First),
            "\"one\" has more than 16777216 bytes",
        ),
        (
            Some(Command::Serve),
            Status::TooLong(Which::Second),
            "\"two\" has more than 4194304 bytes",
        ),
        (
            Some(Command::Serve),
            Status::BadText {
                line: 2,
                kind: TextKind::Unknown,
            },
            "\"two\", line 2: its first word begins no line: a line is lanes, cell, poke, fill, ring, step or run",
        ),
    ];
    for (command, status, text) in expected {
        assert_eq!(rt; said(alloc, command, status)?.as_str(), text);
    }
    assert_eq!(rt; said_of_refusal(alloc)?.as_str(), "memory was refused");
    Ok(())
}

#[test]
fn tells_what_the_system_says(rt: HostRuntime) -> Result<(), Fail> {
    let expected = [
        (
            Status::ReadFault(Which::First),
            "\"one\" could not be opened or read: No such file or directory (os error 2)",
        ),
        (
            Status::ReadFault(Which::Second),
            "\"two\" could not be opened or read: No such file or directory (os error 2)",
        ),
        (
            Status::WriteFault,
            "standard output could not be written: No such file or directory (os error 2)",
        ),
    ];
    let error = io::Error::from_raw_os_error(2);
    for (status, text) in expected {
        let line = said_of(rt.alloc(), Some(Command::Script), Some(error), status)?;
        assert_eq!(rt; line.as_str(), text);
    }
    Ok(())
}

#[test]
fn names_no_handler_lines_where_none_are(rt: HostRuntime) {
    let expected = [
        (
            TextKind::Unknown,
            "its first word begins no line: a line is lanes, cell, poke, fill, ring, step or run",
        ),
        (
            TextKind::Order,
            "it may not stand here: lanes stands first and once, cell before all that happens",
        ),
        (
            TextKind::Range,
            "a number is out of its range or names what isn't there, there are more bytes than the lane holds, a register is named twice, or it is a ring line past the 8192nd",
        ),
    ];
    for (kind, text) in expected {
        assert_eq!(rt; why_no_script(kind, false), text);
    }
}

#[test]
fn names_what_stops_it_early(rt: HostRuntime) -> Result<(), Fail> {
    let alloc = rt.alloc();
    let expected = [
        (Stopped::NoText(2), "word 2 of the command line isn't UTF-8"),
        (Stopped::NoMemory, "memory was refused"),
    ];
    for (stopped, text) in expected {
        let fault = stopped.fault();
        assert_eq!(rt; format!(in alloc; "{fault}")?.as_str(), text);
    }
    Ok(())
}

/// A place and what a volume is refused for there, and what is said of it.
type Row = (u32, VolumeKind, &'static str);

const DAMAGED: &[Row] = &[
    (
        0,
        VolumeKind::Short,
        "\"one\", byte 0x0: a volume header has at least 64 bytes, and there are fewer",
    ),
    (
        40,
        VolumeKind::Signature,
        "\"one\", byte 0x28: a volume has its signature here, _FVH, and this isn't it",
    ),
    (
        48,
        VolumeKind::HeaderLength,
        "\"one\", byte 0x30: the volume header's length is below 64, odd, or over the length of the file",
    ),
    (
        50,
        VolumeKind::HeaderSum,
        "\"one\", byte 0x32: the volume header's 16-bit words don't sum up to 0",
    ),
    (
        55,
        VolumeKind::Revision,
        "\"one\", byte 0x37: the volume header's revision isn't 2",
    ),
    (
        16,
        VolumeKind::FileSystem,
        "\"one\", byte 0x10: the volume's file system is neither FFS2 nor FFS3",
    ),
    (
        32,
        VolumeKind::Length,
        "\"one\", byte 0x20: the volume's length is below its header's, or over the length of the file, which may have been cut",
    ),
    (
        52,
        VolumeKind::ExtHeader,
        "\"one\", byte 0x34: the extended header that this points to has fewer than 20 bytes, or leads past the volume's end",
    ),
    (
        72,
        VolumeKind::FileSum,
        "\"one\", byte 0x48: the bytes of the file header that stands here don't sum up to 0",
    ),
    (
        16_777_192,
        VolumeKind::FileSize,
        "\"one\", byte 0xffffe8: the size of the file that stands here is below its header's or leads past the volume's end, or it is a large file where none may be",
    ),
];

fn is_said(alloc: Global, row: &Row) -> bool {
    let (at, kind, text) = row;
    let status = Status::BadVolume {
        at: *at,
        kind: BadKind::Volume(*kind),
    };
    match said(alloc, Some(Command::Check), status) {
        Ok(line) => line.as_str() == *text,
        Err(_) => false,
    }
}

/// The first kind of which something else is said.
fn first_wrong(alloc: Global) -> Option<VolumeKind> {
    DAMAGED
        .iter()
        .find(|row| !is_said(alloc, row))
        .map(|row| row.1)
}

#[test]
fn tells_why_a_volume_is_refused(rt: HostRuntime) {
    assert_eq!(rt; first_wrong(rt.alloc()), None);
}
