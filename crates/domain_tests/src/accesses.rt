//! Accesses of an image's domain, one after another. What is expected was worked out by hand from the map and the rules of verdicts.
use mm_base::{Bus, CellWrite, Denial, Ended, Kind, NoMemory, Right, Target, Why};
use mm_memory::PlainFrames;
use sample_domains::domain_with;
use std::alloc::Global;
use std::test::Fail;
use supervisor_calls::Domain;

/// An access, and what is expected of it.
#[derive(Clone, Copy, Debug, PartialEq, Eq)]
enum Step {
    /// A read of so many bytes at an address answers a number, or is denied for this.
    Read(u64, u8, Result<u64, Why>),
    /// A write is made, or denied.
    Write(u64, u8, u64, Result<(), Why>),
    /// A fetch answers these first four bytes, or is denied.
    Fetch(u64, u8, Result<[u8; 4], Why>),
    /// This stands at the target of a native call.
    Target(u64, Target),
}

/// A read of 1, 2, 4 or 8 bytes.
fn read(domain: &mut Domain<PlainFrames>, at: u64, n: u8) -> Option<Result<u64, Denial>> {
    if n == 1 || n == 2 || n == 4 || n == 8 {
        Some(domain.read(at, n))
    } else {
        None
    }
}

/// A write of 1, 2, 4 or 8 bytes.
fn write(
    domain: &mut Domain<PlainFrames>,
    at: u64,
    n: u8,
    value: u64,
) -> Option<Result<(), Denial>> {
    if n == 1 || n == 2 || n == 4 || n == 8 {
        Some(domain.write(at, n, value))
    } else {
        None
    }
}

/// A fetch of 1 to 18 bytes.
fn fetch(domain: &mut Domain<PlainFrames>, at: u64, n: u8) -> Option<Result<[u8; 18], Denial>> {
    if 1 <= n && n <= 18 {
        Some(domain.fetch(at, n))
    } else {
        None
    }
}

/// An access that is denied so.
fn denial(right: Right, at: u64, n: u8, why: Why) -> Denial {
    Denial {
        kind: Kind::Memory,
        right,
        at,
        n,
        why,
    }
}

/// The first four of the bytes that a fetch answers.
fn first_four(bytes: [u8; 18]) -> [u8; 4] {
    [bytes[0], bytes[1], bytes[2], bytes[3]]
}

/// Whether a fetch comes to what is expected.
fn fetch_is_right(
    domain: &mut Domain<PlainFrames>,
    at: u64,
    n: u8,
    expected: Result<[u8; 4], Why>,
) -> bool {
    match fetch(domain, at, n) {
        Some(Ok(bytes)) => expected == Ok(first_four(bytes)),
        Some(Err(found)) => {
            expected == Err(found.why) && found == denial(Right::Execute, at, n, found.why)
        }
        None => false,
    }
}

/// Whether a read or a write comes to what is expected.
fn read_is_right(
    domain: &mut Domain<PlainFrames>,
    at: u64,
    n: u8,
    expected: Result<u64, Why>,
) -> bool {
    match read(domain, at, n) {
        Some(Ok(number)) => expected == Ok(number),
        Some(Err(found)) => {
            expected == Err(found.why) && found == denial(Right::Read, at, n, found.why)
        }
        None => false,
    }
}

fn write_is_right(
    domain: &mut Domain<PlainFrames>,
    at: u64,
    n: u8,
    value: u64,
    expected: Result<(), Why>,
) -> bool {
    match write(domain, at, n, value) {
        Some(Ok(())) => expected.is_ok(),
        Some(Err(found)) => {
            expected == Err(found.why) && found == denial(Right::Write, at, n, found.why)
        }
        None => false,
    }
}

/// Whether a step comes to what is expected.
fn is_right(domain: &mut Domain<PlainFrames>, step: Step) -> bool {
    match step {
        Step::Read(at, n, expected) => read_is_right(domain, at, n, expected),
        Step::Write(at, n, value, expected) => write_is_right(domain, at, n, value, expected),
        Step::Fetch(at, n, expected) => fetch_is_right(domain, at, n, expected),
        Step::Target(at, expected) => domain.target(at) == expected,
    }
}

const NUMBER: u64 = 0x1122_3344_5566_7788;

/// Steps of one domain, whose section begins with the bytes 10 20 30 40.
const STEPS: &[Step] = &[
    // The headers may be read, and nothing else; an access that crosses into the section is in neither.
    Step::Read(0x8000_0000, 1, Ok(0)),
    Step::Write(0x8000_0000, 1, 1, Err(Why::Mmram)),
    Step::Read(0x8000_00ff, 2, Err(Why::Mmram)),
    Step::Fetch(0x8000_00fe, 2, Err(Why::Mmram)),
    // The section may be read and executed. What stands behind the bytes that are fetched isn't seen.
    Step::Read(0x8000_0100, 4, Ok(0x4030_2010)),
    Step::Read(0x8000_0101, 1, Ok(0x20)),
    Step::Write(0x8000_0100, 4, 0, Err(Why::Mmram)),
    Step::Fetch(0x8000_0100, 2, Ok([0x10, 0x20, 0, 0])),
    Step::Fetch(0x8000_0101, 3, Ok([0x20, 0x30, 0x40, 0])),
    Step::Fetch(0x8000_0100, 18, Ok([0x10, 0x20, 0x30, 0x40])),
    Step::Fetch(0x8000_01fe, 2, Ok([0; 4])),
    Step::Fetch(0x8000_01ff, 2, Err(Why::Mmram)),
    Step::Read(0x8000_0200, 1, Err(Why::Mmram)),
    // The stack, the communicate page, the pool and the reserve may be read and written, across pages too.
    Step::Read(0x8000_0fff, 1, Err(Why::Mmram)),
    Step::Write(0x8000_1ffd, 8, NUMBER, Ok(())),
    Step::Read(0x8000_1ffd, 8, Ok(NUMBER)),
    Step::Read(0x8000_2000, 2, Ok(0x4455)),
    Step::Write(0x8000_4fff, 1, 0x1ff, Ok(())),
    Step::Read(0x8000_4fff, 1, Ok(0xff)),
    Step::Read(0x8000_4fff, 2, Err(Why::Mmram)),
    Step::Read(0x8000_5000, 1, Ok(0)),
    Step::Fetch(0x8000_4ffe, 2, Err(Why::Mmram)),
    Step::Write(0x8000_6000, 8, 0, Err(Why::Mmram)),
    Step::Read(0x8000_6ff8, 8, Ok(0)),
    Step::Write(0x8002_6fff, 1, 5, Ok(())),
    Step::Read(0x8002_6fff, 1, Ok(5)),
    Step::Read(0x8002_7000, 1, Err(Why::Mmram)),
    Step::Read(0x81ff_ffff, 2, Err(Why::Mmram)),
    // The lanes' window, and what is nowhere.
    Step::Read(0x4000_0000, 1, Err(Why::Buffer)),
    Step::Write(0x3fff_ffff, 2, 0, Err(Why::Buffer)),
    Step::Read(0x4010_0000, 1, Err(Why::Range)),
    Step::Read(0x1000, 1, Err(Why::Range)),
    Step::Read(0xffff_ffff_ffff_fffc, 8, Err(Why::Range)),
    // Device bytes, by the rule.
    Step::Read(0xfdff_ffff, 1, Err(Why::Range)),
    Step::Write(0xfe00_fff8, 8, NUMBER, Ok(())),
    Step::Read(0xfe00_fffc, 4, Ok(0x1122_3344)),
    Step::Read(0xfe00_ffff, 1, Ok(0x11)),
    Step::Read(0xfe00_ffff, 2, Err(Why::Range)),
    Step::Fetch(0xfe00_0000, 2, Err(Why::Rule(0))),
    // Targets of native calls: the 20 services, 16 bytes apart, and code.
    Step::Target(0x8000_60f0, Target::Other),
    Step::Target(0x8000_6100, Target::Service(0)),
    Step::Target(0x8000_6101, Target::Other),
    Step::Target(0x8000_6108, Target::Other),
    Step::Target(0x8000_6110, Target::Service(1)),
    Step::Target(0x8000_6230, Target::Service(19)),
    Step::Target(0x8000_6240, Target::Other),
    Step::Target(0x8000_0100, Target::Code),
    Step::Target(0x8000_0101, Target::Other),
    Step::Target(0x8000_01fe, Target::Code),
    Step::Target(0x8000_0200, Target::Other),
    Step::Target(0x8000_1000, Target::Other),
];

/// The number of the first step that comes to something else.
fn first_wrong(alloc: Global, steps: &[Step]) -> Result<Option<usize>, NoMemory> {
    let Some(mut domain) = domain_with(alloc, b"\x10\x20\x30\x40")? else {
        return Ok(Some(usize::MAX));
    };
    for (number, step) in steps.iter().enumerate() {
        if !is_right(&mut domain, *step) {
            return Ok(Some(number));
        }
    }
    Ok(None)
}

#[test]
fn decides_each_access(rt: HostRuntime) -> Result<(), Fail> {
    assert_eq!(rt; first_wrong(rt.alloc(), STEPS)?, None);
    Ok(())
}

/// How many denials and cell writes stand in the records after these steps, and the last write.
fn recorded(
    alloc: Global,
    steps: &[Step],
    times: usize,
) -> Result<Option<(usize, usize, Option<CellWrite>)>, NoMemory> {
    let Some(mut domain) = domain_with(alloc, b"")? else {
        return Ok(None);
    };
    for _ in 0..times {
        for step in steps {
            let _ = is_right(&mut domain, *step);
        }
    }
    let (_, records) = domain.leave();
    let told = records.ended(0, Ended::Returned(0));
    let last = told.writes.as_slice().last().copied();
    Ok(Some((told.denials.len(), told.writes.len(), last)))
}

/// A denied fetch, a denied read and a denied write.
const DENIED: &[Step] = &[
    Step::Fetch(0, 2, Err(Why::Range)),
    Step::Read(0, 1, Err(Why::Range)),
    Step::Write(0, 1, 0, Err(Why::Range)),
];

#[test]
fn records_eight_denials(rt: HostRuntime) -> Result<(), Fail> {
    let alloc = rt.alloc();
    assert_eq!(rt; recorded(alloc, DENIED, 2)?, Some((6, 0, None)));
    assert_eq!(rt; recorded(alloc, DENIED, 3)?, Some((8, 0, None)));
    Ok(())
}

/// A write of one device byte: its low byte is what the cell holds then.
const CELL: &[Step] = &[Step::Write(0xfe00_0007, 1, 0x1ff, Ok(()))];

const CELL_WRITE: CellWrite = CellWrite {
    kind: Kind::Memory,
    at: 0xfe00_0007,
    n: 1,
    value: 0xff,
};

/// After 16 cell writes each further one is denied, and writes to memory still pass.
#[test]
fn makes_sixteen_cell_writes(rt: HostRuntime) -> Result<(), Fail> {
    let alloc = rt.alloc();
    assert_eq!(rt; recorded(alloc, CELL, 16)?, Some((0, 16, Some(CELL_WRITE))));
    assert_eq!(rt; recorded(alloc, CELL, 18)?, Some((2, 16, Some(CELL_WRITE))));
    Ok(())
}
