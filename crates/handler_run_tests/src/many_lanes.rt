//! Entries to a driver from as many lanes as there may be. What is expected was worked out by hand from the formats.
use crate::code::{DOUBLES, NAMED, REGISTERS};
use memory_runs::{SERVE, ran_over, sink_of, source};
use mm_base::{Bytes, List, NoMemory};
use mm_run::Status;
use sample_volumes::{Contents, Driver, TRUE, volume_with};
use std::alloc::Global;
use std::test::Fail;

const DRIVERS: &[Driver] = &[(
    b"driver number 01",
    &[
        TRUE,
        (0x10, Contents::Image(336, &[NAMED, REGISTERS, DOUBLES])),
    ],
)];

/// A lane, the first byte of its message, and that of its reply.
type Row = (&'static str, &'static str, &'static str);

/// The lanes in the order of their turns, which isn't that of their rings. The handler doubles each value.
const ROWS: &[Row] = &[
    ("15", "10", "20"),
    ("0", "01", "02"),
    ("14", "0f", "1e"),
    ("1", "02", "04"),
    ("13", "0e", "1c"),
    ("2", "03", "06"),
    ("12", "0d", "1a"),
    ("3", "04", "08"),
    ("11", "0c", "18"),
    ("4", "05", "0a"),
    ("10", "0b", "16"),
    ("5", "06", "0c"),
    ("9", "0a", "14"),
    ("6", "07", "0e"),
    ("8", "09", "12"),
    ("7", "08", "10"),
];

/// The replies' first bytes by lanes.
const REPLIES: &[&str] = &[
    "02", "04", "06", "08", "0a", "0c", "0e", "10", "12", "14", "16", "18", "1a", "1c", "1e", "20",
];

/// The header of each message, which has 8 bytes, and what stands after the first of these.
const HEADER: &[u8] = b"111111112222333344445555555555550800000000000000";

const REST: &[u8] = b"00000000000000";

/// Puts pieces at a text's end.
fn put(text: &mut Bytes, pieces: &[&[u8]]) -> Result<(), NoMemory> {
    for piece in pieces {
        text.extend(piece)?;
    }
    Ok(())
}

/// Puts a line for each lane at a text's end, which begins with this word and has the lane's number between two spaces.
fn put_lines(text: &mut Bytes, word: &[u8], back: &[u8]) -> Result<(), NoMemory> {
    for (lane, _, _) in ROWS {
        put(text, &[word, lane.as_bytes(), back])?;
    }
    Ok(())
}

/// All lanes are filled and rung; then each makes three actions, and then two more; then their turns come.
fn script_of(alloc: Global) -> Result<Bytes, NoMemory> {
    let mut script = List::from_slice(alloc, b"lanes 16 4\n")?;
    for (lane, given, _) in ROWS {
        put(
            &mut script,
            &[
                b"fill ",
                lane.as_bytes(),
                b" ",
                HEADER,
                given.as_bytes(),
                REST,
                b"\n",
            ],
        )?;
    }
    script.extend(b"ring 7\nring 3\nring 11\n")?;
    put_lines(&mut script, b"ring ", b"\n")?;
    put_lines(&mut script, b"step ", b" 3\n")?;
    put_lines(&mut script, b"step ", b" 2\n")?;
    put_lines(&mut script, b"run ", b"\n")?;
    Ok(script)
}

/// Puts the lines of an entry at a report's end.
fn put_entry(report: &mut Bytes, alloc: Global, number: usize, row: &Row) -> Result<(), NoMemory> {
    let (lane, given, answered) = row;
    let number = format!(in alloc; "{number}")?;
    put(
        report,
        &[b"entry ", number.as_bytes(), b" lane ", lane.as_bytes()],
    )?;
    report.extend(b" loads 5 status 0000000000000000\n  request 0000000000000020 ")?;
    put(report, &[HEADER, given.as_bytes(), REST])?;
    report.extend(
        b"\n  dispatched 11111111-2222-3333-4444-555555555555\n  handler 0 returned 0000000000000000\n  reply ",
    )?;
    put(report, &[HEADER, answered.as_bytes(), REST, b"\n"])
}

/// Puts the line of a lane at a report's end.
fn put_lane(report: &mut Bytes, alloc: Global, lane: usize, reply: &str) -> Result<(), NoMemory> {
    let lane = format!(in alloc; "{lane}")?;
    put(report, &[b"lane ", lane.as_bytes()])?;
    report.extend(b" length 0000000000000020 status 0000000000000000 data ")?;
    put(report, &[HEADER, reply.as_bytes(), REST, b"\n"])
}

/// The report from the first entry on.
fn report_of(alloc: Global) -> Result<Bytes, NoMemory> {
    let mut report = List::new(alloc);
    for (number, row) in ROWS.iter().enumerate() {
        put_entry(&mut report, alloc, number, row)?;
    }
    for (lane, reply) in REPLIES.iter().enumerate() {
        put_lane(&mut report, alloc, lane, reply)?;
    }
    Ok(report)
}

/// Whether all lanes are served so.
fn are_served(alloc: Global) -> Result<bool, NoMemory> {
    let volume = volume_with(alloc, &[], DRIVERS, &[])?;
    let script = script_of(alloc)?;
    let report = report_of(alloc)?;
    let first = source(alloc, volume.as_slice(), &[])?;
    let second = source(alloc, script.as_slice(), &[])?;
    let out = sink_of(alloc, 16_384)?;
    let end = ran_over(alloc, SERVE, first, second, out)?;
    Ok(
        end.status == Status::Done
            && end.world
            && end.written.as_slice().ends_with(report.as_slice()),
    )
}

#[test]
fn serves_all_lanes(rt: HostRuntime) -> Result<(), Fail> {
    assert!(rt; are_served(rt.alloc())?);
    Ok(())
}
