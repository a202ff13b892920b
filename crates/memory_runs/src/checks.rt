//! Runs of `check`, `boot` and `serve` over volumes in memory, whose reports have 8,192 bytes at most. Each costs what `run` costs.
use crate::running::{Seen, ran, ran_over, sink, source};
use mm_base::{Bytes, List, NoMemory};
use mm_run::Status;
use std::alloc::Global;

/// The words of a run that lists a volume.
pub const CHECK: &[&str] = &["check", "volume.fd"];

/// The words of a run that boots a volume.
pub const BOOT: &[&str] = &["boot", "volume.fd"];

/// The words of a run that boots a volume and serves a script.
pub const SERVE: &[&str] = &["serve", "volume.fd", "events.script"];

/// Pieces of a text, one after the other.
fn text_of(alloc: Global, pieces: &[&[u8]]) -> Result<Bytes, NoMemory> {
    let mut text = List::new(alloc);
    for piece in pieces {
        text.extend(piece)?;
    }
    Ok(text)
}

/// How a run of these words ends on a volume.
fn ran_on(alloc: Global, words: &[&str], volume: &[u8]) -> Result<Seen, NoMemory> {
    let first = source(alloc, volume, &[])?;
    let out = sink(alloc, 4_096, &[])?;
    ran(alloc, words, first, out)
}

/// Whether a run of these words on a volume answers 0, hands out no world, and writes just the pieces of this report.
fn writes_on(
    alloc: Global,
    words: &[&str],
    volume: &[u8],
    report: &[&[u8]],
) -> Result<bool, NoMemory> {
    let text = text_of(alloc, report)?;
    let end = ran_on(alloc, words, volume)?;
    Ok(end.is(Status::Done, false, text.as_slice()))
}

/// Whether a run of these words on a volume answers 0, hands out no world, and its report ends with this.
fn writes_last_on(
    alloc: Global,
    words: &[&str],
    volume: &[u8],
    said: &[u8],
) -> Result<bool, NoMemory> {
    let end = ran_on(alloc, words, volume)?;
    Ok(end.status == Status::Done && !end.world && end.written.as_slice().ends_with(said))
}

/// Whether a run of these words ends so on bytes, hands out no world, and writes nothing.
fn is_refused_by(
    alloc: Global,
    words: &[&str],
    bytes: &[u8],
    status: Status,
) -> Result<bool, NoMemory> {
    let end = ran_on(alloc, words, bytes)?;
    Ok(end.is(status, false, b""))
}

/// Whether `check` answers 0 on a volume, hands out no world, and writes just the pieces of this report.
pub fn is_listed(alloc: Global, volume: &[u8], report: &[&[u8]]) -> Result<bool, NoMemory> {
    writes_on(alloc, CHECK, volume, report)
}

/// Whether `check` answers 0 on a volume, hands out no world, and the report ends with this.
pub fn is_listed_last(alloc: Global, volume: &[u8], said: &[u8]) -> Result<bool, NoMemory> {
    writes_last_on(alloc, CHECK, volume, said)
}

/// Whether `check` ends so on bytes, hands out no world, and writes nothing.
pub fn is_refused(alloc: Global, bytes: &[u8], status: Status) -> Result<bool, NoMemory> {
    is_refused_by(alloc, CHECK, bytes, status)
}

/// Whether `boot` answers 0 on a volume, hands out no world, and writes just the pieces of this report.
pub fn is_booted(alloc: Global, volume: &[u8], report: &[&[u8]]) -> Result<bool, NoMemory> {
    writes_on(alloc, BOOT, volume, report)
}

/// Whether `boot` answers 0 on a volume, hands out no world, and the report ends with this.
pub fn is_booted_last(alloc: Global, volume: &[u8], said: &[u8]) -> Result<bool, NoMemory> {
    writes_last_on(alloc, BOOT, volume, said)
}

/// Whether `boot` ends so on bytes, hands out no world, and writes nothing.
pub fn is_boot_refused(alloc: Global, bytes: &[u8], status: Status) -> Result<bool, NoMemory> {
    is_refused_by(alloc, BOOT, bytes, status)
}

/// How `serve` ends on a volume and a script. The script's reads with these numbers, counted from 0, fail.
pub fn served(
    alloc: Global,
    volume: &[u8],
    script: &[u8],
    failing: &[u32],
) -> Result<Seen, NoMemory> {
    let first = source(alloc, volume, &[])?;
    let second = source(alloc, script, failing)?;
    let out = sink(alloc, 4_096, &[])?;
    ran_over(alloc, SERVE, first, second, out)
}

/// Whether `serve` answers 0 on a volume and a script, hands out the world that it drove, and writes just the pieces of this report.
pub fn is_served(
    alloc: Global,
    volume: &[u8],
    script: &[u8],
    report: &[&[u8]],
) -> Result<bool, NoMemory> {
    let text = text_of(alloc, report)?;
    let end = served(alloc, volume, script, &[])?;
    Ok(end.is(Status::Done, true, text.as_slice()))
}

/// Whether `serve` ends so on a volume and a script, hands out no world, and writes nothing.
pub fn is_not_served(
    alloc: Global,
    volume: &[u8],
    script: &[u8],
    status: Status,
) -> Result<bool, NoMemory> {
    let end = served(alloc, volume, script, &[])?;
    Ok(end.is(status, false, b""))
}

/// Whether `serve` ends so on bytes that are no volume, hands out no world, writes nothing, and doesn't read a script whose first read
/// would fail.
pub fn is_stopped_before_script(
    alloc: Global,
    bytes: &[u8],
    status: Status,
) -> Result<bool, NoMemory> {
    let end = served(alloc, bytes, b"ring", &[0])?;
    Ok(end.is(status, false, b"") && end.second_faults == 0)
}
