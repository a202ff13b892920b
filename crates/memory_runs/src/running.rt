//! Runs of the top call over sources and sinks in memory.
use mm_base::{Bytes, List, NoMemory};
use mm_io::{MemorySink, MemorySource, Source};
use mm_run::{RunEnd, Status, run};
use std::alloc::Global;

/// How many bytes a sink takes in all, where its maker doesn't say.
const ROOM: usize = 8_192;

/// What is seen of a run.
#[derive(Drop)]
pub struct Seen {
    pub status: Status,
    /// Whether it handed out the world that it drove.
    pub world: bool,
    /// How many reads of its first source failed.
    pub faults: u64,
    /// How many reads of its second source failed.
    pub second_faults: u64,
    /// What it wrote.
    pub written: Bytes,
}

impl Seen {
    /// Whether it ended so, handed out a world or not, and wrote just this. It costs a step a byte.
    pub fn is(&self, status: Status, world: bool, written: &[u8]) -> bool {
        self.status == status && self.world == world && self.written.as_slice() == written
    }
}

/// The words of a command line, copied.
fn words_of(alloc: Global, all: &[&str]) -> Result<Vec<String>, NoMemory> {
    let mut words = Vec::new(alloc);
    for word in all {
        words.push(String::from_str(alloc, word)?)?;
    }
    Ok(words)
}

/// The status of a run, and whether it handed out a world, which is given up.
fn parts_of(end: RunEnd) -> (Status, bool) {
    (end.status, end.world.is_some())
}

/// How a run of these words over these sources ended. It costs what `run` costs, and a step for each byte written.
pub fn ran_over<V: Source + Drop, S: Source + Drop>(
    alloc: Global,
    words: &[&str],
    mut first: V,
    mut second: S,
    mut out: MemorySink,
) -> Result<Seen, NoMemory> {
    let words = words_of(alloc, words)?;
    let (status, world) = parts_of(run(alloc, &words, &mut first, &mut second, &mut out));
    Ok(Seen {
        status,
        world,
        faults: first.faults(),
        second_faults: second.faults(),
        written: List::from_slice(alloc, out.written())?,
    })
}

/// The same with a second source that has no bytes.
pub fn ran(
    alloc: Global,
    words: &[&str],
    first: MemorySource,
    out: MemorySink,
) -> Result<Seen, NoMemory> {
    let second = source(alloc, b"", &[])?;
    ran_over(alloc, words, first, second, out)
}

/// A source of a copy of these bytes, 100 a read. The reads with these numbers, counted from 0, fail.
pub fn source(alloc: Global, bytes: &[u8], failing: &[u32]) -> Result<MemorySource, NoMemory> {
    Ok(MemorySource::new(
        List::from_slice(alloc, bytes)?,
        100,
        List::from_slice(alloc, failing)?,
    ))
}

/// So many of this byte. It has no clause, so that no proof computes the list.
pub fn many(alloc: Global, count: usize, byte: u8) -> Result<Bytes, NoMemory> {
    let bytes = vec![in alloc; byte; count]?;
    Ok(List::from_vec(bytes))
}

/// A sink that takes so many bytes a call, and 8,192 in all. The writes with these numbers, counted from 0, fail.
pub fn sink(alloc: Global, most: u32, failing: &[u32]) -> Result<MemorySink, NoMemory> {
    Ok(MemorySink::new(
        many(alloc, ROOM, b'#')?,
        most,
        List::from_slice(alloc, failing)?,
    ))
}

/// A sink that takes so many bytes in all, and fails at the first one more.
pub fn sink_of(alloc: Global, room: usize) -> Result<MemorySink, NoMemory> {
    let bytes = many(alloc, room, b'#')?;
    Ok(MemorySink::new(bytes, 65_536, List::new(alloc)))
}
