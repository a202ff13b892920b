//! Texts that are too long to be written out, and whether a run writes one.
use memory_runs::{ran, sink_of, source};
use mm_base::{Bytes, List, NoMemory};
use mm_run::Status;
use std::alloc::Global;

/// The form of these numbers.
pub enum Form {
    Decimal,
    /// Eight hexadecimal digits.
    Wide,
}

/// A text that begins so.
pub fn begun(alloc: Global, front: &[u8]) -> Result<Bytes, NoMemory> {
    List::from_slice(alloc, front)
}

/// Puts a piece at a text's end so many times.
pub fn put_many(text: &mut Bytes, piece: &[u8], count: usize) -> Result<(), NoMemory> {
    for _ in 0..count {
        text.extend(piece)?;
    }
    Ok(())
}

/// Puts a number at a text's end.
pub fn put_number(
    text: &mut Bytes,
    alloc: Global,
    number: usize,
    form: &Form,
) -> Result<(), NoMemory> {
    let digits = match form {
        Form::Decimal => format!(in alloc; "{number}")?,
        Form::Wide => format!(in alloc; "{number:08x}")?,
    };
    text.extend(digits.as_bytes())
}

/// Puts a line for each of these numbers at a text's end, which is the number between two pieces.
pub fn put_lines(
    text: &mut Bytes,
    alloc: Global,
    numbers: (usize, usize),
    front: &[u8],
    back: &[u8],
) -> Result<(), NoMemory> {
    for number in numbers.0..numbers.1 {
        text.extend(front)?;
        put_number(text, alloc, number, &Form::Decimal)?;
        text.extend(back)?;
    }
    Ok(())
}

/// Whether a run of these words over these bytes answers 0, hands out a world or not, and writes just this.
pub fn writes(
    alloc: Global,
    words: &[&str],
    bytes: &[u8],
    report: &[u8],
    world: bool,
) -> Result<bool, NoMemory> {
    let first = source(alloc, bytes, &[])?;
    let out = sink_of(alloc, report.len())?;
    let end = ran(alloc, words, first, out)?;
    Ok(end.is(Status::Done, world, report))
}
