//! Scripts that are run, and what is asserted of their runs.
use memory_runs::{ran, sink, source};
use mm_base::NoMemory;
use mm_run::Status;
use std::alloc::Global;
use std::process::Abort;

/// The words `script` and a file's name.
pub const SCRIPT: &[&str] = &["script", "version.script"];

/// A run of this script answers 0 and writes this report.
pub fn reports(
    rt: &impl Abort,
    alloc: Global,
    script: &[u8],
    report: &[u8],
) -> Result<(), NoMemory> {
    let first = source(alloc, script, &[])?;
    let out = sink(alloc, 4_096, &[])?;
    let end = ran(alloc, SCRIPT, first, out)?;
    assert_eq!(rt; (end.status, end.world), (Status::Done, true));
    assert_eq!(rt; end.written.as_slice(), report);
    Ok(())
}

/// A run of these words over this script ends so, and writes nothing.
pub fn refuses(
    rt: &impl Abort,
    alloc: Global,
    words: &[&str],
    script: &[u8],
    failing: &[u32],
    status: Status,
) -> Result<(), NoMemory> {
    let first = source(alloc, script, failing)?;
    let out = sink(alloc, 4_096, &[])?;
    let end = ran(alloc, words, first, out)?;
    assert_eq!(rt;
        (end.status, end.world, end.written.len()),
        (status, false, 0)
    );
    Ok(())
}
