//! Runs of `serve` that are refused, and sources and a sink that fail. What is expected was worked out by hand from the formats.
use memory_runs::{
    SERVE, is_not_served, is_stopped_before_script, many, ran_over, served, sink, source,
};
use mm_base::{NoMemory, PolicyKind, TextKind, VolumeKind};
use mm_run::{BadKind, Status, Which};
use sample_volumes::{EMPTY, Layout, ONE_FILE, POLICY_NAME, Part, joined, volume_of};
use std::alloc::Global;
use std::test::Fail;

/// Whether the sample volume without its last byte is refused for its length, before the script is read.
fn is_cut_refused(alloc: Global) -> Result<bool, NoMemory> {
    let volume = joined(alloc, ONE_FILE)?;
    let status = Status::BadVolume {
        at: 32,
        kind: BadKind::Volume(VolumeKind::Length),
    };
    match volume.as_slice().split_last() {
        Some((_, cut)) => is_stopped_before_script(alloc, cut, status),
        None => Ok(false),
    }
}

#[test]
fn tells_the_fault_of_the_volume_first(rt: HostRuntime) -> Result<(), Fail> {
    assert!(rt; is_cut_refused(rt.alloc())?);
    Ok(())
}

/// A policy file that gives no fuel.
const NO_FUEL: &[Part] = &[Part {
    name: POLICY_NAME,
    kind: 0x02,
    attributes: 0,
    off: 0,
    body: &[Layout {
        length: 20,
        pieces: &[(0, b"\x14\0\0\x19MMSP\x01")],
    }],
}];

/// Whether a volume whose policy gives no fuel is refused for that, before the script is read.
fn is_fuel_asked_for(alloc: Global) -> Result<bool, NoMemory> {
    let volume = volume_of(alloc, false, NO_FUEL)?;
    let status = Status::BadVolume {
        at: 12,
        kind: BadKind::Policy(PolicyKind::Fuel),
    };
    is_stopped_before_script(alloc, volume.as_slice(), status)
}

#[test]
fn tells_the_fault_of_the_policy_before_that_of_the_script(rt: HostRuntime) -> Result<(), Fail> {
    assert!(rt; is_fuel_asked_for(rt.alloc())?);
    Ok(())
}

/// Whether a script is refused at this line beside the volume without files.
fn is_text_refused(
    alloc: Global,
    script: &[u8],
    line: u32,
    kind: TextKind,
) -> Result<bool, NoMemory> {
    let volume = joined(alloc, &[EMPTY])?;
    is_not_served(
        alloc,
        volume.as_slice(),
        script,
        Status::BadText { line, kind },
    )
}

#[test]
fn refuses_a_bad_script(rt: HostRuntime) -> Result<(), Fail> {
    assert!(rt; is_text_refused(rt.alloc(), b"lanes 1 4\nring 1\n", 2, TextKind::Range)?);
    Ok(())
}

#[test]
fn refuses_a_script_of_no_lines(rt: HostRuntime) -> Result<(), Fail> {
    assert!(rt; is_text_refused(rt.alloc(), b"", 1, TextKind::Missing)?);
    Ok(())
}

/// A line with the word `handler` is unknown, whatever stands behind it.
#[test]
fn refuses_handler_lines(rt: HostRuntime) -> Result<(), Fail> {
    let script = b"lanes 1 4\nhandler root 0\n";
    assert!(rt; is_text_refused(rt.alloc(), script, 2, TextKind::Unknown)?);
    Ok(())
}

/// Whether a byte more than a script may have is refused.
fn is_too_long(alloc: Global) -> Result<bool, NoMemory> {
    let volume = joined(alloc, &[EMPTY])?;
    let script = many(alloc, 4_194_305, b'\n')?;
    is_not_served(
        alloc,
        volume.as_slice(),
        script.as_slice(),
        Status::TooLong(Which::Second),
    )
}

#[test]
fn refuses_a_script_that_is_too_long(rt: HostRuntime) -> Result<(), Fail> {
    assert!(rt; is_too_long(rt.alloc())?);
    Ok(())
}

/// Whether a script whose first read fails ends a run so, behind a good volume.
fn is_second_read_fault(alloc: Global) -> Result<bool, NoMemory> {
    let volume = joined(alloc, ONE_FILE)?;
    let end = served(alloc, volume.as_slice(), b"lanes 1 3\n", &[0])?;
    Ok(end.is(Status::ReadFault(Which::Second), false, b"") && end.second_faults == 1)
}

#[test]
fn a_read_of_the_script_that_fails(rt: HostRuntime) -> Result<(), Fail> {
    assert!(rt; is_second_read_fault(rt.alloc())?);
    Ok(())
}

/// Whether a volume whose first read fails ends a run so, and the script isn't read.
fn is_first_read_fault(alloc: Global) -> Result<bool, NoMemory> {
    let volume = joined(alloc, &[EMPTY])?;
    let first = source(alloc, volume.as_slice(), &[0])?;
    let second = source(alloc, b"ring", &[0])?;
    let out = sink(alloc, 4_096, &[])?;
    let end = ran_over(alloc, SERVE, first, second, out)?;
    Ok(end.is(Status::ReadFault(Which::First), false, b"") && end.second_faults == 0)
}

#[test]
fn a_read_of_the_volume_that_fails(rt: HostRuntime) -> Result<(), Fail> {
    assert!(rt; is_first_read_fault(rt.alloc())?);
    Ok(())
}

/// Whether a sink of 16 bytes a call, whose third call fails, ends with this front of the report and hands out the world.
fn is_front(alloc: Global, front: &[u8]) -> Result<bool, NoMemory> {
    let volume = joined(alloc, &[EMPTY])?;
    let first = source(alloc, volume.as_slice(), &[])?;
    let second = source(alloc, b"lanes 1 3\n", &[])?;
    let out = sink(alloc, 16, &[2])?;
    let end = ran_over(alloc, SERVE, first, second, out)?;
    Ok(end.is(Status::WriteFault, true, front))
}

#[test]
fn a_write_that_fails(rt: HostRuntime) -> Result<(), Fail> {
    assert!(rt; is_front(rt.alloc(), b"volume 00000048 ffs2 files 0\npol")?);
    Ok(())
}
