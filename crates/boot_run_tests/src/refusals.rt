//! Boots that are refused, and a source and a sink that fail. What is expected was worked out by hand from the formats.
use memory_runs::{BOOT, is_boot_refused, many, ran, sink, source};
use mm_base::{NoMemory, PolicyKind, VolumeKind};
use mm_run::{BadKind, Status, Which};
use sample_volumes::{EMPTY, Layout, POLICY_NAME, Part, edited, joined, volume_of};
use std::alloc::Global;
use std::test::Fail;

/// Whether a volume whose signature is another one is refused for that.
fn is_signature_asked_for(alloc: Global) -> Result<bool, NoMemory> {
    let empty = joined(alloc, &[EMPTY])?;
    let damaged = edited(alloc, empty.as_slice(), 72, &[(40, b"\0")])?;
    let status = Status::BadVolume {
        at: 40,
        kind: BadKind::Volume(VolumeKind::Signature),
    };
    is_boot_refused(alloc, damaged.as_slice(), status)
}

#[test]
fn refuses_a_damaged_volume(rt: HostRuntime) -> Result<(), Fail> {
    assert!(rt; is_signature_asked_for(rt.alloc())?);
    Ok(())
}

/// A policy file that gives no fuel.
const NO_FUEL: &[Part] = &[Part {
    name: POLICY_NAME,
    kind: 0x02,
    attributes: 0,
    off: 0,
    body: &[Layout {
        length: 20,
        pieces: &[(0, b"\x14\0\0\x19MMSP\x01")],
    }],
}];

/// Whether a volume whose policy gives no fuel is refused for that.
fn is_fuel_asked_for(alloc: Global) -> Result<bool, NoMemory> {
    let volume = volume_of(alloc, false, NO_FUEL)?;
    let status = Status::BadVolume {
        at: 12,
        kind: BadKind::Policy(PolicyKind::Fuel),
    };
    is_boot_refused(alloc, volume.as_slice(), status)
}

#[test]
fn refuses_a_bad_policy(rt: HostRuntime) -> Result<(), Fail> {
    assert!(rt; is_fuel_asked_for(rt.alloc())?);
    Ok(())
}

/// Whether a byte more than a volume may have is refused.
fn is_too_long(alloc: Global) -> Result<bool, NoMemory> {
    let zeros = many(alloc, 16_777_217, 0)?;
    is_boot_refused(alloc, zeros.as_slice(), Status::TooLong(Which::First))
}

#[test]
fn refuses_a_volume_that_is_too_long(rt: HostRuntime) -> Result<(), Fail> {
    assert!(rt; is_too_long(rt.alloc())?);
    Ok(())
}

/// Whether a source whose first read fails ends a run so, and nothing is written.
fn is_read_fault(alloc: Global) -> Result<bool, NoMemory> {
    let volume = joined(alloc, &[EMPTY])?;
    let first = source(alloc, volume.as_slice(), &[0])?;
    let out = sink(alloc, 4_096, &[])?;
    let end = ran(alloc, BOOT, first, out)?;
    Ok(end.is(Status::ReadFault(Which::First), false, b""))
}

#[test]
fn a_read_that_fails(rt: HostRuntime) -> Result<(), Fail> {
    assert!(rt; is_read_fault(rt.alloc())?);
    Ok(())
}

/// Whether a sink of 16 bytes a call, whose third call fails, ends with this front of the report.
fn is_front(alloc: Global, front: &[u8]) -> Result<bool, NoMemory> {
    let volume = joined(alloc, &[EMPTY])?;
    let first = source(alloc, volume.as_slice(), &[])?;
    let out = sink(alloc, 16, &[2])?;
    let end = ran(alloc, BOOT, first, out)?;
    Ok(end.is(Status::WriteFault, false, front))
}

#[test]
fn a_write_that_fails(rt: HostRuntime) -> Result<(), Fail> {
    assert!(rt; is_front(rt.alloc(), b"volume 00000048 ffs2 files 0\npol")?);
    Ok(())
}
