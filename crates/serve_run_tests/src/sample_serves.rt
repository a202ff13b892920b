//! Runs of `serve` over volumes and scripts in memory, whose report is known whole. What is expected was worked out by hand from the
//! formats.
use memory_runs::is_served;
use mm_base::{Bytes, NoMemory};
use sample_volumes::{EMPTY, ONE_FILE, joined};
use std::alloc::Global;
use std::test::Fail;

/// The sample volume.
fn sample(alloc: Global) -> Result<Bytes, NoMemory> {
    joined(alloc, ONE_FILE)
}

/// What is told of the sample volume and its boot.
const SAMPLE_REPORT: &[u8] = b"volume 000001c0 ffs2 files 1
file 00000048 aaaaaaaa-0000-0000-0000-000000000001 type 0e size 00000174 driver
policy none fuel 65536
start aaaaaaaa-0000-0000-0000-000000000001 round 1 returned 0000000000000000
locked images 1 handlers 1 protocols 0
image 0 aaaaaaaa-0000-0000-0000-000000000001 closed
";

/// No driver is there that would serve a message, and a booted core has no version handler.
#[test]
fn serves_a_volume_without_files(rt: HostRuntime) -> Result<(), Fail> {
    let alloc = rt.alloc();
    let volume = joined(alloc, &[EMPTY])?;
    let said: &[&[u8]] = &[
        b"volume 00000048 ffs2 files 0
policy none fuel 65536
locked images 0 handlers 0 protocols 0
entry 0 lane 0 loads 5 status 800000000000000e
  request 0000000000000020 31564d4d01000040800000000000000108000000000000000000000000000000
  nohandler 4d4d5631-0001-4000-8000-000000000001
  reply -
lane 0 length 0000000000000020 status 800000000000000e data 31564d4d01000040800000000000000108000000000000000000000000000000
",
    ];
    let script =
        b"lanes 1 4\nfill 0 31564d4d01000040800000000000000108000000000000000000000000000000\nring 0\nrun 0\n";
    assert!(rt; is_served(alloc, volume.as_slice(), script, said)?);
    Ok(())
}

/// The driver's handler has another GUID. A cell that no driver is allowed may stand in the script.
#[test]
fn serves_beside_a_driver(rt: HostRuntime) -> Result<(), Fail> {
    let alloc = rt.alloc();
    let volume = sample(alloc)?;
    let said: &[&[u8]] = &[
        SAMPLE_REPORT,
        b"entry 0 lane 1 loads 4 status 800000000000000e
  request 0000000000000018 aaaaaaaa2222333344445555555555550000000000000000
  nohandler aaaaaaaa-2222-3333-4444-555555555555
  reply -
lane 0 length 0000000000000000 status 0000000000000000 data 000000000000000000000000000000000000000000000000
lane 1 length 0000000000000018 status 800000000000000e data aaaaaaaa2222333344445555555555550000000000000000
",
    ];
    let script =
        b"lanes 2 3\ncell io 70 5a\nfill 1 aaaaaaaa2222333344445555555555550000000000000000\nring 1\nrun 1\n";
    assert!(rt; is_served(alloc, volume.as_slice(), script, said)?);
    Ok(())
}

/// A script in which nothing happens leaves the report of the boot, and the lanes.
#[test]
fn serves_a_script_without_rings(rt: HostRuntime) -> Result<(), Fail> {
    let alloc = rt.alloc();
    let volume = sample(alloc)?;
    let said: &[&[u8]] = &[
        SAMPLE_REPORT,
        b"lane 0 length 0000000000000000 status 0000000000000000 data 000000000000000000000000000000000000000000000000
",
    ];
    assert!(rt; is_served(alloc, volume.as_slice(), b"lanes 1 3", said)?);
    Ok(())
}
