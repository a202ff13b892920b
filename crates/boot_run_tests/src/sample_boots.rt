//! Boots of volumes in memory whose report is known whole. What is expected was worked out by hand from the formats.
use memory_runs::is_booted;
use sample_volumes::{EMPTY, ONE_FILE, joined};
use std::test::Fail;

const EMPTY_REPORT: &[&[u8]] = &[
    b"volume 00000048 ffs2 files 0
policy none fuel 65536
locked images 0 handlers 0 protocols 0
",
];

#[test]
fn boots_a_volume_without_files(rt: HostRuntime) -> Result<(), Fail> {
    let alloc = rt.alloc();
    let volume = joined(alloc, &[EMPTY])?;
    assert!(rt; is_booted(alloc, volume.as_slice(), EMPTY_REPORT)?);
    Ok(())
}

const ONE_FILE_REPORT: &[&[u8]] = &[
    b"volume 000001c0 ffs2 files 1
file 00000048 aaaaaaaa-0000-0000-0000-000000000001 type 0e size 00000174 driver
policy none fuel 65536
start aaaaaaaa-0000-0000-0000-000000000001 round 1 returned 0000000000000000
locked images 1 handlers 1 protocols 0
image 0 aaaaaaaa-0000-0000-0000-000000000001 closed
",
];

#[test]
fn boots_a_volume_with_one_file(rt: HostRuntime) -> Result<(), Fail> {
    let alloc = rt.alloc();
    let volume = joined(alloc, ONE_FILE)?;
    assert!(rt; is_booted(alloc, volume.as_slice(), ONE_FILE_REPORT)?);
    Ok(())
}
