//! Runs of `serve` whose entries the sample driver is asked for, under several policies. What is expected was worked out by hand from
//! the formats.
use memory_runs::is_served;
use mm_base::NoMemory;
use sample_volumes::{DRIVER, Layout, ONE_FILE, POLICY_NAME, Part, joined, volume_of};
use std::alloc::Global;
use std::test::Fail;

/// A message of eight zeros for the sample driver's handler, which reads port 70 (hexadecimal) into the first of them.
const SCRIPT: &[u8] =
    b"lanes 1 4\nfill 0 1111111122223333444455555555555508000000000000000000000000000000\nring 0\nrun 0\n";

/// The same, where the port holds 5A (hexadecimal) at the start.
const CELL_SCRIPT: &[u8] =
    b"lanes 1 4\ncell io 70 5a\nfill 0 1111111122223333444455555555555508000000000000000000000000000000\nring 0\nrun 0\n";

/// No rule lets the driver read the port.
const DENIED_REPORT: &[&[u8]] = &[
    b"volume 000001c0 ffs2 files 1
file 00000048 aaaaaaaa-0000-0000-0000-000000000001 type 0e size 00000174 driver
policy none fuel 65536
start aaaaaaaa-0000-0000-0000-000000000001 round 1 returned 0000000000000000
locked images 1 handlers 1 protocols 0
image 0 aaaaaaaa-0000-0000-0000-000000000001 closed
entry 0 lane 0 loads 5 status 800000000000000e
  request 0000000000000020 1111111122223333444455555555555508000000000000000000000000000000
  dispatched 11111111-2222-3333-4444-555555555555
  handler 0 returned 800000000000000f
    deny io read 0000000000000070 1 norule
  reply 1111111122223333444455555555555508000000000000000000000000000000
lane 0 length 0000000000000020 status 800000000000000e data 1111111122223333444455555555555508000000000000000000000000000000
",
];

/// Whether the sample volume and the script are served so.
fn is_denied(alloc: Global, report: &[&[u8]]) -> Result<bool, NoMemory> {
    let volume = joined(alloc, ONE_FILE)?;
    is_served(alloc, volume.as_slice(), SCRIPT, report)
}

#[test]
fn denies_what_no_rule_allows(rt: HostRuntime) -> Result<(), Fail> {
    assert!(rt; is_denied(rt.alloc(), DENIED_REPORT)?);
    Ok(())
}

/// The sample driver's file.
const SAMPLE: Part = Part {
    name: b"\xaa\xaa\xaa\xaa\0\0\0\0\0\0\0\0\0\0\0\x01",
    kind: 0x0e,
    attributes: 0,
    off: 0,
    body: DRIVER,
};

/// A policy that gives 65,536 of fuel, and one rule: the sample driver may read port 70 (hexadecimal).
const ALL_FUEL: &[Layout] = &[Layout {
    length: 60,
    pieces: &[
        (0, b"\x3c\0\0\x19MMSP\x01\0\0\0\x01\0\0\0\0\0\x01\0"),
        (20, b"\x02\0\x01\0\x01\0\0\0\xaa\xaa\xaa\xaa"),
        (43, b"\x01\x70"),
        (52, b"\x01"),
    ],
}];

const RULED: &[Part] = &[
    Part {
        name: POLICY_NAME,
        kind: 0x02,
        attributes: 0,
        off: 0,
        body: ALL_FUEL,
    },
    SAMPLE,
];

const RULED_REPORT: &[&[u8]] = &[
    b"volume 00000218 ffs2 files 2
file 00000048 4d4d5350-0002-4000-8000-000000000002 type 02 size 00000054 policy
file 000000a0 aaaaaaaa-0000-0000-0000-000000000001 type 0e size 00000174 driver
policy rules 1 fuel 65536
start aaaaaaaa-0000-0000-0000-000000000001 round 1 returned 0000000000000000
locked images 1 handlers 1 protocols 0
image 0 aaaaaaaa-0000-0000-0000-000000000001 closed
entry 0 lane 0 loads 5 status 0000000000000000
  request 0000000000000020 1111111122223333444455555555555508000000000000000000000000000000
  dispatched 11111111-2222-3333-4444-555555555555
  handler 0 returned 0000000000000000
  reply 1111111122223333444455555555555508000000000000005a00000000000000
lane 0 length 0000000000000020 status 0000000000000000 data 1111111122223333444455555555555508000000000000005a00000000000000
",
];

/// Whether the volume of these files and the script, which opens the port, are served so.
fn are_served(alloc: Global, files: &[Part], report: &[&[u8]]) -> Result<bool, NoMemory> {
    let volume = volume_of(alloc, false, files)?;
    is_served(alloc, volume.as_slice(), CELL_SCRIPT, report)
}

#[test]
fn reads_what_the_script_opened(rt: HostRuntime) -> Result<(), Fail> {
    assert!(rt; are_served(rt.alloc(), RULED, RULED_REPORT)?);
    Ok(())
}

/// The same policy with 10 of fuel.
const TEN_OF_FUEL: &[Layout] = &[Layout {
    length: 60,
    pieces: &[
        (0, b"\x3c\0\0\x19MMSP\x01\0\0\0\x01\0\0\0\x0a\0\0\0"),
        (20, b"\x02\0\x01\0\x01\0\0\0\xaa\xaa\xaa\xaa"),
        (43, b"\x01\x70"),
        (52, b"\x01"),
    ],
}];

const SHORT: &[Part] = &[
    Part {
        name: POLICY_NAME,
        kind: 0x02,
        attributes: 0,
        off: 0,
        body: TEN_OF_FUEL,
    },
    SAMPLE,
];

/// The eleventh unit would be that of the service which registers the handler: the driver is withdrawn, and none serves the message.
const SHORT_REPORT: &[&[u8]] = &[
    b"volume 00000218 ffs2 files 2
file 00000048 4d4d5350-0002-4000-8000-000000000002 type 02 size 00000054 policy
file 000000a0 aaaaaaaa-0000-0000-0000-000000000001 type 0e size 00000174 driver
policy rules 1 fuel 10
start aaaaaaaa-0000-0000-0000-000000000001 round 1 fuel at 000000008000011a
locked images 0 handlers 0 protocols 0
entry 0 lane 0 loads 5 status 800000000000000e
  request 0000000000000020 1111111122223333444455555555555508000000000000000000000000000000
  nohandler 11111111-2222-3333-4444-555555555555
  reply -
lane 0 length 0000000000000020 status 800000000000000e data 1111111122223333444455555555555508000000000000000000000000000000
",
];

#[test]
fn serves_nothing_where_the_driver_was_withdrawn(rt: HostRuntime) -> Result<(), Fail> {
    assert!(rt; are_served(rt.alloc(), SHORT, SHORT_REPORT)?);
    Ok(())
}
