//! Boots whose report is known whole: a usual volume, drivers in rounds, and the sample driver under a policy. What is expected was worked
//! out by hand from the formats.
use crate::code::{INSTALLS, RETURNS, WANTS};
use memory_runs::is_booted;
use mm_base::NoMemory;
use sample_volumes::{
    Contents, DRIVER, Driver, Layout, POLICY_NAME, Part, TRUE, usual_volume, volume_of, volume_with,
};
use std::alloc::Global;
use std::test::Fail;

/// The driver for x64 and the compressed one are no drivers that could wait.
const USUAL_REPORT: &[&[u8]] = &[
    b"volume 000005d0 ffs2 files 7
file 00000078 4d4d5350-0002-4000-8000-000000000002 type 02 size 0000002c policy
file 000000a8 20656874-6f63-6572-2c20-6e756d626572 type 0d size 0000001c passed
file 000000c8 76697264-7265-6e20-756d-626572203031 type 0e size 00000184 native
file 00000250 76697264-7265-6e20-756d-626572203032 type 0e size 0000003c refused compressed
file 00000290 76697264-7265-6e20-756d-626572203033 type 0e size 00000184 driver
file 00000418 76697264-7265-6e20-756d-626572203034 type 0e size 00000194 driver
file 000005b0 ffffffff-ffff-ffff-ffff-ffffffffffff type f0 size 0000001c pad
policy rules 0 fuel 65536
start 76697264-7265-6e20-756d-626572203033 round 1 returned 0000000000000000
start 76697264-7265-6e20-756d-626572203034 round 1 returned 0000000000000000
locked images 2 handlers 2 protocols 0
image 0 76697264-7265-6e20-756d-626572203033 open
image 1 76697264-7265-6e20-756d-626572203034 open
",
];

#[test]
fn boots_a_usual_volume(rt: HostRuntime) -> Result<(), Fail> {
    let alloc = rt.alloc();
    let volume = usual_volume(alloc)?;
    assert!(rt; is_booted(alloc, volume.as_slice(), USUAL_REPORT)?);
    Ok(())
}

/// One that wants the protocol of the second one; that; one that starts after the first one; and one without an expression.
const IN_ROUNDS: &[Driver] = &[
    (b"driver number 01", &[WANTS, RETURNS]),
    (b"driver number 02", &[TRUE, INSTALLS]),
    (
        b"driver number 03",
        &[
            (0x1c, Contents::Bytes(b"\x01driver number 01\x08")),
            RETURNS,
        ],
    ),
    (b"driver number 04", &[RETURNS]),
];

const ROUNDS_REPORT: &[&[u8]] = &[
    b"volume 00000640 ffs2 files 4
file 00000048 76697264-7265-6e20-756d-626572203031 type 0e size 00000184 driver
file 000001d0 76697264-7265-6e20-756d-626572203032 type 0e size 00000174 driver
file 00000348 76697264-7265-6e20-756d-626572203033 type 0e size 00000184 driver
file 000004d0 76697264-7265-6e20-756d-626572203034 type 0e size 0000016c driver
policy none fuel 65536
start 76697264-7265-6e20-756d-626572203032 round 1 returned 0000000000000000
start 76697264-7265-6e20-756d-626572203031 round 2 returned 0000000000000000
start 76697264-7265-6e20-756d-626572203033 round 2 returned 0000000000000000
waiting 76697264-7265-6e20-756d-626572203034
locked images 3 handlers 0 protocols 1
image 0 76697264-7265-6e20-756d-626572203032 closed
image 1 76697264-7265-6e20-756d-626572203031 closed
image 2 76697264-7265-6e20-756d-626572203033 closed
",
];

/// Whether the volume of those drivers is booted so.
fn are_in_rounds(alloc: Global) -> Result<bool, NoMemory> {
    let volume = volume_with(alloc, &[], IN_ROUNDS, &[])?;
    is_booted(alloc, volume.as_slice(), ROUNDS_REPORT)
}

#[test]
fn starts_drivers_in_rounds(rt: HostRuntime) -> Result<(), Fail> {
    assert!(rt; are_in_rounds(rt.alloc())?);
    Ok(())
}

/// The sample driver's file.
const SAMPLE: Part = Part {
    name: b"\xaa\xaa\xaa\xaa\0\0\0\0\0\0\0\0\0\0\0\x01",
    kind: 0x0e,
    attributes: 0,
    off: 0,
    body: DRIVER,
};

/// A policy that gives 65,536 of fuel, and one rule: the sample driver may read port 70 (hexadecimal).
const ALL_FUEL: &[Layout] = &[Layout {
    length: 60,
    pieces: &[
        (0, b"\x3c\0\0\x19MMSP\x01\0\0\0\x01\0\0\0\0\0\x01\0"),
        (20, b"\x02\0\x01\0\x01\0\0\0\xaa\xaa\xaa\xaa"),
        (43, b"\x01\x70"),
        (52, b"\x01"),
    ],
}];

const RULED: &[Part] = &[
    Part {
        name: POLICY_NAME,
        kind: 0x02,
        attributes: 0,
        off: 0,
        body: ALL_FUEL,
    },
    SAMPLE,
];

const RULED_REPORT: &[&[u8]] = &[
    b"volume 00000218 ffs2 files 2
file 00000048 4d4d5350-0002-4000-8000-000000000002 type 02 size 00000054 policy
file 000000a0 aaaaaaaa-0000-0000-0000-000000000001 type 0e size 00000174 driver
policy rules 1 fuel 65536
start aaaaaaaa-0000-0000-0000-000000000001 round 1 returned 0000000000000000
locked images 1 handlers 1 protocols 0
image 0 aaaaaaaa-0000-0000-0000-000000000001 closed
",
];

/// Whether the volume of these files is booted so.
fn are_booted(alloc: Global, files: &[Part], report: &[&[u8]]) -> Result<bool, NoMemory> {
    let volume = volume_of(alloc, false, files)?;
    is_booted(alloc, volume.as_slice(), report)
}

#[test]
fn boots_the_sample_driver_under_a_policy(rt: HostRuntime) -> Result<(), Fail> {
    assert!(rt; are_booted(rt.alloc(), RULED, RULED_REPORT)?);
    Ok(())
}

/// The same policy with 10 of fuel.
const TEN_OF_FUEL: &[Layout] = &[Layout {
    length: 60,
    pieces: &[
        (0, b"\x3c\0\0\x19MMSP\x01\0\0\0\x01\0\0\0\x0a\0\0\0"),
        (20, b"\x02\0\x01\0\x01\0\0\0\xaa\xaa\xaa\xaa"),
        (43, b"\x01\x70"),
        (52, b"\x01"),
    ],
}];

const SHORT: &[Part] = &[
    Part {
        name: POLICY_NAME,
        kind: 0x02,
        attributes: 0,
        off: 0,
        body: TEN_OF_FUEL,
    },
    SAMPLE,
];

/// The eleventh unit would be that of the service, which the CALL at 11A (hexadecimal) of the image asks for.
const SHORT_REPORT: &[&[u8]] = &[
    b"volume 00000218 ffs2 files 2
file 00000048 4d4d5350-0002-4000-8000-000000000002 type 02 size 00000054 policy
file 000000a0 aaaaaaaa-0000-0000-0000-000000000001 type 0e size 00000174 driver
policy rules 1 fuel 10
start aaaaaaaa-0000-0000-0000-000000000001 round 1 fuel at 000000008000011a
locked images 0 handlers 0 protocols 0
",
];

#[test]
fn withdraws_the_sample_driver_with_too_little_fuel(rt: HostRuntime) -> Result<(), Fail> {
    assert!(rt; are_booted(rt.alloc(), SHORT, SHORT_REPORT)?);
    Ok(())
}
