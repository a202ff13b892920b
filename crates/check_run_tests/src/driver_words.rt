//! What `check` takes driver files for: a usual volume, and names that stand twice. What is expected was worked out from the rules of
//! files.
use memory_runs::is_listed;
use mm_base::NoMemory;
use sample_volumes::{
    Contents, Driver, NATIVE, NO_RULES, POLICY_NAME, Part, SOUND, TEXT, TRUE, usual_volume,
    volume_with,
};
use std::alloc::Global;
use std::test::Fail;

const USUAL_REPORT: &[&[u8]] = &[
    b"volume 000005d0 ffs2 files 7
file 00000078 4d4d5350-0002-4000-8000-000000000002 type 02 size 0000002c policy
file 000000a8 20656874-6f63-6572-2c20-6e756d626572 type 0d size 0000001c passed
file 000000c8 76697264-7265-6e20-756d-626572203031 type 0e size 00000184 native
file 00000250 76697264-7265-6e20-756d-626572203032 type 0e size 0000003c refused compressed
file 00000290 76697264-7265-6e20-756d-626572203033 type 0e size 00000184 driver
file 00000418 76697264-7265-6e20-756d-626572203034 type 0e size 00000194 driver
file 000005b0 ffffffff-ffff-ffff-ffff-ffffffffffff type f0 size 0000001c pad
",
];

/// The first file stands behind the extended header, and so the pad file around that isn't listed.
#[test]
fn lists_a_usual_volume(rt: HostRuntime) -> Result<(), Fail> {
    let alloc = rt.alloc();
    let volume = usual_volume(alloc)?;
    assert!(rt; is_listed(alloc, volume.as_slice(), USUAL_REPORT)?);
    Ok(())
}

/// Whether the volume of these files, with some files in front, is listed so.
fn are_listed(
    alloc: Global,
    front: &[Part],
    drivers: &[Driver],
    report: &[&[u8]],
) -> Result<bool, NoMemory> {
    let volume = volume_with(alloc, front, drivers, &[])?;
    is_listed(alloc, volume.as_slice(), report)
}

/// Names that an earlier driver or native image has; also behind another duplicate.
const TWICE: &[Driver] = &[
    (b"driver number 01", &[TRUE, SOUND]),
    (b"driver number 02", &[TRUE, NATIVE]),
    (b"driver number 01", &[TRUE, SOUND]),
    (b"driver number 02", &[TRUE, NATIVE]),
    (b"driver number 01", &[NATIVE]),
    (b"driver number 02", &[SOUND]),
    (b"driver number 03", &[SOUND]),
];

const TWICE_REPORT: &[&[u8]] = &[
    b"volume 00000a78 ffs2 files 7
file 00000048 76697264-7265-6e20-756d-626572203031 type 0e size 00000174 driver
file 000001c0 76697264-7265-6e20-756d-626572203032 type 0e size 00000174 native
file 00000338 76697264-7265-6e20-756d-626572203031 type 0e size 00000174 refused duplicate
file 000004b0 76697264-7265-6e20-756d-626572203032 type 0e size 00000174 refused duplicate
file 00000628 76697264-7265-6e20-756d-626572203031 type 0e size 0000016c refused duplicate
file 00000798 76697264-7265-6e20-756d-626572203032 type 0e size 0000016c refused duplicate
file 00000908 76697264-7265-6e20-756d-626572203033 type 0e size 0000016c driver
",
];

#[test]
fn refuses_a_name_that_a_driver_or_a_native_image_has(rt: HostRuntime) -> Result<(), Fail> {
    assert!(rt; are_listed(rt.alloc(), &[], TWICE, TWICE_REPORT)?);
    Ok(())
}

/// Files of other types, with names that drivers have behind them.
const NAMESAKES: &[Part] = &[
    Part {
        name: b"driver number 01",
        kind: 0x07,
        attributes: 0,
        off: 0,
        body: TEXT,
    },
    Part {
        name: b"driver number 02",
        kind: 0xf0,
        attributes: 0,
        off: 0,
        body: TEXT,
    },
    Part {
        name: POLICY_NAME,
        kind: 0x02,
        attributes: 0,
        off: 0,
        body: NO_RULES,
    },
];

/// An image of no machine.
const NO_MACHINE: (u8, Contents) = (0x10, Contents::Image(336, &[(0x44, b"\0\0")]));

/// An expression that is refused.
const NO_OPCODE: (u8, Contents) = (0x1c, Contents::Bytes(b"\x09"));

/// Names that stood before in files of other types, and in drivers that are refused.
const ONCE: &[Driver] = &[
    (b"driver number 01", &[TRUE, SOUND]),
    (b"driver number 02", &[TRUE, SOUND]),
    (b"PSMM\x02\0\0\x40\x80\0\0\0\0\0\0\x02", &[TRUE, SOUND]),
    (b"driver number 03", &[TRUE]),
    (b"driver number 03", &[TRUE, NO_MACHINE]),
    (b"driver number 03", &[NO_OPCODE, SOUND]),
    (b"driver number 03", &[TRUE, SOUND]),
];

const ONCE_REPORT: &[&[u8]] = &[
    b"volume 000009a8 ffs2 files 10
file 00000048 76697264-7265-6e20-756d-626572203031 type 07 size 0000001c passed
file 00000068 76697264-7265-6e20-756d-626572203032 type f0 size 0000001c pad
file 00000088 4d4d5350-0002-4000-8000-000000000002 type 02 size 0000002c policy
file 000000b8 76697264-7265-6e20-756d-626572203031 type 0e size 00000174 driver
file 00000230 76697264-7265-6e20-756d-626572203032 type 0e size 00000174 driver
file 000003a8 4d4d5350-0002-4000-8000-000000000002 type 0e size 00000174 driver
file 00000520 76697264-7265-6e20-756d-626572203033 type 0e size 0000001e refused noimage
file 00000540 76697264-7265-6e20-756d-626572203033 type 0e size 00000174 refused pe machine at 00000044
file 000006b8 76697264-7265-6e20-756d-626572203033 type 0e size 00000174 refused depex unknown
file 00000830 76697264-7265-6e20-756d-626572203033 type 0e size 00000174 driver
",
];

#[test]
fn takes_a_name_that_only_other_files_have(rt: HostRuntime) -> Result<(), Fail> {
    assert!(rt; are_listed(rt.alloc(), NAMESAKES, ONCE, ONCE_REPORT)?);
    Ok(())
}

/// Files with the name of the first one, of which all but the last have something else wrong.
const WORSE: &[Driver] = &[
    (b"driver number 01", &[TRUE, SOUND]),
    (b"driver number 01", &[TRUE]),
    (b"driver number 01", &[TRUE, NO_MACHINE]),
    (b"driver number 01", &[NO_OPCODE, NO_MACHINE]),
    (b"driver number 01", &[NO_OPCODE, SOUND]),
    (b"driver number 01", &[SOUND]),
];

const WORSE_REPORT: &[&[u8]] = &[
    b"volume 000007b8 ffs2 files 6
file 00000048 76697264-7265-6e20-756d-626572203031 type 0e size 00000174 driver
file 000001c0 76697264-7265-6e20-756d-626572203031 type 0e size 0000001e refused noimage
file 000001e0 76697264-7265-6e20-756d-626572203031 type 0e size 00000174 refused pe machine at 00000044
file 00000358 76697264-7265-6e20-756d-626572203031 type 0e size 00000174 refused pe machine at 00000044
file 000004d0 76697264-7265-6e20-756d-626572203031 type 0e size 00000174 refused depex unknown
file 00000648 76697264-7265-6e20-756d-626572203031 type 0e size 0000016c refused duplicate
",
];

#[test]
fn judges_the_name_last(rt: HostRuntime) -> Result<(), Fail> {
    assert!(rt; are_listed(rt.alloc(), &[], WORSE, WORSE_REPORT)?);
    Ok(())
}
