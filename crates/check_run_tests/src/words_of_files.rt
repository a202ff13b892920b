//! What `check` takes files for, by their types, their bodies' checksums and their sections. What is expected was worked out from the
//! rules of files.
use memory_runs::is_listed;
use mm_base::NoMemory;
use sample_volumes::{
    COMPRESSED, COMPRESSED_BEHIND, DRIVER, DRIVER_AND_REST, GUID_DEFINED, LONG_SECTION, NO_IMAGE,
    NO_RULES, POLICY_NAME, Part, SHORT_BEHIND, SHORT_SECTION, TEXT, volume_of,
};
use std::alloc::Global;
use std::test::Fail;

/// Whether the volume of these files is listed so.
fn are_listed(
    alloc: Global,
    ffs3: bool,
    parts: &[Part],
    report: &[&[u8]],
) -> Result<bool, NoMemory> {
    let volume = volume_of(alloc, ffs3, parts)?;
    is_listed(alloc, volume.as_slice(), report)
}

/// Files that are no drivers. The first one has the policy's name, and not its type; a pad file and a file whose body is not
/// sound are taken as they are.
const OTHER_FILES: &[Part] = &[
    Part {
        name: POLICY_NAME,
        kind: 0x07,
        attributes: 0,
        off: 0,
        body: &[],
    },
    Part {
        name: b"\xff\xff\xff\xff\xff\xff\xff\xff\xff\xff\xff\xff\xff\xff\xff\xff",
        kind: 0xf0,
        attributes: 0,
        off: 1,
        body: NO_IMAGE,
    },
    Part {
        name: POLICY_NAME,
        kind: 0x02,
        attributes: 0x40,
        off: 0,
        body: NO_RULES,
    },
    Part {
        name: POLICY_NAME,
        kind: 0x02,
        attributes: 0,
        off: 0,
        body: TEXT,
    },
    Part {
        name: b"another file, 01",
        kind: 0x02,
        attributes: 0,
        off: 1,
        body: TEXT,
    },
];

const OTHER_FILES_REPORT: &[&[u8]] = &[
    b"volume 000000f0 ffs2 files 5
file 00000048 4d4d5350-0002-4000-8000-000000000002 type 07 size 00000018 passed
file 00000060 ffffffff-ffff-ffff-ffff-ffffffffffff type f0 size 00000020 pad
file 00000080 4d4d5350-0002-4000-8000-000000000002 type 02 size 0000002c policy
file 000000b0 4d4d5350-0002-4000-8000-000000000002 type 02 size 0000001c passed
file 000000d0 746f6e61-6568-2072-6669-6c652c203031 type 02 size 0000001c passed
",
];

#[test]
fn names_pads_the_policy_and_other_files(rt: HostRuntime) -> Result<(), Fail> {
    assert!(rt; are_listed(rt.alloc(), false, OTHER_FILES, OTHER_FILES_REPORT)?);
    Ok(())
}

/// Drivers whose bodies are not sound, which comes before a fault of their sections.
const UNSOUND: &[Part] = &[
    Part {
        name: b"driver number 01",
        kind: 0x0e,
        attributes: 0,
        off: 1,
        body: DRIVER,
    },
    Part {
        name: b"driver number 02",
        kind: 0x0e,
        attributes: 0x40,
        off: 1,
        body: DRIVER,
    },
    Part {
        name: b"driver number 03",
        kind: 0x0e,
        attributes: 0,
        off: 1,
        body: SHORT_SECTION,
    },
];

const UNSOUND_REPORT: &[&[u8]] = &[
    b"volume 000004b0 ffs2 files 3
file 00000048 76697264-7265-6e20-756d-626572203031 type 0e size 00000174 refused bodysum
file 000001c0 76697264-7265-6e20-756d-626572203032 type 0e size 00000174 refused bodysum
file 00000338 76697264-7265-6e20-756d-626572203033 type 0e size 00000178 refused bodysum
",
];

#[test]
fn refuses_drivers_with_bodies_that_are_not_sound(rt: HostRuntime) -> Result<(), Fail> {
    assert!(rt; are_listed(rt.alloc(), false, UNSOUND, UNSOUND_REPORT)?);
    Ok(())
}

/// Drivers whose sections are not fit.
const UNFIT: &[Part] = &[
    Part {
        name: b"driver number 01",
        kind: 0x0e,
        attributes: 0,
        off: 0,
        body: SHORT_SECTION,
    },
    Part {
        name: b"driver number 02",
        kind: 0x0e,
        attributes: 0,
        off: 0,
        body: LONG_SECTION,
    },
    Part {
        name: b"driver number 03",
        kind: 0x0e,
        attributes: 0x40,
        off: 0,
        body: SHORT_BEHIND,
    },
    Part {
        name: b"driver number 04",
        kind: 0x0e,
        attributes: 0,
        off: 0,
        body: COMPRESSED,
    },
    Part {
        name: b"driver number 05",
        kind: 0x0e,
        attributes: 0,
        off: 0,
        body: COMPRESSED_BEHIND,
    },
    Part {
        name: b"driver number 06",
        kind: 0x0e,
        attributes: 0,
        off: 0,
        body: GUID_DEFINED,
    },
    Part {
        name: b"driver number 07",
        kind: 0x0e,
        attributes: 0,
        off: 0,
        body: NO_IMAGE,
    },
    Part {
        name: b"driver number 08",
        kind: 0x0e,
        attributes: 0x40,
        off: 0,
        body: &[],
    },
];

const UNFIT_REPORT: &[&[u8]] = &[
    b"volume 00000850 ffs2 files 8
file 00000048 76697264-7265-6e20-756d-626572203031 type 0e size 00000178 refused sectionsize
file 000001c0 76697264-7265-6e20-756d-626572203032 type 0e size 0000017c refused sectionsize
file 00000340 76697264-7265-6e20-756d-626572203033 type 0e size 00000184 refused sectionsize
file 000004c8 76697264-7265-6e20-756d-626572203034 type 0e size 00000180 refused compressed
file 00000648 76697264-7265-6e20-756d-626572203035 type 0e size 0000003c refused compressed
file 00000688 76697264-7265-6e20-756d-626572203036 type 0e size 0000018c refused guiddefined
file 00000818 76697264-7265-6e20-756d-626572203037 type 0e size 00000020 refused noimage
file 00000838 76697264-7265-6e20-756d-626572203038 type 0e size 00000018 refused noimage
",
];

#[test]
fn refuses_drivers_by_their_sections(rt: HostRuntime) -> Result<(), Fail> {
    assert!(rt; are_listed(rt.alloc(), false, UNFIT, UNFIT_REPORT)?);
    Ok(())
}

/// Drivers that nothing is wrong with.
const SOUND: &[Part] = &[
    Part {
        name: b"driver number 01",
        kind: 0x0e,
        attributes: 0,
        off: 0,
        body: DRIVER,
    },
    Part {
        name: b"driver number 02",
        kind: 0x0e,
        attributes: 0x40,
        off: 0,
        body: DRIVER,
    },
    Part {
        name: b"driver number 03",
        kind: 0x0e,
        attributes: 0,
        off: 0,
        body: DRIVER_AND_REST,
    },
];

const SOUND_REPORT: &[&[u8]] = &[
    b"volume 000004b0 ffs2 files 3
file 00000048 76697264-7265-6e20-756d-626572203031 type 0e size 00000174 driver
file 000001c0 76697264-7265-6e20-756d-626572203032 type 0e size 00000174 driver
file 00000338 76697264-7265-6e20-756d-626572203033 type 0e size 00000177 driver
",
];

#[test]
fn takes_drivers_that_nothing_is_wrong_with(rt: HostRuntime) -> Result<(), Fail> {
    assert!(rt; are_listed(rt.alloc(), false, SOUND, SOUND_REPORT)?);
    Ok(())
}

/// Large files, and a small one among them.
const LARGE: &[Part] = &[
    Part {
        name: b"driver number 01",
        kind: 0x0e,
        attributes: 0x41,
        off: 0,
        body: DRIVER,
    },
    Part {
        name: POLICY_NAME,
        kind: 0x02,
        attributes: 0x01,
        off: 0,
        body: NO_RULES,
    },
    Part {
        name: b"driver number 02",
        kind: 0x07,
        attributes: 0,
        off: 0,
        body: &[],
    },
    Part {
        name: b"driver number 03",
        kind: 0x0e,
        attributes: 0x01,
        off: 1,
        body: DRIVER,
    },
];

const LARGE_REPORT: &[&[u8]] = &[
    b"volume 00000398 ffs3 files 4
file 00000048 76697264-7265-6e20-756d-626572203031 type 0e size 0000017c driver
file 000001c8 4d4d5350-0002-4000-8000-000000000002 type 02 size 00000034 policy
file 00000200 76697264-7265-6e20-756d-626572203032 type 07 size 00000018 passed
file 00000218 76697264-7265-6e20-756d-626572203033 type 0e size 0000017c refused bodysum
",
];

#[test]
fn lists_large_files(rt: HostRuntime) -> Result<(), Fail> {
    assert!(rt; are_listed(rt.alloc(), true, LARGE, LARGE_REPORT)?);
    Ok(())
}
