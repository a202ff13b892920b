//! Runs of `check` over volumes with a policy file. What is expected was worked out from the form of policies.
use memory_runs::{is_listed, is_refused};
use mm_base::{Bytes, List, NoMemory, PolicyKind, VolumeKind};
use mm_run::{BadKind, Status};
use sample_volumes::{
    DRIVER, Layout, NO_RULES, ONE_RULE, POLICY_NAME, Part, put_file, put_parts, volume_around,
};
use std::alloc::Global;
use std::test::Fail;

/// The driver file of the sample volume.
const SAMPLE_DRIVER: &[Part] = &[Part {
    name: b"\xaa\xaa\xaa\xaa\0\0\0\0\0\0\0\0\0\0\0\x01",
    kind: 0x0e,
    attributes: 0,
    off: 0,
    body: DRIVER,
}];

/// A policy file whose checksum is off by so much.
const fn policy_file(off: u8) -> Part {
    Part {
        name: POLICY_NAME,
        kind: 0x02,
        attributes: 0,
        off,
        body: &[],
    }
}

/// A section by its type, with so many bytes: those of the policy with one rule, and zeros.
type Row = (u8, usize);

/// Puts a section behind others, after what fills the last one up to a multiple of 4.
fn put_section(body: &mut Bytes, row: &Row) -> Result<(), NoMemory> {
    let (kind, length) = *row;
    for _ in 0..(4 - body.len() % 4) % 4 {
        body.push(0)?;
    }
    let [low, high, ..] = (length as u64).wrapping_add(4).to_le_bytes();
    body.extend(&[low, high, 0, kind])?;
    for at in 0..length {
        body.push(byte_of_policy(at))?;
    }
    Ok(())
}

/// A byte of the policy with one rule; 0 behind it.
fn byte_of_policy(at: usize) -> u8 {
    for (from, piece) in ONE_RULE {
        if *from <= at && at - *from < piece.len() {
            return piece[at - *from];
        }
    }
    0
}

/// The body of a policy file: these sections.
fn body_of(alloc: Global, rows: &[Row]) -> Result<Bytes, NoMemory> {
    let mut body = List::new(alloc);
    for row in rows {
        put_section(&mut body, row)?;
    }
    Ok(body)
}

/// A volume of the sample's driver and a policy file of these sections, whose checksum is off by so much.
fn volume_with(alloc: Global, off: u8, rows: &[Row]) -> Result<Bytes, NoMemory> {
    let mut files = List::new(alloc);
    put_parts(&mut files, alloc, SAMPLE_DRIVER)?;
    let body = body_of(alloc, rows)?;
    put_file(&mut files, alloc, &policy_file(off), body.as_slice())?;
    volume_around(alloc, false, files.as_slice())
}

const ONE_RULE_REPORT: &[&[u8]] = &[
    b"volume 00000218 ffs2 files 2
file 00000048 aaaaaaaa-0000-0000-0000-000000000001 type 0e size 00000174 driver
file 000001c0 4d4d5350-0002-4000-8000-000000000002 type 02 size 00000054 policy
",
];

#[test]
fn lists_a_volume_with_a_policy(rt: HostRuntime) -> Result<(), Fail> {
    let alloc = rt.alloc();
    let volume = volume_with(alloc, 0, &[(0x19, 56)])?;
    assert!(rt; is_listed(alloc, volume.as_slice(), ONE_RULE_REPORT)?);
    Ok(())
}

/// Sections of a policy file, whose checksum is off by so much, and what the volume is refused for.
struct Case {
    name: &'static str,
    off: u8,
    rows: &'static [Row],
    at: u32,
    kind: PolicyKind,
}

const CASES: &[Case] = &[
    Case {
        name: "a policy less one byte",
        off: 0,
        rows: &[(0x19, 55)],
        at: 55,
        kind: PolicyKind::Short,
    },
    Case {
        name: "a policy and one byte",
        off: 0,
        rows: &[(0x19, 57)],
        at: 56,
        kind: PolicyKind::Trailing,
    },
    Case {
        name: "a raw section without bytes",
        off: 0,
        rows: &[(0x19, 0)],
        at: 0,
        kind: PolicyKind::Short,
    },
    Case {
        name: "no section",
        off: 0,
        rows: &[],
        at: 0,
        kind: PolicyKind::File,
    },
    Case {
        name: "a section that isn't raw",
        off: 0,
        rows: &[(0x15, 56)],
        at: 0,
        kind: PolicyKind::File,
    },
    Case {
        name: "a body that isn't sound",
        off: 1,
        rows: &[(0x19, 56)],
        at: 0,
        kind: PolicyKind::File,
    },
    Case {
        name: "two raw sections, the first of which is short",
        off: 0,
        rows: &[(0x19, 15), (0x19, 56)],
        at: 15,
        kind: PolicyKind::Short,
    },
];

/// The name of the first case that ends otherwise.
fn first_wrong(alloc: Global) -> Result<Option<&'static str>, NoMemory> {
    for case in CASES {
        let volume = volume_with(alloc, case.off, case.rows)?;
        let status = Status::BadVolume {
            at: case.at,
            kind: BadKind::Policy(case.kind),
        };
        if !is_refused(alloc, volume.as_slice(), status)? {
            return Ok(Some(case.name));
        }
    }
    Ok(None)
}

#[test]
fn refuses_policies(rt: HostRuntime) -> Result<(), Fail> {
    assert_eq!(rt; first_wrong(rt.alloc())?, None);
    Ok(())
}

/// Two raw sections, the first of which is the policy; a compressed section in front doesn't matter.
#[test]
fn reads_the_first_raw_section(rt: HostRuntime) -> Result<(), Fail> {
    let alloc = rt.alloc();
    let volume = volume_with(alloc, 0, &[(0x01, 4), (0x19, 56), (0x19, 1)])?;
    let report: &[&[u8]] = &[
        b"volume 00000228 ffs2 files 2
file 00000048 aaaaaaaa-0000-0000-0000-000000000001 type 0e size 00000174 driver
file 000001c0 4d4d5350-0002-4000-8000-000000000002 type 02 size 00000061 policy
",
    ];
    assert!(rt; is_listed(alloc, volume.as_slice(), report)?);
    Ok(())
}

/// Whether a policy file with this behind its raw section ends so.
fn ends_with_behind(alloc: Global, behind: &[u8], status: Status) -> Result<bool, NoMemory> {
    let mut body = body_of(alloc, &[(0x19, 56)])?;
    body.extend(behind)?;
    let mut files = List::new(alloc);
    put_file(&mut files, alloc, &policy_file(0), body.as_slice())?;
    let volume = volume_around(alloc, false, files.as_slice())?;
    is_refused(alloc, volume.as_slice(), status)
}

/// A section of 3 bytes behind the raw one.
#[test]
fn refuses_a_bad_section_behind(rt: HostRuntime) -> Result<(), Fail> {
    let status = Status::BadVolume {
        at: 0,
        kind: BadKind::Policy(PolicyKind::File),
    };
    assert!(rt; ends_with_behind(rt.alloc(), b"\x03\0\0\x19", status)?);
    Ok(())
}

/// Two policy files: the first is the policy, and the second, which has no section, is not looked at.
fn first_file_counts(alloc: Global) -> Result<bool, NoMemory> {
    let mut files = List::new(alloc);
    put_parts(
        &mut files,
        alloc,
        &[
            Part {
                name: POLICY_NAME,
                kind: 0x02,
                attributes: 0,
                off: 0,
                body: NO_RULES,
            },
            policy_file(0),
        ],
    )?;
    let volume = volume_around(alloc, false, files.as_slice())?;
    let report: &[&[u8]] = &[
        b"volume 00000090 ffs2 files 2
file 00000048 4d4d5350-0002-4000-8000-000000000002 type 02 size 0000002c policy
file 00000078 4d4d5350-0002-4000-8000-000000000002 type 02 size 00000018 passed
",
    ];
    is_listed(alloc, volume.as_slice(), report)
}

#[test]
fn takes_the_first_policy_file(rt: HostRuntime) -> Result<(), Fail> {
    assert!(rt; first_file_counts(rt.alloc())?);
    Ok(())
}

/// A volume with a fault of its own behind a bad policy file: the volume's fault is told.
fn volume_first(alloc: Global) -> Result<bool, NoMemory> {
    let mut files = List::new(alloc);
    put_file(&mut files, alloc, &policy_file(0), b"")?;
    files.extend(b"\x01\0\0\0\0\0\0\0\0\0\0\0\0\0\0\0\0\xaa\x0e\0\x18\0\0\xf8")?;
    let volume = volume_around(alloc, false, files.as_slice())?;
    let status = Status::BadVolume {
        at: 96,
        kind: BadKind::Volume(VolumeKind::FileSum),
    };
    is_refused(alloc, volume.as_slice(), status)
}

#[test]
fn tells_the_fault_of_the_volume_first(rt: HostRuntime) -> Result<(), Fail> {
    assert!(rt; volume_first(rt.alloc())?);
    Ok(())
}
