//! Volumes at the limits. What is expected was worked out by hand from the formats.
use crate::texts::{begun, put_many, writes};
use memory_runs::{CHECK, is_listed, is_refused, many};
use mm_base::{Bytes, List, NoMemory, PolicyKind};
use mm_run::{BadKind, Status};
use sample_volumes::{DRIVER, IMAGE, POLICY_NAME, Part, edited, joined, put_file, volume_around};
use std::alloc::Global;
use std::test::Fail;

/// A file of this type with these attributes and the sample driver's name.
const fn file_of(kind: u8, attributes: u8) -> Part {
    Part {
        name: b"\xaa\xaa\xaa\xaa\0\0\0\0\0\0\0\0\0\0\0\x01",
        kind,
        attributes,
        off: 0,
        body: &[],
    }
}

/// A volume with this file alone.
fn volume_of_one(alloc: Global, ffs3: bool, file: &Part, body: &[u8]) -> Result<Bytes, NoMemory> {
    let mut files = List::new(alloc);
    put_file(&mut files, alloc, file, body)?;
    volume_around(alloc, ffs3, files.as_slice())
}

/// Whether a file up to the end of a volume of all bytes is listed so.
fn fills_volume(
    alloc: Global,
    ffs3: bool,
    file: &Part,
    body: &[u8],
    report: &[u8],
) -> Result<bool, NoMemory> {
    let volume = volume_of_one(alloc, ffs3, file, body)?;
    let whole = volume.len() == 16_777_216;
    let listed = writes(alloc, CHECK, volume.as_slice(), report, false)?;
    Ok(whole && listed)
}

/// The body of a driver file up to the end: the sample's sections, and a raw one of 16,776,772 bytes.
fn driver_to_end(alloc: Global) -> Result<Bytes, NoMemory> {
    let mut body = joined(alloc, DRIVER)?;
    body.extend(b"\x44\xfe\xff\x19")?;
    let filled = many(alloc, 16_776_768, 0xa5)?;
    body.extend(filled.as_slice())?;
    Ok(body)
}

/// A driver file whose bytes are all summed.
#[test]
fn a_driver_file_up_to_the_end(rt: HostRuntime) -> Result<(), Fail> {
    let alloc = rt.alloc();
    let body = driver_to_end(alloc)?;
    let listed = fills_volume(
        alloc,
        false,
        &file_of(0x0e, 0x40),
        body.as_slice(),
        b"volume 01000000 ffs2 files 1
file 00000048 aaaaaaaa-0000-0000-0000-000000000001 type 0e size 00ffffb8 driver
",
    )?;
    assert!(rt; listed);
    Ok(())
}

/// A large file, whose header has 32 bytes.
#[test]
fn a_large_file_up_to_the_end(rt: HostRuntime) -> Result<(), Fail> {
    let alloc = rt.alloc();
    let body = many(alloc, 16_777_112, 0xa5)?;
    let listed = fills_volume(
        alloc,
        true,
        &file_of(0x02, 0x41),
        body.as_slice(),
        b"volume 01000000 ffs3 files 1
file 00000048 aaaaaaaa-0000-0000-0000-000000000001 type 02 size 00ffffb8 passed
",
    )?;
    assert!(rt; listed);
    Ok(())
}

/// The body of a policy file: a raw section with a policy of 1,000,000 of fuel and so many rules, each of which lets all images read
/// port 70.
fn policy_of(alloc: Global, rules: u16) -> Result<Bytes, NoMemory> {
    let [low, high] = rules.to_le_bytes();
    let size = (rules as u32).wrapping_mul(40).wrapping_add(20);
    let [first, second, third, _] = size.to_le_bytes();
    let mut body = begun(alloc, &[first, second, third, 0x19])?;
    body.extend(b"MMSP\x01\0\0\0")?;
    body.extend(&[low, high, 0, 0])?;
    body.extend(b"\x40\x42\x0f\0")?;
    put_many(
        &mut body,
        b"\x02\0\x01\0\x01\0\0\0\0\0\0\0\0\0\0\0\0\0\0\0\0\0\0\0\x70\0\0\0\0\0\0\0\x01\0\0\0\0\0\0\0",
        rules as usize,
    )?;
    Ok(body)
}

/// A volume of a policy file with so many rules.
fn volume_of_rules(alloc: Global, rules: u16) -> Result<Bytes, NoMemory> {
    let mut policy = file_of(0x02, 0);
    policy.name = POLICY_NAME;
    let body = policy_of(alloc, rules)?;
    volume_of_one(alloc, false, &policy, body.as_slice())
}

const RULES_REPORT: &[&[u8]] = &[
    b"volume 0000a078 ffs2 files 1
file 00000048 4d4d5350-0002-4000-8000-000000000002 type 02 size 0000a02c policy
",
];

/// As many rules as there may be, and one more.
#[test]
fn all_rules(rt: HostRuntime) -> Result<(), Fail> {
    let alloc = rt.alloc();
    let most = volume_of_rules(alloc, 1_024)?;
    let more = volume_of_rules(alloc, 1_025)?;
    let status = Status::BadVolume {
        at: 8,
        kind: BadKind::Policy(PolicyKind::Count),
    };
    let all = is_listed(alloc, most.as_slice(), RULES_REPORT)?
        && is_refused(alloc, more.as_slice(), status)?;
    assert!(rt; all);
    Ok(())
}

/// The body of a driver file: an expression of 256 operands TRUE, which are joined by 255 times AND, and the sample image with another
/// size where it is loaded.
fn deep_driver(alloc: Global, size: &'static [u8]) -> Result<Bytes, NoMemory> {
    let mut body = begun(alloc, b"\x04\x02\0\x1c")?;
    put_many(&mut body, b"\x06", 256)?;
    put_many(&mut body, b"\x03", 255)?;
    body.extend(b"\x08\x54\x01\0\x10")?;
    let image = joined(alloc, &[IMAGE])?;
    let image = edited(alloc, image.as_slice(), 336, &[(0x90, size)])?;
    body.extend(image.as_slice())?;
    Ok(body)
}

/// Whether the volume with that driver file is listed so.
fn is_deep_listed(alloc: Global, size: &'static [u8], report: &[&[u8]]) -> Result<bool, NoMemory> {
    let body = deep_driver(alloc, size)?;
    let volume = volume_of_one(alloc, false, &file_of(0x0e, 0), body.as_slice())?;
    is_listed(alloc, volume.as_slice(), report)
}

/// The deepest expression, and the largest image and one that is a byte larger.
#[test]
fn the_deepest_expression_and_the_largest_image(rt: HostRuntime) -> Result<(), Fail> {
    let alloc = rt.alloc();
    let largest: &[&[u8]] = &[
        b"volume 000003b8 ffs2 files 1
file 00000048 aaaaaaaa-0000-0000-0000-000000000001 type 0e size 00000370 driver
",
    ];
    let larger: &[&[u8]] = &[
        b"volume 000003b8 ffs2 files 1
file 00000048 aaaaaaaa-0000-0000-0000-000000000001 type 0e size 00000370 refused pe size at 00000090
",
    ];
    let all = is_deep_listed(alloc, b"\0\0\0\x01", largest)?
        && is_deep_listed(alloc, b"\x01\0\0\x01", larger)?;
    assert!(rt; all);
    Ok(())
}
