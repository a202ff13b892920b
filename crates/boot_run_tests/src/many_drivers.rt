//! Boots at the limits of images and of memory. What is expected was worked out by hand from the formats.
use crate::cases::{Case, is_as_said};
use crate::code::{BREAKS, CODE, RETURNS};
use memory_runs::is_booted_last;
use mm_base::{Bytes, List, NoMemory};
use sample_volumes::{Contents, Driver, Section, TRUE, volume_with};
use std::alloc::Global;
use std::test::Fail;

/// The sections of a driver that returns 0.
const RETURNING: &[Section] = &[TRUE, RETURNS];

/// A driver more than there may be images.
const ALL_AND_ONE: &[Driver] = &[
    (b"driver number 01", RETURNING),
    (b"driver number 02", RETURNING),
    (b"driver number 03", RETURNING),
    (b"driver number 04", RETURNING),
    (b"driver number 05", RETURNING),
    (b"driver number 06", RETURNING),
    (b"driver number 07", RETURNING),
    (b"driver number 08", RETURNING),
    (b"driver number 09", RETURNING),
    (b"driver number 10", RETURNING),
    (b"driver number 11", RETURNING),
    (b"driver number 12", RETURNING),
    (b"driver number 13", RETURNING),
    (b"driver number 14", RETURNING),
    (b"driver number 15", RETURNING),
    (b"driver number 16", RETURNING),
    (b"driver number 17", RETURNING),
    (b"driver number 18", RETURNING),
    (b"driver number 19", RETURNING),
    (b"driver number 20", RETURNING),
    (b"driver number 21", RETURNING),
    (b"driver number 22", RETURNING),
    (b"driver number 23", RETURNING),
    (b"driver number 24", RETURNING),
    (b"driver number 25", RETURNING),
    (b"driver number 26", RETURNING),
    (b"driver number 27", RETURNING),
    (b"driver number 28", RETURNING),
    (b"driver number 29", RETURNING),
    (b"driver number 30", RETURNING),
    (b"driver number 31", RETURNING),
    (b"driver number 32", RETURNING),
    (b"driver number 33", RETURNING),
];

/// Puts a line of the driver with this number at a text's end, which is its name between two pieces.
fn put_line(
    text: &mut Bytes,
    alloc: Global,
    number: u8,
    front: &[u8],
    back: &[u8],
) -> Result<(), NoMemory> {
    let tens = number / 10;
    let ones = number % 10;
    let name = format!(in alloc; "76697264-7265-6e20-756d-626572203{tens}3{ones}")?;
    text.extend(front)?;
    text.extend(name.as_bytes())?;
    text.extend(back)
}

/// Puts the lines of the starts at a text's end: 32 drivers stay, and the last one finds no place.
fn put_starts(text: &mut Bytes, alloc: Global) -> Result<(), NoMemory> {
    for number in 1..33u8 {
        put_line(
            text,
            alloc,
            number,
            b"start ",
            b" round 1 returned 0000000000000000\n",
        )?;
    }
    put_line(text, alloc, 33, b"start ", b" round 1 toomany\n")
}

/// Puts the line of an image at a text's end: image 0 is that of driver 1, and so on. None has a handler, and there are no rules.
fn put_image(text: &mut Bytes, alloc: Global, image: u8) -> Result<(), NoMemory> {
    let front = format!(in alloc; "image {image} ")?;
    put_line(
        text,
        alloc,
        image.wrapping_add(1),
        front.as_bytes(),
        b" closed\n",
    )
}

/// The lines from the policy's on.
fn report_of_all(alloc: Global) -> Result<Bytes, NoMemory> {
    let mut text = List::from_slice(alloc, b"policy none fuel 65536\n")?;
    put_starts(&mut text, alloc)?;
    text.extend(b"locked images 32 handlers 0 protocols 0\n")?;
    for image in 0..32u8 {
        put_image(&mut text, alloc, image)?;
    }
    Ok(text)
}

/// Whether the volume of those drivers is booted so.
fn are_booted(alloc: Global) -> Result<bool, NoMemory> {
    let volume = volume_with(alloc, &[], ALL_AND_ONE, &[])?;
    let report = report_of_all(alloc)?;
    is_booted_last(alloc, volume.as_slice(), report.as_slice())
}

#[test]
fn starts_32_drivers(rt: HostRuntime) -> Result<(), Fail> {
    assert!(rt; are_booted(rt.alloc())?);
    Ok(())
}

/// An image of 4,096 pages, which takes 4,134; of the 8,192 pages 4,058 are left.
const HALF: Section = (
    0x10,
    Contents::Image(336, &[(0x90, b"\0\0\0\x01"), (CODE, b"\x04\0")]),
);

/// An image of 4,020 pages, which takes 4,058.
const REST: Section = (
    0x10,
    Contents::Image(336, &[(0x90, b"\0\x40\xfb\0"), (CODE, b"\x04\0")]),
);

/// The place of the third image is page 4,134 from 80000000 (hexadecimal) on.
const FULL_CASE: Case = Case {
    front: &[],
    drivers: &[
        (b"driver number 01", &[TRUE, HALF]),
        (b"driver number 02", &[TRUE, HALF]),
        (b"driver number 03", &[TRUE, BREAKS]),
        (b"driver number 04", &[TRUE, REST]),
        (b"driver number 05", RETURNING),
    ],
    said: b"policy none fuel 65536
start 76697264-7265-6e20-756d-626572203031 round 1 returned 0000000000000000
start 76697264-7265-6e20-756d-626572203032 round 1 nopages
start 76697264-7265-6e20-756d-626572203033 round 1 fault break at 0000000081026100
start 76697264-7265-6e20-756d-626572203034 round 1 returned 0000000000000000
start 76697264-7265-6e20-756d-626572203035 round 1 nopages
locked images 2 handlers 0 protocols 0
image 0 76697264-7265-6e20-756d-626572203031 closed
image 1 76697264-7265-6e20-756d-626572203034 closed
",
};

#[test]
fn starts_drivers_until_memory_is_full(rt: HostRuntime) -> Result<(), Fail> {
    assert!(rt; is_as_said(rt.alloc(), &FULL_CASE)?);
    Ok(())
}
