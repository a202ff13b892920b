//! Drivers for which there is no place. What is expected was worked out by hand.
use crate::samples::{DRIVER, SIZE, made};
use crate::sequences::{NO_RULES, Start, first_wrong, has, host_under, started};
use driver_start::Host;
use driver_start::StartEnd::{NoPages, Ran, TooMany};
use mm_base::Ended::Returned;
use mm_base::NoMemory;
use mm_memory::PlainFrames;
use std::alloc::Global;
use std::test::Fail;

/// The largest image has 4,096 pages, and takes 4,134. Then 4,058 are left, which is enough for an image of 4,020 pages.
const LARGE: &[Start] = &[
    (
        "an image of 4,096 pages",
        &[(SIZE, b"\0\0\0\x01")],
        Ran(Returned(0)),
        (1, 1, 0),
        &[],
        &[],
    ),
    (
        "another one",
        &[(SIZE, b"\0\0\0\x01")],
        NoPages,
        (1, 1, 0),
        &[],
        &[],
    ),
    (
        "one of a page more than there are",
        &[(SIZE, b"\x01\x40\xfb\0")],
        NoPages,
        (1, 1, 0),
        &[],
        &[],
    ),
    (
        "one of as many pages as there are",
        &[(SIZE, b"\0\x40\xfb\0")],
        Ran(Returned(0)),
        (2, 2, 0),
        &[],
        &[],
    ),
    ("one more", &[], NoPages, (2, 2, 0), &[], &[]),
];

#[test]
fn a_smaller_one_fits(rt: HostRuntime) -> Result<(), Fail> {
    assert_eq!(rt; first_wrong(rt.alloc(), NO_RULES, &DRIVER, LARGE)?, None);
    Ok(())
}

/// A host on which the sample was started this often; None where one of these starts failed.
fn host_with(alloc: Global, times: u32) -> Result<Option<Host<PlainFrames>>, NoMemory> {
    let bytes = made(alloc, &DRIVER, &[])?;
    let Some(mut host) = host_under(alloc, NO_RULES)? else {
        return Ok(None);
    };
    for _ in 0..times {
        let Some((after, record)) = started(alloc, host, bytes.as_slice())? else {
            return Ok(None);
        };
        if record.ended != Ran(Returned(0)) {
            return Ok(None);
        }
        host = after;
    }
    Ok(Some(host))
}

/// Whether 32 drivers start, and one more doesn't.
fn one_is_too_many(alloc: Global) -> Result<bool, NoMemory> {
    let Some(host) = host_with(alloc, 32)? else {
        return Ok(false);
    };
    if !has(&host, (32, 32, 0)) {
        return Ok(false);
    }
    let bytes = made(alloc, &DRIVER, &[])?;
    let Some((after, record)) = started(alloc, host, bytes.as_slice())? else {
        return Ok(false);
    };
    Ok(record.ended == TooMany && has(&after, (32, 32, 0)))
}

#[test]
fn there_are_32_at_most(rt: HostRuntime) -> Result<(), Fail> {
    assert!(rt; one_is_too_many(rt.alloc())?);
    Ok(())
}
