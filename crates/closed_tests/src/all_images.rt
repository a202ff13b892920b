//! Groups of as many images as there may be. What is expected was worked out by hand from the formats.
use crate::cases::{Case, is_as_said};
use crate::drivers::{ONE, RETURNING, TWO};
use sample_volumes::{Driver, Layout, NO_RULES};
use std::test::Fail;

/// As many drivers as there may be images.
const ALL_DRIVERS: &[Driver] = &[
    (b"driver number 01", RETURNING),
    (b"driver number 02", RETURNING),
    (b"driver number 03", RETURNING),
    (b"driver number 04", RETURNING),
    (b"driver number 05", RETURNING),
    (b"driver number 06", RETURNING),
    (b"driver number 07", RETURNING),
    (b"driver number 08", RETURNING),
    (b"driver number 09", RETURNING),
    (b"driver number 10", RETURNING),
    (b"driver number 11", RETURNING),
    (b"driver number 12", RETURNING),
    (b"driver number 13", RETURNING),
    (b"driver number 14", RETURNING),
    (b"driver number 15", RETURNING),
    (b"driver number 16", RETURNING),
    (b"driver number 17", RETURNING),
    (b"driver number 18", RETURNING),
    (b"driver number 19", RETURNING),
    (b"driver number 20", RETURNING),
    (b"driver number 21", RETURNING),
    (b"driver number 22", RETURNING),
    (b"driver number 23", RETURNING),
    (b"driver number 24", RETURNING),
    (b"driver number 25", RETURNING),
    (b"driver number 26", RETURNING),
    (b"driver number 27", RETURNING),
    (b"driver number 28", RETURNING),
    (b"driver number 29", RETURNING),
    (b"driver number 30", RETURNING),
    (b"driver number 31", RETURNING),
    (b"driver number 32", RETURNING),
];

/// The numbers of all images.
const ALL_IMAGES: &[u32] = &[
    0, 1, 2, 3, 4, 5, 6, 7, 8, 9, 10, 11, 12, 13, 14, 15, 16, 17, 18, 19, 20, 21, 22, 23, 24, 25,
    26, 27, 28, 29, 30, 31,
];

/// Nothing at all is allowed.
const WITHOUT_RULES: Case = Case {
    policy: NO_RULES,
    drivers: ALL_DRIVERS,
    handlers: 0,
    alone: &[true; 32],
    groups: &[
        (&[], true),
        (&[0], true),
        (&[31], true),
        (&[4, 19], true),
        (ALL_IMAGES, true),
    ],
};

#[test]
fn without_rules_all_of_32_are_closed(rt: HostRuntime) -> Result<(), Fail> {
    assert!(rt; is_as_said(rt.alloc(), &WITHOUT_RULES)?);
    Ok(())
}

/// Every driver may read and write port FFFF.
const ALL_FFFF: Layout = Layout {
    length: 40,
    pieces: &[(0, b"\x02\0\x01\0\x03"), (24, b"\xff\xff"), (32, b"\x01")],
};

/// All images but the last.
const ALL_BUT_LAST: &[u32] = &[
    0, 1, 2, 3, 4, 5, 6, 7, 8, 9, 10, 11, 12, 13, 14, 15, 16, 17, 18, 19, 20, 21, 22, 23, 24, 25,
    26, 27, 28, 29, 30,
];

const SHARED_BY_ALL: Case = Case {
    policy: &[ONE, ALL_FFFF],
    drivers: ALL_DRIVERS,
    handlers: 0,
    alone: &[false; 32],
    groups: &[
        (&[], true),
        (&[0], false),
        (&[4, 19], false),
        (ALL_BUT_LAST, false),
        (ALL_IMAGES, true),
    ],
};

#[test]
fn one_port_of_all_opens_all_but_none_and_all(rt: HostRuntime) -> Result<(), Fail> {
    assert!(rt; is_as_said(rt.alloc(), &SHARED_BY_ALL)?);
    Ok(())
}

/// The third driver, whose image has the number 2, may read port 70.
const THIRD_READS: Layout = Layout {
    length: 40,
    pieces: &[
        (0, b"\x02\0\x01\0\x01\0\0\0driver number 03\x70"),
        (32, b"\x01"),
    ],
};

/// The last driver, whose image has the number 31, may write it.
const LAST_WRITES: Layout = Layout {
    length: 40,
    pieces: &[
        (0, b"\x02\0\x01\0\x02\0\0\0driver number 32\x70"),
        (32, b"\x01"),
    ],
};

/// Of each image alone: the one that reads is open.
const BUT_THIRD: &[bool] = &[
    true, true, false, true, true, true, true, true, true, true, true, true, true, true, true,
    true, true, true, true, true, true, true, true, true, true, true, true, true, true, true, true,
    true,
];

const ONE_READS: Case = Case {
    policy: &[TWO, THIRD_READS, LAST_WRITES],
    drivers: ALL_DRIVERS,
    handlers: 0,
    alone: BUT_THIRD,
    groups: &[
        (&[2], false),
        (&[31], true),
        (&[2, 31], true),
        (&[2, 7], false),
        (ALL_BUT_LAST, false),
        (ALL_IMAGES, true),
    ],
};

#[test]
fn one_that_reads_what_another_writes_among_32(rt: HostRuntime) -> Result<(), Fail> {
    assert!(rt; is_as_said(rt.alloc(), &ONE_READS)?);
    Ok(())
}
