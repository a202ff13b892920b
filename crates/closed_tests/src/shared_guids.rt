//! Groups of drivers that register handlers, for one GUID or for several. What is expected was worked out by hand from the formats.
use crate::cases::{Case, Group, is_as_said};
use crate::drivers::{CODE, FIRST_70, ONE, RETURNING};
use sample_volumes::{Contents, Driver, NO_RULES, SOUND, Section, TRUE};
use std::test::Fail;

/// The sample driver, whose handler is for the GUID 22222222-2222-3333-4444-555555555555.
const OTHER_GUID: Section = (0x10, Contents::Image(336, &[(0x140, b"\x22\x22\x22\x22")]));

/// The sample driver, which registers a root handler: R2 = 0 in place of the GUID's address.
const ROOT: Section = (0x10, Contents::Image(336, &[(CODE + 10, b"\x77\x32\0\0")]));

/// Two sample drivers, which register a handler each, both for one GUID.
const ONE_GUID: Case = Case {
    policy: NO_RULES,
    drivers: &[
        (b"driver number 01", &[TRUE, SOUND]),
        (b"driver number 02", &[TRUE, SOUND]),
    ],
    handlers: 2,
    alone: &[false, false],
    groups: &[
        (&[], true),
        (&[0], false),
        (&[1], false),
        (&[0, 1], true),
        (&[1, 0], true),
    ],
};

#[test]
fn handlers_of_one_guid_open_each_alone(rt: HostRuntime) -> Result<(), Fail> {
    assert!(rt; is_as_said(rt.alloc(), &ONE_GUID)?);
    Ok(())
}

const TWO_GUIDS: Case = Case {
    policy: NO_RULES,
    drivers: &[
        (b"driver number 01", &[TRUE, SOUND]),
        (b"driver number 02", &[TRUE, OTHER_GUID]),
    ],
    handlers: 2,
    alone: &[true, true],
    groups: &[(&[], true), (&[0], true), (&[1], true), (&[0, 1], true)],
};

#[test]
fn handlers_of_two_guids_leave_all_closed(rt: HostRuntime) -> Result<(), Fail> {
    assert!(rt; is_as_said(rt.alloc(), &TWO_GUIDS)?);
    Ok(())
}

/// Root handlers have no GUID that they could share.
const ROOTS: Case = Case {
    policy: NO_RULES,
    drivers: &[
        (b"driver number 01", &[TRUE, ROOT]),
        (b"driver number 02", &[TRUE, ROOT]),
    ],
    handlers: 2,
    alone: &[true, true],
    groups: &[(&[], true), (&[0], true), (&[1], true), (&[0, 1], true)],
};

#[test]
fn root_handlers_leave_all_closed(rt: HostRuntime) -> Result<(), Fail> {
    assert!(rt; is_as_said(rt.alloc(), &ROOTS)?);
    Ok(())
}

/// The first and the fourth driver share a GUID; the second one has a handler for another, and the third one has none.
const FOUR_DRIVERS: &[Driver] = &[
    (b"driver number 01", &[TRUE, SOUND]),
    (b"driver number 02", &[TRUE, OTHER_GUID]),
    (b"driver number 03", RETURNING),
    (b"driver number 04", &[TRUE, SOUND]),
];

const FIRST_AND_FOURTH: &[Group] = &[
    (&[], true),
    (&[0], false),
    (&[1], true),
    (&[2], true),
    (&[3], false),
    (&[0, 3], true),
    (&[1, 2], true),
    (&[0, 1, 2], false),
    (&[2, 3, 0], true),
    (&[0, 1, 2, 3], true),
];

const AMONG_FOUR: Case = Case {
    policy: NO_RULES,
    drivers: FOUR_DRIVERS,
    handlers: 3,
    alone: &[false, true, true, false],
    groups: FIRST_AND_FOURTH,
};

#[test]
fn one_guid_among_four_drivers(rt: HostRuntime) -> Result<(), Fail> {
    assert!(rt; is_as_said(rt.alloc(), &AMONG_FOUR)?);
    Ok(())
}

/// The same where the first driver has ports of its own.
const AMONG_FOUR_RULED: Case = Case {
    policy: &[ONE, FIRST_70],
    drivers: FOUR_DRIVERS,
    handlers: 3,
    alone: &[false, true, true, false],
    groups: FIRST_AND_FOURTH,
};

#[test]
fn ports_of_its_own_do_not_close_who_shares_a_guid(rt: HostRuntime) -> Result<(), Fail> {
    assert!(rt; is_as_said(rt.alloc(), &AMONG_FOUR_RULED)?);
    Ok(())
}
