//! Groups of two drivers whose rules give them ports of their own, or ports that both may reach. What is expected was worked out by hand from
//! the formats.
use crate::cases::{Case, Group, is_as_said};
use crate::drivers::{FIRST_70, ONE, RETURNING, THREE, TWO, TWO_DRIVERS};
use sample_volumes::{Contents, Driver, Layout, NO_RULES, TRUE};
use std::test::Fail;

/// All groups of two images, where each image alone is closed.
const ALL_CLOSED: &[Group] = &[(&[], true), (&[0], true), (&[1], true), (&[0, 1], true)];

/// The same where each image alone is open. A number may stand there twice, and in any order.
const BOTH_OPEN: &[Group] = &[
    (&[], true),
    (&[0], false),
    (&[1], false),
    (&[1, 0], true),
    (&[1, 1], false),
];

/// The second driver may read and write ports 80 to 87.
const SECOND_80: Layout = Layout {
    length: 40,
    pieces: &[
        (0, b"\x02\0\x01\0\x03\0\0\0driver number 02\x80"),
        (32, b"\x08"),
    ],
};

/// Nothing at all is allowed.
const WITHOUT_RULES: Case = Case {
    policy: NO_RULES,
    drivers: TWO_DRIVERS,
    handlers: 0,
    alone: &[true, true],
    groups: ALL_CLOSED,
};

#[test]
fn without_rules_all_are_closed(rt: HostRuntime) -> Result<(), Fail> {
    assert!(rt; is_as_said(rt.alloc(), &WITHOUT_RULES)?);
    Ok(())
}

const OF_THEIR_OWN: Case = Case {
    policy: &[TWO, FIRST_70, SECOND_80],
    drivers: TWO_DRIVERS,
    handlers: 0,
    alone: &[true, true],
    groups: ALL_CLOSED,
};

#[test]
fn ports_of_their_own_leave_all_closed(rt: HostRuntime) -> Result<(), Fail> {
    assert!(rt; is_as_said(rt.alloc(), &OF_THEIR_OWN)?);
    Ok(())
}

/// Every driver may read and write port 60.
const ALL_60: Layout = Layout {
    length: 40,
    pieces: &[(0, b"\x02\0\x01\0\x03"), (24, b"\x60"), (32, b"\x01")],
};

const ONE_FOR_ALL: Case = Case {
    policy: &[THREE, ALL_60, FIRST_70, SECOND_80],
    drivers: TWO_DRIVERS,
    handlers: 0,
    alone: &[false, false],
    groups: BOTH_OPEN,
};

#[test]
fn a_rule_for_all_opens_each_alone(rt: HostRuntime) -> Result<(), Fail> {
    assert!(rt; is_as_said(rt.alloc(), &ONE_FOR_ALL)?);
    Ok(())
}

/// The second driver may read and write ports 77 to 7E.
const SECOND_77: Layout = Layout {
    length: 40,
    pieces: &[
        (0, b"\x02\0\x01\0\x03\0\0\0driver number 02\x77"),
        (32, b"\x08"),
    ],
};

/// Port 77 is the last one of the first driver, and the first one of the second.
const TOUCHING: Case = Case {
    policy: &[TWO, FIRST_70, SECOND_77],
    drivers: TWO_DRIVERS,
    handlers: 0,
    alone: &[false, false],
    groups: BOTH_OPEN,
};

#[test]
fn rules_that_touch_at_one_port_open_each_alone(rt: HostRuntime) -> Result<(), Fail> {
    assert!(rt; is_as_said(rt.alloc(), &TOUCHING)?);
    Ok(())
}

/// The second driver may read and write ports 78 to 7F.
const SECOND_78: Layout = Layout {
    length: 40,
    pieces: &[
        (0, b"\x02\0\x01\0\x03\0\0\0driver number 02\x78"),
        (32, b"\x08"),
    ],
};

/// The second driver may read and write ports 68 to 6F.
const SECOND_68: Layout = Layout {
    length: 40,
    pieces: &[
        (0, b"\x02\0\x01\0\x03\0\0\0driver number 02\x68"),
        (32, b"\x08"),
    ],
};

const SIDE_BY_SIDE: Case = Case {
    policy: &[THREE, FIRST_70, SECOND_78, SECOND_68],
    drivers: TWO_DRIVERS,
    handlers: 0,
    alone: &[true, true],
    groups: ALL_CLOSED,
};

#[test]
fn rules_side_by_side_leave_all_closed(rt: HostRuntime) -> Result<(), Fail> {
    assert!(rt; is_as_said(rt.alloc(), &SIDE_BY_SIDE)?);
    Ok(())
}

/// Every driver may read and write ports 70 to 7F.
const ALL_70: Layout = Layout {
    length: 40,
    pieces: &[(0, b"\x02\0\x01\0\x03"), (24, b"\x70"), (32, b"\x10")],
};

/// The second driver may not touch ports 70 to 7F.
const SECOND_DENIED: Layout = Layout {
    length: 40,
    pieces: &[
        (0, b"\x02\0\0\0\0\0\0\0driver number 02\x70"),
        (32, b"\x10"),
    ],
};

const DENIED_FIRST: Case = Case {
    policy: &[TWO, SECOND_DENIED, ALL_70],
    drivers: TWO_DRIVERS,
    handlers: 0,
    alone: &[true, true],
    groups: ALL_CLOSED,
};

#[test]
fn a_rule_that_denies_before_one_that_allows_closes(rt: HostRuntime) -> Result<(), Fail> {
    assert!(rt; is_as_said(rt.alloc(), &DENIED_FIRST)?);
    Ok(())
}

/// The rule that allows decides first.
const DENIED_LAST: Case = Case {
    policy: &[TWO, ALL_70, SECOND_DENIED],
    drivers: TWO_DRIVERS,
    handlers: 0,
    alone: &[false, false],
    groups: BOTH_OPEN,
};

#[test]
fn a_rule_that_denies_after_one_that_allows_does_not(rt: HostRuntime) -> Result<(), Fail> {
    assert!(rt; is_as_said(rt.alloc(), &DENIED_LAST)?);
    Ok(())
}

/// The second driver may not touch ports 70 to 7E.
const SECOND_DENIED_FEWER: Layout = Layout {
    length: 40,
    pieces: &[
        (0, b"\x02\0\0\0\0\0\0\0driver number 02\x70"),
        (32, b"\x0f"),
    ],
};

/// Both may write port 7F.
const DENIED_BUT_ONE: Case = Case {
    policy: &[TWO, SECOND_DENIED_FEWER, ALL_70],
    drivers: TWO_DRIVERS,
    handlers: 0,
    alone: &[false, false],
    groups: BOTH_OPEN,
};

#[test]
fn one_port_that_is_not_denied_opens_each_alone(rt: HostRuntime) -> Result<(), Fail> {
    assert!(rt; is_as_said(rt.alloc(), &DENIED_BUT_ONE)?);
    Ok(())
}

/// The first driver may read and write all ports.
const FIRST_EACH: Layout = Layout {
    length: 40,
    pieces: &[
        (0, b"\x02\0\x01\0\x03\0\0\0driver number 01"),
        (34, b"\x01"),
    ],
};

/// The second driver may read and write port 8001.
const SECOND_8001: Layout = Layout {
    length: 40,
    pieces: &[
        (0, b"\x02\0\x01\0\x03\0\0\0driver number 02\x01\x80"),
        (32, b"\x01"),
    ],
};

const IN_THE_MIDDLE: Case = Case {
    policy: &[TWO, FIRST_EACH, SECOND_8001],
    drivers: TWO_DRIVERS,
    handlers: 0,
    alone: &[false, false],
    groups: BOTH_OPEN,
};

#[test]
fn one_port_among_all_opens_each_alone(rt: HostRuntime) -> Result<(), Fail> {
    assert!(rt; is_as_said(rt.alloc(), &IN_THE_MIDDLE)?);
    Ok(())
}

/// No driver may touch port 8001.
const NONE_8001: Layout = Layout {
    length: 40,
    pieces: &[(0, b"\x02"), (24, b"\x01\x80"), (32, b"\x01")],
};

const DENIED_TO_ALL: Case = Case {
    policy: &[THREE, NONE_8001, FIRST_EACH, SECOND_8001],
    drivers: TWO_DRIVERS,
    handlers: 0,
    alone: &[true, true],
    groups: ALL_CLOSED,
};

#[test]
fn one_port_that_all_are_denied_closes(rt: HostRuntime) -> Result<(), Fail> {
    assert!(rt; is_as_said(rt.alloc(), &DENIED_TO_ALL)?);
    Ok(())
}

/// The second driver's image was withdrawn, since its code is BREAK 0. The third driver's image has the number 1, and isn't allowed what the
/// second driver is.
const WITH_ONE_WITHDRAWN: &[Driver] = &[
    (b"driver number 01", RETURNING),
    (
        b"driver number 02",
        &[TRUE, (0x10, Contents::Image(336, &[(0x100, b"\0\0")]))],
    ),
    (b"driver number 03", RETURNING),
];

const WITHDRAWN: Case = Case {
    policy: &[TWO, FIRST_70, SECOND_77],
    drivers: WITH_ONE_WITHDRAWN,
    handlers: 0,
    alone: &[true, true],
    groups: ALL_CLOSED,
};

#[test]
fn rules_of_a_withdrawn_driver_open_nothing(rt: HostRuntime) -> Result<(), Fail> {
    assert!(rt; is_as_said(rt.alloc(), &WITHDRAWN)?);
    Ok(())
}

/// Every driver may read and write all of memory.
const ALL_MEMORY: Layout = Layout {
    length: 40,
    pieces: &[
        (0, b"\x01\0\x01\0\x03"),
        (32, b"\xff\xff\xff\xff\xff\xff\xff\xff"),
    ],
};

/// No driver may touch the device bytes, which are 10000 from FE000000 on.
const NO_DEVICE: Layout = Layout {
    length: 40,
    pieces: &[(0, b"\x01"), (27, b"\xfe"), (34, b"\x01")],
};

/// What is home to an image is its own whatever the rules say, and they open no memory but device bytes.
const HOME: Case = Case {
    policy: &[TWO, NO_DEVICE, ALL_MEMORY],
    drivers: TWO_DRIVERS,
    handlers: 0,
    alone: &[true, true],
    groups: ALL_CLOSED,
};

#[test]
fn rules_open_no_memory_of_images(rt: HostRuntime) -> Result<(), Fail> {
    assert!(rt; is_as_said(rt.alloc(), &HOME)?);
    Ok(())
}

/// The same without the rule that denies.
const DEVICE: Case = Case {
    policy: &[ONE, ALL_MEMORY],
    drivers: TWO_DRIVERS,
    handlers: 0,
    alone: &[false, false],
    groups: BOTH_OPEN,
};

#[test]
fn rules_of_all_memory_open_device_bytes(rt: HostRuntime) -> Result<(), Fail> {
    assert!(rt; is_as_said(rt.alloc(), &DEVICE)?);
    Ok(())
}
