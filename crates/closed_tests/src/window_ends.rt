//! Groups of two drivers whose rules lead past an end of a window. What is expected was worked out by hand from the formats.
use crate::cases::{Case, Group, is_as_said};
use crate::drivers::{TWO, TWO_DRIVERS};
use sample_volumes::Layout;
use std::test::Fail;

const ALL_CLOSED: &[Group] = &[(&[], true), (&[0], true), (&[1], true), (&[0, 1], true)];

const BOTH_OPEN: &[Group] = &[(&[], true), (&[0], false), (&[1], false), (&[0, 1], true)];

/// The first driver may read and write ports from FFF0 to 1000F, of which those up to FFFF are there.
const FIRST_PORTS: Layout = Layout {
    length: 40,
    pieces: &[
        (0, b"\x02\0\x01\0\x03\0\0\0driver number 01\xf0\xff"),
        (32, b"\x20"),
    ],
};

/// The second driver may read and write port FFFF.
const SECOND_LAST_PORT: Layout = Layout {
    length: 40,
    pieces: &[
        (0, b"\x02\0\x01\0\x03\0\0\0driver number 02\xff\xff"),
        (32, b"\x01"),
    ],
};

const LAST_PORT: Case = Case {
    policy: &[TWO, FIRST_PORTS, SECOND_LAST_PORT],
    drivers: TWO_DRIVERS,
    handlers: 0,
    alone: &[false, false],
    groups: BOTH_OPEN,
};

#[test]
fn the_last_port_opens_each_alone(rt: HostRuntime) -> Result<(), Fail> {
    assert!(rt; is_as_said(rt.alloc(), &LAST_PORT)?);
    Ok(())
}

/// The second driver may read and write port 10000, which isn't there.
const SECOND_NO_PORT: Layout = Layout {
    length: 40,
    pieces: &[
        (0, b"\x02\0\x01\0\x03\0\0\0driver number 02\0\0\x01"),
        (32, b"\x01"),
    ],
};

const NO_PORT: Case = Case {
    policy: &[TWO, FIRST_PORTS, SECOND_NO_PORT],
    drivers: TWO_DRIVERS,
    handlers: 0,
    alone: &[true, true],
    groups: ALL_CLOSED,
};

#[test]
fn ports_past_the_last_open_nothing(rt: HostRuntime) -> Result<(), Fail> {
    assert!(rt; is_as_said(rt.alloc(), &NO_PORT)?);
    Ok(())
}

/// The first driver may read and write every port but port 0: the rule's range ends at 2^64.
const FIRST_BUT_ZERO: Layout = Layout {
    length: 40,
    pieces: &[
        (0, b"\x02\0\x01\0\x03\0\0\0driver number 01\x01"),
        (32, b"\xff\xff\xff\xff\xff\xff\xff\xff"),
    ],
};

const UP_TO_THE_LAST: Case = Case {
    policy: &[TWO, FIRST_BUT_ZERO, SECOND_LAST_PORT],
    drivers: TWO_DRIVERS,
    handlers: 0,
    alone: &[false, false],
    groups: BOTH_OPEN,
};

#[test]
fn a_rule_up_to_the_last_number_holds_the_last_port(rt: HostRuntime) -> Result<(), Fail> {
    assert!(rt; is_as_said(rt.alloc(), &UP_TO_THE_LAST)?);
    Ok(())
}

/// The second driver may read and write port 0.
const SECOND_PORT_ZERO: Layout = Layout {
    length: 40,
    pieces: &[
        (0, b"\x02\0\x01\0\x03\0\0\0driver number 02"),
        (32, b"\x01"),
    ],
};

const NOT_ZERO: Case = Case {
    policy: &[TWO, FIRST_BUT_ZERO, SECOND_PORT_ZERO],
    drivers: TWO_DRIVERS,
    handlers: 0,
    alone: &[true, true],
    groups: ALL_CLOSED,
};

#[test]
fn a_rule_up_to_the_last_number_leaves_out_port_0(rt: HostRuntime) -> Result<(), Fail> {
    assert!(rt; is_as_said(rt.alloc(), &NOT_ZERO)?);
    Ok(())
}

/// The first driver may read and write memory from FE00FF00 to FE0100FF, of which those bytes up to FE00FFFF are a device's.
const FIRST_DEVICE: Layout = Layout {
    length: 40,
    pieces: &[
        (0, b"\x01\0\x01\0\x03\0\0\0driver number 01\0\xff\0\xfe"),
        (33, b"\x02"),
    ],
};

/// The second driver may read and write the last device byte.
const SECOND_LAST_DEVICE: Layout = Layout {
    length: 40,
    pieces: &[
        (0, b"\x01\0\x01\0\x03\0\0\0driver number 02\xff\xff\0\xfe"),
        (32, b"\x01"),
    ],
};

const LAST_DEVICE: Case = Case {
    policy: &[TWO, FIRST_DEVICE, SECOND_LAST_DEVICE],
    drivers: TWO_DRIVERS,
    handlers: 0,
    alone: &[false, false],
    groups: BOTH_OPEN,
};

#[test]
fn the_last_device_byte_opens_each_alone(rt: HostRuntime) -> Result<(), Fail> {
    assert!(rt; is_as_said(rt.alloc(), &LAST_DEVICE)?);
    Ok(())
}

/// The second driver may read and write memory from FE010000 on, where no device is.
const SECOND_PAST_DEVICE: Layout = Layout {
    length: 40,
    pieces: &[
        (0, b"\x01\0\x01\0\x03\0\0\0driver number 02\0\0\x01\xfe"),
        (32, b"\x10"),
    ],
};

const PAST_DEVICE: Case = Case {
    policy: &[TWO, FIRST_DEVICE, SECOND_PAST_DEVICE],
    drivers: TWO_DRIVERS,
    handlers: 0,
    alone: &[true, true],
    groups: ALL_CLOSED,
};

#[test]
fn memory_past_the_device_bytes_opens_nothing(rt: HostRuntime) -> Result<(), Fail> {
    assert!(rt; is_as_said(rt.alloc(), &PAST_DEVICE)?);
    Ok(())
}

/// The first driver may read and write the byte before the first device byte, and that.
const FIRST_BEFORE_DEVICE: Layout = Layout {
    length: 40,
    pieces: &[
        (0, b"\x01\0\x01\0\x03\0\0\0driver number 01\xff\xff\xff\xfd"),
        (32, b"\x02"),
    ],
};

/// The second driver may read and write the first device byte.
const SECOND_FIRST_DEVICE: Layout = Layout {
    length: 40,
    pieces: &[
        (0, b"\x01\0\x01\0\x03\0\0\0driver number 02\0\0\0\xfe"),
        (32, b"\x01"),
    ],
};

const FIRST_DEVICE_BYTE: Case = Case {
    policy: &[TWO, FIRST_BEFORE_DEVICE, SECOND_FIRST_DEVICE],
    drivers: TWO_DRIVERS,
    handlers: 0,
    alone: &[false, false],
    groups: BOTH_OPEN,
};

#[test]
fn the_first_device_byte_opens_each_alone(rt: HostRuntime) -> Result<(), Fail> {
    assert!(rt; is_as_said(rt.alloc(), &FIRST_DEVICE_BYTE)?);
    Ok(())
}

/// The first driver may read and write the model-specific registers 1FFF and 2000, of which the first is there.
const FIRST_LOWER: Layout = Layout {
    length: 40,
    pieces: &[
        (0, b"\x03\0\x01\0\x03\0\0\0driver number 01\xff\x1f"),
        (32, b"\x02"),
    ],
};

/// The second driver may read and write register 1FFF.
const SECOND_LOWER: Layout = Layout {
    length: 40,
    pieces: &[
        (0, b"\x03\0\x01\0\x03\0\0\0driver number 02\xff\x1f"),
        (32, b"\x01"),
    ],
};

const LAST_LOWER: Case = Case {
    policy: &[TWO, FIRST_LOWER, SECOND_LOWER],
    drivers: TWO_DRIVERS,
    handlers: 0,
    alone: &[false, false],
    groups: BOTH_OPEN,
};

#[test]
fn the_last_lower_register_opens_each_alone(rt: HostRuntime) -> Result<(), Fail> {
    assert!(rt; is_as_said(rt.alloc(), &LAST_LOWER)?);
    Ok(())
}

/// The second driver may read and write the numbers from 2000 to BFFFFFFF, which are no registers.
const SECOND_BETWEEN: Layout = Layout {
    length: 40,
    pieces: &[
        (0, b"\x03\0\x01\0\x03\0\0\0driver number 02\0\x20"),
        (32, b"\0\xe0\xff\xbf"),
    ],
};

const BETWEEN: Case = Case {
    policy: &[TWO, FIRST_LOWER, SECOND_BETWEEN],
    drivers: TWO_DRIVERS,
    handlers: 0,
    alone: &[true, true],
    groups: ALL_CLOSED,
};

#[test]
fn numbers_between_the_registers_open_nothing(rt: HostRuntime) -> Result<(), Fail> {
    assert!(rt; is_as_said(rt.alloc(), &BETWEEN)?);
    Ok(())
}

/// The first driver may read and write BFFFFFFF and C0000000, of which the second is a register.
const FIRST_BEFORE_UPPER: Layout = Layout {
    length: 40,
    pieces: &[
        (0, b"\x03\0\x01\0\x03\0\0\0driver number 01\xff\xff\xff\xbf"),
        (32, b"\x02"),
    ],
};

/// The second driver may read and write register C0000000.
const SECOND_UPPER: Layout = Layout {
    length: 40,
    pieces: &[
        (0, b"\x03\0\x01\0\x03\0\0\0driver number 02\0\0\0\xc0"),
        (32, b"\x01"),
    ],
};

const FIRST_UPPER: Case = Case {
    policy: &[TWO, FIRST_BEFORE_UPPER, SECOND_UPPER],
    drivers: TWO_DRIVERS,
    handlers: 0,
    alone: &[false, false],
    groups: BOTH_OPEN,
};

#[test]
fn the_first_upper_register_opens_each_alone(rt: HostRuntime) -> Result<(), Fail> {
    assert!(rt; is_as_said(rt.alloc(), &FIRST_UPPER)?);
    Ok(())
}

/// The first driver may read and write C0001FFF and C0002000, of which the first is a register.
const FIRST_PAST_UPPER: Layout = Layout {
    length: 40,
    pieces: &[
        (0, b"\x03\0\x01\0\x03\0\0\0driver number 01\xff\x1f\0\xc0"),
        (32, b"\x02"),
    ],
};

/// The second driver may read and write C0001FFF.
const SECOND_LAST_UPPER: Layout = Layout {
    length: 40,
    pieces: &[
        (0, b"\x03\0\x01\0\x03\0\0\0driver number 02\xff\x1f\0\xc0"),
        (32, b"\x01"),
    ],
};

const LAST_UPPER: Case = Case {
    policy: &[TWO, FIRST_PAST_UPPER, SECOND_LAST_UPPER],
    drivers: TWO_DRIVERS,
    handlers: 0,
    alone: &[false, false],
    groups: BOTH_OPEN,
};

#[test]
fn the_last_upper_register_opens_each_alone(rt: HostRuntime) -> Result<(), Fail> {
    assert!(rt; is_as_said(rt.alloc(), &LAST_UPPER)?);
    Ok(())
}
