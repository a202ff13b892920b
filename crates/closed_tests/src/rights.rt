//! Groups of two drivers of which one may only read, and the other only write. What is expected was worked out by hand from the formats.
use crate::cases::{Case, Group, is_as_said};
use crate::drivers::{ONE, TWO, TWO_DRIVERS};
use sample_volumes::Layout;
use std::test::Fail;

/// The first image alone is open, since the second one writes what it reads.
const FIRST_OPEN: &[Group] = &[(&[], true), (&[0], false), (&[1], true), (&[0, 1], true)];

const ALL_CLOSED: &[Group] = &[(&[], true), (&[0], true), (&[1], true), (&[0, 1], true)];

const BOTH_OPEN: &[Group] = &[(&[], true), (&[0], false), (&[1], false), (&[0, 1], true)];

/// The first driver may read port 70.
const FIRST_READS: Layout = Layout {
    length: 40,
    pieces: &[
        (0, b"\x02\0\x01\0\x01\0\0\0driver number 01\x70"),
        (32, b"\x01"),
    ],
};

/// The second driver may write port 70.
const SECOND_WRITES: Layout = Layout {
    length: 40,
    pieces: &[
        (0, b"\x02\0\x01\0\x02\0\0\0driver number 02\x70"),
        (32, b"\x01"),
    ],
};

const READ_AND_WRITTEN: Case = Case {
    policy: &[TWO, FIRST_READS, SECOND_WRITES],
    drivers: TWO_DRIVERS,
    handlers: 0,
    alone: &[false, true],
    groups: FIRST_OPEN,
};

#[test]
fn who_reads_a_port_is_open(rt: HostRuntime) -> Result<(), Fail> {
    assert!(rt; is_as_said(rt.alloc(), &READ_AND_WRITTEN)?);
    Ok(())
}

/// Every driver may read all ports.
const ALL_READ: Layout = Layout {
    length: 40,
    pieces: &[(0, b"\x02\0\x01\0\x01"), (34, b"\x01")],
};

const ONLY_READ: Case = Case {
    policy: &[ONE, ALL_READ],
    drivers: TWO_DRIVERS,
    handlers: 0,
    alone: &[true, true],
    groups: ALL_CLOSED,
};

#[test]
fn what_all_only_read_leaves_all_closed(rt: HostRuntime) -> Result<(), Fail> {
    assert!(rt; is_as_said(rt.alloc(), &ONLY_READ)?);
    Ok(())
}

/// The rule that all may read stands first and decides.
const READ_DECIDES: Case = Case {
    policy: &[TWO, ALL_READ, SECOND_WRITES],
    drivers: TWO_DRIVERS,
    handlers: 0,
    alone: &[true, true],
    groups: ALL_CLOSED,
};

#[test]
fn the_first_rule_of_a_port_decides(rt: HostRuntime) -> Result<(), Fail> {
    assert!(rt; is_as_said(rt.alloc(), &READ_DECIDES)?);
    Ok(())
}

/// Every driver may write all ports.
const ALL_WRITE: Layout = Layout {
    length: 40,
    pieces: &[(0, b"\x02\0\x01\0\x02"), (34, b"\x01")],
};

const ONLY_WRITTEN: Case = Case {
    policy: &[ONE, ALL_WRITE],
    drivers: TWO_DRIVERS,
    handlers: 0,
    alone: &[false, false],
    groups: BOTH_OPEN,
};

#[test]
fn what_all_only_write_opens_each_alone(rt: HostRuntime) -> Result<(), Fail> {
    assert!(rt; is_as_said(rt.alloc(), &ONLY_WRITTEN)?);
    Ok(())
}

/// The first driver may read the device byte at FE008000.
const FIRST_READS_DEVICE: Layout = Layout {
    length: 40,
    pieces: &[
        (0, b"\x01\0\x01\0\x01\0\0\0driver number 01\0\x80\0\xfe"),
        (32, b"\x01"),
    ],
};

/// The second driver may write it.
const SECOND_WRITES_DEVICE: Layout = Layout {
    length: 40,
    pieces: &[
        (0, b"\x01\0\x01\0\x02\0\0\0driver number 02\0\x80\0\xfe"),
        (32, b"\x01"),
    ],
};

const DEVICE_READ_AND_WRITTEN: Case = Case {
    policy: &[TWO, FIRST_READS_DEVICE, SECOND_WRITES_DEVICE],
    drivers: TWO_DRIVERS,
    handlers: 0,
    alone: &[false, true],
    groups: FIRST_OPEN,
};

#[test]
fn who_reads_a_device_byte_is_open(rt: HostRuntime) -> Result<(), Fail> {
    assert!(rt; is_as_said(rt.alloc(), &DEVICE_READ_AND_WRITTEN)?);
    Ok(())
}

/// The first driver may read the model-specific register C0000080.
const FIRST_READS_REGISTER: Layout = Layout {
    length: 40,
    pieces: &[
        (0, b"\x03\0\x01\0\x01\0\0\0driver number 01\x80\0\0\xc0"),
        (32, b"\x01"),
    ],
};

/// The second driver may write it.
const SECOND_WRITES_REGISTER: Layout = Layout {
    length: 40,
    pieces: &[
        (0, b"\x03\0\x01\0\x02\0\0\0driver number 02\x80\0\0\xc0"),
        (32, b"\x01"),
    ],
};

const REGISTER_READ_AND_WRITTEN: Case = Case {
    policy: &[TWO, FIRST_READS_REGISTER, SECOND_WRITES_REGISTER],
    drivers: TWO_DRIVERS,
    handlers: 0,
    alone: &[false, true],
    groups: FIRST_OPEN,
};

#[test]
fn who_reads_a_register_is_open(rt: HostRuntime) -> Result<(), Fail> {
    assert!(rt; is_as_said(rt.alloc(), &REGISTER_READ_AND_WRITTEN)?);
    Ok(())
}

/// Port 80, which the second driver may write; the register of that number is another unit.
const SECOND_WRITES_PORT: Layout = Layout {
    length: 40,
    pieces: &[
        (0, b"\x02\0\x01\0\x02\0\0\0driver number 02\x80"),
        (32, b"\x01"),
    ],
};

/// The first driver may read the model-specific register 80.
const FIRST_READS_LOWER: Layout = Layout {
    length: 40,
    pieces: &[
        (0, b"\x03\0\x01\0\x01\0\0\0driver number 01\x80"),
        (32, b"\x01"),
    ],
};

const OF_TWO_KINDS: Case = Case {
    policy: &[TWO, FIRST_READS_LOWER, SECOND_WRITES_PORT],
    drivers: TWO_DRIVERS,
    handlers: 0,
    alone: &[true, true],
    groups: ALL_CLOSED,
};

#[test]
fn units_of_two_kinds_are_two(rt: HostRuntime) -> Result<(), Fail> {
    assert!(rt; is_as_said(rt.alloc(), &OF_TWO_KINDS)?);
    Ok(())
}

/// Every driver may read and write all 19 saved registers, as far as a rule can say so.
const ALL_SAVED: Layout = Layout {
    length: 40,
    pieces: &[(0, b"\x04\0\x01\0\x03"), (32, b"\x13")],
};

const SAVED: Case = Case {
    policy: &[ONE, ALL_SAVED],
    drivers: TWO_DRIVERS,
    handlers: 0,
    alone: &[true, true],
    groups: ALL_CLOSED,
};

#[test]
fn saved_registers_do_not_count(rt: HostRuntime) -> Result<(), Fail> {
    assert!(rt; is_as_said(rt.alloc(), &SAVED)?);
    Ok(())
}
