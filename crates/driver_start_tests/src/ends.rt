//! How starts end. What is expected was worked out by hand.
use crate::samples::{CODE, DRIVER, RELOCATED};
use crate::sequences::{NO_RULES, NOTHING, PORTS, Start, first_wrong};
use driver_start::StartEnd::Ran;
use mm_base::Ended::{Denied, Fault, Fuel, Returned};
use mm_base::FaultKind::{Alignment, Break, Divide, Encoding, NativeCall};
use mm_base::Kind::{Io, Memory};
use mm_base::Right::Read;
use mm_base::{Denial, NoMemory, Why};
use std::alloc::Global;
use std::test::Fail;

/// Reading port 80 (hexadecimal), for which there is no rule.
const PORT: Denial = Denial {
    kind: Io,
    right: Read,
    at: 0x80,
    n: 1,
    why: Why::NoRule,
};

/// Reading 8 bytes at 0.
const ZERO: Denial = Denial {
    kind: Memory,
    right: Read,
    at: 0,
    n: 8,
    why: Why::Range,
};

/// R1 = @R0(+24); PUSH64 R5; R4 = R0; PUSH64 R4; R2 = 80; PUSH64 R2; R2 = 1; PUSH64 R2; R3 = R1(+448): all for a read of port 80.
const READS_80: &[u8] =
    b"\x60\x81\x18\0\x6b\x05\x20\x04\x6b\x04\x77\x32\x80\0\x6b\x02\x77\x32\x01\0\x6b\x02\x60\x13\xc0\x01";

/// Where the call for it stands.
const CALL_80: usize = CODE + 26;

const STATUSES: &[Start] = &[
    (
        "the lowest status with the top bit: R7 = it; R0 = R0(+32); RET",
        &[(0x11c, b"\xf7\x37\0\0\0\0\0\0\0\x80\x60\0\x20\0\x04\0")],
        Ran(Returned(0x8000_0000_0000_0000)),
        NOTHING,
        &[],
        &[],
    ),
    (
        "the highest status",
        &[(CODE, b"\x77\x37\xff\xff\x04\0")],
        Ran(Returned(0xffff_ffff_ffff_ffff)),
        NOTHING,
        &[],
        &[],
    ),
    (
        "the highest status without the top bit, which succeeds",
        &[(CODE, b"\xf7\x37\xff\xff\xff\xff\xff\xff\xff\x7f\x04\0")],
        Ran(Returned(0x7fff_ffff_ffff_ffff)),
        (1, 0, 0),
        &[],
        &[],
    ),
    (
        "a warning, which succeeds",
        &[(CODE, b"\x77\x37\x05\0\x04\0")],
        Ran(Returned(5)),
        (2, 0, 0),
        &[],
        &[],
    ),
    (
        "the sample as it is",
        &[],
        Ran(Returned(0)),
        (3, 1, 0),
        &[],
        &[],
    ),
    (
        "a status with the top bit, after others that succeeded",
        &[(0x11c, b"\xf7\x37\x0f\0\0\0\0\0\0\x80\x60\0\x20\0\x04\0")],
        Ran(Returned(0x8000_0000_0000_000f)),
        (3, 1, 0),
        &[],
        &[],
    ),
];

#[test]
fn the_top_bit_of_the_status_decides(rt: HostRuntime) -> Result<(), Fail> {
    assert_eq!(rt; first_wrong(rt.alloc(), NO_RULES, &DRIVER, STATUSES)?, None);
    Ok(())
}

const FAULTS: &[Start] = &[
    (
        "an opcode that there isn't",
        &[(CODE, b"\x27\0")],
        Ran(Fault(Encoding, 0x8000_0100)),
        NOTHING,
        &[],
        &[],
    ),
    (
        "R1 = R1 / R2, which is 0",
        &[(CODE, b"\x50\x21")],
        Ran(Fault(Divide, 0x8000_0100)),
        NOTHING,
        &[],
        &[],
    ),
    (
        "R1 = 1; JMP R1",
        &[(CODE, b"\x77\x31\x01\0\x01\x01")],
        Ran(Fault(Alignment, 0x8000_0104)),
        NOTHING,
        &[],
        &[],
    ),
    (
        "BREAK 0",
        &[(CODE, b"\0\0")],
        Ran(Fault(Break, 0x8000_0100)),
        NOTHING,
        &[],
        &[],
    ),
    (
        "a native call of R1, which is 0",
        &[(CODE, b"\x03\x21")],
        Ran(Fault(NativeCall, 0x8000_0100)),
        NOTHING,
        &[],
        &[],
    ),
    (
        "R1 = @R2, which is 0",
        &[(CODE, b"\x20\xa1")],
        Ran(Denied(Why::Range, 0)),
        NOTHING,
        &[ZERO],
        &[],
    ),
    (
        "the sample as it is, where all of these were",
        &[],
        Ran(Returned(0)),
        (1, 1, 0),
        &[],
        &[],
    ),
];

#[test]
fn faults_fail(rt: HostRuntime) -> Result<(), Fail> {
    assert_eq!(rt; first_wrong(rt.alloc(), NO_RULES, &DRIVER, FAULTS)?, None);
    Ok(())
}

const DENIALS: &[Start] = &[
    (
        "one denial, whose status is returned: the call; R0 = R0(+32); RET",
        &[(CODE, READS_80), (CALL_80, b"\x03\x23\x60\0\x20\0\x04\0")],
        Ran(Returned(0x8000_0000_0000_000f)),
        NOTHING,
        &[PORT],
        &[],
    ),
    (
        "eight denials: the call; JMP8 back to it",
        &[(CODE, READS_80), (CALL_80, b"\x03\x23\x02\xfe")],
        Ran(Denied(Why::NoRule, 0x80)),
        NOTHING,
        &[PORT, PORT, PORT, PORT, PORT, PORT, PORT, PORT],
        &[],
    ),
    (
        "two denials, and the status 0: the call, twice; R7 = 0; R0 = R0(+32); RET",
        &[
            (CODE, READS_80),
            (CALL_80, b"\x03\x23\x03\x23\x77\x37\0\0\x60\0\x20\0\x04\0"),
        ],
        Ran(Returned(0)),
        (1, 0, 0),
        &[PORT, PORT],
        &[],
    ),
];

#[test]
fn denials_are_recorded(rt: HostRuntime) -> Result<(), Fail> {
    assert_eq!(rt; first_wrong(rt.alloc(), PORTS, &DRIVER, DENIALS)?, None);
    Ok(())
}

/// A policy of no rules, and how the sample ends under it.
type Fueled = (&'static [u8], &'static [Start]);

/// The sample's native call stands at 11a, and its RET at 120.
const FUELS: &[Fueled] = &[
    (
        b"MMSP\x01\0\0\0\0\0\0\0\x0a\0\0\0",
        &[(
            "10 units: none is left for the service",
            &[],
            Ran(Fuel(0x8000_011a)),
            NOTHING,
            &[],
            &[],
        )],
    ),
    (
        b"MMSP\x01\0\0\0\0\0\0\0\x0c\0\0\0",
        &[(
            "12 units: none is left for the last instruction",
            &[],
            Ran(Fuel(0x8000_0120)),
            NOTHING,
            &[],
            &[],
        )],
    ),
    (
        b"MMSP\x01\0\0\0\0\0\0\0\x0d\0\0\0",
        &[(
            "13 units are enough",
            &[],
            Ran(Returned(0)),
            (1, 1, 0),
            &[],
            &[],
        )],
    ),
];

/// The first start that comes out otherwise.
fn first_wrong_fuel(alloc: Global) -> Result<Option<&'static str>, NoMemory> {
    for (policy, starts) in FUELS {
        let wrong = first_wrong(alloc, policy, &DRIVER, starts)?;
        if wrong.is_some() {
            return Ok(wrong);
        }
    }
    Ok(None)
}

#[test]
fn fuel_ends_an_entry(rt: HostRuntime) -> Result<(), Fail> {
    assert_eq!(rt; first_wrong_fuel(rt.alloc())?, None);
    Ok(())
}

/// The second image begins 39 pages after the first one, at 80027000.
const ARGUMENTS: &[Start] = &[
    (
        "R7 = @R0(+16): the number + 1",
        &[(CODE, b"\x60\x87\x10\0\x04\0")],
        Ran(Returned(1)),
        (1, 0, 0),
        &[],
        &[],
    ),
    (
        "the same, of the second image",
        &[(CODE, b"\x60\x87\x10\0\x04\0")],
        Ran(Returned(2)),
        (2, 0, 0),
        &[],
        &[],
    ),
    (
        "R7 = @R0(+24): the service page, after 1 page of the image, 4 of its stack, and the communicate page",
        &[(CODE, b"\x60\x87\x18\0\x04\0")],
        Ran(Returned(0x8005_4000)),
        (3, 0, 0),
        &[],
        &[],
    ),
    (
        "R7 = @R0(+32)",
        &[(CODE, b"\x60\x87\x20\0\x04\0")],
        Ran(Returned(0)),
        (4, 0, 0),
        &[],
        &[],
    ),
    (
        "R7 = @R0(+40)",
        &[(CODE, b"\x60\x87\x28\0\x04\0")],
        Ran(Returned(0)),
        (5, 0, 0),
        &[],
        &[],
    ),
    (
        "R7 = R0: 48 bytes below the end of its stack",
        &[(CODE, b"\x20\x07\x04\0")],
        Ran(Returned(0x800c_7fd0)),
        (6, 0, 0),
        &[],
        &[],
    ),
];

#[test]
fn entries_have_their_arguments(rt: HostRuntime) -> Result<(), Fail> {
    assert_eq!(rt;
        first_wrong(rt.alloc(), NO_RULES, &DRIVER, ARGUMENTS)?,
        None
    );
    Ok(())
}

const MOVED: &[Start] = &[
    (
        "the first image",
        &[],
        Ran(Returned(0x8000_0100)),
        (1, 0, 0),
        &[],
        &[],
    ),
    (
        "the second image",
        &[],
        Ran(Returned(0x8002_7100)),
        (2, 0, 0),
        &[],
        &[],
    ),
];

#[test]
fn images_are_relocated(rt: HostRuntime) -> Result<(), Fail> {
    assert_eq!(rt; first_wrong(rt.alloc(), NO_RULES, &RELOCATED, MOVED)?, None);
    Ok(())
}
