//! Drivers that end in each way. Where a driver is withdrawn, the next one starts in its place. What is expected was worked out by hand
//! from the formats.
use crate::cases::{Case, is_as_said};
use crate::code::{BREAKS, CODE, TELLS_NUMBER};
use sample_volumes::{Contents, Driver, Layout, POLICY_NAME, Part, SOUND, Section, TRUE};
use std::test::Fail;

/// Drivers whose second instruction, at 102 (hexadecimal) of the image, ends in a fault; the first is R4 = R0.
const FAULTS: &[Driver] = &[
    // no opcode
    (
        b"driver number 01",
        &[
            TRUE,
            (0x10, Contents::Image(336, &[(CODE, b"\x20\x04\x27\0")])),
        ],
    ),
    // DIV64 R2, R1, which is 0
    (
        b"driver number 02",
        &[
            TRUE,
            (0x10, Contents::Image(336, &[(CODE, b"\x20\x04\x50\x12")])),
        ],
    ),
    // JMP to the next address and 1
    (
        b"driver number 03",
        &[
            TRUE,
            (
                0x10,
                Contents::Image(336, &[(CODE, b"\x20\x04\x81\x10\x01\0\0\0")]),
            ),
        ],
    ),
    // BREAK 0
    (
        b"driver number 04",
        &[
            TRUE,
            (0x10, Contents::Image(336, &[(CODE, b"\x20\x04\0\0")])),
        ],
    ),
    // native CALL of R1, which is 0
    (
        b"driver number 05",
        &[
            TRUE,
            (0x10, Contents::Image(336, &[(CODE, b"\x20\x04\x03\x21")])),
        ],
    ),
];

const FAULT_CASE: Case = Case {
    front: &[],
    drivers: FAULTS,
    said: b"policy none fuel 65536
start 76697264-7265-6e20-756d-626572203031 round 1 fault encoding at 0000000080000102
start 76697264-7265-6e20-756d-626572203032 round 1 fault divide at 0000000080000102
start 76697264-7265-6e20-756d-626572203033 round 1 fault alignment at 0000000080000102
start 76697264-7265-6e20-756d-626572203034 round 1 fault break at 0000000080000102
start 76697264-7265-6e20-756d-626572203035 round 1 fault nativecall at 0000000080000102
locked images 0 handlers 0 protocols 0
",
};

#[test]
fn withdraws_drivers_that_end_in_a_fault(rt: HostRuntime) -> Result<(), Fail> {
    assert!(rt; is_as_said(rt.alloc(), &FAULT_CASE)?);
    Ok(())
}

/// Drivers that touch memory which isn't theirs.
const STRANGERS: &[Driver] = &[
    // R1 = @R1, where R1 is 0
    (
        b"driver number 01",
        &[TRUE, (0x10, Contents::Image(336, &[(CODE, b"\x20\x91")]))],
    ),
    // R1 = the next address less 4, which is the code; @R1 = R2
    (
        b"driver number 02",
        &[
            TRUE,
            (
                0x10,
                Contents::Image(336, &[(CODE, b"\x79\x01\xfc\xff\x20\x29")]),
            ),
        ],
    ),
    // R4 = R0, the stack; JMP R4
    (
        b"driver number 03",
        &[
            TRUE,
            (0x10, Contents::Image(336, &[(CODE, b"\x20\x04\x01\x04")])),
        ],
    ),
    // R1 = 40000000 (hexadecimal), where the lanes begin; R2 = the byte at R1
    (
        b"driver number 04",
        &[
            TRUE,
            (
                0x10,
                Contents::Image(336, &[(CODE, b"\xb7\x31\0\0\0\x40\x1d\x92")]),
            ),
        ],
    ),
    // R1 = FE000000 (hexadecimal), where the device bytes begin; R2 = the byte at R1
    (
        b"driver number 05",
        &[
            TRUE,
            (
                0x10,
                Contents::Image(336, &[(CODE, b"\xf7\x31\0\0\0\xfe\0\0\0\0\x1d\x92")]),
            ),
        ],
    ),
];

/// The stack ends at 80005000 (hexadecimal), and the frame takes 48 bytes of it.
const STRANGER_CASE: Case = Case {
    front: &[],
    drivers: STRANGERS,
    said: b"policy none fuel 65536
start 76697264-7265-6e20-756d-626572203031 round 1 denied range at 0000000000000000
  deny mem read 0000000000000000 8 range
start 76697264-7265-6e20-756d-626572203032 round 1 denied mmram at 0000000080000100
  deny mem write 0000000080000100 8 mmram
start 76697264-7265-6e20-756d-626572203033 round 1 denied mmram at 0000000080004fd0
  deny mem exec 0000000080004fd0 2 mmram
start 76697264-7265-6e20-756d-626572203034 round 1 denied buffer at 0000000040000000
  deny mem read 0000000040000000 1 buffer
start 76697264-7265-6e20-756d-626572203035 round 1 denied norule at 00000000fe000000
  deny mem read 00000000fe000000 1 norule
locked images 0 handlers 0 protocols 0
",
};

#[test]
fn withdraws_drivers_that_touch_what_is_not_theirs(rt: HostRuntime) -> Result<(), Fail> {
    assert!(rt; is_as_said(rt.alloc(), &STRANGER_CASE)?);
    Ok(())
}

/// Reads port 70 (hexadecimal), which is denied, and returns 0.
const DENIED_ONCE: Section = (
    0x10,
    Contents::Image(
        336,
        &[
            // R1 = @R0(+24), the service page; PUSH64 R5, a cell; R4 = R0; PUSH64 R4, where the value goes
            (CODE, b"\x60\x81\x18\0\x6b\x05\x20\x04\x6b\x04"),
            // R2 = 70; PUSH64 R2; R2 = 1; PUSH64 R2
            (CODE + 10, b"\x77\x32\x70\0\x6b\x02\x77\x32\x01\0\x6b\x02"),
            // R3 = R1(+448); native call of service 12; R0 = R0(+32); R7 = R7 xor R7; RET
            (
                CODE + 22,
                b"\x60\x13\xc0\x01\x03\x23\x60\0\x20\0\x56\x77\x04\0",
            ),
        ],
    ),
);

/// Writes the model-specific register 20 (hexadecimal) without an end.
const DENIED_ALWAYS: Section = (
    0x10,
    Contents::Image(
        336,
        &[
            // R1 = @R0(+24), the service page; R2 = 20
            (CODE, b"\x60\x81\x18\0\x77\x32\x20\0"),
            // PUSH64 R5, the value; PUSH64 R2; R3 = R1(+496); native call of service 15; R0 = R0(+16); JMP8 to the first PUSH64
            (
                CODE + 8,
                b"\x6b\x05\x6b\x02\x60\x13\xf0\x01\x03\x23\x60\0\x10\0\x02\xf8",
            ),
        ],
    ),
);

const DENIED_CASE: Case = Case {
    front: &[],
    drivers: &[
        (b"driver number 01", &[TRUE, DENIED_ONCE]),
        (b"driver number 02", &[TRUE, DENIED_ALWAYS]),
    ],
    said: b"policy none fuel 65536
start 76697264-7265-6e20-756d-626572203031 round 1 returned 0000000000000000
  deny io read 0000000000000070 1 norule
start 76697264-7265-6e20-756d-626572203032 round 1 denied norule at 0000000000000020
  deny msr write 0000000000000020 1 norule
  deny msr write 0000000000000020 1 norule
  deny msr write 0000000000000020 1 norule
  deny msr write 0000000000000020 1 norule
  deny msr write 0000000000000020 1 norule
  deny msr write 0000000000000020 1 norule
  deny msr write 0000000000000020 1 norule
  deny msr write 0000000000000020 1 norule
locked images 1 handlers 0 protocols 0
image 0 76697264-7265-6e20-756d-626572203031 closed
",
};

#[test]
fn stops_a_driver_at_its_eighth_denial(rt: HostRuntime) -> Result<(), Fail> {
    assert!(rt; is_as_said(rt.alloc(), &DENIED_CASE)?);
    Ok(())
}

/// Drivers that return a warning, an error, their image's number and 1, the number -1, and that again; the last one breaks.
const STATUSES: &[Driver] = &[
    // R7 = 2000000000000000; RET
    (
        b"driver number 01",
        &[
            TRUE,
            (
                0x10,
                Contents::Image(336, &[(CODE, b"\xf7\x37\0\0\0\0\0\0\0\x20\x04\0")]),
            ),
        ],
    ),
    // R7 = 800000000000000E; RET
    (
        b"driver number 02",
        &[
            TRUE,
            (
                0x10,
                Contents::Image(336, &[(CODE, b"\xf7\x37\x0e\0\0\0\0\0\0\x80\x04\0")]),
            ),
        ],
    ),
    (b"driver number 03", &[TRUE, TELLS_NUMBER]),
    // R7 = -1; RET
    (
        b"driver number 04",
        &[
            TRUE,
            (
                0x10,
                Contents::Image(336, &[(CODE, b"\x77\x37\xff\xff\x04\0")]),
            ),
        ],
    ),
    (b"driver number 05", &[TRUE, TELLS_NUMBER]),
    (b"driver number 06", &[TRUE, BREAKS]),
];

/// Three images stay, of 39 pages each, so that the last one begins at 80075000 (hexadecimal).
const STATUS_CASE: Case = Case {
    front: &[],
    drivers: STATUSES,
    said: b"policy none fuel 65536
start 76697264-7265-6e20-756d-626572203031 round 1 returned 2000000000000000
start 76697264-7265-6e20-756d-626572203032 round 1 returned 800000000000000e
start 76697264-7265-6e20-756d-626572203033 round 1 returned 0000000000000002
start 76697264-7265-6e20-756d-626572203034 round 1 returned ffffffffffffffff
start 76697264-7265-6e20-756d-626572203035 round 1 returned 0000000000000003
start 76697264-7265-6e20-756d-626572203036 round 1 fault break at 0000000080075100
locked images 3 handlers 0 protocols 0
image 0 76697264-7265-6e20-756d-626572203031 closed
image 1 76697264-7265-6e20-756d-626572203033 closed
image 2 76697264-7265-6e20-756d-626572203035 closed
",
};

#[test]
fn withdraws_drivers_that_return_an_error(rt: HostRuntime) -> Result<(), Fail> {
    assert!(rt; is_as_said(rt.alloc(), &STATUS_CASE)?);
    Ok(())
}

/// A policy of no rules that gives 13 of fuel.
const THIRTEEN: &[Part] = &[Part {
    name: POLICY_NAME,
    kind: 0x02,
    attributes: 0,
    off: 0,
    body: &[Layout {
        length: 20,
        pieces: &[(0, b"\x14\0\0\x19MMSP\x01"), (16, b"\x0d")],
    }],
}];

/// The sample driver, which takes 13 units; one that jumps to itself; and 12 and 13 moves of R4 to itself before a RET.
const SPENDERS: &[Driver] = &[
    (b"driver number 01", &[TRUE, SOUND]),
    (
        b"driver number 02",
        &[TRUE, (0x10, Contents::Image(336, &[(CODE, b"\x02\xff")]))],
    ),
    (
        b"driver number 03",
        &[
            TRUE,
            (
                0x10,
                Contents::Image(
                    336,
                    &[(
                        CODE,
                        b"\x20\x44\x20\x44\x20\x44\x20\x44\x20\x44\x20\x44\x20\x44\x20\x44\x20\x44\x20\x44\x20\x44\x20\x44\x04\0",
                    )],
                ),
            ),
        ],
    ),
    (
        b"driver number 04",
        &[
            TRUE,
            (
                0x10,
                Contents::Image(
                    336,
                    &[(
                        CODE,
                        b"\x20\x44\x20\x44\x20\x44\x20\x44\x20\x44\x20\x44\x20\x44\x20\x44\x20\x44\x20\x44\x20\x44\x20\x44\x20\x44\x04\0",
                    )],
                ),
            ),
        ],
    ),
];

/// The image of the last driver begins at 8004E000 (hexadecimal), and its RET stands 26 bytes after the code's begin.
const SPENDER_CASE: Case = Case {
    front: THIRTEEN,
    drivers: SPENDERS,
    said: b"policy rules 0 fuel 13
start 76697264-7265-6e20-756d-626572203031 round 1 returned 0000000000000000
start 76697264-7265-6e20-756d-626572203032 round 1 fuel at 0000000080027100
start 76697264-7265-6e20-756d-626572203033 round 1 returned 0000000000000000
start 76697264-7265-6e20-756d-626572203034 round 1 fuel at 000000008004e11a
locked images 2 handlers 1 protocols 0
image 0 76697264-7265-6e20-756d-626572203031 closed
image 1 76697264-7265-6e20-756d-626572203033 closed
",
};

#[test]
fn withdraws_drivers_that_run_out_of_fuel(rt: HostRuntime) -> Result<(), Fail> {
    assert!(rt; is_as_said(rt.alloc(), &SPENDER_CASE)?);
    Ok(())
}
