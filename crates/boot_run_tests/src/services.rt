//! Drivers that install protocols, register handlers, and touch cells. What is expected was worked out by hand from the formats.
use crate::cases::{Case, is_as_said};
use crate::code::{CODE, INSTALLS, TELLS_NUMBER, WANTS};
use sample_volumes::{Contents, Driver, Layout, POLICY_NAME, Part, Section, TRUE};
use std::test::Fail;

/// Finds the protocol that `INSTALLS` installs, registers a handler for its name, and returns the interface.
const FINDS: Section = (
    0x10,
    Contents::Image(
        336,
        &[
            // R1 = @R0(+24), the service page; PUSH64 R5, a cell; R4 = R0; PUSH64 R4, where the interface goes
            (CODE, b"\x60\x81\x18\0\x6b\x05\x20\x04\x6b\x04"),
            // R5 = the name, 50 bytes on; PUSH64 R5; R3 = R1(+384); native call of service 8; R6 = @R4
            (
                CODE + 10,
                b"\x79\x05\x32\0\x6b\x05\x60\x13\x80\x01\x03\x23\x20\xc6",
            ),
            // PUSH64 R4, where the handler's number goes; PUSH64 R5; R2 = the last RET, 14 bytes on; PUSH64 R2
            (CODE + 24, b"\x6b\x04\x6b\x05\x79\x02\x0e\0\x6b\x02"),
            // R3 = R1(+400); native call of service 9; R7 = R6; R0 = R0(+48); RET
            (
                CODE + 34,
                b"\x60\x13\x90\x01\x03\x23\x20\x67\x60\0\x30\0\x04\0",
            ),
        ],
    ),
);

/// The first driver waits until the second one has installed its protocol.
const FOUND_CASE: Case = Case {
    front: &[],
    drivers: &[
        (b"driver number 01", &[WANTS, FINDS]),
        (b"driver number 02", &[TRUE, INSTALLS]),
    ],
    said: b"policy none fuel 65536
start 76697264-7265-6e20-756d-626572203032 round 1 returned 0000000000000000
start 76697264-7265-6e20-756d-626572203031 round 2 returned 0000000000001234
locked images 2 handlers 1 protocols 1
image 0 76697264-7265-6e20-756d-626572203032 closed
image 1 76697264-7265-6e20-756d-626572203031 closed
",
};

#[test]
fn finds_what_another_driver_installed(rt: HostRuntime) -> Result<(), Fail> {
    assert!(rt; is_as_said(rt.alloc(), &FOUND_CASE)?);
    Ok(())
}

/// Installs the protocol too, and returns an error.
const INSTALLS_AND_FAILS: Section = (
    0x10,
    Contents::Image(
        336,
        &[
            // R1 = @R0(+24), the service page; PUSH64 R5, a cell; R4 = R0; PUSH64 R4, where the handle goes
            (CODE, b"\x60\x81\x18\0\x6b\x05\x20\x04\x6b\x04"),
            // R2 = 1234; PUSH64 R2; R2 = the name, 44 bytes on; PUSH64 R2; PUSH64 R5, no handle
            (
                CODE + 10,
                b"\x77\x32\x34\x12\x6b\x02\x79\x02\x2c\0\x6b\x02\x6b\x05",
            ),
            // R3 = R1(+320); native call of service 4; R0 = R0(+40)
            (CODE + 24, b"\x60\x13\x40\x01\x03\x23\x60\0\x28\0"),
            // R7 = 8000000000000015; RET
            (CODE + 34, b"\xf7\x37\x15\0\0\0\0\0\0\x80\x04\0"),
        ],
    ),
);

/// A driver that is withdrawn; one that wants its protocol; one that starts after it; and one that starts before that. The withdrawn
/// driver's number is used again.
const WITHDRAWN_CASE: Case = Case {
    front: &[],
    drivers: &[
        (b"driver number 01", &[TRUE, INSTALLS_AND_FAILS]),
        (b"driver number 02", &[WANTS, TELLS_NUMBER]),
        (
            b"driver number 03",
            &[
                (0x1c, Contents::Bytes(b"\x01driver number 01\x08")),
                TELLS_NUMBER,
            ],
        ),
        (
            b"driver number 04",
            &[
                (0x1c, Contents::Bytes(b"\0driver number 03\x08")),
                TELLS_NUMBER,
            ],
        ),
    ],
    said: b"policy none fuel 65536
start 76697264-7265-6e20-756d-626572203031 round 1 returned 8000000000000015
start 76697264-7265-6e20-756d-626572203034 round 1 returned 0000000000000001
start 76697264-7265-6e20-756d-626572203033 round 1 returned 0000000000000002
waiting 76697264-7265-6e20-756d-626572203032
locked images 2 handlers 0 protocols 0
image 0 76697264-7265-6e20-756d-626572203034 closed
image 1 76697264-7265-6e20-756d-626572203033 closed
",
};

#[test]
fn takes_back_what_a_withdrawn_driver_installed(rt: HostRuntime) -> Result<(), Fail> {
    assert!(rt; is_as_said(rt.alloc(), &WITHDRAWN_CASE)?);
    Ok(())
}

/// A policy of one rule: all images may read and write all device bytes, which are 65,536 from FE000000 (hexadecimal) on.
const DEVICE_RULE: &[Part] = &[Part {
    name: POLICY_NAME,
    kind: 0x02,
    attributes: 0,
    off: 0,
    body: &[Layout {
        length: 60,
        pieces: &[
            (0, b"\x3c\0\0\x19MMSP\x01\0\0\0\x01\0\0\0\0\0\x01\0"),
            (20, b"\x01\0\x01\0\x03"),
            (47, b"\xfe"),
            (54, b"\x01"),
        ],
    }],
}];

const DEVICE_DRIVERS: &[Driver] = &[
    // R1 = FE000005; R2 = the byte at R1; the byte at R1(+1) = R2; R2 = 5A; the byte at R1 = R2; R7 = 800000000000000E; RET
    (
        b"driver number 01",
        &[
            TRUE,
            (
                0x10,
                Contents::Image(
                    336,
                    &[
                        (
                            CODE,
                            b"\xf7\x31\x05\0\0\xfe\0\0\0\0\x1d\x92\x9d\x29\x01\0\x77\x32\x5a\0\x1d\x29",
                        ),
                        (CODE + 22, b"\xf7\x37\x0e\0\0\0\0\0\0\x80\x04\0"),
                    ],
                ),
            ),
        ],
    ),
    // R1 = FE000005; R2 = the byte at R1; the byte at R1(+2) = R2; RET
    (
        b"driver number 02",
        &[
            TRUE,
            (
                0x10,
                Contents::Image(
                    336,
                    &[(
                        CODE,
                        b"\xf7\x31\x05\0\0\xfe\0\0\0\0\x1d\x92\x9d\x29\x02\0\x04\0",
                    )],
                ),
            ),
        ],
    ),
    // R1 = FE000000; the byte at R1 = R2; JMP8 to that again
    (
        b"driver number 03",
        &[
            TRUE,
            (
                0x10,
                Contents::Image(
                    336,
                    &[(CODE, b"\xf7\x31\0\0\0\xfe\0\0\0\0\x1d\x29\x02\xfe")],
                ),
            ),
        ],
    ),
];

/// The first driver reads 0 from a cell that nobody wrote. What it writes stays although it is withdrawn. The third one may make 16 writes.
const DEVICE_CASE: Case = Case {
    front: DEVICE_RULE,
    drivers: DEVICE_DRIVERS,
    said: b"policy rules 1 fuel 65536
start 76697264-7265-6e20-756d-626572203031 round 1 returned 800000000000000e
  write mem 00000000fe000006 1 0000000000000000
  write mem 00000000fe000005 1 000000000000005a
start 76697264-7265-6e20-756d-626572203032 round 1 returned 0000000000000000
  write mem 00000000fe000007 1 000000000000005a
start 76697264-7265-6e20-756d-626572203033 round 1 denied quota at 00000000fe000000
  deny mem write 00000000fe000000 1 quota
  write mem 00000000fe000000 1 0000000000000000
  write mem 00000000fe000000 1 0000000000000000
  write mem 00000000fe000000 1 0000000000000000
  write mem 00000000fe000000 1 0000000000000000
  write mem 00000000fe000000 1 0000000000000000
  write mem 00000000fe000000 1 0000000000000000
  write mem 00000000fe000000 1 0000000000000000
  write mem 00000000fe000000 1 0000000000000000
  write mem 00000000fe000000 1 0000000000000000
  write mem 00000000fe000000 1 0000000000000000
  write mem 00000000fe000000 1 0000000000000000
  write mem 00000000fe000000 1 0000000000000000
  write mem 00000000fe000000 1 0000000000000000
  write mem 00000000fe000000 1 0000000000000000
  write mem 00000000fe000000 1 0000000000000000
  write mem 00000000fe000000 1 0000000000000000
locked images 1 handlers 0 protocols 0
image 0 76697264-7265-6e20-756d-626572203032 closed
",
};

#[test]
fn opens_all_cells_with_zeros(rt: HostRuntime) -> Result<(), Fail> {
    assert!(rt; is_as_said(rt.alloc(), &DEVICE_CASE)?);
    Ok(())
}
