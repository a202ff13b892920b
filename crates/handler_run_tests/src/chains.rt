//! Two drivers with handlers for one GUID, of which one is stopped: its records are told, the chain goes on, and what it wrote stays. What is
//! expected was worked out by hand from the formats.
use crate::cases::{Case, first_wrong};
use crate::code::{HANDLER, NAMED, REGISTERS};
use sample_volumes::{Contents, Layout, POLICY_NAME, Part, Section, TRUE};
use std::test::Fail;

/// A policy that gives 65,536 of fuel, and one rule: all images may read and write port 70 (hexadecimal).
const PORT_RULE: &[Part] = &[Part {
    name: POLICY_NAME,
    kind: 0x02,
    attributes: 0,
    off: 0,
    body: &[Layout {
        length: 60,
        pieces: &[
            (0, b"\x3c\0\0\x19MMSP\x01\0\0\0\x01\0\0\0\0\0\x01\0"),
            (20, b"\x02\0\x01\0\x03"),
            (44, b"\x70"),
            (52, b"\x01"),
        ],
    }],
}];

/// Writes 5A into its buffer and to port 70, is denied an out pointer at 5A (all hexadecimal), and breaks at 146.
const WRITES_AND_BREAKS: Section = (
    0x10,
    Contents::Image(
        336,
        &[
            NAMED,
            REGISTERS,
            // R1 = @R0(+32), the buffer; R2 = 5A; the byte at R1 = R2; PUSH64 R2, the value
            (HANDLER, b"\x60\x81\x20\0\x77\x32\x5a\0\x1d\x29\x6b\x02"),
            // R4 = 70; PUSH64 R4, the port; R5 = 1; PUSH64 R5, the width
            (
                HANDLER + 12,
                b"\x77\x34\x70\0\x6b\x04\x77\x35\x01\0\x6b\x05",
            ),
            // R3 = R1(+4552); native call of service 13; R3 = R3(-16); native call of service 12, which takes 5A for its out pointer; BREAK 0
            (
                HANDLER + 24,
                b"\x60\x13\x39\x52\x03\x23\x60\x33\x10\x80\x03\x23\0\0",
            ),
        ],
    ),
);

/// Reads port 70 (hexadecimal) into the second 8 bytes of its buffer, and returns the status that it is answered.
const READS_PORT: Section = (
    0x10,
    Contents::Image(
        336,
        &[
            NAMED,
            REGISTERS,
            // R1 = @R0(+32), the buffer; R2 = R1(+8); PUSH64 R2, where the value goes
            (HANDLER, b"\x60\x81\x20\0\x60\x12\x08\0\x6b\x02"),
            // R2 = 70; PUSH64 R2, the port; R2 = 1; PUSH64 R2, the width
            (
                HANDLER + 10,
                b"\x77\x32\x70\0\x6b\x02\x77\x32\x01\0\x6b\x02",
            ),
            // R3 = R1(+4536); native call of service 12; R0 = R0(+24); RET
            (HANDLER + 22, b"\x60\x13\x37\x52\x03\x23\x60\0\x18\0\x04\0"),
        ],
    ),
);

const CHAIN_CASES: &[Case] = &[
    Case {
        name: "the first one is stopped",
        front: PORT_RULE,
        drivers: &[
            (b"driver number 01", &[TRUE, WRITES_AND_BREAKS]),
            (b"driver number 02", &[TRUE, READS_PORT]),
        ],
        script: b"lanes 1 5
fill 0 11111111222233334444555555555555100000000000000001020304050607081112131415161718
ring 0
run 0
",
        said: &[
            b"policy rules 1 fuel 65536
start 76697264-7265-6e20-756d-626572203031 round 1 returned 0000000000000000
start 76697264-7265-6e20-756d-626572203032 round 1 returned 0000000000000000
locked images 2 handlers 2 protocols 0
image 0 76697264-7265-6e20-756d-626572203031 open
image 1 76697264-7265-6e20-756d-626572203032 open
entry 0 lane 0 loads 6 status 0000000000000000
  request 0000000000000028 11111111222233334444555555555555100000000000000001020304050607081112131415161718
  dispatched 11111111-2222-3333-4444-555555555555
  handler 0 fault break at 0000000080000146
    deny mem write 000000000000005a 8 range
    write io 0000000000000070 1 000000000000005a
  handler 1 returned 0000000000000000
  reply 1111111122223333444455555555555510000000000000005a020304050607085a00000000000000
lane 0 length 0000000000000028 status 0000000000000000 data 1111111122223333444455555555555510000000000000005a020304050607085a00000000000000
",
        ],
    },
    // The first handler's SUCCESS ends the chain: the other one isn't called, and the port keeps what the script opened it with.
    Case {
        name: "the other one would be stopped",
        front: PORT_RULE,
        drivers: &[
            (b"driver number 01", &[TRUE, READS_PORT]),
            (b"driver number 02", &[TRUE, WRITES_AND_BREAKS]),
        ],
        script: b"lanes 1 5
cell io 70 3c
fill 0 11111111222233334444555555555555100000000000000001020304050607081112131415161718
ring 0
run 0
",
        said: &[
            b"policy rules 1 fuel 65536
start 76697264-7265-6e20-756d-626572203031 round 1 returned 0000000000000000
start 76697264-7265-6e20-756d-626572203032 round 1 returned 0000000000000000
locked images 2 handlers 2 protocols 0
image 0 76697264-7265-6e20-756d-626572203031 open
image 1 76697264-7265-6e20-756d-626572203032 open
entry 0 lane 0 loads 6 status 0000000000000000
  request 0000000000000028 11111111222233334444555555555555100000000000000001020304050607081112131415161718
  dispatched 11111111-2222-3333-4444-555555555555
  handler 0 returned 0000000000000000
  reply 11111111222233334444555555555555100000000000000001020304050607083c00000000000000
lane 0 length 0000000000000028 status 0000000000000000 data 11111111222233334444555555555555100000000000000001020304050607083c00000000000000
",
        ],
    },
];

#[test]
fn a_chain_goes_on_after_a_handler_that_is_stopped(rt: HostRuntime) -> Result<(), Fail> {
    assert_eq!(rt; first_wrong(rt.alloc(), CHAIN_CASES)?, None);
    Ok(())
}
