//! Handlers that end in a fault, or whose fuel is used up. Each first writes the byte 5A into its buffer, which stays. What is expected was
//! worked out by hand from the formats.
use crate::cases::{Case, first_wrong};
use crate::code::{
    HANDLER, LEFT, NAMED, NEXT, NOT_SERVED, ONE_BOOTED, ONE_MESSAGE, REGISTERS, SERVED, WRITES,
    WRITTEN,
};
use sample_volumes::{Contents, Driver, Layout, POLICY_NAME, Part, TRUE};
use std::test::Fail;

const FAULT_CASES: &[Case] = &[
    // no opcode
    Case {
        name: "encoding",
        front: &[],
        drivers: &[(
            b"driver number 01",
            &[
                TRUE,
                (
                    0x10,
                    Contents::Image(336, &[NAMED, REGISTERS, WRITES, (NEXT, b"\x27\0")]),
                ),
            ],
        )],
        script: ONE_MESSAGE,
        said: &[
            ONE_BOOTED,
            NOT_SERVED,
            b"  handler 0 fault encoding at 000000008000012c\n",
            WRITTEN,
        ],
    },
    // DIV64 R2, R3, which is 0
    Case {
        name: "divide",
        front: &[],
        drivers: &[(
            b"driver number 01",
            &[
                TRUE,
                (
                    0x10,
                    Contents::Image(336, &[NAMED, REGISTERS, WRITES, (NEXT, b"\x50\x32")]),
                ),
            ],
        )],
        script: ONE_MESSAGE,
        said: &[
            ONE_BOOTED,
            NOT_SERVED,
            b"  handler 0 fault divide at 000000008000012c\n",
            WRITTEN,
        ],
    },
    // JMP to the next address and 1
    Case {
        name: "alignment",
        front: &[],
        drivers: &[(
            b"driver number 01",
            &[
                TRUE,
                (
                    0x10,
                    Contents::Image(
                        336,
                        &[NAMED, REGISTERS, WRITES, (NEXT, b"\x81\x10\x01\0\0\0")],
                    ),
                ),
            ],
        )],
        script: ONE_MESSAGE,
        said: &[
            ONE_BOOTED,
            NOT_SERVED,
            b"  handler 0 fault alignment at 000000008000012c\n",
            WRITTEN,
        ],
    },
    // BREAK 0
    Case {
        name: "break",
        front: &[],
        drivers: &[(
            b"driver number 01",
            &[
                TRUE,
                (
                    0x10,
                    Contents::Image(336, &[NAMED, REGISTERS, WRITES, (NEXT, b"\0\0")]),
                ),
            ],
        )],
        script: ONE_MESSAGE,
        said: &[
            ONE_BOOTED,
            NOT_SERVED,
            b"  handler 0 fault break at 000000008000012c\n",
            WRITTEN,
        ],
    },
    // native CALL of R3, which is 0
    Case {
        name: "native call",
        front: &[],
        drivers: &[(
            b"driver number 01",
            &[
                TRUE,
                (
                    0x10,
                    Contents::Image(336, &[NAMED, REGISTERS, WRITES, (NEXT, b"\x03\x23")]),
                ),
            ],
        )],
        script: ONE_MESSAGE,
        said: &[
            ONE_BOOTED,
            NOT_SERVED,
            b"  handler 0 fault nativecall at 000000008000012c\n",
            WRITTEN,
        ],
    },
    // JMP8 to itself
    Case {
        name: "fuel",
        front: &[],
        drivers: &[(
            b"driver number 01",
            &[
                TRUE,
                (
                    0x10,
                    Contents::Image(336, &[NAMED, REGISTERS, WRITES, (NEXT, b"\x02\xff")]),
                ),
            ],
        )],
        script: ONE_MESSAGE,
        said: &[
            ONE_BOOTED,
            NOT_SERVED,
            b"  handler 0 fuel at 000000008000012c\n",
            WRITTEN,
        ],
    },
];

#[test]
fn what_a_handler_wrote_before_a_fault_stays(rt: HostRuntime) -> Result<(), Fail> {
    assert_eq!(rt; first_wrong(rt.alloc(), FAULT_CASES)?, None);
    Ok(())
}

/// A policy of no rules that gives 13 of fuel.
const THIRTEEN: &[Part] = &[Part {
    name: POLICY_NAME,
    kind: 0x02,
    attributes: 0,
    off: 0,
    body: &[Layout {
        length: 20,
        pieces: &[(0, b"\x14\0\0\x19MMSP\x01"), (16, b"\x0d")],
    }],
}];

/// The handlers have 13 and 12 moves of R4 to itself before a RET. The entries take 13 units.
const SPENDERS: &[Driver] = &[
    (
        b"driver number 01",
        &[
            TRUE,
            (
                0x10,
                Contents::Image(
                    336,
                    &[
                        NAMED,
                        REGISTERS,
                        (
                            HANDLER,
                            b"\x20\x44\x20\x44\x20\x44\x20\x44\x20\x44\x20\x44\x20\x44\x20\x44\x20\x44\x20\x44\x20\x44\x20\x44\x20\x44\x04\0",
                        ),
                    ],
                ),
            ),
        ],
    ),
    (
        b"driver number 02",
        &[
            TRUE,
            (
                0x10,
                Contents::Image(
                    336,
                    &[
                        NAMED,
                        REGISTERS,
                        (
                            HANDLER,
                            b"\x20\x44\x20\x44\x20\x44\x20\x44\x20\x44\x20\x44\x20\x44\x20\x44\x20\x44\x20\x44\x20\x44\x20\x44\x04\0",
                        ),
                    ],
                ),
            ),
        ],
    ),
];

/// The first RET stands 26 bytes after the first handler's begin. The second handler is given as much fuel as the first one was.
const SPENDER_CASES: &[Case] = &[Case {
    name: "13 of fuel",
    front: THIRTEEN,
    drivers: SPENDERS,
    script: ONE_MESSAGE,
    said: &[
        b"policy rules 0 fuel 13
start 76697264-7265-6e20-756d-626572203031 round 1 returned 0000000000000000
start 76697264-7265-6e20-756d-626572203032 round 1 returned 0000000000000000
locked images 2 handlers 2 protocols 0
image 0 76697264-7265-6e20-756d-626572203031 open
image 1 76697264-7265-6e20-756d-626572203032 open
",
        SERVED,
        b"  handler 0 fuel at 000000008000013c
  handler 1 returned 0000000000000000
",
        LEFT,
    ],
}];

#[test]
fn each_handler_has_its_own_fuel(rt: HostRuntime) -> Result<(), Fail> {
    assert_eq!(rt; first_wrong(rt.alloc(), SPENDER_CASES)?, None);
    Ok(())
}
