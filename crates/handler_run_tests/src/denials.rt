//! Handlers that are denied what they touch: the first such access stops one, and so does the eighth service that is denied. What a handler
//! wrote before stays. What is expected was worked out by hand from the formats.
use crate::cases::{Case, first_wrong};
use crate::code::{NAMED, NEXT, NOT_SERVED, ONE_BOOTED, ONE_MESSAGE, REGISTERS, WRITES, WRITTEN};
use sample_volumes::{Contents, TRUE};
use std::test::Fail;

const DENIAL_CASES: &[Case] = &[
    // R3 = @R3, where R3 is 0
    Case {
        name: "no memory",
        front: &[],
        drivers: &[(
            b"driver number 01",
            &[
                TRUE,
                (
                    0x10,
                    Contents::Image(336, &[NAMED, REGISTERS, WRITES, (NEXT, b"\x20\xb3")]),
                ),
            ],
        )],
        script: ONE_MESSAGE,
        said: &[
            ONE_BOOTED,
            NOT_SERVED,
            b"  handler 0 denied range at 0000000000000000
    deny mem read 0000000000000000 8 range
",
            WRITTEN,
        ],
    },
    // R1 = the next address less 4, which is this instruction's; @R1 = R2
    Case {
        name: "the code",
        front: &[],
        drivers: &[(
            b"driver number 01",
            &[
                TRUE,
                (
                    0x10,
                    Contents::Image(
                        336,
                        &[
                            NAMED,
                            REGISTERS,
                            WRITES,
                            (NEXT, b"\x79\x01\xfc\xff\x20\x29"),
                        ],
                    ),
                ),
            ],
        )],
        script: ONE_MESSAGE,
        said: &[
            ONE_BOOTED,
            NOT_SERVED,
            b"  handler 0 denied mmram at 000000008000012c
    deny mem write 000000008000012c 8 mmram
",
            WRITTEN,
        ],
    },
    // JMP R1, which is the buffer
    Case {
        name: "code in the buffer",
        front: &[],
        drivers: &[(
            b"driver number 01",
            &[
                TRUE,
                (
                    0x10,
                    Contents::Image(336, &[NAMED, REGISTERS, WRITES, (NEXT, b"\x01\x01")]),
                ),
            ],
        )],
        script: ONE_MESSAGE,
        said: &[
            ONE_BOOTED,
            NOT_SERVED,
            b"  handler 0 denied mmram at 0000000080005008
    deny mem exec 0000000080005008 2 mmram
",
            WRITTEN,
        ],
    },
    // R1 = 40000000 (hexadecimal), where the lanes begin; R2 = the byte at R1
    Case {
        name: "the lanes",
        front: &[],
        drivers: &[(
            b"driver number 01",
            &[
                TRUE,
                (
                    0x10,
                    Contents::Image(
                        336,
                        &[
                            NAMED,
                            REGISTERS,
                            WRITES,
                            (NEXT, b"\xb7\x31\0\0\0\x40\x1d\x92"),
                        ],
                    ),
                ),
            ],
        )],
        script: ONE_MESSAGE,
        said: &[
            ONE_BOOTED,
            NOT_SERVED,
            b"  handler 0 denied buffer at 0000000040000000
    deny mem read 0000000040000000 1 buffer
",
            WRITTEN,
        ],
    },
    // R1 = FE000000 (hexadecimal), where the device bytes begin; the byte at R1 = R2
    Case {
        name: "a device",
        front: &[],
        drivers: &[(
            b"driver number 01",
            &[
                TRUE,
                (
                    0x10,
                    Contents::Image(
                        336,
                        &[
                            NAMED,
                            REGISTERS,
                            WRITES,
                            (NEXT, b"\xf7\x31\0\0\0\xfe\0\0\0\0\x1d\x29"),
                        ],
                    ),
                ),
            ],
        )],
        script: ONE_MESSAGE,
        said: &[
            ONE_BOOTED,
            NOT_SERVED,
            b"  handler 0 denied norule at 00000000fe000000
    deny mem write 00000000fe000000 1 norule
",
            WRITTEN,
        ],
    },
    // PUSH64 R5, the value; PUSH64 R2; R3 = R1(+4584); native call of service 15; R0 = R0(+16); JMP8 to the first PUSH64: the
    // model-specific register 5A (hexadecimal) is written without an end
    Case {
        name: "eight services",
        front: &[],
        drivers: &[(
            b"driver number 01",
            &[
                TRUE,
                (
                    0x10,
                    Contents::Image(
                        336,
                        &[
                            NAMED,
                            REGISTERS,
                            WRITES,
                            (
                                NEXT,
                                b"\x6b\x05\x6b\x02\x60\x13\x3d\x52\x03\x23\x60\0\x10\0\x02\xf8",
                            ),
                        ],
                    ),
                ),
            ],
        )],
        script: ONE_MESSAGE,
        said: &[
            ONE_BOOTED,
            NOT_SERVED,
            b"  handler 0 denied norule at 000000000000005a
    deny msr write 000000000000005a 1 norule
    deny msr write 000000000000005a 1 norule
    deny msr write 000000000000005a 1 norule
    deny msr write 000000000000005a 1 norule
    deny msr write 000000000000005a 1 norule
    deny msr write 000000000000005a 1 norule
    deny msr write 000000000000005a 1 norule
    deny msr write 000000000000005a 1 norule
",
            WRITTEN,
        ],
    },
];

#[test]
fn what_a_handler_wrote_before_a_denial_stays(rt: HostRuntime) -> Result<(), Fail> {
    assert_eq!(rt; first_wrong(rt.alloc(), DENIAL_CASES)?, None);
    Ok(())
}
