//! Handlers that change the size or the buffer of their message. What is expected was worked out by hand from the formats.
use crate::cases::{Case, first_wrong};
use crate::code::{
    CODE, HANDLER, LEFT, LEFT_NOT_SERVED, NAMED, NOT_SERVED, ONE_BOOTED, ONE_MESSAGE, REGISTERS,
    SERVED, TWO_BOOTED,
};
use sample_volumes::{Contents, Driver, Piece, Section, TRUE};
use std::test::Fail;

/// Makes the size 64: R1 = @R0(+40), the size cell; R2 = 64; @R1 = R2; RET.
const LENGTHENS: Section = (
    0x10,
    Contents::Image(
        336,
        &[
            NAMED,
            REGISTERS,
            (HANDLER, b"\x60\x81\x28\0\x77\x32\x40\0\x20\x29\x04\0"),
        ],
    ),
);

/// Makes the size -1, in the same way.
const LENGTHENS_MOST: Section = (
    0x10,
    Contents::Image(
        336,
        &[
            NAMED,
            REGISTERS,
            (HANDLER, b"\x60\x81\x28\0\x77\x32\xff\xff\x20\x29\x04\0"),
        ],
    ),
);

/// Makes the size 5, in the same way.
const SHORTENS: Section = (
    0x10,
    Contents::Image(
        336,
        &[
            NAMED,
            REGISTERS,
            (HANDLER, b"\x60\x81\x28\0\x77\x32\x05\0\x20\x29\x04\0"),
        ],
    ),
);

/// Makes the size 0: R1 = @R0(+40); @R1 = R2; RET.
const EMPTIES: Section = (
    0x10,
    Contents::Image(
        336,
        &[NAMED, REGISTERS, (HANDLER, b"\x60\x81\x28\0\x20\x29\x04\0")],
    ),
);

/// Writes the last 8 bytes of its communicate page, and then 8 bytes of which the last 4 lie in the next page:
/// R1 = @R0(+32), the buffer; @R1(+4080) = R1; @R1(+4084) = R1; RET.
const PASSES_THE_PAGE: Section = (
    0x10,
    Contents::Image(
        336,
        &[
            NAMED,
            REGISTERS,
            (
                HANDLER,
                b"\x60\x81\x20\0\xa0\x19\xf0\x0f\xa0\x19\xf4\x0f\x04\0",
            ),
        ],
    ),
);

/// An entry that registers two handlers for the GUID, which begin at 12A and 138 (hexadecimal).
const REGISTERS_TWICE: Piece = (
    CODE,
    // R1 = @R0(+24), the service page; PUSH64 R5, a cell; R4 = R0; PUSH64 R4, where the number goes
    // R2 = the GUID, 254 bytes back; PUSH64 R2; R2 = the first handler, 22 bytes on; PUSH64 R2
    // R3 = R1(+400); native call of service 9; R2 = R2(+14), the second handler; @R0 = R2; native call of service 9; R0 = R0(+32); RET
    b"\x60\x81\x18\0\x6b\x05\x20\x04\x6b\x04\x79\x02\x02\xff\x6b\x02\x79\x02\x16\0\x6b\x02\
    \x60\x13\x90\x01\x03\x23\x60\x22\x0e\0\x20\x28\x03\x23\x60\0\x20\0\x04\0",
);

/// Its first handler writes 8 bytes past the buffer, and returns 7; its second one moves what stands there into the buffer.
const WRITES_PAST: Section = (
    0x10,
    Contents::Image(
        336,
        &[
            NAMED,
            REGISTERS_TWICE,
            // R1 = @R0(+32), the buffer; @R1(+8) = R1; R7 = 7; RET
            (0x12a, b"\x60\x81\x20\0\xa0\x19\x08\0\x77\x37\x07\0\x04\0"),
            // R1 = @R0(+32); R2 = @R1(+8); @R1 = R2; RET
            (0x138, b"\x60\x81\x20\0\x60\x92\x08\0\x20\x29\x04\0"),
        ],
    ),
);

/// Writes the byte 5A into the buffer and past it, makes the size 64, and returns WARN_INTERRUPT_SOURCE_QUIESCED.
const HANDS_ON: Section = (
    0x10,
    Contents::Image(
        336,
        &[
            NAMED,
            REGISTERS,
            // R1 = @R0(+32), the buffer; R2 = 5A; the byte at R1 = R2; the byte at R1(+8) = R2
            (
                HANDLER,
                b"\x60\x81\x20\0\x77\x32\x5a\0\x1d\x29\x9d\x29\x08\0",
            ),
            // R3 = 64; @R1(-8) = R3, the size; R7 = 2000000000000001; RET
            (
                HANDLER + 14,
                b"\x77\x33\x40\0\xa0\x39\x08\x80\xf7\x37\x01\0\0\0\0\0\0\x20\x04\0",
            ),
        ],
    ),
);

/// Puts the size that it is given into the second byte of its buffer, and the byte past the buffer into the third:
/// R1 = @R0(+32); R2 = @R1(-8); R3 = @R1(+8); the byte at R1(+1) = R2; the byte at R1(+2) = R3; RET.
const TELLS_SIZE: Section = (
    0x10,
    Contents::Image(
        336,
        &[
            NAMED,
            REGISTERS,
            (
                HANDLER,
                b"\x60\x81\x20\0\x60\x92\x08\x80\x60\x93\x08\0\x9d\x29\x01\0\x9d\x39\x02\0\x04\0",
            ),
        ],
    ),
);

const SIZE_CASES: &[Case] = &[
    // The buffer has 8 bytes whatever the size becomes.
    Case {
        name: "a size of 64",
        front: &[],
        drivers: &[(b"driver number 01", &[TRUE, LENGTHENS])],
        script: ONE_MESSAGE,
        said: &[
            ONE_BOOTED,
            SERVED,
            b"  handler 0 returned 0000000000000000\n",
            LEFT,
        ],
    },
    Case {
        name: "the largest size",
        front: &[],
        drivers: &[(b"driver number 01", &[TRUE, LENGTHENS_MOST])],
        script: ONE_MESSAGE,
        said: &[
            ONE_BOOTED,
            SERVED,
            b"  handler 0 returned 0000000000000000\n",
            LEFT,
        ],
    },
    // The reply has 29 bytes, and 0 after them in their last word.
    Case {
        name: "a size of 5",
        front: &[],
        drivers: &[(b"driver number 01", &[TRUE, SHORTENS])],
        script: ONE_MESSAGE,
        said: &[
            ONE_BOOTED,
            SERVED,
            b"  handler 0 returned 0000000000000000
  reply 1111111122223333444455555555555508000000000000000102030405
lane 0 length 000000000000001d status 0000000000000000 data 1111111122223333444455555555555508000000000000000102030405000000
",
        ],
    },
    // The reply is the header, and the message stays in the lane.
    Case {
        name: "a size of 0",
        front: &[],
        drivers: &[(b"driver number 01", &[TRUE, EMPTIES])],
        script: ONE_MESSAGE,
        said: &[
            ONE_BOOTED,
            SERVED,
            b"  handler 0 returned 0000000000000000
  reply 111111112222333344445555555555550800000000000000
lane 0 length 0000000000000018 status 0000000000000000 data 1111111122223333444455555555555508000000000000000102030405060708
",
        ],
    },
];

#[test]
fn the_size_cuts_the_reply(rt: HostRuntime) -> Result<(), Fail> {
    assert_eq!(rt; first_wrong(rt.alloc(), SIZE_CASES)?, None);
    Ok(())
}

const PAST_CASES: &[Case] = &[
    // The page is filled anew before the second handler.
    Case {
        name: "past the buffer",
        front: &[],
        drivers: &[(b"driver number 01", &[TRUE, WRITES_PAST])],
        script: ONE_MESSAGE,
        said: &[
            b"policy none fuel 65536
start 76697264-7265-6e20-756d-626572203031 round 1 returned 0000000000000000
locked images 1 handlers 2 protocols 0
image 0 76697264-7265-6e20-756d-626572203031 closed
",
            SERVED,
            b"  handler 0 returned 0000000000000007
  handler 1 returned 0000000000000000
  reply 1111111122223333444455555555555508000000000000000000000000000000
lane 0 length 0000000000000020 status 0000000000000000 data 1111111122223333444455555555555508000000000000000000000000000000
",
        ],
    },
    // The page ends at 80006000 (hexadecimal).
    Case {
        name: "past the page",
        front: &[],
        drivers: &[(b"driver number 01", &[TRUE, PASSES_THE_PAGE])],
        script: ONE_MESSAGE,
        said: &[
            ONE_BOOTED,
            NOT_SERVED,
            b"  handler 0 denied mmram at 0000000080005ffc
    deny mem write 0000000080005ffc 8 mmram
",
            LEFT_NOT_SERVED,
        ],
    },
];

#[test]
fn what_is_written_past_the_buffer_is_not_handed_on(rt: HostRuntime) -> Result<(), Fail> {
    assert_eq!(rt; first_wrong(rt.alloc(), PAST_CASES)?, None);
    Ok(())
}

/// The first handler of two, each of another image, and the second one.
const PAIR: &[Driver] = &[
    (b"driver number 01", &[TRUE, HANDS_ON]),
    (b"driver number 02", &[TRUE, TELLS_SIZE]),
];

/// The buffer and the size are handed on.
const PAIR_CASES: &[Case] = &[Case {
    name: "a pair",
    front: &[],
    drivers: PAIR,
    script: ONE_MESSAGE,
    said: &[
        TWO_BOOTED,
        SERVED,
        b"  handler 0 returned 2000000000000001
  handler 1 returned 0000000000000000
  reply 1111111122223333444455555555555508000000000000005a40000405060708
lane 0 length 0000000000000020 status 0000000000000000 data 1111111122223333444455555555555508000000000000005a40000405060708
",
    ],
}];

#[test]
fn buffer_and_size_are_handed_on(rt: HostRuntime) -> Result<(), Fail> {
    assert_eq!(rt; first_wrong(rt.alloc(), PAIR_CASES)?, None);
    Ok(())
}
