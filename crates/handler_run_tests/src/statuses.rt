//! Handlers that return each kind of status, and root handlers. What is expected was worked out by hand from the formats.
use crate::cases::{Case, first_wrong};
use crate::code::{
    CODE, HANDLER, LEFT, LEFT_NOT_SERVED, NAMED, NOT_SERVED, ONE_BOOTED, ONE_MESSAGE, REGISTERS,
    SERVED, TWO_BOOTED,
};
use sample_volumes::{Contents, Driver, Section, TRUE};
use std::test::Fail;

/// R7 = 2000000000000000, WARN_INTERRUPT_SOURCE_PENDING; RET.
const PENDING: Section = (
    0x10,
    Contents::Image(
        336,
        &[
            NAMED,
            REGISTERS,
            (HANDLER, b"\xf7\x37\0\0\0\0\0\0\0\x20\x04\0"),
        ],
    ),
);

/// R7 = 2000000000000001, WARN_INTERRUPT_SOURCE_QUIESCED; RET.
const QUIESCED: Section = (
    0x10,
    Contents::Image(
        336,
        &[
            NAMED,
            REGISTERS,
            (HANDLER, b"\xf7\x37\x01\0\0\0\0\0\0\x20\x04\0"),
        ],
    ),
);

/// R7 = A000000000000000, INTERRUPT_PENDING; RET.
const INTERRUPTED: Section = (
    0x10,
    Contents::Image(
        336,
        &[
            NAMED,
            REGISTERS,
            (HANDLER, b"\xf7\x37\0\0\0\0\0\0\0\xa0\x04\0"),
        ],
    ),
);

/// R7 = 1, a warning of another kind; RET.
const WARNS: Section = (
    0x10,
    Contents::Image(336, &[NAMED, REGISTERS, (HANDLER, b"\x77\x37\x01\0\x04\0")]),
);

const STATUS_CASES: &[Case] = &[
    Case {
        name: "a source pending",
        front: &[],
        drivers: &[(b"driver number 01", &[TRUE, PENDING])],
        script: ONE_MESSAGE,
        said: &[
            ONE_BOOTED,
            NOT_SERVED,
            b"  handler 0 returned 2000000000000000\n",
            LEFT_NOT_SERVED,
        ],
    },
    Case {
        name: "a source quiesced",
        front: &[],
        drivers: &[(b"driver number 01", &[TRUE, QUIESCED])],
        script: ONE_MESSAGE,
        said: &[
            ONE_BOOTED,
            SERVED,
            b"  handler 0 returned 2000000000000001\n",
            LEFT,
        ],
    },
    Case {
        name: "a warning of another kind",
        front: &[],
        drivers: &[(b"driver number 01", &[TRUE, WARNS])],
        script: ONE_MESSAGE,
        said: &[
            ONE_BOOTED,
            NOT_SERVED,
            b"  handler 0 returned 0000000000000001\n",
            LEFT_NOT_SERVED,
        ],
    },
    Case {
        name: "pending, then quiesced",
        front: &[],
        drivers: &[
            (b"driver number 01", &[TRUE, PENDING]),
            (b"driver number 02", &[TRUE, QUIESCED]),
        ],
        script: ONE_MESSAGE,
        said: &[
            TWO_BOOTED,
            SERVED,
            b"  handler 0 returned 2000000000000000
  handler 1 returned 2000000000000001
",
            LEFT,
        ],
    },
    Case {
        name: "quiesced, then pending",
        front: &[],
        drivers: &[
            (b"driver number 01", &[TRUE, QUIESCED]),
            (b"driver number 02", &[TRUE, PENDING]),
        ],
        script: ONE_MESSAGE,
        said: &[
            TWO_BOOTED,
            SERVED,
            b"  handler 0 returned 2000000000000001
  handler 1 returned 2000000000000000
",
            LEFT,
        ],
    },
    // The chain ends with the first handler.
    Case {
        name: "an interrupt pending",
        front: &[],
        drivers: &[
            (b"driver number 01", &[TRUE, INTERRUPTED]),
            (b"driver number 02", &[TRUE, QUIESCED]),
        ],
        script: ONE_MESSAGE,
        said: &[
            TWO_BOOTED,
            NOT_SERVED,
            b"  handler 0 returned a000000000000000\n",
            LEFT_NOT_SERVED,
        ],
    },
];

#[test]
fn the_statuses_of_a_chain_give_that_of_the_entry(rt: HostRuntime) -> Result<(), Fail> {
    assert_eq!(rt; first_wrong(rt.alloc(), STATUS_CASES)?, None);
    Ok(())
}

/// An entry that registers a root handler, which begins at 12E (hexadecimal), and one for the GUID, at 144. The latter returns 7. The root
/// handler returns a sum: of its number and 1, of what it is told as the addresses of its buffer and of its size, and of the first 16 bytes
/// of its communicate page, which begins where the stack ends.
const ROOT: Section = (
    0x10,
    Contents::Image(
        336,
        &[
            NAMED,
            // R1 = @R0(+24), the service page; PUSH64 R5, a cell; R4 = R0; PUSH64 R4, where the number goes; PUSH64 R5, no GUID
            (CODE, b"\x60\x81\x18\0\x6b\x05\x20\x04\x6b\x04\x6b\x05"),
            // R2 = the root handler, 30 bytes on; PUSH64 R2; R3 = R1(+400); native call of service 9
            (CODE + 12, b"\x79\x02\x1e\0\x6b\x02\x60\x13\x90\x01\x03\x23"),
            // R2 = the GUID, 268 bytes back; @R0(+8) = R2; R2 = the other handler, 32 bytes on; @R0 = R2
            (
                CODE + 24,
                b"\x79\x02\xf4\xfe\xa0\x28\x08\0\x79\x02\x20\0\x20\x28",
            ),
            // native call of service 9; R0 = R0(+32); RET
            (CODE + 38, b"\x03\x23\x60\0\x20\0\x04\0"),
            // R7 = @R0(+16); R7 = R7 + @R0(+32); R7 = R7 + @R0(+40)
            (0x12e, b"\x60\x87\x10\0\xcc\x87\x20\0\xcc\x87\x28\0"),
            // R7 = R7 + @R0(+48); R7 = R7 + @R0(+56); RET
            (0x13a, b"\xcc\x87\x30\0\xcc\x87\x38\0\x04\0"),
            // R7 = 7; RET
            (0x144, b"\x77\x37\x07\0\x04\0"),
        ],
    ),
);

const ROOT_BOOTED: &[u8] = b"policy none fuel 65536
start 76697264-7265-6e20-756d-626572203031 round 1 returned 0000000000000000
locked images 1 handlers 2 protocols 0
image 0 76697264-7265-6e20-756d-626572203031 closed
";

const ROOT_DRIVERS: &[Driver] = &[(b"driver number 01", &[TRUE, ROOT])];

const ROOT_CASES: &[Case] = &[
    // The page had the message before.
    Case {
        name: "after a chain",
        front: &[],
        drivers: ROOT_DRIVERS,
        script: ONE_MESSAGE,
        said: &[
            ROOT_BOOTED,
            NOT_SERVED,
            b"  handler 1 returned 0000000000000007
  reply 1111111122223333444455555555555508000000000000000102030405060708
  root 0 returned 0000000000000001
lane 0 length 0000000000000020 status 800000000000000e data 1111111122223333444455555555555508000000000000000102030405060708
",
        ],
    },
    Case {
        name: "after a refusal",
        front: &[],
        drivers: ROOT_DRIVERS,
        script: b"lanes 1 3\nring 0\nrun 0\n",
        said: &[
            ROOT_BOOTED,
            b"entry 0 lane 0 loads 1 status 8000000000000002
  request 0000000000000000 -
  refused length
  reply -
  root 0 returned 0000000000000001
lane 0 length 0000000000000000 status 8000000000000002 data 000000000000000000000000000000000000000000000000
",
        ],
    },
];

#[test]
fn root_handlers_are_given_no_message(rt: HostRuntime) -> Result<(), Fail> {
    assert_eq!(rt; first_wrong(rt.alloc(), ROOT_CASES)?, None);
    Ok(())
}
