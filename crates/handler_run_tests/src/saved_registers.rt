//! Handlers that read the saved registers of an entry, by a rule and without one. What is expected was worked out by hand from the formats.
use crate::cases::{Case, first_wrong};
use crate::code::{HANDLER, NAMED, ONE_BOOTED, REGISTERS};
use sample_volumes::{Contents, Layout, POLICY_NAME, Part, Section, TRUE};
use std::test::Fail;

/// A policy that gives 65,536 of fuel, and one rule: the driver may read the 19 saved registers.
const REGISTER_RULE: &[Part] = &[Part {
    name: POLICY_NAME,
    kind: 0x02,
    attributes: 0,
    off: 0,
    body: &[Layout {
        length: 60,
        pieces: &[
            (0, b"\x3c\0\0\x19MMSP\x01\0\0\0\x01\0\0\0\0\0\x01\0"),
            (20, b"\x04\0\x01\0\x01\0\0\0driver number 01"),
            (52, b"\x13"),
        ],
    }],
}];

/// Reads the 19 saved registers into its buffer, 8 bytes each, and returns the status of the last service.
const READS_ALL: Section = (
    0x10,
    Contents::Image(
        336,
        &[
            NAMED,
            REGISTERS,
            // R1 = @R0(+32), the buffer; R3 = R1(+4520), service 11
            (HANDLER, b"\x60\x81\x20\0\x60\x13\x35\x52"),
            // PUSH64 R1; PUSH64 R2, the register; native call; R0 = R0(+16); R1 = R1(+8); R2 = R2(+1)
            (
                HANDLER + 8,
                b"\x6b\x01\x6b\x02\x03\x23\x60\0\x10\0\x60\x11\x08\0\x60\x22\x01\0",
            ),
            // is R2 19? if not, JMP8 to the first PUSH64; RET
            (HANDLER + 26, b"\x6d\x02\x13\0\x82\xf4\x04\0"),
        ],
    ),
);

/// What is told of the boot under that rule.
const RULED_BOOTED: &[u8] = b"policy rules 1 fuel 65536
start 76697264-7265-6e20-756d-626572203031 round 1 returned 0000000000000000
locked images 1 handlers 1 protocols 0
image 0 76697264-7265-6e20-756d-626572203031 closed
";

/// Two entries of a message of 152 bytes, the second without saved registers.
const RINGS: &[u8] = b"lanes 1 22
fill 0 111111112222333344445555555555559800000000000000
poke 0 0 b0
ring 0 0=a0 1=a1 2=a2 3=a3 4=a4 5=a5 6=a6 7=fedcba9876543210 8=a8 9=a9 10=aa 11=ab 12=ac 13=ad 14=ae 15=af 16=b0 17=b1 18=200b2
run 0
ring 0
run 0
";

/// The header of that message.
const HEADER: &[u8] = b"111111112222333344445555555555559800000000000000";

/// What is read into it, in three pieces: each register with its lowest byte first.
const READ_FIRST: &[u8] =
    b"a000000000000000a100000000000000a200000000000000a300000000000000a400000000000000a500000000000000a600000000000000";

const READ_NEXT: &[u8] =
    b"1032547698badcfea800000000000000a900000000000000aa00000000000000ab00000000000000ac00000000000000";

const READ_LAST: &[u8] =
    b"ad00000000000000ae00000000000000af00000000000000b000000000000000b100000000000000b200020000000000";

/// A quarter of the same of registers that are 0.
const ZEROS: &[u8] =
    b"0000000000000000000000000000000000000000000000000000000000000000000000000000";

const READ_CASES: &[Case] = &[Case {
    name: "by a rule",
    front: REGISTER_RULE,
    drivers: &[(b"driver number 01", &[TRUE, READS_ALL])],
    script: RINGS,
    said: &[
        RULED_BOOTED,
        b"entry 0 lane 0 loads 23 status 0000000000000000\n  request 00000000000000b0 ",
        HEADER,
        ZEROS,
        ZEROS,
        ZEROS,
        ZEROS,
        b"\n  regs 0=00000000000000a0 1=00000000000000a1 2=00000000000000a2 3=00000000000000a3 4=00000000000000a4",
        b" 5=00000000000000a5 6=00000000000000a6 7=fedcba9876543210 8=00000000000000a8 9=00000000000000a9",
        b" 10=00000000000000aa 11=00000000000000ab 12=00000000000000ac 13=00000000000000ad 14=00000000000000ae",
        b" 15=00000000000000af 16=00000000000000b0 17=00000000000000b1 18=00000000000200b2
  dispatched 11111111-2222-3333-4444-555555555555
  handler 0 returned 0000000000000000
  reply ",
        HEADER,
        READ_FIRST,
        READ_NEXT,
        READ_LAST,
        b"\nentry 1 lane 0 loads 23 status 0000000000000000\n  request 00000000000000b0 ",
        HEADER,
        READ_FIRST,
        READ_NEXT,
        READ_LAST,
        b"
  dispatched 11111111-2222-3333-4444-555555555555
  handler 0 returned 0000000000000000
  reply ",
        HEADER,
        ZEROS,
        ZEROS,
        ZEROS,
        ZEROS,
        b"\nlane 0 length 00000000000000b0 status 0000000000000000 data ",
        HEADER,
        ZEROS,
        ZEROS,
        ZEROS,
        ZEROS,
        b"\n",
    ],
}];

#[test]
fn reads_each_saved_register_of_its_entry(rt: HostRuntime) -> Result<(), Fail> {
    assert_eq!(rt; first_wrong(rt.alloc(), READ_CASES)?, None);
    Ok(())
}

/// Reads the saved register 19, which there isn't, into its buffer, and returns the status that it is answered.
const READS_ONE_MORE: Section = (
    0x10,
    Contents::Image(
        336,
        &[
            NAMED,
            REGISTERS,
            // R1 = @R0(+32), the buffer; PUSH64 R1; R2 = 19; PUSH64 R2
            (HANDLER, b"\x60\x81\x20\0\x6b\x01\x77\x32\x13\0\x6b\x02"),
            // R3 = R1(+4520); native call of service 11; R0 = R0(+16); RET
            (HANDLER + 12, b"\x60\x13\x35\x52\x03\x23\x60\0\x10\0\x04\0"),
        ],
    ),
);

/// An entry with a message of 8 zeros, whose saved register 0 is B2 (hexadecimal).
const ONE_REGISTER: &[u8] =
    b"lanes 1 4\nfill 0 1111111122223333444455555555555508000000000000000000000000000000\nring 0 0=b2\nrun 0\n";

/// How that entry begins, and how it ends.
const REGISTER_REQUEST: &[u8] = b"entry 0 lane 0 loads 5 status 800000000000000e
  request 0000000000000020 1111111122223333444455555555555508000000000000000000000000000000
  regs 0=00000000000000b2
  dispatched 11111111-2222-3333-4444-555555555555
";

const REGISTER_REPLY: &[u8] =
    b"  reply 1111111122223333444455555555555508000000000000000000000000000000
lane 0 length 0000000000000020 status 800000000000000e data 1111111122223333444455555555555508000000000000000000000000000000
";

const DENIED_CASES: &[Case] = &[
    // The eighth denial stops the handler.
    Case {
        name: "without a rule",
        front: &[],
        drivers: &[(b"driver number 01", &[TRUE, READS_ALL])],
        script: ONE_REGISTER,
        said: &[
            ONE_BOOTED,
            REGISTER_REQUEST,
            b"  handler 0 denied norule at 0000000000000007
    deny save read 0000000000000000 1 norule
    deny save read 0000000000000001 1 norule
    deny save read 0000000000000002 1 norule
    deny save read 0000000000000003 1 norule
    deny save read 0000000000000004 1 norule
    deny save read 0000000000000005 1 norule
    deny save read 0000000000000006 1 norule
    deny save read 0000000000000007 1 norule
",
            REGISTER_REPLY,
        ],
    },
    // The rule is another driver's.
    Case {
        name: "by another's rule",
        front: REGISTER_RULE,
        drivers: &[(b"driver number 02", &[TRUE, READS_ALL])],
        script: ONE_REGISTER,
        said: &[
            b"policy rules 1 fuel 65536
start 76697264-7265-6e20-756d-626572203032 round 1 returned 0000000000000000
locked images 1 handlers 1 protocols 0
image 0 76697264-7265-6e20-756d-626572203032 closed
",
            REGISTER_REQUEST,
            b"  handler 0 denied norule at 0000000000000007
    deny save read 0000000000000000 1 norule
    deny save read 0000000000000001 1 norule
    deny save read 0000000000000002 1 norule
    deny save read 0000000000000003 1 norule
    deny save read 0000000000000004 1 norule
    deny save read 0000000000000005 1 norule
    deny save read 0000000000000006 1 norule
    deny save read 0000000000000007 1 norule
",
            REGISTER_REPLY,
        ],
    },
    Case {
        name: "register 19",
        front: REGISTER_RULE,
        drivers: &[(b"driver number 01", &[TRUE, READS_ONE_MORE])],
        script: ONE_REGISTER,
        said: &[
            RULED_BOOTED,
            REGISTER_REQUEST,
            b"  handler 0 returned 800000000000000f
    deny save read 0000000000000013 1 range
",
            REGISTER_REPLY,
        ],
    },
];

#[test]
fn denies_saved_registers(rt: HostRuntime) -> Result<(), Fail> {
    assert_eq!(rt; first_wrong(rt.alloc(), DENIED_CASES)?, None);
    Ok(())
}
