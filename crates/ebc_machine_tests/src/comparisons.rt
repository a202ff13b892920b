//! CMP and CMPI. Each comparison comes out both ways, with 64 bits and with 32.
use crate::cases::Set::{Carry, Memory, R};
use crate::cases::{Done, first_wrong};
use std::test::Fail;

const ALL: u64 = 0xffff_ffff_ffff_ffff;

const ALL_32: u64 = 0xffff_ffff;

/// CMP of R1 and R2: byte 1 is 0x21.
const REGISTERS: &[Done] = &[
    // equal
    (&[0x45, 0x21], &[R(1, 7), R(2, 7)], &[Carry(true)]),
    (
        &[0x45, 0x21],
        &[R(1, 7), R(2, 0x1_0000_0007), Carry(true)],
        &[Carry(false)],
    ),
    (
        &[0x05, 0x21],
        &[R(1, 7), R(2, 0x1_0000_0007)],
        &[Carry(true)],
    ),
    (
        &[0x05, 0x21],
        &[R(1, 7), R(2, 8), Carry(true)],
        &[Carry(false)],
    ),
    // less or equal, with signs
    (&[0x46, 0x21], &[R(1, ALL), R(2, 0)], &[Carry(true)]),
    (&[0x46, 0x21], &[R(1, 5), R(2, 5)], &[Carry(true)]),
    (
        &[0x46, 0x21],
        &[R(1, 0), R(2, ALL), Carry(true)],
        &[Carry(false)],
    ),
    (
        &[0x46, 0x21],
        &[R(1, ALL_32), R(2, 0), Carry(true)],
        &[Carry(false)],
    ),
    (&[0x06, 0x21], &[R(1, ALL_32), R(2, 0)], &[Carry(true)]),
    (
        &[0x06, 0x21],
        &[R(1, 0), R(2, ALL_32), Carry(true)],
        &[Carry(false)],
    ),
    // greater or equal, with signs
    (&[0x47, 0x21], &[R(1, 0), R(2, ALL)], &[Carry(true)]),
    (
        &[0x47, 0x21],
        &[R(1, ALL), R(2, 0), Carry(true)],
        &[Carry(false)],
    ),
    (
        &[0x47, 0x21],
        &[R(1, 0), R(2, ALL_32), Carry(true)],
        &[Carry(false)],
    ),
    (&[0x07, 0x21], &[R(1, 0), R(2, ALL_32)], &[Carry(true)]),
    (
        &[0x07, 0x21],
        &[R(1, ALL_32), R(2, 0), Carry(true)],
        &[Carry(false)],
    ),
    // less or equal, without signs
    (&[0x48, 0x21], &[R(1, 0), R(2, ALL)], &[Carry(true)]),
    (
        &[0x48, 0x21],
        &[R(1, ALL), R(2, 0), Carry(true)],
        &[Carry(false)],
    ),
    (
        &[0x08, 0x21],
        &[R(1, 0x5_0000_0000), R(2, 1)],
        &[Carry(true)],
    ),
    (
        &[0x08, 0x21],
        &[R(1, ALL_32), R(2, 1), Carry(true)],
        &[Carry(false)],
    ),
    // greater or equal, without signs
    (&[0x49, 0x21], &[R(1, ALL), R(2, 0)], &[Carry(true)]),
    (
        &[0x49, 0x21],
        &[R(1, 0), R(2, ALL), Carry(true)],
        &[Carry(false)],
    ),
    (
        &[0x09, 0x21],
        &[R(1, 1), R(2, 0x5_0000_0000)],
        &[Carry(true)],
    ),
    (
        &[0x09, 0x21],
        &[R(1, 1), R(2, ALL_32), Carry(true)],
        &[Carry(false)],
    ),
];

/// Operand 2 with an immediate of -0x30; indirect, also at 0x1140 - 16 by the index 0x9021 and at 0x1140 + 16 by 0x1021.
const SECOND_OPERANDS: &[Done] = &[
    (&[0xc5, 0x21, 0xd0, 0xff], &[], &[Carry(true)]),
    (&[0xc5, 0x21, 0xd1, 0xff], &[Carry(true)], &[Carry(false)]),
    (
        &[0x85, 0x21, 0xd0, 0xff],
        &[R(2, 0x9_0000_1140)],
        &[Carry(true)],
    ),
    (
        &[0x45, 0xa1],
        &[R(1, 0xc7c6_c5c4_c3c2_c1c0)],
        &[Carry(true)],
    ),
    (
        &[0x45, 0xa1],
        &[R(1, 0xc3c2_c1c0), Carry(true)],
        &[Carry(false)],
    ),
    (&[0x05, 0xa1], &[R(1, 0xc3c2_c1c0)], &[Carry(true)]),
    (
        &[0xc5, 0xa1, 0x21, 0x90],
        &[R(1, 0xb7b6_b5b4_b3b2_b1b0)],
        &[Carry(true)],
    ),
    (
        &[0x85, 0xa1, 0x21, 0x10],
        &[R(1, 0x7_d3d2_d1d0)],
        &[Carry(true)],
    ),
    (&[0x45, 0x80], &[R(0, 0x1140)], &[]),
];

#[test]
fn comparisons(rt: HostRuntime) -> Result<(), Fail> {
    assert_eq!(rt; first_wrong(rt.alloc(), REGISTERS)?, None);
    assert_eq!(rt; first_wrong(rt.alloc(), SECOND_OPERANDS)?, None);
    Ok(())
}

/// CMPI of R5, which is 5, and of R6, which is -2.
const IMMEDIATES: &[Done] = &[
    // equal
    (&[0x6d, 0x05, 0x05, 0x00], &[], &[Carry(true)]),
    (&[0x6d, 0x05, 0x06, 0x00], &[Carry(true)], &[Carry(false)]),
    (
        &[0x6d, 0x05, 0x05, 0x00],
        &[R(5, 0x1_0000_0005), Carry(true)],
        &[Carry(false)],
    ),
    (
        &[0x2d, 0x05, 0x05, 0x00],
        &[R(5, 0x1_0000_0005)],
        &[Carry(true)],
    ),
    (&[0x2d, 0x06, 0x05, 0x00], &[Carry(true)], &[Carry(false)]),
    // less or equal, with signs
    (&[0x6e, 0x06, 0xff, 0xff], &[], &[Carry(true)]),
    (&[0x6e, 0x05, 0xff, 0xff], &[Carry(true)], &[Carry(false)]),
    (&[0x2e, 0x06, 0xff, 0xff], &[], &[Carry(true)]),
    (&[0x2e, 0x05, 0x04, 0x00], &[Carry(true)], &[Carry(false)]),
    // greater or equal, with signs
    (&[0x6f, 0x05, 0xff, 0xff], &[], &[Carry(true)]),
    (&[0x6f, 0x06, 0xff, 0xff], &[Carry(true)], &[Carry(false)]),
    (&[0x2f, 0x05, 0xff, 0xff], &[], &[Carry(true)]),
    (&[0x2f, 0x06, 0x00, 0x00], &[Carry(true)], &[Carry(false)]),
    // less or equal, without signs
    (&[0x70, 0x05, 0xff, 0xff], &[], &[Carry(true)]),
    (&[0x70, 0x06, 0x05, 0x00], &[Carry(true)], &[Carry(false)]),
    (&[0x30, 0x05, 0xff, 0xff], &[], &[Carry(true)]),
    (&[0x30, 0x06, 0x05, 0x00], &[Carry(true)], &[Carry(false)]),
    // greater or equal, without signs
    (&[0x71, 0x06, 0x05, 0x00], &[], &[Carry(true)]),
    (&[0x71, 0x05, 0xff, 0xff], &[Carry(true)], &[Carry(false)]),
    (&[0x31, 0x06, 0x05, 0x00], &[], &[Carry(true)]),
    (&[0x31, 0x05, 0xff, 0xff], &[Carry(true)], &[Carry(false)]),
    // 32 bits of immediate
    (
        &[0xed, 0x05, 0xfb, 0xff, 0xff, 0xff],
        &[R(5, 0xffff_ffff_ffff_fffb)],
        &[Carry(true)],
    ),
    (
        &[0xad, 0x05, 0x00, 0x00, 0x01, 0x00],
        &[R(5, 0x1_0000)],
        &[Carry(true)],
    ),
    (
        &[0xee, 0x05, 0x00, 0x00, 0x00, 0x80],
        &[Carry(true)],
        &[Carry(false)],
    ),
];

const INDIRECT_IMMEDIATES: &[Done] = &[
    (
        &[0x6d, 0x09, 0xfd, 0xff],
        &[Memory(0x1110, 8, 0xffff_ffff_ffff_fffd)],
        &[Carry(true)],
    ),
    (
        &[0x6d, 0x09, 0xfd, 0xff],
        &[Memory(0x1110, 4, 0xffff_fffd), Carry(true)],
        &[Carry(false)],
    ),
    (
        &[0x2d, 0x09, 0xfd, 0xff],
        &[Memory(0x1110, 4, 0xffff_fffd)],
        &[Carry(true)],
    ),
    // at 0x1110 + 16, and at 0x1110 - 16
    (
        &[0xad, 0x19, 0x21, 0x10, 0xa0, 0xa1, 0xa2, 0xa3],
        &[],
        &[Carry(true)],
    ),
    (
        &[0xed, 0x19, 0x21, 0x10, 0xa0, 0xa1, 0xa2, 0xa3],
        &[Carry(true)],
        &[Carry(false)],
    ),
    (
        &[0x6d, 0x19, 0x21, 0x90, 0x07, 0x00],
        &[Memory(0x1100, 8, 7)],
        &[Carry(true)],
    ),
    (
        &[0x2d, 0x19, 0x21, 0x90, 0x07, 0x00],
        &[Memory(0x1100, 4, 7)],
        &[Carry(true)],
    ),
];

#[test]
fn comparisons_with_immediates(rt: HostRuntime) -> Result<(), Fail> {
    assert_eq!(rt; first_wrong(rt.alloc(), IMMEDIATES)?, None);
    assert_eq!(rt; first_wrong(rt.alloc(), INDIRECT_IMMEDIATES)?, None);
    Ok(())
}
