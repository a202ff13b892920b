//! NOT to EXTND.
use crate::cases::Halt::{Denied, Fault};
use crate::cases::Set::{Memory, R};
use crate::cases::{Done, Halted, first_unhalted, first_wrong, is_done};
use mm_base::FaultKind::Divide;
use mm_base::NoMemory;
use mm_base::Right::{Read, Write};
use std::alloc::Global;
use std::test::Fail;

/// -7: operand 1 of 64 bits.
const FIRST: u64 = 0xffff_ffff_ffff_fff9;

/// -7: operand 1 of 32 bits, below bits that don't count.
const FIRST_32: u64 = 0x1234_5678_ffff_fff9;

const LEAST: u64 = 0x8000_0000_0000_0000;

const ALL: u64 = 0xffff_ffff_ffff_ffff;

/// An operation's code, its operand 2, and its results of 64 and of 32 bits, where operand 1 is -7.
type Operation = (u8, u64, u64, u64);

const OPERATIONS: &[Operation] = &[
    (0x0a, 5, 0xffff_ffff_ffff_fffa, 0xffff_fffa),
    (0x0b, 5, 0xffff_ffff_ffff_fffb, 0xffff_fffb),
    (0x0c, 5, 0xffff_ffff_ffff_fffe, 0xffff_fffe),
    (0x0d, 5, 0xffff_ffff_ffff_fff4, 0xffff_fff4),
    (0x0e, 5, 0xffff_ffff_ffff_ffdd, 0xffff_ffdd),
    (0x0f, 5, 0xffff_ffff_ffff_ffdd, 0xffff_ffdd),
    // -1 and -2; 2^64 - 7 is 5 * 0x3333333333333331 + 4, and 2^32 - 7 is 5 * 0x33333331 + 4
    (0x10, 5, 0xffff_ffff_ffff_ffff, 0xffff_ffff),
    (0x11, 5, 0x3333_3333_3333_3331, 0x3333_3331),
    (0x12, 5, 0xffff_ffff_ffff_fffe, 0xffff_fffe),
    (0x13, 5, 4, 4),
    (0x14, 5, 1, 1),
    (0x15, 5, 0xffff_ffff_ffff_fffd, 0xffff_fffd),
    (0x16, 5, 0xffff_ffff_ffff_fffc, 0xffff_fffc),
    (0x17, 5, 0xffff_ffff_ffff_ff20, 0xffff_ff20),
    (0x18, 5, 0x07ff_ffff_ffff_ffff, 0x07ff_ffff),
    (0x19, 5, 0xffff_ffff_ffff_ffff, 0xffff_ffff),
    (0x1a, 0x8765_8180, 0xffff_ffff_ffff_ff80, 0xffff_ff80),
    (0x1b, 0x8765_8180, 0xffff_ffff_ffff_8180, 0xffff_8180),
    (0x1c, 0x8765_8180, 0xffff_ffff_8765_8180, 0x8765_8180),
    (0x1a, 0x7f, 0x7f, 0x7f),
    (0x1b, 0x8_7fff, 0x7fff, 0x7fff),
    (0x1c, 0x7fff_ffff, 0x7fff_ffff, 0x7fff_ffff),
];

/// Whether an operation on R1, or on the bytes at R1, and R5 gives its results, and changes nothing else.
fn is_right(alloc: Global, operation: &Operation) -> Result<bool, NoMemory> {
    let (code, second, wide, narrow) = *operation;
    let other = second | 0x9_0000_0000;
    let wide_code = code | 0x40;
    Ok(
        is_done(
            alloc,
            &[wide_code, 0x51],
            &[R(1, FIRST), R(5, second)],
            &[R(1, wide)],
        )? && is_done(
            alloc,
            &[code, 0x51],
            &[R(1, FIRST_32), R(5, other)],
            &[R(1, narrow)],
        )? && is_done(
            alloc,
            &[wide_code, 0x59],
            &[Memory(0x1110, 8, FIRST), R(5, second)],
            &[Memory(0x1110, 8, wide)],
        )? && is_done(
            alloc,
            &[code, 0x59],
            &[Memory(0x1110, 8, FIRST_32), R(5, other)],
            &[Memory(0x1110, 4, narrow)],
        )?,
    )
}

fn first_wrong_operation(
    alloc: Global,
    operations: &[Operation],
) -> Result<Option<usize>, NoMemory> {
    for (place, operation) in operations.iter().enumerate() {
        if !is_right(alloc, operation)? {
            return Ok(Some(place));
        }
    }
    Ok(None)
}

/// Operand 2 with an immediate, or indirect, also with an index of 16 or -16.
const SECOND_OPERANDS: &[Done] = &[
    (&[0xcc, 0x51, 0xfe, 0xff], &[], &[R(1, 0x1113)]),
    (
        &[0x8c, 0x51, 0xfe, 0xff],
        &[R(1, 0x7_0000_1110)],
        &[R(1, 0x1113)],
    ),
    (
        &[0xca, 0x51, 0x01, 0x00],
        &[],
        &[R(1, 0xffff_ffff_ffff_fff9)],
    ),
    (&[0x8b, 0x51, 0x01, 0x00], &[], &[R(1, 0xffff_fffa)]),
    (&[0x4c, 0xa1], &[R(1, 1)], &[R(1, 0xc7c6_c5c4_c3c2_c1c1)]),
    (&[0x0c, 0xa1], &[R(1, 0x7_0000_0001)], &[R(1, 0xc3c2_c1c1)]),
    (
        &[0xcd, 0xa1, 0x21, 0x90],
        &[R(1, 0)],
        &[R(1, 0x4849_4a4b_4c4d_4e50)],
    ),
    (&[0x8c, 0xa1, 0x21, 0x10], &[R(1, 0)], &[R(1, 0xd3d2_d1d0)]),
    // 0x9796959493929190 and 0xd7d6d5d4d3d2d1d0
    (
        &[0xcc, 0xa9, 0x21, 0x10],
        &[],
        &[Memory(0x1110, 8, 0x6f6d_6b69_6765_6360)],
    ),
    (
        &[0x8c, 0xa9, 0x21, 0x10],
        &[],
        &[Memory(0x1110, 4, 0x6765_6360)],
    ),
    (
        &[0x8c, 0x59, 0xfe, 0xff],
        &[],
        &[Memory(0x1110, 4, 0x9392_9193)],
    ),
    // both operands are one register, or R0
    (&[0x4e, 0x55], &[], &[R(5, 25)]),
    (&[0x4c, 0x50], &[], &[R(0, 0x11c5)]),
    (&[0x4c, 0x85], &[], &[R(5, 0x4746_4544_4342_4145)]),
    // an extension reads 8 or 4 bytes
    (&[0x5a, 0xa1], &[], &[R(1, 0xffff_ffff_ffff_ffc0)]),
    (&[0x1b, 0xa1], &[], &[R(1, 0xffff_c1c0)]),
    (&[0x1b, 0xa1], &[R(2, 0x11fc)], &[R(1, 0x7d7c)]),
    (
        &[0x5c, 0xa9],
        &[],
        &[Memory(0x1110, 8, 0xffff_ffff_c3c2_c1c0)],
    ),
    // the least number by -1
    (&[0x50, 0x21], &[R(1, LEAST), R(2, ALL)], &[R(1, LEAST)]),
    (&[0x52, 0x21], &[R(1, LEAST), R(2, ALL)], &[R(1, 0)]),
    (
        &[0x10, 0x21],
        &[R(1, 0x8000_0000), R(2, ALL)],
        &[R(1, 0x8000_0000)],
    ),
    (&[0x12, 0x21], &[R(1, 0x8000_0000), R(2, ALL)], &[R(1, 0)]),
    // a divisor that is 0 in its low half alone
    (&[0x50, 0x21], &[R(1, 7), R(2, 0x1_0000_0000)], &[R(1, 0)]),
    // counts of the width, and one whose low half counts
    (&[0x57, 0x21], &[R(1, 1), R(2, 64)], &[R(1, 0)]),
    (&[0x17, 0x21], &[R(1, 1), R(2, 32)], &[R(1, 0)]),
    (&[0x17, 0x21], &[R(1, 1), R(2, 0x1_0000_0001)], &[R(1, 2)]),
    (&[0x58, 0x21], &[R(1, LEAST), R(2, 64)], &[R(1, 0)]),
    (&[0x59, 0x21], &[R(1, LEAST), R(2, 64)], &[R(1, ALL)]),
    (
        &[0x19, 0x21],
        &[R(1, 0x8000_0000), R(2, 40)],
        &[R(1, 0xffff_ffff)],
    ),
];

/// A divisor of 0 is judged behind both reads; an extension reads operand 2 alone.
const HALTED: &[Halted] = &[
    (&[0x10, 0x21], &[R(2, 0)], Fault(Divide)),
    (&[0x50, 0x21], &[R(2, 0)], Fault(Divide)),
    (&[0x11, 0x21], &[R(2, 0x1_0000_0000)], Fault(Divide)),
    (&[0x51, 0x21], &[R(2, 0)], Fault(Divide)),
    (&[0x12, 0x21], &[R(2, 0x1_0000_0000)], Fault(Divide)),
    (&[0x52, 0x21], &[R(2, 0)], Fault(Divide)),
    (&[0x13, 0x21], &[R(2, 0)], Fault(Divide)),
    (&[0x53, 0x29], &[R(2, 0)], Fault(Divide)),
    (&[0x90, 0x51, 0xfb, 0xff], &[], Fault(Divide)),
    (&[0x10, 0xa9], &[Memory(0x1140, 4, 0)], Fault(Divide)),
    (
        &[0x50, 0x29],
        &[R(1, 0x2000), R(2, 0)],
        Denied(Read, 0x2000, 8),
    ),
    (
        &[0x10, 0x29],
        &[R(1, 0x2000), R(2, 0)],
        Denied(Read, 0x2000, 4),
    ),
    (&[0x0a, 0x29], &[R(1, 0x2000)], Denied(Write, 0x2000, 4)),
    (&[0x4b, 0x29], &[R(1, 0x2000)], Denied(Write, 0x2000, 8)),
    (&[0x1a, 0x29], &[R(1, 0x2000)], Denied(Write, 0x2000, 4)),
    (&[0x5a, 0xa1], &[R(2, 0x11fc)], Denied(Read, 0x11fc, 8)),
];

#[test]
fn operations(rt: HostRuntime) -> Result<(), Fail> {
    assert_eq!(rt; first_wrong_operation(rt.alloc(), OPERATIONS)?, None);
    assert_eq!(rt; first_wrong(rt.alloc(), SECOND_OPERANDS)?, None);
    assert_eq!(rt; first_unhalted(rt.alloc(), HALTED)?, None);
    Ok(())
}
