//! Denied reads and writes. The first of an instruction is named, and nothing changes.
use crate::cases::Halt::Denied;
use crate::cases::Set::R;
use crate::cases::{Halted, first_unhalted};
use mm_base::Right::{Read, Write};
use std::test::Fail;

/// Operand 2 is read first; operand 1 is read or written behind that.
const OPERANDS: &[Halted] = &[
    (
        &[0x4c, 0xa9],
        &[R(1, 0x2000), R(2, 0x3000)],
        Denied(Read, 0x3000, 8),
    ),
    (
        &[0x0c, 0xa9],
        &[R(1, 0x2000), R(2, 0x3000)],
        Denied(Read, 0x3000, 4),
    ),
    (&[0x4c, 0xa9], &[R(1, 0x2000)], Denied(Read, 0x2000, 8)),
    (&[0x0c, 0xa9], &[R(1, 0x2000)], Denied(Read, 0x2000, 4)),
    (
        &[0xcc, 0xa9, 0x21, 0x10],
        &[R(2, 0x3000)],
        Denied(Read, 0x3010, 8),
    ),
    (
        &[0x4a, 0xa9],
        &[R(1, 0x2000), R(2, 0x3000)],
        Denied(Read, 0x3000, 8),
    ),
    (&[0x4a, 0xa9], &[R(1, 0x2000)], Denied(Write, 0x2000, 8)),
    (&[0x45, 0xa1], &[R(2, 0x3000)], Denied(Read, 0x3000, 8)),
    (&[0x05, 0xa1], &[R(2, 0x11fd)], Denied(Read, 0x11fd, 4)),
    (
        &[0x6d, 0x09, 0x00, 0x00],
        &[R(1, 0x2000)],
        Denied(Read, 0x2000, 8),
    ),
    (
        &[0x2d, 0x19, 0x21, 0x90, 0x00, 0x00],
        &[R(1, 0x2000)],
        Denied(Read, 0x1ff0, 4),
    ),
    (
        &[0x1d, 0xa9],
        &[R(1, 0x2000), R(2, 0x3000)],
        Denied(Read, 0x3000, 1),
    ),
    (&[0x1d, 0xa9], &[R(1, 0x2000)], Denied(Write, 0x2000, 1)),
    (&[0x1e, 0xa9], &[R(1, 0x11ff)], Denied(Write, 0x11ff, 2)),
    (&[0x1e, 0xa9], &[R(2, 0x11ff)], Denied(Read, 0x11ff, 2)),
    (&[0x1f, 0xa9], &[R(1, 0x11fd)], Denied(Write, 0x11fd, 4)),
    (
        &[0x20, 0xa9],
        &[R(1, 0x2000), R(2, 0x3000)],
        Denied(Read, 0x3000, 8),
    ),
    (&[0x24, 0xa9], &[R(1, 0xfff)], Denied(Write, 0xfff, 8)),
    (&[0x28, 0xa9], &[R(2, 0x11f9)], Denied(Read, 0x11f9, 8)),
    (
        &[0x25, 0xa9],
        &[R(1, 0x2000), R(2, 0x3000)],
        Denied(Read, 0x3000, 8),
    ),
    (&[0x26, 0xa9], &[R(1, 0x2000)], Denied(Write, 0x2000, 8)),
    (
        &[0x32, 0xa9],
        &[R(1, 0x2000), R(2, 0x3000)],
        Denied(Read, 0x3000, 8),
    ),
    (&[0x33, 0xa9], &[R(1, 0x2000)], Denied(Write, 0x2000, 8)),
    (
        &[0x77, 0x09, 0xfe, 0xff],
        &[R(1, 0x2000)],
        Denied(Write, 0x2000, 1),
    ),
    (
        &[0x77, 0x19, 0xfe, 0xff],
        &[R(1, 0x2000)],
        Denied(Write, 0x2000, 2),
    ),
    (
        &[0x77, 0x29, 0xfe, 0xff],
        &[R(1, 0x2000)],
        Denied(Write, 0x2000, 4),
    ),
    (
        &[0x77, 0x39, 0xfe, 0xff],
        &[R(1, 0x2000)],
        Denied(Write, 0x2000, 8),
    ),
    (
        &[0x78, 0x09, 0x21, 0x10],
        &[R(1, 0x2000)],
        Denied(Write, 0x2000, 8),
    ),
    (
        &[0x79, 0x09, 0x10, 0x00],
        &[R(1, 0x2000)],
        Denied(Write, 0x2000, 8),
    ),
    // an access past the end of all addresses wraps nowhere
    (
        &[0x20, 0xa1],
        &[R(2, 0xffff_ffff_ffff_fff9)],
        Denied(Read, 0xffff_ffff_ffff_fff9, 8),
    ),
];

/// The value of a PUSH is taken before the stack is written, and a POP reads the stack first.
const STACKS: &[Halted] = &[
    (
        &[0x6b, 0x09],
        &[R(0, 0x1004), R(1, 0x2000)],
        Denied(Read, 0x2000, 8),
    ),
    (
        &[0x2b, 0x09],
        &[R(0, 0x1002), R(1, 0x2000)],
        Denied(Read, 0x2000, 4),
    ),
    (&[0x6b, 0x09], &[R(0, 0x1004)], Denied(Write, 0xffc, 8)),
    (
        &[0x2b, 0x04],
        &[R(0, 2)],
        Denied(Write, 0xffff_ffff_ffff_fffe, 4),
    ),
    (&[0x35, 0x04], &[R(0, 0x1004)], Denied(Write, 0xffc, 8)),
    (
        &[0x6c, 0x09],
        &[R(0, 0x11f9), R(1, 0x2000)],
        Denied(Read, 0x11f9, 8),
    ),
    (&[0x2c, 0x03], &[R(0, 0x11fd)], Denied(Read, 0x11fd, 4)),
    (&[0x6c, 0x09], &[R(1, 0x2000)], Denied(Write, 0x2000, 8)),
    (&[0x2c, 0x09], &[R(1, 0x11fd)], Denied(Write, 0x11fd, 4)),
    (&[0x6c, 0x08], &[R(0, 0x11f8)], Denied(Write, 0x1200, 8)),
    (&[0x36, 0x03], &[R(0, 0x11f9)], Denied(Read, 0x11f9, 8)),
    (&[0x36, 0x09], &[R(1, 0x2000)], Denied(Write, 0x2000, 8)),
];

#[test]
fn denials(rt: HostRuntime) -> Result<(), Fail> {
    assert_eq!(rt; first_unhalted(rt.alloc(), OPERANDS)?, None);
    assert_eq!(rt; first_unhalted(rt.alloc(), STACKS)?, None);
    Ok(())
}
