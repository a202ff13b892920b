//! LOADSP, STORESP, PUSH and POP.
use crate::cases::Set::{Carry, Memory, R};
use crate::cases::{Done, first_wrong};
use std::test::Fail;

const SPECIAL: &[Done] = &[
    (&[0x29, 0x50], &[], &[Carry(true)]),
    (&[0x29, 0x60], &[Carry(true)], &[Carry(false)]),
    (&[0x2a, 0x03], &[], &[R(3, 0)]),
    (&[0x2a, 0x03], &[Carry(true)], &[R(3, 1)]),
    (&[0x2a, 0x13], &[], &[R(3, 0x1002)]),
];

/// Below 0x11c0. Operands have an immediate of -2 or 17, or an index of 16 or -16.
const PUSHES: &[Done] = &[
    (
        &[0x6b, 0x04],
        &[],
        &[Memory(0x11b8, 8, 0x0123_4567_89ab_cdef), R(0, 0x11b8)],
    ),
    (
        &[0x2b, 0x04],
        &[],
        &[Memory(0x11bc, 4, 0x89ab_cdef), R(0, 0x11bc)],
    ),
    (
        &[0xeb, 0x04, 0xfe, 0xff],
        &[],
        &[Memory(0x11b8, 8, 0x0123_4567_89ab_cded), R(0, 0x11b8)],
    ),
    (
        &[0xab, 0x04, 0x11, 0x00],
        &[],
        &[Memory(0x11bc, 4, 0x89ab_ce00), R(0, 0x11bc)],
    ),
    (
        &[0x6b, 0x09],
        &[],
        &[Memory(0x11b8, 8, 0x9796_9594_9392_9190), R(0, 0x11b8)],
    ),
    (
        &[0x2b, 0x09],
        &[],
        &[Memory(0x11bc, 4, 0x9392_9190), R(0, 0x11bc)],
    ),
    (
        &[0xeb, 0x09, 0x21, 0x10],
        &[],
        &[Memory(0x11b8, 8, 0xa7a6_a5a4_a3a2_a1a0), R(0, 0x11b8)],
    ),
    (
        &[0xab, 0x09, 0x21, 0x90],
        &[],
        &[Memory(0x11bc, 4, 0x8382_8180), R(0, 0x11bc)],
    ),
    // R0 and the bytes at R0, before it is lowered
    (
        &[0x6b, 0x00],
        &[],
        &[Memory(0x11b8, 8, 0x11c0), R(0, 0x11b8)],
    ),
    (
        &[0x6b, 0x08],
        &[],
        &[Memory(0x11b8, 8, 0x4746_4544_4342_4140), R(0, 0x11b8)],
    ),
    // PUSHN
    (
        &[0x35, 0x04],
        &[],
        &[Memory(0x11b8, 8, 0x0123_4567_89ab_cdef), R(0, 0x11b8)],
    ),
    (
        &[0xb5, 0x04, 0xfe, 0xff],
        &[],
        &[Memory(0x11b8, 8, 0x0123_4567_89ab_cded), R(0, 0x11b8)],
    ),
    (
        &[0x35, 0x09],
        &[],
        &[Memory(0x11b8, 8, 0x9796_9594_9392_9190), R(0, 0x11b8)],
    ),
    (
        &[0xb5, 0x09, 0x21, 0x10],
        &[],
        &[Memory(0x11b8, 8, 0xa7a6_a5a4_a3a2_a1a0), R(0, 0x11b8)],
    ),
];

const POPS: &[Done] = &[
    (
        &[0x6c, 0x03],
        &[],
        &[R(3, 0x4746_4544_4342_4140), R(0, 0x11c8)],
    ),
    (&[0x2c, 0x03], &[], &[R(3, 0x4342_4140), R(0, 0x11c4)]),
    (
        &[0xec, 0x03, 0x02, 0x00],
        &[],
        &[R(3, 0x4746_4544_4342_4142), R(0, 0x11c8)],
    ),
    // 4 bytes have a sign, and then an immediate is added
    (
        &[0x2c, 0x03],
        &[Memory(0x11c0, 4, 0xffff_fffe)],
        &[R(3, 0xffff_ffff_ffff_fffe), R(0, 0x11c4)],
    ),
    (
        &[0xac, 0x03, 0x05, 0x00],
        &[Memory(0x11c0, 4, 0xffff_fffe)],
        &[R(3, 3), R(0, 0x11c4)],
    ),
    (
        &[0xac, 0x03, 0xff, 0xff],
        &[Memory(0x11c0, 4, 0x8000_0000)],
        &[R(3, 0xffff_ffff_7fff_ffff), R(0, 0x11c4)],
    ),
    (
        &[0xac, 0x03, 0x01, 0x00],
        &[Memory(0x11c0, 4, 0x7fff_ffff)],
        &[R(3, 0x8000_0000), R(0, 0x11c4)],
    ),
    // to R0
    (&[0x6c, 0x00], &[], &[R(0, 0x4746_4544_4342_4140)]),
    (&[0xac, 0x00, 0x01, 0x00], &[], &[R(0, 0x4342_4141)]),
    // indirect
    (
        &[0x6c, 0x09],
        &[],
        &[Memory(0x1110, 8, 0x4746_4544_4342_4140), R(0, 0x11c8)],
    ),
    (
        &[0x2c, 0x09],
        &[],
        &[Memory(0x1110, 4, 0x4342_4140), R(0, 0x11c4)],
    ),
    (
        &[0xec, 0x09, 0x21, 0x10],
        &[],
        &[Memory(0x1120, 8, 0x4746_4544_4342_4140), R(0, 0x11c8)],
    ),
    (
        &[0xac, 0x09, 0x21, 0x90],
        &[],
        &[Memory(0x1100, 4, 0x4342_4140), R(0, 0x11c4)],
    ),
    // indirect through R0, which is raised before
    (
        &[0x6c, 0x08],
        &[],
        &[Memory(0x11c8, 8, 0x4746_4544_4342_4140), R(0, 0x11c8)],
    ),
    (
        &[0x2c, 0x08],
        &[],
        &[Memory(0x11c4, 4, 0x4342_4140), R(0, 0x11c4)],
    ),
    (
        &[0xac, 0x08, 0x21, 0x10],
        &[],
        &[Memory(0x11d4, 4, 0x4342_4140), R(0, 0x11c4)],
    ),
    // POPN
    (
        &[0x36, 0x03],
        &[],
        &[R(3, 0x4746_4544_4342_4140), R(0, 0x11c8)],
    ),
    (
        &[0xb6, 0x03, 0xff, 0xff],
        &[],
        &[R(3, 0x4746_4544_4342_413f), R(0, 0x11c8)],
    ),
    (
        &[0x36, 0x09],
        &[],
        &[Memory(0x1110, 8, 0x4746_4544_4342_4140), R(0, 0x11c8)],
    ),
    (
        &[0xb6, 0x09, 0x21, 0x90],
        &[],
        &[Memory(0x1100, 8, 0x4746_4544_4342_4140), R(0, 0x11c8)],
    ),
    (&[0x36, 0x00], &[], &[R(0, 0x4746_4544_4342_4140)]),
    (
        &[0x36, 0x08],
        &[],
        &[Memory(0x11c8, 8, 0x4746_4544_4342_4140), R(0, 0x11c8)],
    ),
];

#[test]
fn stack_words(rt: HostRuntime) -> Result<(), Fail> {
    assert_eq!(rt; first_wrong(rt.alloc(), SPECIAL)?, None);
    assert_eq!(rt; first_wrong(rt.alloc(), PUSHES)?, None);
    assert_eq!(rt; first_wrong(rt.alloc(), POPS)?, None);
    Ok(())
}
