//! BREAK, jumps, calls and returns.
use crate::cases::Halt::{Denied, Fault, Returned};
use crate::cases::Set::{Carry, Ip, Memory, R};
use crate::cases::{Done, Halted, first_unhalted, first_wrong};
use mm_base::FaultKind::{Alignment, Break, Encoding, NativeCall};
use mm_base::Right::{Read, Write};
use std::test::Fail;

/// 5 adds 4 and the 32 bits at R7 to R7: 0x1184 + 0x03020100, and 0x1184 - 0x10.
const BREAKS: &[Done] = &[
    (&[0x00, 0x01], &[], &[R(7, 0x1_0000)]),
    (&[0x00, 0x03], &[Carry(true)], &[]),
    (&[0x00, 0x04], &[], &[]),
    (&[0x00, 0x05], &[], &[Memory(0x1180, 8, 0x0302_1284)]),
    (
        &[0x00, 0x05],
        &[Memory(0x1180, 4, 0xffff_fff0)],
        &[Memory(0x1180, 8, 0x1174)],
    ),
    (&[0x00, 0x06], &[], &[]),
];

const BREAKS_HALTED: &[Halted] = &[
    (&[0x00, 0x00], &[], Fault(Break)),
    (&[0x00, 0x02], &[], Fault(Encoding)),
    (&[0x00, 0x07], &[], Fault(Encoding)),
    (&[0x00, 0xff], &[], Fault(Encoding)),
    (&[0x00, 0x05], &[R(7, 0x11fd)], Denied(Read, 0x11fd, 4)),
    (&[0x00, 0x05], &[R(7, 0x11fa)], Denied(Write, 0x11fa, 8)),
];

#[test]
fn breaks(rt: HostRuntime) -> Result<(), Fail> {
    assert_eq!(rt; first_wrong(rt.alloc(), BREAKS)?, None);
    assert_eq!(rt; first_unhalted(rt.alloc(), BREAKS_HALTED)?, None);
    Ok(())
}

/// A 32-bit index of 0x10000081 is 8 + 8 * 1 = 16, and one of 0x90000081 is -16; one of 0x1110 is 0x1110.
const JUMPS: &[Done] = &[
    // a register, and R0, which counts as 0
    (&[0x01, 0x01], &[], &[Ip(0x1110)]),
    (&[0x01, 0x00], &[], &[Ip(0)]),
    (&[0x01, 0x16], &[], &[Ip(0x1000)]),
    (&[0x01, 0x10], &[], &[Ip(0x1002)]),
    // with an immediate of 32 bits, also relative
    (&[0x81, 0x01, 0xf0, 0xff, 0xff, 0xff], &[], &[Ip(0x1100)]),
    (&[0x81, 0x00, 0x40, 0x10, 0x00, 0x00], &[], &[Ip(0x1040)]),
    (&[0x81, 0x10, 0x20, 0x00, 0x00, 0x00], &[], &[Ip(0x1026)]),
    (&[0x81, 0x11, 0x02, 0x00, 0x00, 0x00], &[], &[Ip(0x2118)]),
    // indirect
    (&[0x01, 0x09], &[], &[Ip(0x9796_9594_9392_9190)]),
    (
        &[0x81, 0x09, 0x81, 0x00, 0x00, 0x10],
        &[Memory(0x1120, 8, 0x1050)],
        &[Ip(0x1050)],
    ),
    (
        &[0x81, 0x09, 0x81, 0x00, 0x00, 0x90],
        &[],
        &[Ip(0x8786_8584_8382_8180)],
    ),
    (
        &[0x81, 0x19, 0x81, 0x00, 0x00, 0x90],
        &[Memory(0x1100, 8, 0xffff_ffff_ffff_fff8)],
        &[Ip(0xffe)],
    ),
    (
        &[0x81, 0x08, 0x10, 0x11, 0x00, 0x00],
        &[],
        &[Ip(0x9796_9594_9392_9190)],
    ),
    (
        &[0x81, 0x18, 0x10, 0x11, 0x00, 0x00],
        &[],
        &[Ip(0x9796_9594_9392_a196)],
    ),
    // an immediate of 64 bits
    (
        &[0xc1, 0x00, 0xf0, 0xde, 0xbc, 0x9a, 0x78, 0x56, 0x34, 0x12],
        &[],
        &[Ip(0x1234_5678_9abc_def0)],
    ),
    (
        &[0xc1, 0x10, 0xf6, 0xff, 0xff, 0xff, 0xff, 0xff, 0xff, 0xff],
        &[],
        &[Ip(0x1000)],
    ),
    // C is 0, or C is 1
    (&[0x01, 0x81], &[], &[Ip(0x1110)]),
    (&[0x01, 0x81], &[Carry(true)], &[]),
    (&[0x01, 0xc1], &[Carry(true)], &[Ip(0x1110)]),
    (&[0x01, 0xc1], &[], &[]),
    (
        &[0xc1, 0xd0, 0xf6, 0xff, 0xff, 0xff, 0xff, 0xff, 0xff, 0xff],
        &[Carry(true)],
        &[Ip(0x1000)],
    ),
    (&[0xc1, 0xc0, 0x01, 0, 0, 0, 0, 0, 0, 0], &[], &[]),
    // one that isn't taken reads nothing, and has no target
    (&[0x01, 0x8b], &[Carry(true)], &[]),
    (&[0x81, 0xcb, 0x81, 0x00, 0x00, 0x10], &[], &[]),
    (&[0x01, 0x85], &[Carry(true)], &[]),
];

const JUMPS_HALTED: &[Halted] = &[
    (&[0x81, 0x00, 0x01, 0x00, 0x00, 0x00], &[], Fault(Alignment)),
    (&[0x01, 0x05], &[], Fault(Alignment)),
    (&[0x01, 0x15], &[], Fault(Alignment)),
    (&[0x01, 0x85], &[], Fault(Alignment)),
    (&[0x01, 0x0a], &[Memory(0x1140, 1, 0xc1)], Fault(Alignment)),
    (
        &[0xc1, 0x00, 0x01, 0, 0, 0, 0, 0, 0, 0],
        &[],
        Fault(Alignment),
    ),
    (&[0x01, 0x8b], &[], Denied(Read, 0x8877_6655_4433_2211, 8)),
    (
        &[0x81, 0xcb, 0x81, 0x00, 0x00, 0x10],
        &[Carry(true)],
        Denied(Read, 0x8877_6655_4433_2221, 8),
    ),
    (&[0x01, 0x08], &[], Denied(Read, 0, 8)),
];

/// From the next address, 0x1002, by two bytes a step.
const SHORT_JUMPS: &[Done] = &[
    (&[0x02, 0x00], &[], &[Ip(0x1002)]),
    (&[0x02, 0x10], &[], &[Ip(0x1022)]),
    (&[0x02, 0x7f], &[], &[Ip(0x1100)]),
    (&[0x02, 0xff], &[], &[Ip(0x1000)]),
    (&[0x02, 0x80], &[], &[Ip(0xf02)]),
    (&[0x82, 0x10], &[], &[Ip(0x1022)]),
    (&[0x82, 0x10], &[Carry(true)], &[]),
    (&[0xc2, 0xff], &[Carry(true)], &[Ip(0x1000)]),
    (&[0xc2, 0xff], &[], &[]),
    (
        &[0x00, 0x82, 0x10],
        &[Ip(0x1001), Carry(true)],
        &[Ip(0x1003)],
    ),
];

const SHORT_JUMPS_HALTED: &[Halted] = &[
    (&[0x00, 0x02, 0x10], &[Ip(0x1001)], Fault(Alignment)),
    (
        &[0x00, 0xc2, 0xff],
        &[Ip(0x1001), Carry(true)],
        Fault(Alignment),
    ),
];

#[test]
fn jumps(rt: HostRuntime) -> Result<(), Fail> {
    assert_eq!(rt; first_wrong(rt.alloc(), JUMPS)?, None);
    assert_eq!(rt; first_unhalted(rt.alloc(), JUMPS_HALTED)?, None);
    assert_eq!(rt; first_wrong(rt.alloc(), SHORT_JUMPS)?, None);
    assert_eq!(rt; first_unhalted(rt.alloc(), SHORT_JUMPS_HALTED)?, None);
    Ok(())
}

/// The next address goes to 0x11c0 - 16, and the 8 bytes above it stay.
const CALLS: &[Done] = &[
    (
        &[0x03, 0x01],
        &[],
        &[Memory(0x11b0, 8, 0x1002), R(0, 0x11b0), Ip(0x1110)],
    ),
    (
        &[0x03, 0x10],
        &[],
        &[Memory(0x11b0, 8, 0x1002), R(0, 0x11b0), Ip(0x1002)],
    ),
    (
        &[0x83, 0x01, 0xf0, 0xff, 0xff, 0xff],
        &[],
        &[Memory(0x11b0, 8, 0x1006), R(0, 0x11b0), Ip(0x1100)],
    ),
    (
        &[0x83, 0x00, 0x40, 0x10, 0x00, 0x00],
        &[],
        &[Memory(0x11b0, 8, 0x1006), R(0, 0x11b0), Ip(0x1040)],
    ),
    (
        &[0x83, 0x10, 0x20, 0x00, 0x00, 0x00],
        &[],
        &[Memory(0x11b0, 8, 0x1006), R(0, 0x11b0), Ip(0x1026)],
    ),
    (
        &[0x03, 0x09],
        &[],
        &[
            Memory(0x11b0, 8, 0x1002),
            R(0, 0x11b0),
            Ip(0x9796_9594_9392_9190),
        ],
    ),
    (
        &[0x83, 0x09, 0x81, 0x00, 0x00, 0x90],
        &[],
        &[
            Memory(0x11b0, 8, 0x1006),
            R(0, 0x11b0),
            Ip(0x8786_8584_8382_8180),
        ],
    ),
    (
        &[0x83, 0x18, 0x10, 0x11, 0x00, 0x00],
        &[],
        &[
            Memory(0x11b0, 8, 0x1006),
            R(0, 0x11b0),
            Ip(0x9796_9594_9392_a196),
        ],
    ),
    (
        &[0xc3, 0x00, 0x80, 0x10, 0, 0, 0, 0, 0, 0],
        &[],
        &[Memory(0x11b0, 8, 0x100a), R(0, 0x11b0), Ip(0x1080)],
    ),
    (
        &[0xc3, 0x10, 0xf6, 0xff, 0xff, 0xff, 0xff, 0xff, 0xff, 0xff],
        &[],
        &[Memory(0x11b0, 8, 0x100a), R(0, 0x11b0), Ip(0x1000)],
    ),
    // native, to code
    (
        &[0x03, 0x21],
        &[],
        &[Memory(0x11b0, 8, 0x1002), R(0, 0x11b0), Ip(0x1110)],
    ),
    (
        &[0x83, 0x29, 0x81, 0x00, 0x00, 0x90],
        &[Memory(0x1100, 8, 0x1042)],
        &[Memory(0x11b0, 8, 0x1006), R(0, 0x11b0), Ip(0x1042)],
    ),
    (
        &[0xc3, 0x20, 0xfe, 0x11, 0, 0, 0, 0, 0, 0],
        &[],
        &[Memory(0x11b0, 8, 0x100a), R(0, 0x11b0), Ip(0x11fe)],
    ),
    (
        &[0xc3, 0x30, 0xf6, 0xff, 0xff, 0xff, 0xff, 0xff, 0xff, 0xff],
        &[],
        &[Memory(0x11b0, 8, 0x100a), R(0, 0x11b0), Ip(0x1000)],
    ),
];

const CALLS_HALTED: &[Halted] = &[
    (&[0x03, 0x05], &[], Fault(Alignment)),
    (&[0x83, 0x00, 0x01, 0x00, 0x00, 0x00], &[], Fault(Alignment)),
    (&[0x83, 0x10, 0x01, 0x00, 0x00, 0x00], &[], Fault(Alignment)),
    (&[0x03, 0x0a], &[Memory(0x1140, 1, 0xc1)], Fault(Alignment)),
    (
        &[0xc3, 0x00, 0x01, 0, 0, 0, 0, 0, 0, 0],
        &[],
        Fault(Alignment),
    ),
    // native, to an odd address and past the end
    (&[0x03, 0x25], &[], Fault(NativeCall)),
    (&[0x03, 0x26], &[], Fault(NativeCall)),
    (
        &[0xc3, 0x20, 0x01, 0x11, 0, 0, 0, 0, 0, 0],
        &[],
        Fault(NativeCall),
    ),
    (
        &[0xc3, 0x20, 0x00, 0x12, 0, 0, 0, 0, 0, 0],
        &[],
        Fault(NativeCall),
    ),
    // the target is judged before the return address is written
    (&[0x03, 0x05], &[R(0, 0x1008)], Fault(Alignment)),
    (&[0x03, 0x25], &[R(0, 0x1008)], Fault(NativeCall)),
    (&[0x03, 0x01], &[R(0, 0x1008)], Denied(Write, 0xff8, 8)),
    (&[0x03, 0x21], &[R(0, 0x1008)], Denied(Write, 0xff8, 8)),
    (
        &[0x03, 0x01],
        &[R(0, 8)],
        Denied(Write, 0xffff_ffff_ffff_fff8, 8),
    ),
    (&[0x03, 0x0b], &[], Denied(Read, 0x8877_6655_4433_2211, 8)),
];

const RETURNS: &[Done] = &[
    (
        &[0x04, 0x00],
        &[],
        &[Ip(0x4746_4544_4342_4140), R(0, 0x11d0)],
    ),
    (
        &[0x04, 0x00],
        &[Memory(0x11c0, 8, 0x1000)],
        &[Ip(0x1000), R(0, 0x11d0)],
    ),
    (
        &[0x04, 0x00],
        &[R(0, 0x11f8), Memory(0x11f8, 8, 0x1002)],
        &[R(0, 0x1208)],
    ),
];

const RETURNS_HALTED: &[Halted] = &[
    (&[0x04, 0x00], &[Memory(0x11c0, 8, 0)], Returned(0x1180)),
    (&[0x04, 0x00], &[Memory(0x11c0, 1, 0x41)], Fault(Alignment)),
    (&[0x04, 0x00], &[R(0, 0x11f9)], Denied(Read, 0x11f9, 8)),
];

#[test]
fn calls(rt: HostRuntime) -> Result<(), Fail> {
    assert_eq!(rt; first_wrong(rt.alloc(), CALLS)?, None);
    assert_eq!(rt; first_unhalted(rt.alloc(), CALLS_HALTED)?, None);
    assert_eq!(rt; first_wrong(rt.alloc(), RETURNS)?, None);
    assert_eq!(rt; first_unhalted(rt.alloc(), RETURNS_HALTED)?, None);
    Ok(())
}
