//! Services of saved registers, ports and model-specific registers, and the limit of cell writes. What is expected was worked out by hand.
use mm_base::Kind::{Io, Memory, Msr, Saved};
use mm_base::Right;
use mm_base::Why::{Buffer, Mmram, NoRule, Quota, Range, Rule};
use sample_domains::Answer::{Refuses, Sets};
use sample_domains::Step::{Call, Denied, Look, Put, Set};
use sample_domains::{
    HEADERS, INVALID_PARAMETER, Invocation, KEPT, OUT, OUT_DENIED, OUT_OF_RESOURCES, POOL,
    SECOND_OUT, SUCCESS, first_wrong,
};
use std::test::Fail;

/// 2^32 + 1.
const WIDE_ONE: u64 = 0x1_0000_0001;

const PORTS: &[Invocation] = &[
    (
        "IoRead: the width, then the port, then the out pointer; nothing is written",
        0,
        &[
            Put(OUT, 8, KEPT),
            Call(12, [0, 0x70, OUT, 0], INVALID_PARAMETER),
            Call(12, [3, 0x70, OUT, 0], INVALID_PARAMETER),
            Call(12, [8, 0x70, OUT, 0], INVALID_PARAMETER),
            Call(12, [WIDE_ONE, 0x70, OUT, 0], INVALID_PARAMETER),
            Call(12, [0, 0x74, OUT, 0], INVALID_PARAMETER),
            Call(12, [3, 0x70, HEADERS, 0], INVALID_PARAMETER),
            Call(
                12,
                [1, 0x74, OUT, 0],
                Refuses(Io, Right::Read, 0x74, 1, Rule(0)),
            ),
            Call(
                12,
                [1, 0x74, HEADERS, 0],
                Refuses(Io, Right::Read, 0x74, 1, Rule(0)),
            ),
            Call(12, [1, 0x70, HEADERS, 0], OUT_DENIED),
            Call(
                12,
                [1, 0x1_0000_0070, OUT, 0],
                Refuses(Io, Right::Read, 0x1_0000_0070, 1, Range),
            ),
            Look(OUT, 8, KEPT),
        ],
    ),
    (
        "IoWrite: the width, then the port; nothing is written",
        0,
        &[
            Call(13, [0, 0x70, 5, 0], INVALID_PARAMETER),
            Call(13, [3, 0x70, 5, 0], INVALID_PARAMETER),
            Call(13, [8, 0x70, 5, 0], INVALID_PARAMETER),
            Call(13, [WIDE_ONE, 0x70, 5, 0], INVALID_PARAMETER),
            Call(13, [8, 0x74, 5, 0], INVALID_PARAMETER),
            Call(
                13,
                [1, 0x74, 5, 0],
                Refuses(Io, Right::Write, 0x74, 1, Rule(0)),
            ),
            Call(
                13,
                [2, 0x73, 5, 0],
                Refuses(Io, Right::Write, 0x73, 2, Rule(0)),
            ),
            Call(
                13,
                [4, 0x76, 5, 0],
                Refuses(Io, Right::Write, 0x76, 4, Rule(1)),
            ),
            Call(
                13,
                [1, 0xcf8, 5, 0],
                Refuses(Io, Right::Write, 0xcf8, 1, Rule(2)),
            ),
            Call(
                13,
                [1, 0x80, 5, 0],
                Refuses(Io, Right::Write, 0x80, 1, NoRule),
            ),
            Call(
                13,
                [1, 0x1_0000_0070, 5, 0],
                Refuses(Io, Right::Write, 0x1_0000_0070, 1, Range),
            ),
            Call(12, [4, 0x70, OUT, 0], SUCCESS),
            Look(OUT, 8, 0),
            Call(12, [2, 0x76, OUT, 0], SUCCESS),
            Look(OUT, 8, 0),
            Call(12, [4, 0xcf8, OUT, 0], SUCCESS),
            Look(OUT, 8, 0),
        ],
    ),
    (
        "the low bytes are written, and 8 bytes are given whatever the width",
        0,
        &[
            Call(
                13,
                [4, 0x70, 0xffff_ffff_8877_6655, 0],
                Sets(Io, 0x70, 4, 0x8877_6655),
            ),
            Put(OUT, 8, KEPT),
            Call(12, [4, 0x70, OUT, 0], SUCCESS),
            Look(OUT, 8, 0x8877_6655),
            Put(OUT, 8, KEPT),
            Call(12, [2, 0x71, OUT, 0], SUCCESS),
            Look(OUT, 8, 0x7766),
            Put(OUT, 8, KEPT),
            Call(12, [1, 0x73, OUT, 0], SUCCESS),
            Look(OUT, 8, 0x88),
            Call(13, [2, 0x71, 0x1_2345, 0], Sets(Io, 0x71, 2, 0x2345)),
            Call(13, [1, 0x70, 0x1ff, 0], Sets(Io, 0x70, 1, 0xff)),
            Call(12, [4, 0x70, OUT, 0], SUCCESS),
            Look(OUT, 8, 0x8823_45ff),
            Call(12, [1, 0x75, OUT, 0], SUCCESS),
            Look(OUT, 8, 0),
        ],
    ),
    (
        "the last port, by another image that may access it",
        1,
        &[
            Call(13, [1, 0xffff, 0xab, 0], Sets(Io, 0xffff, 1, 0xab)),
            Call(12, [1, 0xffff, SECOND_OUT, 0], SUCCESS),
            Look(SECOND_OUT, 8, 0xab),
            Call(13, [2, 0xfffe, 0x1234, 0], Sets(Io, 0xfffe, 2, 0x1234)),
            Call(
                12,
                [2, 0xffff, SECOND_OUT, 0],
                Refuses(Io, Right::Read, 0xffff, 2, Range),
            ),
            Call(
                13,
                [2, 0xffff, 5, 0],
                Refuses(Io, Right::Write, 0xffff, 2, Range),
            ),
            Call(
                12,
                [4, 0xfffd, SECOND_OUT, 0],
                Refuses(Io, Right::Read, 0xfffd, 4, Range),
            ),
            Call(
                12,
                [1, 0x1_0000, SECOND_OUT, 0],
                Refuses(Io, Right::Read, 0x1_0000, 1, Range),
            ),
            Call(
                12,
                [1, u64::MAX, SECOND_OUT, 0],
                Refuses(Io, Right::Read, u64::MAX, 1, Range),
            ),
            Look(SECOND_OUT, 8, 0xab),
            Call(12, [1, 0xffff, SECOND_OUT, 0], SUCCESS),
            Look(SECOND_OUT, 8, 0x12),
            Call(12, [4, 0xfffc, SECOND_OUT, 0], SUCCESS),
            Look(SECOND_OUT, 8, 0x1234_0000),
        ],
    ),
    (
        "which ports it may not access, by rules and without one",
        1,
        &[
            Call(
                12,
                [2, 0xffef, SECOND_OUT, 0],
                Refuses(Io, Right::Read, 0xffef, 2, Rule(3)),
            ),
            Call(
                12,
                [1, 0x70, SECOND_OUT, 0],
                Refuses(Io, Right::Read, 0x70, 1, NoRule),
            ),
            Call(
                12,
                [1, 0x74, SECOND_OUT, 0],
                Refuses(Io, Right::Read, 0x74, 1, Rule(0)),
            ),
            Call(
                12,
                [4, 0xcf9, SECOND_OUT, 0],
                Refuses(Io, Right::Read, 0xcf9, 4, Rule(2)),
            ),
            Call(
                13,
                [1, 0x70, 5, 0],
                Refuses(Io, Right::Write, 0x70, 1, NoRule),
            ),
        ],
    ),
];

#[test]
fn ports_are_read_and_written(rt: HostRuntime) -> Result<(), Fail> {
    assert_eq!(rt; first_wrong(rt.alloc(), PORTS, &[])?, None);
    Ok(())
}

const MSRS: &[Invocation] = &[
    (
        "ReadMsr: the register, then the out pointer; WriteMsr: the register; nothing is written",
        0,
        &[
            Put(OUT, 8, KEPT),
            Call(
                14,
                [0x1b, OUT, 0, 0],
                Refuses(Msr, Right::Read, 0x1b, 1, Rule(4)),
            ),
            Call(
                14,
                [0x1b, HEADERS, 0, 0],
                Refuses(Msr, Right::Read, 0x1b, 1, Rule(4)),
            ),
            Call(14, [0x20, HEADERS, 0, 0], OUT_DENIED),
            Call(
                15,
                [0x1b, 5, 0, 0],
                Refuses(Msr, Right::Write, 0x1b, 1, Rule(4)),
            ),
            Call(
                15,
                [0x10, 5, 0, 0],
                Refuses(Msr, Right::Write, 0x10, 1, Rule(5)),
            ),
            Look(OUT, 8, KEPT),
            Call(14, [0x10, OUT, 0, 0], SUCCESS),
            Look(OUT, 8, 0),
        ],
    ),
    (
        "both ends of both ranges, with all 64 bits",
        0,
        &[
            Call(
                15,
                [0, 0x8000_0000_0000_0001, 0, 0],
                Sets(Msr, 0, 1, 0x8000_0000_0000_0001),
            ),
            Call(15, [0x1fff, u64::MAX, 0, 0], Sets(Msr, 0x1fff, 1, u64::MAX)),
            Call(
                15,
                [0xc000_0000, KEPT, 0, 0],
                Sets(Msr, 0xc000_0000, 1, KEPT),
            ),
            Call(
                15,
                [0xc000_1fff, 0x1_0000_0000, 0, 0],
                Sets(Msr, 0xc000_1fff, 1, 0x1_0000_0000),
            ),
            Call(14, [0, OUT, 0, 0], SUCCESS),
            Look(OUT, 8, 0x8000_0000_0000_0001),
            Call(14, [0x1fff, OUT, 0, 0], SUCCESS),
            Look(OUT, 8, u64::MAX),
            Call(14, [0xc000_0000, OUT, 0, 0], SUCCESS),
            Look(OUT, 8, KEPT),
            Call(14, [0xc000_1fff, OUT, 0, 0], SUCCESS),
            Look(OUT, 8, 0x1_0000_0000),
            Call(14, [1, OUT, 0, 0], SUCCESS),
            Look(OUT, 8, 0),
        ],
    ),
    (
        "one past each of these ends can't be read",
        0,
        &[
            Put(OUT, 8, KEPT),
            Call(
                14,
                [0x2000, OUT, 0, 0],
                Refuses(Msr, Right::Read, 0x2000, 1, Range),
            ),
            Call(
                14,
                [0xbfff_ffff, OUT, 0, 0],
                Refuses(Msr, Right::Read, 0xbfff_ffff, 1, Range),
            ),
            Call(
                14,
                [0xc000_2000, OUT, 0, 0],
                Refuses(Msr, Right::Read, 0xc000_2000, 1, Range),
            ),
            Call(
                14,
                [0x1_0000_0000, OUT, 0, 0],
                Refuses(Msr, Right::Read, 0x1_0000_0000, 1, Range),
            ),
            Call(
                14,
                [u64::MAX, OUT, 0, 0],
                Refuses(Msr, Right::Read, u64::MAX, 1, Range),
            ),
            Look(OUT, 8, KEPT),
        ],
    ),
    (
        "nor written",
        0,
        &[
            Call(
                15,
                [0x2000, 5, 0, 0],
                Refuses(Msr, Right::Write, 0x2000, 1, Range),
            ),
            Call(
                15,
                [0xbfff_ffff, 5, 0, 0],
                Refuses(Msr, Right::Write, 0xbfff_ffff, 1, Range),
            ),
            Call(
                15,
                [0xc000_2000, 5, 0, 0],
                Refuses(Msr, Right::Write, 0xc000_2000, 1, Range),
            ),
            Call(
                15,
                [0x1_0000_0000, 5, 0, 0],
                Refuses(Msr, Right::Write, 0x1_0000_0000, 1, Range),
            ),
            Call(
                15,
                [u64::MAX, 5, 0, 0],
                Refuses(Msr, Right::Write, u64::MAX, 1, Range),
            ),
            Call(14, [0, OUT, 0, 0], SUCCESS),
            Look(OUT, 8, 0x8000_0000_0000_0001),
        ],
    ),
    (
        "another image has no rule for the upper ones",
        1,
        &[
            Call(
                14,
                [0xc000_0000, SECOND_OUT, 0, 0],
                Refuses(Msr, Right::Read, 0xc000_0000, 1, NoRule),
            ),
            Call(
                15,
                [0xc000_1fff, 5, 0, 0],
                Refuses(Msr, Right::Write, 0xc000_1fff, 1, NoRule),
            ),
            Call(14, [0x1fff, SECOND_OUT, 0, 0], SUCCESS),
            Look(SECOND_OUT, 8, u64::MAX),
        ],
    ),
];

#[test]
fn model_specific_registers_are_read_and_written(rt: HostRuntime) -> Result<(), Fail> {
    assert_eq!(rt; first_wrong(rt.alloc(), MSRS, &[])?, None);
    Ok(())
}

const SAVED_BEFORE: &[Invocation] = &[
    (
        "ReadSaveState: the register, then the out pointer; nothing is written",
        0,
        &[
            Put(OUT, 8, KEPT),
            Call(
                11,
                [8, OUT, 0, 0],
                Refuses(Saved, Right::Read, 8, 1, NoRule),
            ),
            Call(
                11,
                [8, HEADERS, 0, 0],
                Refuses(Saved, Right::Read, 8, 1, NoRule),
            ),
            Call(11, [0, HEADERS, 0, 0], OUT_DENIED),
            Call(
                11,
                [19, OUT, 0, 0],
                Refuses(Saved, Right::Read, 19, 1, Range),
            ),
            Call(
                11,
                [0x1_0000_0000, OUT, 0, 0],
                Refuses(Saved, Right::Read, 0x1_0000_0000, 1, Range),
            ),
            Call(
                11,
                [u64::MAX, OUT, 0, 0],
                Refuses(Saved, Right::Read, u64::MAX, 1, Range),
            ),
            Look(OUT, 8, KEPT),
        ],
    ),
    (
        "before lock each register is 0, the trapped access too",
        0,
        &[
            Put(OUT, 8, KEPT),
            Call(11, [0, OUT, 0, 0], SUCCESS),
            Look(OUT, 8, 0),
            Put(OUT, 8, KEPT),
            Call(11, [7, OUT, 0, 0], SUCCESS),
            Look(OUT, 8, 0),
            Put(OUT, 8, KEPT),
            Call(11, [18, OUT, 0, 0], SUCCESS),
            Look(OUT, 8, 0),
        ],
    ),
];

const SAVED_AFTER: &[Invocation] = &[
    (
        "after lock they are those of the entry",
        0,
        &[
            Call(11, [0, OUT, 0, 0], SUCCESS),
            Look(OUT, 8, 0xa0),
            Call(11, [7, OUT, 0, 0], SUCCESS),
            Look(OUT, 8, 0xa7),
            Call(11, [18, OUT, 0, 0], SUCCESS),
            Look(OUT, 8, 0x1_0070),
            Call(
                11,
                [8, OUT, 0, 0],
                Refuses(Saved, Right::Read, 8, 1, NoRule),
            ),
            Call(
                11,
                [17, OUT, 0, 0],
                Refuses(Saved, Right::Read, 17, 1, NoRule),
            ),
            Call(
                11,
                [19, OUT, 0, 0],
                Refuses(Saved, Right::Read, 19, 1, Range),
            ),
            Call(
                11,
                [19, HEADERS, 0, 0],
                Refuses(Saved, Right::Read, 19, 1, Range),
            ),
            Call(11, [18, HEADERS, 0, 0], OUT_DENIED),
            Look(OUT, 8, 0x1_0070),
        ],
    ),
    (
        "another image may read the trapped access alone",
        1,
        &[
            Call(
                11,
                [0, SECOND_OUT, 0, 0],
                Refuses(Saved, Right::Read, 0, 1, NoRule),
            ),
            Call(11, [18, SECOND_OUT, 0, 0], SUCCESS),
            Look(SECOND_OUT, 8, 0x1_0070),
        ],
    ),
];

#[test]
fn saved_registers_are_zero_before_lock(rt: HostRuntime) -> Result<(), Fail> {
    assert_eq!(rt; first_wrong(rt.alloc(), SAVED_BEFORE, SAVED_AFTER)?, None);
    Ok(())
}

/// Where a read of port 70 is to be written, and why it may not.
const OUTS: &[Invocation] = &[
    (
        "out pointers outside of management-mode memory",
        0,
        &[
            Call(
                12,
                [1, 0x70, 0, 0],
                Refuses(Memory, Right::Write, 0, 8, Range),
            ),
            Call(
                12,
                [1, 0x70, u64::MAX - 7, 0],
                Refuses(Memory, Right::Write, u64::MAX - 7, 8, Range),
            ),
            Call(
                12,
                [1, 0x70, u64::MAX - 6, 0],
                Refuses(Memory, Right::Write, u64::MAX - 6, 8, Range),
            ),
            Call(
                12,
                [1, 0x70, 0x3fff_fff9, 0],
                Refuses(Memory, Right::Write, 0x3fff_fff9, 8, Buffer),
            ),
            Call(
                12,
                [1, 0x70, 0x400f_ffff, 0],
                Refuses(Memory, Right::Write, 0x400f_ffff, 8, Buffer),
            ),
            Call(
                12,
                [1, 0x70, 0x4010_0000, 0],
                Refuses(Memory, Right::Write, 0x4010_0000, 8, Range),
            ),
            Call(
                12,
                [1, 0x70, 0x81ff_fff9, 0],
                Refuses(Memory, Right::Write, 0x81ff_fff9, 8, Mmram),
            ),
        ],
    ),
    (
        "out pointers to device bytes",
        0,
        &[
            Call(
                12,
                [1, 0x70, 0xfdff_ffff, 0],
                Refuses(Memory, Right::Write, 0xfdff_ffff, 8, Range),
            ),
            Call(
                12,
                [1, 0x70, 0xfe00_fff9, 0],
                Refuses(Memory, Right::Write, 0xfe00_fff9, 8, Range),
            ),
            Call(
                12,
                [1, 0x70, 0xfe00_0800, 0],
                Refuses(Memory, Right::Write, 0xfe00_0800, 8, Rule(10)),
            ),
            Call(
                12,
                [1, 0x70, 0xfe00_07f9, 0],
                Refuses(Memory, Right::Write, 0xfe00_07f9, 8, Rule(10)),
            ),
            Call(
                12,
                [1, 0x70, 0xfe00_0818, 0],
                Refuses(Memory, Right::Write, 0xfe00_0818, 8, Rule(11)),
            ),
            Look(0xfe00_07f8, 8, 0),
            Look(0xfe00_0818, 8, 0),
            Set(0xfe00_fff8, 8, KEPT, KEPT),
            Call(
                12,
                [1, 0x70, 0xfe00_fff8, 0],
                Sets(Memory, 0xfe00_fff8, 8, 0),
            ),
            Look(0xfe00_fff8, 8, 0),
        ],
    ),
    (
        "what one image may write and not read",
        1,
        &[
            Call(
                12,
                [1, 0xffff, 0xfe00_9000, 0],
                Sets(Memory, 0xfe00_9000, 8, 0),
            ),
            Denied(Right::Read, 0xfe00_9000, 8, Rule(12)),
            Call(
                12,
                [1, 0xffff, 0xfe00_9009, 0],
                Refuses(Memory, Right::Write, 0xfe00_9009, 8, Rule(12)),
            ),
            Call(
                12,
                [1, 0xffff, 0xfe00_0000, 0],
                Refuses(Memory, Right::Write, 0xfe00_0000, 8, NoRule),
            ),
        ],
    ),
];

#[test]
fn out_pointers_are_judged_as_writes(rt: HostRuntime) -> Result<(), Fail> {
    assert_eq!(rt; first_wrong(rt.alloc(), OUTS, &[])?, None);
    Ok(())
}

/// A device byte that the first image may write.
const DEVICE: u64 = 0xfe00_1000;

const LIMITS: &[Invocation] = &[
    (
        "16 cell writes by services, out pointers and moves; each later one is denied, behind the other causes",
        0,
        &[
            Call(
                13,
                [1, 0x74, 5, 0],
                Refuses(Io, Right::Write, 0x74, 1, Rule(0)),
            ),
            Call(
                13,
                [4, 0x70, 0x1_0403_0201, 0],
                Sets(Io, 0x70, 4, 0x0403_0201),
            ),
            Call(13, [1, 0x71, 0x1ee, 0], Sets(Io, 0x71, 1, 0xee)),
            Call(15, [0x20, KEPT, 0, 0], Sets(Msr, 0x20, 1, KEPT)),
            Call(
                12,
                [4, 0x70, DEVICE, 0],
                Sets(Memory, DEVICE, 8, 0x0403_ee01),
            ),
            Call(
                14,
                [0x20, DEVICE + 8, 0, 0],
                Sets(Memory, DEVICE + 8, 8, KEPT),
            ),
            Call(0, [8, DEVICE + 4, 0, 0], Sets(Memory, DEVICE + 4, 8, POOL)),
            Set(DEVICE, 1, 0x1ab, 0xab),
            Set(DEVICE, 2, 0x1_abcd, 0xabcd),
            Set(DEVICE, 4, 0x5_8765_4321, 0x8765_4321),
            Set(DEVICE, 8, KEPT, KEPT),
            Call(13, [2, 0x70, 0xffff, 0], Sets(Io, 0x70, 2, 0xffff)),
            Call(15, [0x21, 1, 0, 0], Sets(Msr, 0x21, 1, 1)),
            Call(15, [0x22, 2, 0, 0], Sets(Msr, 0x22, 1, 2)),
            Put(OUT, 8, KEPT),
            Call(15, [0x23, 3, 0, 0], Sets(Msr, 0x23, 1, 3)),
            Call(13, [1, 0x72, 4, 0], Sets(Io, 0x72, 1, 4)),
            Call(13, [1, 0x73, 5, 0], Sets(Io, 0x73, 1, 5)),
            Call(
                13,
                [1, 0x70, 9, 0],
                Refuses(Io, Right::Write, 0x70, 1, Quota),
            ),
            Call(
                15,
                [0x20, 9, 0, 0],
                Refuses(Msr, Right::Write, 0x20, 1, Quota),
            ),
            Call(
                12,
                [1, 0x70, DEVICE, 0],
                Refuses(Memory, Right::Write, DEVICE, 8, Quota),
            ),
            Call(0, [0, DEVICE, 0, 0], INVALID_PARAMETER),
            Call(
                0,
                [65_537, DEVICE, 0, 0],
                Refuses(Memory, Right::Write, DEVICE, 8, Quota),
            ),
            Denied(Right::Write, DEVICE, 1, Quota),
            Call(
                13,
                [1, 0x74, 9, 0],
                Refuses(Io, Right::Write, 0x74, 1, Rule(0)),
            ),
            Call(13, [3, 0x70, 9, 0], INVALID_PARAMETER),
            Look(DEVICE, 8, KEPT),
            Call(12, [4, 0x70, OUT, 0], SUCCESS),
            Look(OUT, 8, 0x0504_ffff),
            Call(14, [0x20, OUT, 0, 0], SUCCESS),
            Look(OUT, 8, KEPT),
            Call(0, [65_537, OUT, 0, 0], OUT_OF_RESOURCES),
        ],
    ),
    (
        "the next invocation has 16 again",
        0,
        &[
            Set(DEVICE, 1, 7, 7),
            Call(13, [1, 0x70, 9, 0], Sets(Io, 0x70, 1, 9)),
        ],
    ),
];

#[test]
fn sixteen_cell_writes_are_made(rt: HostRuntime) -> Result<(), Fail> {
    assert_eq!(rt; first_wrong(rt.alloc(), LIMITS, &[])?, None);
    Ok(())
}
