//! Arguments of services, and how often an invocation may be denied. What is expected was worked out by hand.
use mm_base::Kind::{Io, Memory, Msr, Saved};
use mm_base::Right;
use mm_base::Why::{Buffer, Mmram, NoRule, Range, Rule};
use sample_domains::Answer::{Refuses, Sets, Stops};
use sample_domains::Step::{Call, CallAt, Denied, Look, Put};
use sample_domains::{
    ACCESS_DENIED, HEADERS, INVALID_PARAMETER, Invocation, KEPT, NAME_DENIED, NOT_FOUND, OUT,
    OUT_DENIED, POOL, SUCCESS, UNSUPPORTED, first_untold, first_wrong,
};
use std::test::Fail;

/// Where the first image's reserve ends: nothing from here on may be read.
const END: u64 = 0x8002_7000;

const ARGUMENTS: &[Invocation] = &[
    (
        "each service reads just its arguments: these are all 0, and end where the reserve does",
        0,
        &[
            CallAt(0, END - 16, INVALID_PARAMETER),
            CallAt(1, END - 8, NOT_FOUND),
            CallAt(2, END - 16, INVALID_PARAMETER),
            CallAt(3, END - 16, INVALID_PARAMETER),
            CallAt(4, END - 32, NAME_DENIED),
            CallAt(5, END - 24, NAME_DENIED),
            CallAt(6, END - 24, NAME_DENIED),
            CallAt(7, END - 24, NAME_DENIED),
            CallAt(8, END - 16, NAME_DENIED),
            CallAt(9, END - 24, INVALID_PARAMETER),
            CallAt(10, END - 8, NOT_FOUND),
            CallAt(11, END - 16, Refuses(Memory, Right::Write, 0, 8, Range)),
            CallAt(12, END - 24, INVALID_PARAMETER),
            CallAt(13, END - 24, INVALID_PARAMETER),
            CallAt(14, END - 16, Refuses(Memory, Right::Write, 0, 8, Range)),
            CallAt(15, END - 16, Sets(Msr, 0, 1, 0)),
            CallAt(16, 0, UNSUPPORTED),
            CallAt(17, END, UNSUPPORTED),
            CallAt(18, u64::MAX, UNSUPPORTED),
            CallAt(19, 0x4000_0000, UNSUPPORTED),
        ],
    ),
    (
        "where the last of them can't be read the invocation stops",
        0,
        &[
            CallAt(0, END - 8, Stops(Memory, Right::Read, END, 8, Mmram)),
            CallAt(1, END, Stops(Memory, Right::Read, END, 8, Mmram)),
            CallAt(2, END - 8, Stops(Memory, Right::Read, END, 8, Mmram)),
            CallAt(3, END - 8, Stops(Memory, Right::Read, END, 8, Mmram)),
            CallAt(4, END - 24, Stops(Memory, Right::Read, END, 8, Mmram)),
            CallAt(5, END - 16, Stops(Memory, Right::Read, END, 8, Mmram)),
            CallAt(6, END - 16, Stops(Memory, Right::Read, END, 8, Mmram)),
            CallAt(7, END - 16, Stops(Memory, Right::Read, END, 8, Mmram)),
            CallAt(8, END - 8, Stops(Memory, Right::Read, END, 8, Mmram)),
            CallAt(9, END - 16, Stops(Memory, Right::Read, END, 8, Mmram)),
            CallAt(10, END, Stops(Memory, Right::Read, END, 8, Mmram)),
            CallAt(11, END - 8, Stops(Memory, Right::Read, END, 8, Mmram)),
            CallAt(12, END - 16, Stops(Memory, Right::Read, END, 8, Mmram)),
            CallAt(13, END - 16, Stops(Memory, Right::Read, END, 8, Mmram)),
            CallAt(14, END - 8, Stops(Memory, Right::Read, END, 8, Mmram)),
            CallAt(15, END - 8, Stops(Memory, Right::Read, END, 8, Mmram)),
        ],
    ),
    (
        "arguments and out pointers need no alignment, and may lie across two pages",
        0,
        &[
            Put(0x8000_1ffd, 8, 8),
            Put(0x8000_2005, 8, 0x8000_3ffb),
            CallAt(0, 0x8000_1ffd, SUCCESS),
            Look(0x8000_3ffb, 8, POOL),
        ],
    ),
    (
        "arguments elsewhere: the first that can't be read is the denial",
        0,
        &[
            CallAt(1, END - 4, Stops(Memory, Right::Read, END - 4, 8, Mmram)),
            CallAt(
                0,
                u64::MAX - 7,
                Stops(Memory, Right::Read, u64::MAX - 7, 8, Range),
            ),
            CallAt(0, u64::MAX, Stops(Memory, Right::Read, u64::MAX, 8, Range)),
            CallAt(
                4,
                0x3fff_fff9,
                Stops(Memory, Right::Read, 0x3fff_fff9, 8, Buffer),
            ),
            CallAt(4, END, Stops(Memory, Right::Read, END, 8, Mmram)),
            CallAt(
                1,
                0xfe00_0800,
                Stops(Memory, Right::Read, 0xfe00_0800, 8, Rule(10)),
            ),
            CallAt(1, 0xfe00_0810, NOT_FOUND),
            CallAt(1, HEADERS, NOT_FOUND),
        ],
    ),
];

#[test]
fn services_read_just_their_arguments(rt: HostRuntime) -> Result<(), Fail> {
    assert_eq!(rt; first_wrong(rt.alloc(), ARGUMENTS, &[])?, None);
    Ok(())
}

const DENIALS: &[Invocation] = &[
    (
        "the first 7 denials are answered, the 8th stops, and later ones stop without a record",
        0,
        &[
            Put(OUT, 8, KEPT),
            Call(
                12,
                [1, 0x74, OUT, 0],
                Refuses(Io, Right::Read, 0x74, 1, Rule(0)),
            ),
            Denied(Right::Read, 0, 1, Range),
            Call(0, [1, HEADERS, 0, 0], OUT_DENIED),
            Denied(Right::Write, HEADERS, 4, Mmram),
            Call(8, [0, OUT, 0, 0], NAME_DENIED),
            Call(
                11,
                [19, OUT, 0, 0],
                Refuses(Saved, Right::Read, 19, 1, Range),
            ),
            Call(
                15,
                [0x1b, 5, 0, 0],
                Refuses(Msr, Right::Write, 0x1b, 1, Rule(4)),
            ),
            Call(
                13,
                [1, 0x74, 5, 0],
                Stops(Io, Right::Write, 0x74, 1, Rule(0)),
            ),
            Call(
                12,
                [1, 0x80, OUT, 0],
                Stops(Io, Right::Read, 0x80, 1, NoRule),
            ),
            Call(
                13,
                [1, 0x80, 5, 0],
                Stops(Io, Right::Write, 0x80, 1, NoRule),
            ),
            Call(
                14,
                [0x2000, OUT, 0, 0],
                Stops(Msr, Right::Read, 0x2000, 1, Range),
            ),
            Call(
                15,
                [0x2000, 5, 0, 0],
                Stops(Msr, Right::Write, 0x2000, 1, Range),
            ),
            Call(11, [8, OUT, 0, 0], Stops(Saved, Right::Read, 8, 1, NoRule)),
            Call(
                6,
                [256, 0, OUT, 0],
                Stops(Memory, Right::Read, 0, 16, Range),
            ),
            Call(
                2,
                [1, HEADERS, 0, 0],
                Stops(Memory, Right::Write, HEADERS, 8, Mmram),
            ),
            CallAt(1, 0, Stops(Memory, Right::Read, 0, 8, Range)),
            Denied(Right::Read, 0, 1, Range),
            Denied(Right::Write, 0, 1, Range),
            Call(1, [0, 0, 0, 0], NOT_FOUND),
            CallAt(16, 0, UNSUPPORTED),
            Look(OUT, 8, KEPT),
        ],
    ),
    (
        "an out pointer is the 8th, which takes no block",
        0,
        &[
            Denied(Right::Read, 0, 1, Range),
            Denied(Right::Read, 1, 2, Range),
            Denied(Right::Read, 2, 4, Range),
            Denied(Right::Read, 3, 8, Range),
            Denied(Right::Write, 4, 1, Range),
            Denied(Right::Write, 5, 2, Range),
            Denied(Right::Write, 6, 4, Range),
            Call(
                0,
                [1, HEADERS, 0, 0],
                Stops(Memory, Right::Write, HEADERS, 8, Mmram),
            ),
        ],
    ),
    (
        "a denied argument stops at once, also as the first; a name that is denied then is answered",
        0,
        &[
            CallAt(0, 0, Stops(Memory, Right::Read, 0, 8, Range)),
            CallAt(0, END - 8, Stops(Memory, Right::Read, END, 8, Mmram)),
            Call(8, [0, OUT, 0, 0], NAME_DENIED),
            Call(0, [1, OUT, 0, 0], SUCCESS),
            Look(OUT, 8, POOL),
            Call(7, [0, 0, OUT, 0], NAME_DENIED),
            Call(4, [0, 0, 0, OUT], NAME_DENIED),
            Call(5, [0, 0, 0, 0], NAME_DENIED),
            Call(
                9,
                [2, 8, OUT, 0],
                Refuses(Memory, Right::Read, 8, 16, Range),
            ),
            Call(6, [0, 0, OUT, 0], Stops(Memory, Right::Read, 0, 16, Range)),
        ],
    ),
    (
        "answers that are no denials don't count",
        0,
        &[
            Call(0, [0, OUT, 0, 0], INVALID_PARAMETER),
            Call(1, [0, 0, 0, 0], NOT_FOUND),
            Call(2, [0, OUT, 0, 0], INVALID_PARAMETER),
            Call(3, [0, 0, 0, 0], INVALID_PARAMETER),
            Call(12, [3, 0x70, OUT, 0], INVALID_PARAMETER),
            Call(13, [3, 0x70, OUT, 0], INVALID_PARAMETER),
            CallAt(16, 0, UNSUPPORTED),
            CallAt(17, 0, UNSUPPORTED),
            CallAt(18, 0, UNSUPPORTED),
            CallAt(19, 0, UNSUPPORTED),
            Call(9, [1, 0, OUT, 0], INVALID_PARAMETER),
            Call(0, [1, HEADERS, 0, 0], OUT_DENIED),
        ],
    ),
];

const DENIALS_AFTER: &[Invocation] = &[(
    "the four services that answer ACCESS_DENIED after lock don't count",
    0,
    &[
        CallAt(4, 0, ACCESS_DENIED),
        CallAt(5, 0, ACCESS_DENIED),
        CallAt(9, 0, ACCESS_DENIED),
        CallAt(10, 0, ACCESS_DENIED),
        CallAt(4, 0, ACCESS_DENIED),
        CallAt(5, 0, ACCESS_DENIED),
        CallAt(9, 0, ACCESS_DENIED),
        CallAt(10, 0, ACCESS_DENIED),
        CallAt(16, 0, UNSUPPORTED),
        CallAt(17, 0, UNSUPPORTED),
        CallAt(18, 0, UNSUPPORTED),
        CallAt(19, 0, UNSUPPORTED),
        Call(0, [1, HEADERS, 0, 0], OUT_DENIED),
    ],
)];

#[test]
fn the_eighth_denial_stops(rt: HostRuntime) -> Result<(), Fail> {
    assert_eq!(rt; first_wrong(rt.alloc(), DENIALS, DENIALS_AFTER)?, None);
    Ok(())
}

/// Of each of these but the last, step 1 or what is recorded isn't what is said.
const WRONG: &[Invocation] = &[
    (
        "a status",
        0,
        &[
            Call(1, [0, 0, 0, 0], NOT_FOUND),
            Call(1, [0, 0, 0, 0], SUCCESS),
        ],
    ),
    ("a number", 0, &[Put(OUT, 8, KEPT), Look(OUT, 8, 0)]),
    (
        "a denial in the records",
        0,
        &[Call(12, [1, 0x74, OUT, 0], ACCESS_DENIED)],
    ),
    (
        "a cell write in the records",
        0,
        &[Call(13, [1, 0x70, 5, 0], SUCCESS)],
    ),
    (
        "nothing: all is as said",
        0,
        &[Call(16, [0, 0, 0, 0], UNSUPPORTED), Put(OUT, 8, KEPT)],
    ),
];

/// The tables of these tests tell what comes out otherwise, and don't pass whatever comes.
#[test]
fn tells_what_comes_out_otherwise(rt: HostRuntime) -> Result<(), Fail> {
    assert_eq!(rt;
        first_untold(rt.alloc(), WRONG)?,
        Some("nothing: all is as said")
    );
    Ok(())
}
