//! Services of an image's pool and of its reserve of pages. What is expected was worked out by hand.
use mm_base::Kind::Memory;
use mm_base::{Right, Why};
use sample_domains::Answer::{Refuses, Sets};
use sample_domains::Step::{Call, Look, Put};
use sample_domains::{
    HEADERS, INVALID_PARAMETER, Invocation, KEPT, NOT_FOUND, OUT, OUT_DENIED, OUT_OF_RESOURCES,
    POOL, RESERVE, SECOND_OUT, SECOND_POOL, SECOND_RESERVE, SUCCESS, first_wrong,
};
use std::test::Fail;

const POOLS: &[Invocation] = &[
    (
        "AllocatePool: no size, then the out pointer, then no place; nothing is written or taken",
        0,
        &[
            Put(OUT, 8, KEPT),
            Call(0, [0, OUT, 0, 0], INVALID_PARAMETER),
            Call(0, [0, HEADERS, 0, 0], INVALID_PARAMETER),
            Call(0, [1, HEADERS, 0, 0], OUT_DENIED),
            Call(0, [65_537, HEADERS, 0, 0], OUT_DENIED),
            Call(0, [65_537, OUT, 0, 0], OUT_OF_RESOURCES),
            Call(0, [0x1_0000_0001, OUT, 0, 0], OUT_OF_RESOURCES),
            Call(0, [0x8000_0000_0000_0001, OUT, 0, 0], OUT_OF_RESOURCES),
            Call(0, [u64::MAX, OUT, 0, 0], OUT_OF_RESOURCES),
            Look(OUT, 8, KEPT),
            Call(0, [1, OUT, 0, 0], SUCCESS),
            Look(OUT, 8, POOL),
            Call(1, [POOL, 0, 0, 0], SUCCESS),
        ],
    ),
    (
        "sizes are rounded up to powers of two from 32 on, at the lowest multiple that is free",
        0,
        &[
            Call(0, [1, OUT, 0, 0], SUCCESS),
            Look(OUT, 8, POOL),
            Call(0, [32, OUT, 0, 0], SUCCESS),
            Look(OUT, 8, POOL + 32),
            Call(0, [33, OUT, 0, 0], SUCCESS),
            Look(OUT, 8, POOL + 64),
            Call(0, [4_000, OUT, 0, 0], SUCCESS),
            Look(OUT, 8, POOL + 4_096),
            Call(0, [1, OUT, 0, 0], SUCCESS),
            Look(OUT, 8, POOL + 128),
            Call(0, [65_536, OUT, 0, 0], OUT_OF_RESOURCES),
            Call(0, [32_768, OUT, 0, 0], SUCCESS),
            Look(OUT, 8, POOL + 32_768),
            Call(0, [32_768, OUT, 0, 0], OUT_OF_RESOURCES),
            Look(OUT, 8, POOL + 32_768),
        ],
    ),
    (
        "FreePool: only where a live block begins, and once",
        0,
        &[
            Call(1, [POOL + 4_096 + 32, 0, 0, 0], NOT_FOUND),
            Call(1, [POOL + 1, 0, 0, 0], NOT_FOUND),
            Call(1, [POOL + 96, 0, 0, 0], NOT_FOUND),
            Call(1, [POOL + 160, 0, 0, 0], NOT_FOUND),
            Call(1, [POOL - 1, 0, 0, 0], NOT_FOUND),
            Call(1, [POOL - 32, 0, 0, 0], NOT_FOUND),
            Call(1, [0, 0, 0, 0], NOT_FOUND),
            Call(1, [POOL + 65_536, 0, 0, 0], NOT_FOUND),
            Call(1, [POOL + 0x1_0000_0000, 0, 0, 0], NOT_FOUND),
            Call(1, [u64::MAX, 0, 0, 0], NOT_FOUND),
            Call(1, [POOL + 32, 0, 0, 0], SUCCESS),
            Call(1, [POOL + 32, 0, 0, 0], NOT_FOUND),
            Call(0, [65, OUT, 0, 0], SUCCESS),
            Look(OUT, 8, POOL + 256),
            Call(0, [20, OUT, 0, 0], SUCCESS),
            Look(OUT, 8, POOL + 32),
        ],
    ),
    (
        "another image has a pool of its own, and can't free of this one",
        1,
        &[
            Call(0, [4_000, SECOND_OUT, 0, 0], SUCCESS),
            Look(SECOND_OUT, 8, SECOND_POOL),
            Call(1, [POOL, 0, 0, 0], NOT_FOUND),
            Call(1, [POOL + 4_096, 0, 0, 0], NOT_FOUND),
            Call(
                0,
                [1, OUT, 0, 0],
                Refuses(Memory, Right::Write, OUT, 8, Why::Mmram),
            ),
            Call(0, [1, SECOND_OUT, 0, 0], SUCCESS),
            Look(SECOND_OUT, 8, SECOND_POOL + 4_096),
        ],
    ),
    (
        "nor can this one of that; all of it freed gives one block of the whole, whose bytes stay",
        0,
        &[
            Call(1, [SECOND_POOL, 0, 0, 0], NOT_FOUND),
            Call(1, [SECOND_POOL + 4_096, 0, 0, 0], NOT_FOUND),
            Put(POOL + 4_096, 8, KEPT),
            Call(1, [POOL + 4_096, 0, 0, 0], SUCCESS),
            Call(1, [POOL + 32_768, 0, 0, 0], SUCCESS),
            Call(1, [POOL, 0, 0, 0], SUCCESS),
            Call(1, [POOL + 32, 0, 0, 0], SUCCESS),
            Call(1, [POOL + 64, 0, 0, 0], SUCCESS),
            Call(1, [POOL + 128, 0, 0, 0], SUCCESS),
            Call(1, [POOL + 256, 0, 0, 0], SUCCESS),
            Call(0, [65_536, OUT, 0, 0], SUCCESS),
            Look(OUT, 8, POOL),
            Call(0, [1, OUT, 0, 0], OUT_OF_RESOURCES),
            Call(1, [POOL + 32_768, 0, 0, 0], NOT_FOUND),
            Look(POOL + 4_096, 8, KEPT),
            Call(1, [POOL, 0, 0, 0], SUCCESS),
        ],
    ),
    (
        "an out pointer into the block, and one to device bytes",
        0,
        &[
            Call(0, [8, POOL + 16, 0, 0], SUCCESS),
            Look(POOL + 16, 8, POOL),
            Call(
                0,
                [8, 0xfe00_0000, 0, 0],
                Sets(Memory, 0xfe00_0000, 8, POOL + 32),
            ),
            Look(0xfe00_0000, 8, POOL + 32),
        ],
    ),
    (
        "the other image's blocks are as they were",
        1,
        &[
            Call(1, [SECOND_POOL, 0, 0, 0], SUCCESS),
            Call(1, [SECOND_POOL + 4_096, 0, 0, 0], SUCCESS),
            Call(1, [SECOND_POOL, 0, 0, 0], NOT_FOUND),
        ],
    ),
];

#[test]
fn pools_give_aligned_blocks(rt: HostRuntime) -> Result<(), Fail> {
    assert_eq!(rt; first_wrong(rt.alloc(), POOLS, &[])?, None);
    Ok(())
}

/// A place in a page of the reserve.
const SECOND_PAGE: u64 = RESERVE + 2 * 4_096;

const PAGES: &[Invocation] = &[
    (
        "AllocatePages: no page, then the out pointer, then no run; nothing is written or taken",
        0,
        &[
            Put(OUT, 8, KEPT),
            Call(2, [0, OUT, 0, 0], INVALID_PARAMETER),
            Call(2, [0, HEADERS, 0, 0], INVALID_PARAMETER),
            Call(2, [1, HEADERS, 0, 0], OUT_DENIED),
            Call(2, [17, HEADERS, 0, 0], OUT_DENIED),
            Call(2, [17, OUT, 0, 0], OUT_OF_RESOURCES),
            Call(2, [0x1_0000_0001, OUT, 0, 0], OUT_OF_RESOURCES),
            Call(2, [u64::MAX, OUT, 0, 0], OUT_OF_RESOURCES),
            Look(OUT, 8, KEPT),
            Call(2, [16, OUT, 0, 0], SUCCESS),
            Look(OUT, 8, RESERVE),
            Call(2, [1, OUT, 0, 0], OUT_OF_RESOURCES),
            Call(3, [RESERVE, 16, 0, 0], SUCCESS),
            Call(3, [RESERVE, 16, 0, 0], NOT_FOUND),
        ],
    ),
    (
        "the lowest run that fits, also after a part of one is freed",
        0,
        &[
            Call(2, [3, OUT, 0, 0], SUCCESS),
            Look(OUT, 8, RESERVE),
            Call(2, [2, OUT, 0, 0], SUCCESS),
            Look(OUT, 8, RESERVE + 3 * 4_096),
            Call(3, [RESERVE + 4_096, 1, 0, 0], SUCCESS),
            Call(2, [2, OUT, 0, 0], SUCCESS),
            Look(OUT, 8, RESERVE + 5 * 4_096),
            Call(2, [10, OUT, 0, 0], OUT_OF_RESOURCES),
            Look(OUT, 8, RESERVE + 5 * 4_096),
            Call(2, [1, OUT, 0, 0], SUCCESS),
            Look(OUT, 8, RESERVE + 4_096),
        ],
    ),
    (
        "FreePages: no page or an odd address, then a page that isn't taken; none is cleared",
        0,
        &[
            Put(RESERVE, 8, KEPT),
            Put(RESERVE + 6 * 4_096 + 4_088, 8, KEPT),
            Call(3, [RESERVE, 0, 0, 0], INVALID_PARAMETER),
            Call(3, [RESERVE + 8 * 4_096, 0, 0, 0], INVALID_PARAMETER),
            Call(3, [RESERVE + 1, 1, 0, 0], INVALID_PARAMETER),
            Call(3, [RESERVE + 4_095, 1, 0, 0], INVALID_PARAMETER),
            Call(3, [RESERVE + 2_048, 17, 0, 0], INVALID_PARAMETER),
            Call(3, [0x1001, 1, 0, 0], INVALID_PARAMETER),
            Call(3, [RESERVE, 8, 0, 0], NOT_FOUND),
            Call(3, [RESERVE + 7 * 4_096, 1, 0, 0], NOT_FOUND),
            Call(3, [RESERVE, 17, 0, 0], NOT_FOUND),
            Call(3, [RESERVE, 0x1_0000_0001, 0, 0], NOT_FOUND),
            Call(3, [RESERVE, u64::MAX, 0, 0], NOT_FOUND),
            Call(3, [RESERVE + 4_096, u64::MAX, 0, 0], NOT_FOUND),
            Look(RESERVE, 8, KEPT),
            Look(RESERVE + 6 * 4_096 + 4_088, 8, KEPT),
            Call(2, [1, OUT, 0, 0], SUCCESS),
            Look(OUT, 8, RESERVE + 7 * 4_096),
        ],
    ),
    (
        "FreePages of pages that are not of the reserve",
        0,
        &[
            Call(3, [0, 1, 0, 0], NOT_FOUND),
            Call(3, [RESERVE - 4_096, 1, 0, 0], NOT_FOUND),
            Call(3, [RESERVE - 4_096, 2, 0, 0], NOT_FOUND),
            Call(3, [POOL, 1, 0, 0], NOT_FOUND),
            Call(3, [RESERVE + 16 * 4_096, 1, 0, 0], NOT_FOUND),
            Call(3, [RESERVE + 0x1000_0000_0000, 1, 0, 0], NOT_FOUND),
            Call(3, [0xffff_ffff_ffff_f000, 1, 0, 0], NOT_FOUND),
            Call(3, [SECOND_RESERVE, 1, 0, 0], NOT_FOUND),
        ],
    ),
    (
        "pages that are given back read as zero, and their neighbours keep their bytes",
        0,
        &[
            Put(SECOND_PAGE - 8, 8, KEPT),
            Put(SECOND_PAGE, 8, KEPT),
            Put(SECOND_PAGE + 4_088, 8, KEPT),
            Put(SECOND_PAGE + 4_096, 8, KEPT),
            Put(SECOND_PAGE + 8_184, 8, KEPT),
            Put(SECOND_PAGE + 8_192, 8, KEPT),
            Call(3, [SECOND_PAGE, 2, 0, 0], SUCCESS),
            Look(SECOND_PAGE - 8, 8, KEPT),
            Look(SECOND_PAGE, 8, 0),
            Look(SECOND_PAGE + 4_088, 8, 0),
            Look(SECOND_PAGE + 4_096, 8, 0),
            Look(SECOND_PAGE + 8_184, 8, 0),
            Look(SECOND_PAGE + 8_192, 8, KEPT),
            Call(3, [SECOND_PAGE, 1, 0, 0], NOT_FOUND),
            Call(3, [SECOND_PAGE - 4_096, 2, 0, 0], NOT_FOUND),
            Call(3, [SECOND_PAGE + 4_096, 2, 0, 0], NOT_FOUND),
        ],
    ),
    (
        "pages that are allocated keep the bytes that they have",
        0,
        &[
            Put(SECOND_PAGE + 4_090, 8, KEPT),
            Call(2, [2, OUT, 0, 0], SUCCESS),
            Look(OUT, 8, SECOND_PAGE),
            Look(SECOND_PAGE + 4_090, 8, KEPT),
            Call(2, [8, OUT, 0, 0], SUCCESS),
            Look(OUT, 8, RESERVE + 8 * 4_096),
            Call(2, [1, RESERVE, 0, 0], OUT_OF_RESOURCES),
            Call(3, [RESERVE, 16, 0, 0], SUCCESS),
            Look(SECOND_PAGE + 4_090, 8, 0),
            Look(RESERVE + 16 * 4_096 - 8, 8, 0),
            Call(
                2,
                [16, 0xfe00_fff8, 0, 0],
                Sets(Memory, 0xfe00_fff8, 8, RESERVE),
            ),
        ],
    ),
    (
        "another image has a reserve of its own, which ends where memory does, and can't free of this one",
        1,
        &[
            Call(2, [15, SECOND_OUT, 0, 0], SUCCESS),
            Look(SECOND_OUT, 8, SECOND_RESERVE),
            Call(2, [1, SECOND_OUT, 0, 0], SUCCESS),
            Look(SECOND_OUT, 8, 0x81ff_f000),
            Put(0x81ff_fff8, 8, KEPT),
            Call(3, [0x81ff_f000, 2, 0, 0], NOT_FOUND),
            Call(3, [0x8200_0000, 1, 0, 0], NOT_FOUND),
            Call(3, [RESERVE, 1, 0, 0], NOT_FOUND),
            Call(3, [RESERVE, 16, 0, 0], NOT_FOUND),
            Look(0x81ff_fff8, 8, KEPT),
            Call(3, [0x81ff_f000, 1, 0, 0], SUCCESS),
            Look(0x81ff_fff8, 8, 0),
        ],
    ),
    (
        "and of this image's pages none was freed",
        0,
        &[
            Call(2, [1, OUT, 0, 0], OUT_OF_RESOURCES),
            Call(3, [SECOND_RESERVE, 1, 0, 0], NOT_FOUND),
            Call(3, [RESERVE, 16, 0, 0], SUCCESS),
        ],
    ),
];

#[test]
fn reserves_give_runs_of_pages(rt: HostRuntime) -> Result<(), Fail> {
    assert_eq!(rt; first_wrong(rt.alloc(), PAGES, &[])?, None);
    Ok(())
}
