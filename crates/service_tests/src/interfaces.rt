//! Services of interfaces and of handlers, before and after lock. What is expected was worked out by hand.
use mm_base::Kind::Memory;
use mm_base::Right;
use mm_base::Why::{Mmram, Range, Rule};
use sample_domains::Answer::{Refuses, Sets};
use sample_domains::Step::{Call, CallAt, Look, Put, Set};
use sample_domains::{
    ACCESS_DENIED, HEADERS, INVALID_PARAMETER, Invocation, KEPT, NAME, NAME_DENIED, NOT_FOUND,
    OTHER_NAME, OUT, OUT_DENIED, OUT_OF_RESOURCES, SECOND_NAME, SECOND_OTHER_NAME, SECOND_OUT,
    SUCCESS, UNSUPPORTED, first_wrong,
};
use std::test::Fail;

/// A name that nothing has: 16 bytes of 0.
const NO_NAME: u64 = 0x8000_5080;

const SECOND_NO_NAME: u64 = 0x81fd_e080;

/// Interfaces.
const RED: u64 = 0xaaaa_0000_0000_0001;

const BLUE: u64 = 0xbbbb_0000_0000_0002;

const GREEN: u64 = 0xcccc_0000_0000_0003;

const INTERFACES: &[Invocation] = &[
    (
        "InstallProtocol: the name, then the out pointer, then no handle; nothing is installed",
        0,
        &[
            Put(NAME, 8, 0x1111_1111_1111_1111),
            Put(NAME + 8, 8, 0x2222_2222_2222_2222),
            Put(OTHER_NAME, 8, 0x1111_1111_1111_1111),
            Put(OTHER_NAME + 8, 8, 0x2322_2222_2222_2222),
            Put(OUT, 8, KEPT),
            Call(4, [0, 0, RED, OUT], NAME_DENIED),
            Call(4, [0, 0, RED, HEADERS], NAME_DENIED),
            Call(
                4,
                [0, 0x8002_6ff8, RED, OUT],
                Refuses(Memory, Right::Read, 0x8002_6ff8, 16, Mmram),
            ),
            Call(4, [0, NAME, RED, HEADERS], OUT_DENIED),
            Call(4, [99, NAME, RED, HEADERS], OUT_DENIED),
            Call(4, [99, NAME, RED, OUT], INVALID_PARAMETER),
            Call(4, [256, NAME, RED, OUT], INVALID_PARAMETER),
            Call(8, [NAME, OUT, 0, 0], NOT_FOUND),
            Look(OUT, 8, KEPT),
        ],
    ),
    (
        "handles rise from 256 on, and none has a name twice",
        0,
        &[
            Call(4, [0, NAME, RED, OUT], SUCCESS),
            Look(OUT, 8, 256),
            Call(4, [0, NAME, BLUE, OUT], SUCCESS),
            Look(OUT, 8, 257),
            Call(4, [256, OTHER_NAME, GREEN, OUT], SUCCESS),
            Look(OUT, 8, 256),
            Put(OUT, 8, KEPT),
            Call(4, [256, NAME, GREEN, OUT], INVALID_PARAMETER),
            Call(4, [256, OTHER_NAME, GREEN, OUT], INVALID_PARAMETER),
            Call(4, [258, NAME, RED, OUT], INVALID_PARAMETER),
            Call(4, [0x1_0000_0100, NO_NAME, RED, OUT], INVALID_PARAMETER),
            Call(4, [256, NAME, GREEN, HEADERS], OUT_DENIED),
            Look(OUT, 8, KEPT),
        ],
    ),
    (
        "HandleProtocol: the name, then the out pointer, then no handle, then no interface",
        0,
        &[
            Call(6, [256, 0, OUT, 0], NAME_DENIED),
            Call(6, [256, 0, HEADERS, 0], NAME_DENIED),
            Call(6, [256, NAME, HEADERS, 0], OUT_DENIED),
            Call(6, [258, NAME, HEADERS, 0], OUT_DENIED),
            Call(6, [257, OTHER_NAME, HEADERS, 0], OUT_DENIED),
            Call(6, [258, NAME, OUT, 0], INVALID_PARAMETER),
            Call(6, [258, NO_NAME, OUT, 0], INVALID_PARAMETER),
            Call(6, [0, NAME, OUT, 0], INVALID_PARAMETER),
            Call(6, [257, OTHER_NAME, OUT, 0], UNSUPPORTED),
            Look(OUT, 8, KEPT),
            Call(6, [256, NAME, OUT, 0], SUCCESS),
            Look(OUT, 8, RED),
            Call(6, [257, NAME, OUT, 0], SUCCESS),
            Look(OUT, 8, BLUE),
            Call(6, [256, OTHER_NAME, OUT, 0], SUCCESS),
            Look(OUT, 8, GREEN),
        ],
    ),
    (
        "LocateHandle: the name, then the out pointer, then none; handles in order of installation",
        0,
        &[
            Put(OUT, 8, KEPT),
            Call(7, [0, 0, OUT, 0], NAME_DENIED),
            Call(7, [0, 0, HEADERS, 0], NAME_DENIED),
            Call(7, [NAME, 0, HEADERS, 0], OUT_DENIED),
            Call(7, [NAME, 2, HEADERS, 0], OUT_DENIED),
            Call(7, [NAME, 2, OUT, 0], NOT_FOUND),
            Call(7, [OTHER_NAME, 1, OUT, 0], NOT_FOUND),
            Call(7, [NO_NAME, 0, OUT, 0], NOT_FOUND),
            Call(7, [NAME, 0x1_0000_0000, OUT, 0], NOT_FOUND),
            Call(7, [NAME, u64::MAX, OUT, 0], NOT_FOUND),
            Look(OUT, 8, KEPT),
            Call(7, [NAME, 0, OUT, 0], SUCCESS),
            Look(OUT, 8, 256),
            Call(7, [NAME, 1, OUT, 0], SUCCESS),
            Look(OUT, 8, 257),
            Call(7, [OTHER_NAME, 0, OUT, 0], SUCCESS),
            Look(OUT, 8, 256),
        ],
    ),
    (
        "LocateProtocol: the name, then the out pointer, then none; the interface that was installed first",
        0,
        &[
            Put(OUT, 8, KEPT),
            Call(8, [0, OUT, 0, 0], NAME_DENIED),
            Call(8, [0, HEADERS, 0, 0], NAME_DENIED),
            Call(8, [NAME, HEADERS, 0, 0], OUT_DENIED),
            Call(8, [NO_NAME, HEADERS, 0, 0], OUT_DENIED),
            Call(8, [NO_NAME, OUT, 0, 0], NOT_FOUND),
            Look(OUT, 8, KEPT),
            Call(8, [NAME, OUT, 0, 0], SUCCESS),
            Look(OUT, 8, RED),
            Call(8, [OTHER_NAME, OUT, 0, 0], SUCCESS),
            Look(OUT, 8, GREEN),
        ],
    ),
    (
        "UninstallProtocol: the name, then no such interface; all of them stay",
        0,
        &[
            Call(5, [256, 0, RED, 0], NAME_DENIED),
            Call(5, [99, 0, RED, 0], NAME_DENIED),
            Call(5, [99, NAME, RED, 0], NOT_FOUND),
            Call(5, [256, NAME, BLUE, 0], NOT_FOUND),
            Call(5, [256, NO_NAME, RED, 0], NOT_FOUND),
            Call(5, [257, OTHER_NAME, GREEN, 0], NOT_FOUND),
            Call(5, [0, NAME, RED, 0], NOT_FOUND),
            Call(8, [NAME, OUT, 0, 0], SUCCESS),
            Look(OUT, 8, RED),
            Call(7, [NAME, 1, OUT, 0], SUCCESS),
            Look(OUT, 8, 257),
        ],
    ),
    (
        "another image finds these interfaces and can't remove them; it may install on their handles",
        1,
        &[
            Put(SECOND_NAME, 8, 0x1111_1111_1111_1111),
            Put(SECOND_NAME + 8, 8, 0x2222_2222_2222_2222),
            Put(SECOND_OTHER_NAME, 8, 0x1111_1111_1111_1111),
            Put(SECOND_OTHER_NAME + 8, 8, 0x2322_2222_2222_2222),
            Call(5, [256, SECOND_NAME, RED, 0], ACCESS_DENIED),
            Call(5, [256, SECOND_NAME, GREEN, 0], NOT_FOUND),
            Call(5, [256, 0, RED, 0], NAME_DENIED),
            Call(6, [256, SECOND_NAME, SECOND_OUT, 0], SUCCESS),
            Look(SECOND_OUT, 8, RED),
            Call(
                6,
                [256, NAME, SECOND_OUT, 0],
                Refuses(Memory, Right::Read, NAME, 16, Mmram),
            ),
            Call(4, [256, SECOND_NAME, GREEN, SECOND_OUT], INVALID_PARAMETER),
            Call(4, [256, SECOND_NO_NAME, GREEN, SECOND_OUT], SUCCESS),
            Look(SECOND_OUT, 8, 256),
        ],
    ),
    (
        "what is uninstalled is found no more; a handle without interfaces isn't there, and its number isn't used again",
        0,
        &[
            Call(5, [256, NO_NAME, GREEN, 0], ACCESS_DENIED),
            Call(5, [256, NAME, RED, 0], SUCCESS),
            Call(5, [256, NAME, RED, 0], NOT_FOUND),
            Call(6, [256, NAME, OUT, 0], UNSUPPORTED),
            Call(8, [NAME, OUT, 0, 0], SUCCESS),
            Look(OUT, 8, BLUE),
            Call(7, [NAME, 0, OUT, 0], SUCCESS),
            Look(OUT, 8, 257),
            Call(7, [NAME, 1, OUT, 0], NOT_FOUND),
            Call(5, [257, NAME, BLUE, 0], SUCCESS),
            Call(6, [257, NAME, OUT, 0], INVALID_PARAMETER),
            Call(4, [257, NAME, BLUE, OUT], INVALID_PARAMETER),
            Call(5, [256, OTHER_NAME, GREEN, 0], SUCCESS),
            Call(6, [256, NO_NAME, OUT, 0], SUCCESS),
            Look(OUT, 8, GREEN),
            Call(4, [0, NAME, RED, OUT], SUCCESS),
            Look(OUT, 8, 258),
        ],
    ),
    (
        "an image has 16 interfaces, and no 17th",
        0,
        &[
            Call(4, [0, NAME, 2, OUT], SUCCESS),
            Call(4, [0, NAME, 3, OUT], SUCCESS),
            Call(4, [0, NAME, 4, OUT], SUCCESS),
            Call(4, [0, NAME, 5, OUT], SUCCESS),
            Call(4, [0, NAME, 6, OUT], SUCCESS),
            Call(4, [0, NAME, 7, OUT], SUCCESS),
            Call(4, [0, NAME, 8, OUT], SUCCESS),
            Call(4, [0, NAME, 9, OUT], SUCCESS),
            Call(4, [0, NAME, 10, OUT], SUCCESS),
            Call(4, [0, NAME, 11, OUT], SUCCESS),
            Call(4, [0, NAME, 12, OUT], SUCCESS),
            Call(4, [0, NAME, 13, OUT], SUCCESS),
            Call(4, [0, NAME, 14, OUT], SUCCESS),
            Call(4, [0, NAME, 15, OUT], SUCCESS),
            Call(4, [0, NAME, 16, OUT], SUCCESS),
            Look(OUT, 8, 273),
            Call(4, [0, NAME, 17, OUT], OUT_OF_RESOURCES),
            Call(4, [258, OTHER_NAME, 17, OUT], OUT_OF_RESOURCES),
            Call(4, [999, NAME, 17, OUT], INVALID_PARAMETER),
            Call(4, [258, NAME, 17, OUT], INVALID_PARAMETER),
            Call(4, [0, NAME, 17, HEADERS], OUT_DENIED),
            Call(4, [0, 0, 17, OUT], NAME_DENIED),
            Look(OUT, 8, 273),
            Call(7, [NAME, 16, OUT, 0], NOT_FOUND),
            Call(7, [NAME, 15, OUT, 0], SUCCESS),
            Look(OUT, 8, 273),
            Call(6, [258, OTHER_NAME, OUT, 0], UNSUPPORTED),
        ],
    ),
    (
        "the limit is each image's own",
        1,
        &[
            Call(4, [258, SECOND_OTHER_NAME, BLUE, SECOND_OUT], SUCCESS),
            Look(SECOND_OUT, 8, 258),
        ],
    ),
    (
        "after one is removed there is room for one; the interfaces that were refused took no number",
        0,
        &[
            Call(5, [265, NAME, 8, 0], SUCCESS),
            Call(4, [0, NAME, 17, OUT], SUCCESS),
            Look(OUT, 8, 274),
            Call(4, [0, NAME, 18, OUT], OUT_OF_RESOURCES),
            Call(5, [274, NAME, 17, 0], SUCCESS),
            Call(
                4,
                [0, NAME, 18, 0xfe00_0000],
                Sets(Memory, 0xfe00_0000, 8, 275),
            ),
        ],
    ),
];

/// After lock nothing comes or goes, and all is found that there is.
const INTERFACES_AFTER: &[Invocation] = &[
    (
        "services that change interfaces read nothing, be their arguments lawful or not readable at all",
        0,
        &[
            CallAt(4, 0, ACCESS_DENIED),
            CallAt(5, 0, ACCESS_DENIED),
            CallAt(4, 0x8002_7000, ACCESS_DENIED),
            CallAt(5, u64::MAX, ACCESS_DENIED),
            Put(OUT, 8, KEPT),
            Call(4, [0, 0, 1, HEADERS], ACCESS_DENIED),
            Call(4, [0, NO_NAME, 1, OUT], ACCESS_DENIED),
            Call(5, [258, NAME, RED, 0], ACCESS_DENIED),
            Call(5, [99, 0, RED, 0], ACCESS_DENIED),
            Look(OUT, 8, KEPT),
        ],
    ),
    (
        "the services that find them answer as before",
        0,
        &[
            Call(6, [258, 0, OUT, 0], NAME_DENIED),
            Call(6, [258, NAME, HEADERS, 0], OUT_DENIED),
            Call(6, [99, NAME, OUT, 0], INVALID_PARAMETER),
            Call(6, [258, NO_NAME, OUT, 0], UNSUPPORTED),
            Call(6, [258, NAME, OUT, 0], SUCCESS),
            Look(OUT, 8, RED),
            Call(7, [0, 0, OUT, 0], NAME_DENIED),
            Call(7, [NAME, 0, HEADERS, 0], OUT_DENIED),
            Call(7, [NAME, 16, OUT, 0], NOT_FOUND),
            Call(7, [NAME, 1, OUT, 0], SUCCESS),
            Look(OUT, 8, 259),
            Call(8, [0, OUT, 0, 0], NAME_DENIED),
            Call(8, [NAME, HEADERS, 0, 0], OUT_DENIED),
            Call(8, [NAME, OUT, 0, 0], SUCCESS),
            Look(OUT, 8, RED),
        ],
    ),
    (
        "names across two pages, in code, and in device bytes that may be read",
        0,
        &[
            Put(0x8000_1ff9, 8, 0x1111_1111_1111_1111),
            Put(0x8000_2001, 8, 0x2222_2222_2222_2222),
            Call(6, [259, 0x8000_1ff9, OUT, 0], SUCCESS),
            Look(OUT, 8, 2),
            Call(8, [CODE, OUT, 0, 0], SUCCESS),
            Look(OUT, 8, GREEN),
            Call(8, [0xfe00_0810, OUT, 0, 0], SUCCESS),
            Look(OUT, 8, GREEN),
            Set(0xfe00_2001, 8, 0x1111_1111_1111_1111, 0x1111_1111_1111_1111),
            Set(0xfe00_2009, 8, 0x2222_2222_2222_2222, 0x2222_2222_2222_2222),
            Call(6, [260, 0xfe00_2001, OUT, 0], SUCCESS),
            Look(OUT, 8, 3),
            Call(
                8,
                [0xfe00_0808, OUT, 0, 0],
                Refuses(Memory, Right::Read, 0xfe00_0808, 16, Rule(11)),
            ),
            Call(
                8,
                [0xfe00_fff1, OUT, 0, 0],
                Refuses(Memory, Right::Read, 0xfe00_fff1, 16, Range),
            ),
            Call(
                8,
                [0x8000_00f8, OUT, 0, 0],
                Refuses(Memory, Right::Read, 0x8000_00f8, 16, Mmram),
            ),
            Look(OUT, 8, 3),
        ],
    ),
    (
        "for the other image too",
        1,
        &[
            CallAt(5, 0, ACCESS_DENIED),
            Call(5, [258, SECOND_OTHER_NAME, BLUE, 0], ACCESS_DENIED),
            Call(6, [258, SECOND_OTHER_NAME, SECOND_OUT, 0], SUCCESS),
            Look(SECOND_OUT, 8, BLUE),
        ],
    ),
];

#[test]
fn interfaces_are_installed_found_and_removed(rt: HostRuntime) -> Result<(), Fail> {
    assert_eq!(rt;
        first_wrong(rt.alloc(), INTERFACES, INTERFACES_AFTER)?,
        None
    );
    Ok(())
}

/// Code of the first image, and of the second.
const CODE: u64 = 0x8000_0100;

const SECOND_CODE: u64 = 0x81fd_9100;

/// A pointer that isn't 0 and may not be read.
const NOWHERE: u64 = 8;

const HANDLERS: &[Invocation] = &[
    (
        "RegisterHandler: the address, then the name unless the pointer is 0, then the out pointer",
        0,
        &[
            Put(OUT, 8, KEPT),
            Call(9, [0, NAME, OUT, 0], INVALID_PARAMETER),
            Call(9, [CODE + 1, NAME, OUT, 0], INVALID_PARAMETER),
            Call(9, [u64::MAX, NAME, OUT, 0], INVALID_PARAMETER),
            Call(9, [0, NOWHERE, OUT, 0], INVALID_PARAMETER),
            Call(9, [CODE + 1, 0, HEADERS, 0], INVALID_PARAMETER),
            Call(
                9,
                [CODE, NOWHERE, OUT, 0],
                Refuses(Memory, Right::Read, NOWHERE, 16, Range),
            ),
            Call(
                9,
                [CODE, NOWHERE, HEADERS, 0],
                Refuses(Memory, Right::Read, NOWHERE, 16, Range),
            ),
            Call(9, [CODE, NAME, HEADERS, 0], OUT_DENIED),
            Call(9, [CODE, 0, HEADERS, 0], OUT_DENIED),
            Call(10, [1, 0, 0, 0], NOT_FOUND),
            Look(OUT, 8, KEPT),
        ],
    ),
    (
        "handles are numbers from 1 on; an image has 8 handlers, and no 9th",
        0,
        &[
            Call(9, [CODE, NAME, OUT, 0], SUCCESS),
            Look(OUT, 8, 1),
            Call(9, [CODE, NAME, OUT, 0], SUCCESS),
            Look(OUT, 8, 2),
            Call(9, [CODE + 2, 0, OUT, 0], SUCCESS),
            Look(OUT, 8, 3),
            Call(9, [2, 0, OUT, 0], SUCCESS),
            Look(OUT, 8, 4),
            Call(9, [CODE + 4, OTHER_NAME, OUT, 0], SUCCESS),
            Call(9, [CODE + 6, OTHER_NAME, OUT, 0], SUCCESS),
            Call(9, [CODE + 8, OTHER_NAME, OUT, 0], SUCCESS),
            Call(9, [CODE + 10, OTHER_NAME, OUT, 0], SUCCESS),
            Look(OUT, 8, 8),
            Call(9, [CODE, NAME, OUT, 0], OUT_OF_RESOURCES),
            Call(9, [CODE, 0, OUT, 0], OUT_OF_RESOURCES),
            Call(9, [CODE, NAME, HEADERS, 0], OUT_DENIED),
            Call(
                9,
                [CODE, NOWHERE, OUT, 0],
                Refuses(Memory, Right::Read, NOWHERE, 16, Range),
            ),
            Call(9, [CODE + 1, NAME, OUT, 0], INVALID_PARAMETER),
            Look(OUT, 8, 8),
        ],
    ),
    (
        "another image has 8 of its own, and can't remove one of these",
        1,
        &[
            Call(10, [1, 0, 0, 0], ACCESS_DENIED),
            Call(10, [8, 0, 0, 0], ACCESS_DENIED),
            Call(10, [9, 0, 0, 0], NOT_FOUND),
            Call(9, [SECOND_CODE, SECOND_NAME, SECOND_OUT, 0], SUCCESS),
            Look(SECOND_OUT, 8, 9),
            Call(9, [CODE, 0, SECOND_OUT, 0], SUCCESS),
            Look(SECOND_OUT, 8, 10),
            Call(10, [10, 0, 0, 0], SUCCESS),
        ],
    ),
    (
        "UnregisterHandler: no such handle, then another image's; a handle isn't used again",
        0,
        &[
            Call(10, [0, 0, 0, 0], NOT_FOUND),
            Call(10, [0x1_0000_0000, 0, 0, 0], NOT_FOUND),
            Call(10, [0x1_0000_0001, 0, 0, 0], NOT_FOUND),
            Call(10, [0xffff_ffff, 0, 0, 0], NOT_FOUND),
            Call(10, [u64::MAX, 0, 0, 0], NOT_FOUND),
            Call(10, [9, 0, 0, 0], ACCESS_DENIED),
            Call(10, [10, 0, 0, 0], NOT_FOUND),
            Call(9, [CODE, NAME, OUT, 0], OUT_OF_RESOURCES),
            Call(10, [3, 0, 0, 0], SUCCESS),
            Call(10, [3, 0, 0, 0], NOT_FOUND),
            Call(
                9,
                [CODE, NAME, 0xfe00_0000, 0],
                Sets(Memory, 0xfe00_0000, 8, 11),
            ),
            Call(9, [CODE, NAME, OUT, 0], OUT_OF_RESOURCES),
            Call(10, [11, 0, 0, 0], SUCCESS),
        ],
    ),
];

const HANDLERS_AFTER: &[Invocation] = &[
    (
        "services that change handlers read nothing after lock",
        0,
        &[
            CallAt(9, 0, ACCESS_DENIED),
            CallAt(10, 0, ACCESS_DENIED),
            CallAt(9, u64::MAX, ACCESS_DENIED),
            CallAt(10, 0x8002_7000, ACCESS_DENIED),
            Put(OUT, 8, KEPT),
            Call(9, [CODE, NAME, OUT, 0], ACCESS_DENIED),
            Call(9, [0, NOWHERE, HEADERS, 0], ACCESS_DENIED),
            Call(10, [1, 0, 0, 0], ACCESS_DENIED),
            Call(10, [0, 0, 0, 0], ACCESS_DENIED),
            Look(OUT, 8, KEPT),
        ],
    ),
    (
        "the other image's too",
        1,
        &[
            CallAt(10, 0, ACCESS_DENIED),
            Call(10, [9, 0, 0, 0], ACCESS_DENIED),
            Call(9, [SECOND_CODE, 0, SECOND_OUT, 0], ACCESS_DENIED),
        ],
    ),
];

#[test]
fn handlers_are_registered_and_removed(rt: HostRuntime) -> Result<(), Fail> {
    assert_eq!(rt; first_wrong(rt.alloc(), HANDLERS, HANDLERS_AFTER)?, None);
    Ok(())
}
