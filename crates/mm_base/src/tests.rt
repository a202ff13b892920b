ghost use Rattle.std.specs.Prelude.{◌≡◌, ◌≤◌, [], length, IfOk};

use crate::{
    CellWrite, Denial, Ended, Entries, Guid, Invocation, Kind, List, NoMemory, Outcome,
    OutcomeRooms, PeFault, PeKind, Prepared, Range, Receipt, Records, Region, Right, Room, Saved,
    Service, Shape, Why, check, guid_at, is_cell, le_at, pages_for, service_entry, service_slot,
    status, word_at,
};
use std::alloc::Global;
use std::test::Fail;

// Seventeen bytes, none twice.
const SEVENTEEN: [u8; 17] = [
    0x11, 0x22, 0x33, 0x44, 0x55, 0x66, 0x77, 0x88, 0x99, 0xaa, 0xbb, 0xcc, 0xdd, 0xee, 0xff, 0x10,
    0x20,
];

// How many of them, the place, and the first and the last byte of the GUID there.
const PLACES: [(usize, usize, Option<(u8, u8)>); 6] = [
    (16, 0, Some((0x11, 0x10))),
    (17, 1, Some((0x22, 0x20))),
    (17, 0, Some((0x11, 0x10))),
    (16, 1, None),
    (16, 17, None),
    (15, 0, None),
];

#[test]
fn finds_guids(rt: HostRuntime) -> Result<(), Fail> {
    for (count, at, ends) in PLACES {
        let bytes = SEVENTEEN.get(..count).ok_or("fewer than seventeen")?;
        let found = guid_at(bytes, at).map(|guid| (guid.0[0], guid.0[15]));
        assert_eq!(rt; found, ends, "{at} of {count}");
    }
    Ok(())
}

// As firmware stores it, and as it is written.
const STORED: Guid = Guid([
    0x31, 0x56, 0x4d, 0x4d, 0x01, 0x00, 0x00, 0x40, 0x80, 0x00, 0x00, 0x00, 0x00, 0x00, 0x00, 0x01,
]);

const WRITTEN: &[u8] = b"4d4d5631-0001-4000-8000-000000000001";

const TEXTS: [(&str, Option<Guid>); 6] = [
    ("4d4d5631-0001-4000-8000-000000000001", Some(STORED)),
    ("4D4D5631-0001-4000-8000-000000000001", Some(STORED)),
    ("4d4d5631000140008000000000000001", Some(STORED)),
    ("4d4d5631", None),
    ("4d4d5631-0001-4000-8000-00000000000g", None),
    ("", None),
];

#[test]
fn texts_of_guids(rt: HostRuntime) {
    assert_eq!(rt; STORED.text().as_slice(), WRITTEN);
    for (text, guid) in TEXTS {
        assert_eq!(rt; Guid::from_text(text), guid, "at {text}");
    }
}

const NINE: &[u8] = &[1, 2, 3, 4, 5, 6, 7, 8, 9];

const NUMBERS: [(usize, u8, Option<u64>); 8] = [
    (0, 1, Some(1)),
    (1, 2, Some(0x0302)),
    (0, 3, Some(0x0003_0201)),
    (1, 8, Some(0x0908_0706_0504_0302)),
    (8, 1, Some(9)),
    (2, 8, None),
    (9, 1, None),
    (10, 1, None),
];

#[test]
fn reads_numbers(rt: HostRuntime) {
    for (at, n, number) in NUMBERS {
        assert!(rt; 1 <= n && n <= 8);
        assert_eq!(rt; le_at(NINE, at, n), number, "{n} bytes at {at}");
    }
    assert_eq!(rt; word_at(NINE, 0), 0x0807_0605_0403_0201);
    assert_eq!(rt; word_at(NINE, 1), 9);
}

const DENIAL: Denial = Denial {
    kind: Kind::Memory,
    right: Right::Write,
    at: 0x1000,
    n: 8,
    why: Why::Rule(2),
};

const WRITE: CellWrite = CellWrite {
    kind: Kind::Io,
    at: 0xb2,
    n: 1,
    value: 0x5a,
};

fn one_invocation(alloc: Global) -> Result<Invocation, NoMemory> {
    let mut records = Records::new(alloc)?;
    records.deny(DENIAL);
    records.write(WRITE);
    Ok(records.ended(7, Ended::Returned(status::NOT_FOUND)))
}

#[test]
fn keeps_records(rt: HostRuntime) -> Result<(), Fail> {
    let invocation = one_invocation(rt.alloc())?;
    assert_eq!(rt; invocation.handler, 7);
    assert_eq!(rt; invocation.denials.as_slice(), [DENIAL].as_slice());
    assert_eq!(rt; invocation.writes.as_slice(), [WRITE].as_slice());
    Ok(())
}

// An outcome in the rooms that were prepared for it.
fn outcome_in(rooms: OutcomeRooms, only: Invocation) -> Outcome
    requires reply { (rooms.reply.items ≡ []) × (2 ≤ rooms.reply.room) }
    requires chain { (rooms.chain.items ≡ []) × (1 ≤ rooms.chain.room) }
    ensures { length result.reply ≡ 2 }
{
    let OutcomeRooms {
        mut reply,
        mut chain,
        root,
        blanks: _,
    } = rooms;
    reply.extend(&[9, 8]);
    chain.push(only);
    Outcome {
        shape: Shape::Dispatched(STORED),
        status: status::NOT_FOUND,
        reply: reply.into_list(),
        chain: chain.into_list(),
        root: root.into_list(),
    }
}

// A whole entry, and what it tells at place 11.
fn entry_and_receipt(alloc: Global) -> Result<(Entries, Receipt), NoMemory> {
    let only = one_invocation(alloc)?;
    let mut prepared = Prepared::new(alloc, 4, 1)?;
    prepared.capture(&[1, 2, 3]);
    prepared.seal(5, 3, 2, Saved::ZERO);
    let outcome = outcome_in(prepared.rooms(), only);
    prepared.finish(outcome);
    let receipt = prepared.receipt(11);
    Ok((prepared.into_entry(), receipt))
}

#[test]
fn prepares_an_entry(rt: HostRuntime) -> Result<(), Fail> {
    let (entries, receipt) = entry_and_receipt(rt.alloc())?;
    let entry = entries.get(0).ok_or("no entry")?;
    assert_eq!(rt;
        (
            entry.request.lane,
            entry.request.length,
            entry.outcome.chain.len()
        ),
        (5, 3, 1)
    );
    assert_eq!(rt; entry.request.bytes.as_slice(), [1, 2].as_slice());
    assert_eq!(rt;
        (receipt.position, receipt.dispatched, receipt.status),
        (11, true, status::NOT_FOUND)
    );
    assert_eq!(rt; receipt.bytes.as_slice(), [9, 8].as_slice());
    Ok(())
}

// One entry of a processor on this lane.
fn entry_of(alloc: Global, lane: u32) -> Result<Entries, NoMemory>
    ensures { IfOk result (λ entries. length entries ≡ 1) }
{
    let mut prepared = Prepared::new(alloc, 0, 0)?;
    prepared.seal(lane, 0, 0, Saved::ZERO);
    Ok(prepared.into_entry())
}

// Entries of the lanes from 0.
fn entries_of_lanes(alloc: Global, count: u32) -> Result<Entries, NoMemory> {
    let mut entries = Entries::new();
    for lane in 0..count {
        entries.join(entry_of(alloc, lane)?);
    }
    Ok(entries)
}

#[test]
fn joins_entries(rt: HostRuntime) -> Result<(), Fail> {
    let alloc = rt.alloc();
    let entries = entries_of_lanes(alloc, 3)?;
    assert_eq!(rt; entries.len(), 3);
    for (place, lane) in [(0, Some(0)), (1, Some(1)), (2, Some(2)), (3, None)] {
        let found = entries.get(place).map(|entry| entry.request.lane);
        assert_eq!(rt; found, lane, "at {place}");
    }
    let mut lane = 0u32;
    for entry in entries.in_order(alloc)? {
        assert_eq!(rt; entry.request.lane, lane);
        lane = lane.saturating_add(1);
    }
    assert_eq!(rt; lane, 3);
    Ok(())
}

// A chain that is dropped box in box would overflow the stack.
#[test]
fn drops_a_long_chain(rt: HostRuntime) -> Result<(), Fail> {
    let entries = entries_of_lanes(rt.alloc(), 100_000)?;
    assert_eq!(rt; entries.len(), 100_000);
    Ok(())
}

#[test]
fn fills_a_room(rt: HostRuntime) -> Result<(), Fail> {
    let mut room = Room::none(rt.alloc());
    room.reserve(2)?;
    room.push(3u8);
    room.push(4);
    room.truncate(1);
    room.push(5);
    assert_eq!(rt; room.as_slice(), [3, 5].as_slice());
    Ok(())
}

#[test]
fn grows_a_list(rt: HostRuntime) -> Result<(), Fail> {
    let mut list = List::from_slice(rt.alloc(), &[1u8, 2])?;
    list.push(3)?;
    list.extend(&[4, 5])?;
    assert_eq!(rt; list.as_slice(), [1, 2, 3, 4, 5].as_slice());
    Ok(())
}

// Cells and values, at both ends of each range.
const CELLS: [(Kind, u64, u64, bool); 17] = [
    (Kind::Io, 0, 0xff, true),
    (Kind::Io, 0xffff, 0, true),
    (Kind::Io, 0x1_0000, 0, false),
    (Kind::Io, 0x70, 0x100, false),
    (Kind::Memory, 0xfdff_ffff, 0, false),
    (Kind::Memory, 0xfe00_0000, 0xff, true),
    (Kind::Memory, 0xfe00_ffff, 0, true),
    (Kind::Memory, 0xfe01_0000, 0, false),
    (Kind::Memory, 0xfe00_0000, 0x100, false),
    (Kind::Msr, 0, u64::MAX, true),
    (Kind::Msr, 0x1fff, 0, true),
    (Kind::Msr, 0x2000, 0, false),
    (Kind::Msr, 0xbfff_ffff, 0, false),
    (Kind::Msr, 0xc000_0000, 0, true),
    (Kind::Msr, 0xc000_1fff, 0, true),
    (Kind::Msr, 0xc000_2000, 0, false),
    (Kind::Saved, 0, 0, false),
];

#[test]
fn cells_of_the_platform(rt: HostRuntime) {
    for (kind, at, value, there) in CELLS {
        assert_eq!(rt; is_cell(kind, at, value), there, "{at:x} {value:x}");
    }
}

/// Five bytes, of which two were overwritten.
fn overwritten(alloc: Global) -> Result<Room<u8>, NoMemory> {
    let mut room = Room::new(alloc, 8)?;
    room.extend(&[1, 2, 3, 4, 5]);
    room.overwrite(2, &[9, 8]);
    Ok(room)
}

#[test]
fn overwrites_in_place(rt: HostRuntime) -> Result<(), Fail> {
    let room = overwritten(rt.alloc())?;
    assert!(rt; room.as_slice() == [1, 2, 9, 8, 5].as_slice());
    Ok(())
}

// A range by its base and its length, another one, whether they overlap, and whether the first covers the second.
const RANGES: [((u64, u64), (u64, u64), bool, bool); 9] = [
    ((10, 5), (10, 5), true, true),
    ((10, 5), (14, 1), true, true),
    ((10, 5), (15, 1), false, false),
    ((10, 5), (14, 2), true, false),
    ((10, 5), (9, 2), true, false),
    ((10, 5), (9, 1), false, false),
    ((10, 5), (15, 0), false, true),
    ((10, 0), (10, 5), false, false),
    ((u64::MAX, 1), (0, u64::MAX), false, false),
];

/// Whether two ranges, each by its base and its length, overlap, and whether the first covers the second.
fn compared(one: (u64, u64), other: (u64, u64)) -> Option<(bool, bool)> {
    let one = Range::new(one.0, one.1)?;
    let other = Range::new(other.0, other.1)?;
    Some((one.overlaps(&other), one.covers(&other)))
}

#[test]
fn compares_ranges(rt: HostRuntime) {
    for (one, other, overlaps, covers) in RANGES {
        assert_eq!(rt;
            compared(one, other),
            Some((overlaps, covers)),
            "{one:?} {other:?}"
        );
    }
    assert_eq!(rt; Range::new(u64::MAX, 1).is_some(), true);
    assert_eq!(rt; Range::new(u64::MAX, 2).is_some(), false);
    assert_eq!(rt; Range::new(2, u64::MAX).is_some(), false);
}

// The region of an image of one page at the begin of memory, part by part.
const REGION: Region = Region {
    base: 0x8000_0000,
    pages: 1,
};

fn parts() -> [(u64, u64); 6] {
    [
        REGION.whole(),
        REGION.stack(),
        REGION.communicate_page(),
        REGION.service_page(),
        REGION.pool(),
        REGION.reserve(),
    ]
    .map(|part| (part.base, part.length))
}

#[test]
fn parts_of_a_region(rt: HostRuntime) {
    let expected = [
        (0x8000_0000, 0x2_7000),
        (0x8000_1000, 0x4000),
        (0x8000_5000, 0x1000),
        (0x8000_6000, 0x1000),
        (0x8000_7000, 0x1_0000),
        (0x8001_7000, 0x1_0000),
    ];
    assert_eq!(rt; parts(), expected);
    assert_eq!(rt;
        (pages_for(0), pages_for(1), pages_for(4096), pages_for(4097)),
        (0, 1, 1, 2)
    );
}

#[test]
fn places_of_services(rt: HostRuntime) {
    assert_eq!(rt;
        (service_slot(0), service_slot(9), service_slot(19)),
        (0, 72, 152)
    );
    assert_eq!(rt;
        (service_entry(0x8000_6000, 0), service_entry(0x8000_6000, 9)),
        (0x8000_6100, 0x8000_6190)
    );
    assert_eq!(rt; Service::of_number(12), Some(Service::IoRead));
    assert_eq!(rt; Service::of_number(20), None);
}

#[test]
fn rights_as_bits(rt: HostRuntime) {
    assert_eq!(rt;
        (Right::Read.bit(), Right::Write.bit(), Right::Execute.bit()),
        (1, 2, 4)
    );
    assert_eq!(rt;
        (Right::Write.is_among(5), Right::Execute.is_among(5)),
        (false, true)
    );
}

#[test]
fn checks_one_thing(rt: HostRuntime) {
    let fault = PeFault {
        at: 60,
        kind: PeKind::Lfanew,
    };
    assert_eq!(rt;
        (check(true, fault), check(false, fault)),
        (Ok(()), Err(fault))
    );
}
