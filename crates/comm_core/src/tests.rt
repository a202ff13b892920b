ghost use Rattle.std.specs.Prelude.{◌≡◌, ◌≤◌, ◌<◌, ◌+◌, if◌then◌else◌, nat_le, true, replicate, refl, IfOk};
ghost use Rattle.comm_core.specs.TestMachine.{clipped};
ghost use Rattle.comm_core.specs.WorldReadiness.{IsOfWorld};
ghost use Rattle.std.proofs.Common.{arith, ◌-◌, length};
ghost use Rattle.std.proofs.lemmas.List.{length-take};

use crate::{Event, Trace, World};
use mm_base::{
    Entry, Guid, List, Machine, NoMemory, Outcome, OutcomeRooms, Prepared, Saved, Shape,
};
use std::alloc::Global;
use std::process::Abort;
use std::test::Fail;

/// It replies with all bytes of the request but the last one, and its status is how many bytes the request has.
#[derive(Drop)]
struct Clipper;

impl Machine for Clipper {
    ghost stepped = { λ machine request. (clipped request, machine) };

    ghost most_calls = { λ machine. 0 };

    fn calls(&self) -> u32 {
        0
    }

    fn step(&mut self, prepared: &mut Prepared) {
        let OutcomeRooms {
            mut reply,
            chain,
            root,
            blanks: _,
        } = prepared.rooms();
        let bytes = prepared.entry().request.bytes.as_slice();
        let len = bytes.len();
        reply.extend(&bytes[..len.saturating_sub(1)]);
        prepared.finish(Outcome {
            shape: shape_of(len),
            status: len as u64,
            reply: reply.into_list(),
            chain: chain.into_list(),
            root: root.into_list(),
        });
    }

    ghost calls_stay = { λ machine request. refl };

    ghost within = { λ machine request. record {
      calls = Prim.omega arith;
      chain = λ k d h. absurd (Prim.omega (arith, h));
      root = λ k d h. absurd (Prim.omega (arith, h));
      reply = Prim.omega (arith, length-take (length request.bytes - 1) request.bytes);
    } };
}

fn shape_of(len: usize) -> Shape
    ensures { result ≡ (if nat_le 24 len then Shape.Dispatched (record { 0 = replicate 16 0 }) else Shape.BadLength) }
{
    if 24 <= len {
        Shape::Dispatched(Guid([0; 16]))
    } else {
        Shape::BadLength
    }
}

/// Whether an event is of a world of `lanes` lanes of `words` data words.
fn is_there(lanes: u32, words: u32, event: &Event) -> bool
    requires { words ≤ 512 }
    ensures { result ≡ true → IsOfWorld lanes words event.now }
{
    match *event {
        Event::Ring { lane, saved: _ } => lane < lanes,
        Event::Poke {
            lane,
            word,
            value: _,
        } => lane < lanes && word < words + 2,
        Event::Steps { lane, count: _ } => lane < lanes,
        Event::Run { lane } => lane < lanes,
    }
}

/// The world after these events.
fn world_after(
    rt: &impl Abort,
    alloc: Global,
    lanes: u32,
    words: u32,
    events: &[Event],
) -> Result<World<Clipper>, NoMemory>
    requires some { 1 ≤ lanes }
    requires few { lanes ≤ 16 }
    requires low { 3 ≤ words }
    requires high { words ≤ 512 }
    ensures words { IfOk result (λ world. world.words ≡ words) }
    ensures lanes { IfOk result (λ world. length world.lanes ≡ lanes) }
{
    let mut world = World::new(alloc, Clipper, lanes, words)?;
    for event in events {
        assert!(rt; is_there(lanes, words, event));
        assert!(rt; world.entries().len() < 1 << 32);
        world.event(event)?;
    }
    Ok(world)
}

const FIRST: Saved = Saved([1; 19]);

const SECOND: Saved = Saved([2; 19]);

const ONE: u64 = 0x0807_0605_0403_0201;

const TWO: u64 = 0x100f_0e0d_0c0b_0a09;

const THREE: u64 = 0x1817_1615_1413_1211;

// The length and a data word are rewritten once they are loaded, and a ring away from rest does nothing.
fn hostile(alloc: Global) -> Result<List<Event>, NoMemory> {
    let events = [
        Event::Poke {
            lane: 0,
            word: 2,
            value: ONE,
        },
        Event::Poke {
            lane: 0,
            word: 3,
            value: TWO,
        },
        Event::Poke {
            lane: 0,
            word: 4,
            value: THREE,
        },
        Event::Poke {
            lane: 0,
            word: 0,
            value: 24,
        },
        Event::Ring {
            lane: 0,
            saved: FIRST,
        },
        Event::Steps { lane: 0, count: 1 },
        Event::Poke {
            lane: 0,
            word: 0,
            value: 25,
        },
        Event::Ring {
            lane: 0,
            saved: SECOND,
        },
        Event::Steps { lane: 0, count: 1 },
        Event::Poke {
            lane: 0,
            word: 2,
            value: u64::MAX,
        },
        Event::Run { lane: 0 },
        Event::Steps { lane: 0, count: 3 },
    ];
    List::from_slice(alloc, &events)
}

// The reply has 23 bytes, so its last word ends in a zero; the status is 24.
fn records() -> [Trace; 16] {
    [
        Trace::Poked(0, 2, ONE),
        Trace::Poked(0, 3, TWO),
        Trace::Poked(0, 4, THREE),
        Trace::Poked(0, 0, 24),
        Trace::Loaded(0, 0, 24),
        Trace::Poked(0, 0, 25),
        Trace::Loaded(0, 2, ONE),
        Trace::Poked(0, 2, u64::MAX),
        Trace::Loaded(0, 3, TWO),
        Trace::Loaded(0, 4, THREE),
        Trace::Turned(0, 0),
        Trace::Stored(0, 2, ONE),
        Trace::Stored(0, 3, TWO),
        Trace::Stored(0, 4, 0x0017_1615_1413_1211),
        Trace::Stored(0, 0, 23),
        Trace::Stored(0, 1, 24),
    ]
}

/// Whether these are the records of the hostile events.
fn are_records(trace: &[Trace]) -> bool {
    trace == records().as_slice()
}

fn word_is(world: &World<Clipper>, word: u32, value: u64) -> bool
    requires lane { 0 < length world.now.lanes }
    requires word { word < world.now.words + 2 }
{
    world.word(0, word) == value
}

/// Whether the request has the length and the registers that were captured first.
fn is_first(entry: &Entry) -> bool {
    entry.request.length == 24 && entry.request.bytes.len() == 24 && entry.request.saved == FIRST
}

fn has_first(world: &World<Clipper>) -> bool {
    match world.entries().get(0) {
        Some(entry) => is_first(entry),
        None => false,
    }
}

/// The world after the hostile events.
fn hostile_world(rt: &impl Abort, alloc: Global) -> Result<World<Clipper>, NoMemory>
    ensures words { IfOk result (λ world. world.words ≡ 3) }
    ensures lanes { IfOk result (λ world. length world.lanes ≡ 1) }
{
    let events = hostile(alloc)?;
    world_after(rt, alloc, 1, 3, events.as_slice())
}

fn try_hostile(rt: &impl Abort, world: &World<Clipper>)
    requires words { world.now.words ≡ 3 }
    requires lanes { length world.now.lanes ≡ 1 }
{
    assert!(rt; are_records(world.trace()));
    assert!(rt; word_is(world, 0, 23));
    assert!(rt; word_is(world, 1, 24));
    assert!(rt; word_is(world, 2, ONE));
    assert!(rt; word_is(world, 3, TWO));
    assert!(rt; word_is(world, 4, 0x0017_1615_1413_1211));
    assert!(rt; world.entries().len() == 1);
    assert!(rt; has_first(world));
}

#[test]
fn captures_what_it_loaded(rt: HostRuntime) -> Result<(), Fail> {
    let world = hostile_world(&rt, rt.alloc())?;
    try_hostile(&rt, &world);
    Ok(())
}

fn poke(lane: u32, word: u32, value: u64) -> Event {
    Event::Poke { lane, word, value }
}

fn steps(lane: u32, count: u32) -> Event {
    Event::Steps { lane, count }
}

// The processors of two lanes take turns, and words of each lane are rewritten while the other one's request is
// captured: those that were loaded before change nothing, and those that are still to be loaded do. Lane 1 has its turn
// first.
fn interleaved(alloc: Global) -> Result<List<Event>, NoMemory> {
    let events = [
        poke(0, 2, ONE),
        poke(0, 3, TWO),
        poke(0, 4, THREE),
        poke(0, 0, 24),
        poke(1, 2, THREE),
        poke(1, 3, ONE),
        poke(1, 4, TWO),
        poke(1, 0, 24),
        Event::Ring {
            lane: 0,
            saved: FIRST,
        },
        Event::Ring {
            lane: 1,
            saved: SECOND,
        },
        steps(0, 2),
        poke(1, 3, u64::MAX),
        steps(1, 1),
        poke(0, 2, u64::MAX),
        poke(0, 4, ONE),
        steps(1, 3),
        poke(1, 2, 5),
        steps(1, 1),
        steps(0, 3),
        steps(0, 1),
        steps(1, 2),
        poke(1, 3, 7),
        Event::Run { lane: 0 },
        Event::Run { lane: 1 },
    ];
    List::from_slice(alloc, &events)
}

// Lane 1's request is THREE, MAX and TWO, and lane 0's is ONE, TWO and ONE. Each reply lacks the last byte.
fn interleaved_records() -> [Trace; 33] {
    [
        Trace::Poked(0, 2, ONE),
        Trace::Poked(0, 3, TWO),
        Trace::Poked(0, 4, THREE),
        Trace::Poked(0, 0, 24),
        Trace::Poked(1, 2, THREE),
        Trace::Poked(1, 3, ONE),
        Trace::Poked(1, 4, TWO),
        Trace::Poked(1, 0, 24),
        Trace::Loaded(0, 0, 24),
        Trace::Loaded(0, 2, ONE),
        Trace::Poked(1, 3, u64::MAX),
        Trace::Loaded(1, 0, 24),
        Trace::Poked(0, 2, u64::MAX),
        Trace::Poked(0, 4, ONE),
        Trace::Loaded(1, 2, THREE),
        Trace::Loaded(1, 3, u64::MAX),
        Trace::Loaded(1, 4, TWO),
        Trace::Poked(1, 2, 5),
        Trace::Turned(1, 0),
        Trace::Loaded(0, 3, TWO),
        Trace::Loaded(0, 4, ONE),
        Trace::Turned(0, 1),
        Trace::Stored(0, 2, ONE),
        Trace::Stored(1, 2, THREE),
        Trace::Stored(1, 3, u64::MAX),
        Trace::Poked(1, 3, 7),
        Trace::Stored(0, 3, TWO),
        Trace::Stored(0, 4, 0x0007_0605_0403_0201),
        Trace::Stored(0, 0, 23),
        Trace::Stored(0, 1, 24),
        Trace::Stored(1, 4, 0x000f_0e0d_0c0b_0a09),
        Trace::Stored(1, 0, 23),
        Trace::Stored(1, 1, 24),
    ]
}

fn are_interleaved(trace: &[Trace]) -> bool {
    trace == interleaved_records().as_slice()
}

/// Whether a lane has these words.
fn lane_is(world: &World<Clipper>, lane: u32, values: &[u64]) -> bool
    requires { lane < length world.now.lanes }
{
    world.lane(lane) == values
}

/// Whether the entry at this place is of this lane, and has these registers and 24 bytes, those from 8 on this word.
fn entry_is(world: &World<Clipper>, place: u64, lane: u32, saved: Saved, second: u64) -> bool {
    match world.entries().get(place) {
        Some(entry) => is_asked(entry, lane, saved, second),
        None => false,
    }
}

fn is_asked(entry: &Entry, lane: u32, saved: Saved, second: u64) -> bool {
    let bytes = entry.request.bytes.as_slice();
    entry.request.lane == lane
        && entry.request.length == 24
        && entry.request.saved == saved
        && bytes.len() == 24
        && &bytes[8..16] == second.to_le_bytes().as_slice()
}

/// The world of two lanes after the interleaved events.
fn interleaved_world(rt: &impl Abort, alloc: Global) -> Result<World<Clipper>, NoMemory>
    ensures { IfOk result (λ world. length world.lanes ≡ 2) }
{
    let events = interleaved(alloc)?;
    world_after(rt, alloc, 2, 3, events.as_slice())
}

fn try_interleaved(rt: &impl Abort, world: &World<Clipper>)
    requires { length world.now.lanes ≡ 2 }
{
    assert!(rt; are_interleaved(world.trace()));
    assert!(rt; lane_is(world, 0, &[23, 24, ONE, TWO, 0x0007_0605_0403_0201]));
    assert!(rt; lane_is(world, 1, &[23, 24, THREE, 7, 0x000f_0e0d_0c0b_0a09]));
    assert!(rt; world.lanes() == 2);
    assert!(rt; world.entries().len() == 2);
    assert!(rt; entry_is(world, 0, 1, SECOND, u64::MAX));
    assert!(rt; entry_is(world, 1, 0, FIRST, TWO));
}

#[test]
fn lanes_take_turns(rt: HostRuntime) -> Result<(), Fail> {
    let world = interleaved_world(&rt, rt.alloc())?;
    try_interleaved(&rt, &world);
    Ok(())
}

fn count_loads(trace: &[Trace]) -> u32 {
    let mut loads = 0u32;
    for record in trace {
        if matches!(record, Trace::Loaded(_, _, _)) {
            loads = loads.saturating_add(1);
        }
    }
    loads
}

// A length word, and how many loads it leads to in a lane of four data words.
fn table() -> [(u64, u32); 11] {
    [
        (0, 1),
        (7, 1),
        (8, 1),
        (22, 1),
        (23, 1),
        (24, 4),
        (25, 5),
        (31, 5),
        (32, 5),
        (33, 1),
        (u64::MAX, 1),
    ]
}

/// How many loads and entries a length word leads to, in a lane of four data words.
fn loads_and_entries(rt: &impl Abort, alloc: Global, length: u64) -> Result<(u32, u64), NoMemory> {
    let events = [
        Event::Poke {
            lane: 0,
            word: 0,
            value: length,
        },
        Event::Ring {
            lane: 0,
            saved: FIRST,
        },
        Event::Run { lane: 0 },
    ];
    let world = world_after(rt, alloc, 1, 4, &events)?;
    Ok((count_loads(world.trace()), world.entries().len()))
}

fn try_lengths(rt: &impl Abort, alloc: Global) -> Result<(), NoMemory> {
    for (length, loads) in table() {
        let found = loads_and_entries(rt, alloc, length)?;
        assert!(rt; found.0 == loads, "at {length}");
        assert!(rt; found.1 == 1, "at {length}");
    }
    Ok(())
}

#[test]
fn loads_what_the_length_needs(rt: HostRuntime) -> Result<(), Fail> {
    try_lengths(&rt, rt.alloc())?;
    Ok(())
}
