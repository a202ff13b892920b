//! Places that were worked out by hand from the rule, and thousands of calls beside a plain list of blocks.
ghost use Rattle.std.specs.Prelude.{◌<◌, ◌≤◌};

use crate::{NotLive, PoolTree};
use mm_base::NoMemory;
use std::alloc::Global;
use std::test::Fail;

/// A call, and what it answers.
#[derive(Clone, Copy)]
enum Call {
    Alloc(u64, Option<u64>),
    Free(u64, bool),
}

use Call::{Alloc, Free};

/// Calls on one arena, in order.
const CALLS: [Call; 19] = [
    Alloc(40, Some(0)),
    Alloc(40, Some(64)),
    Alloc(40, Some(128)),
    Free(64, true),
    Alloc(64, Some(64)),
    Alloc(4000, Some(4096)),
    Free(4096, true),
    Free(4096, false),
    Alloc(65_537, None),
    Alloc(65_536, None),
    Free(65, false),
    Free(96, false),
    Free(160, false),
    Free(65_536, false),
    Free(0xffff_ffff_ffff_ffff, false),
    Free(0, true),
    Free(128, true),
    Free(64, true),
    Alloc(65_536, Some(0)),
];

/// In a new arena: a count of bytes, its place, and the place of one byte more.
const SIZES: [(u64, Option<u64>, Option<u64>); 8] = [
    (1, Some(0), Some(32)),
    (31, Some(0), Some(32)),
    (32, Some(0), Some(32)),
    (33, Some(0), Some(64)),
    (65_535, Some(0), None),
    (65_536, Some(0), None),
    (65_537, None, Some(0)),
    (0xffff_ffff_ffff_ffff, None, Some(0)),
];

fn alloc(pool: &mut PoolTree, n: u64) -> Option<u64> {
    if n == 0 {
        return None;
    }
    pool.alloc(n).map(u64::from)
}

fn free(pool: &mut PoolTree, place: u64) -> bool {
    match pool.free(place) {
        Ok(()) => true,
        Err(NotLive) => false,
    }
}

fn answers(pool: &mut PoolTree, call: Call) -> bool {
    match call {
        Alloc(n, place) => alloc(pool, n) == place,
        Free(place, freed) => free(pool, place) == freed,
    }
}

/// How many calls answer as they should, up to the first that doesn't.
fn right_calls(alloc: Global, calls: &[Call]) -> Result<usize, NoMemory> {
    let mut pool = PoolTree::new(alloc)?;
    for (i, call) in calls.iter().enumerate() {
        if !answers(&mut pool, *call) {
            return Ok(i);
        }
    }
    Ok(calls.len())
}

#[test]
fn calls_in_order(rt: HostRuntime) -> Result<(), Fail> {
    let right = right_calls(rt.alloc(), &CALLS)?;
    assert_eq!(rt; right, CALLS.len());
    Ok(())
}

fn two_places(memory: Global, n: u64) -> Result<(Option<u64>, Option<u64>), NoMemory> {
    let mut pool = PoolTree::new(memory)?;
    let first = alloc(&mut pool, n);
    let second = alloc(&mut pool, 1);
    Ok((first, second))
}

#[test]
fn sizes_of_blocks(rt: HostRuntime) -> Result<(), Fail> {
    for (n, first, second) in SIZES {
        let places = two_places(rt.alloc(), n)?;
        assert_eq!(rt; places, (first, second), "{n}");
    }
    Ok(())
}

fn fills(pool: &mut PoolTree) -> bool {
    for i in 0..2048u64 {
        if alloc(pool, 32) != Some(32 * i) {
            return false;
        }
    }
    alloc(pool, 1).is_none()
}

/// Frees all blocks of 32 bytes, each 769 blocks after the one before, round the arena.
fn empties(pool: &mut PoolTree) -> bool {
    let mut i = 0u64;
    for _ in 0..2048u64 {
        if !free(pool, 32 * (i % 2048)) {
            return false;
        }
        i = (i % 2048) + 769;
    }
    true
}

#[test]
fn fills_and_empties(rt: HostRuntime) -> Result<(), Fail> {
    let mut pool = PoolTree::new(rt.alloc())?;
    let full = fills(&mut pool);
    let empty = empties(&mut pool);
    let whole = alloc(&mut pool, 65_536);
    assert_eq!(rt; (full, empty, whole), (true, true, Some(0)));
    Ok(())
}

/// The sizes of blocks.
const POWERS: [u64; 12] = [
    32, 64, 128, 256, 512, 1024, 2048, 4096, 8192, 16_384, 32_768, 65_536,
];

/// The most bytes that an `alloc` asks for, by turns.
const LIMITS: [u64; 8] = [16, 32, 40, 64, 100, 600, 5000, 30_000];

/// Places and sizes of live blocks, in no order.
#[derive(Drop)]
struct Plain {
    live: Vec<(u64, u64)>,
}

impl Plain {
    fn is_free(&self, place: u64, size: u64) -> bool {
        let end = place.saturating_add(size);
        self.live.iter().all(|(at, long)| end <= *at || at.saturating_add(*long) <= place)
    }

    fn lowest(&self, size: u64) -> Option<u64>
        requires { 32 ≤ size }
    {
        let mut place = 0u64;
        for _ in 0..2048u64 {
            if place >= 65_536 {
                return None;
            }
            if self.is_free(place, size) {
                return Some(place);
            }
            place = place.saturating_add(size);
        }
        None
    }

    fn alloc(&mut self, n: u64) -> Result<Option<u64>, NoMemory> {
        for size in POWERS {
            if n <= size && size >= 32 {
                let found = self.lowest(size);
                if let Some(place) = found {
                    self.live.push((place, size))?;
                }
                return Ok(found);
            }
        }
        Ok(None)
    }

    fn free(&mut self, place: u64) -> bool {
        for i in 0..self.live.len() {
            if self.live[i].0 == place {
                self.live.swap_remove(i);
                return true;
            }
        }
        false
    }

    /// The place of the block of a number round the list, or the number itself where there is none.
    fn place_at(&self, number: u64) -> u64 {
        let count = self.live.len();
        if count == 0 {
            return number;
        }
        self.live[number as usize % count].0
    }
}

/// Numbers of a linear congruential generator.
#[derive(Drop)]
struct Numbers(u64);

impl Numbers {
    fn draw(&mut self, below: u64) -> u64
        requires { 0 < below }
    {
        self.0 = self
            .0
            .wrapping_mul(6_364_136_223_846_793_005)
            .wrapping_add(1_442_695_040_888_963_407);
        (self.0 >> 33) % below
    }
}

/// One call on both: three of eight free a live block, one an address that may be none.
fn agree(pool: &mut PoolTree, plain: &mut Plain, numbers: &mut Numbers) -> Result<bool, NoMemory> {
    let kind = numbers.draw(8);
    let number = numbers.draw(70_000);
    if kind < 4 {
        let n = 1 + number % LIMITS[(number % 8) as usize].max(1);
        return Ok(alloc(pool, n) == plain.alloc(n)?);
    }
    let place = if kind < 7 {
        plain.place_at(number)
    } else {
        number
    };
    Ok(free(pool, place) == plain.free(place))
}

/// How many calls answer alike, up to the first that doesn't.
fn alike(memory: Global, seed: u64) -> Result<u32, NoMemory> {
    let mut pool = PoolTree::new(memory)?;
    let mut plain = Plain {
        live: Vec::new(memory),
    };
    let mut numbers = Numbers(seed);
    for i in 0..2000u32 {
        if !agree(&mut pool, &mut plain, &mut numbers)? {
            return Ok(i);
        }
    }
    Ok(2000)
}

#[test]
fn beside_a_plain_list(rt: HostRuntime) -> Result<(), Fail> {
    for seed in [1, 2, 0x1234_5678] {
        let count = alike(rt.alloc(), seed)?;
        assert_eq!(rt; count, 2000, "seed {seed}");
    }
    Ok(())
}
