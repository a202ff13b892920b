//! Runs over few and over 8,192 pages, edges of `all_taken`, and some thousand steps beside a plain scan.
ghost use Rattle.std.specs.Prelude.{◌<◌};

use crate::RunMap;
use mm_base::NoMemory;
use std::alloc::Global;
use std::test::Fail;

/// The most pages of one call of the steps that are drawn.
const MOST: u64 = 9;

/// Numbers that a seed decides, by the linear congruential generator of Knuth's MMIX.
#[derive(Drop)]
struct Draws(u64);

impl Draws {
    /// The next number below `bound`.
    fn below(&mut self, bound: u64) -> u64
        requires { 0 < bound }
        ensures { result < bound }
    {
        self.0 = self
            .0
            .wrapping_mul(6364136223846793005)
            .wrapping_add(1442695040888963407);
        (self.0 >> 33) % bound
    }
}

/// A map of `pages` free pages. It has no clause, nor have the two below it: so a test is proved without working out its flags.
fn made(alloc: Global, pages: u32) -> Result<RunMap, NoMemory> {
    RunMap::new(alloc, pages)
}

/// What `take` answers.
fn takes(map: &mut RunMap, pages: u32) -> Option<u32>
    requires { 0 < pages }
{
    map.take(pages)
}

/// Gives pages back where all of them are taken, and tells whether they are.
fn gives(map: &mut RunMap, start: u32, pages: u32) -> bool {
    let taken = map.all_taken(start, pages);
    if taken {
        map.give(start, pages);
    }
    taken
}

/// The first of all starts of `pages` free pages, each start looked at by itself.
fn scanned(flags: &[bool], pages: usize) -> Option<usize>
    requires { 0 < pages }
{
    flags
        .windows(pages)
        .position(|run| run.iter().all(|taken| !*taken))
}

fn mark(flags: &mut [bool], start: usize, pages: usize, value: bool) {
    for flag in flags.iter_mut().skip(start).take(pages) {
        *flag = value;
    }
}

/// Takes from both, and tells whether they answer alike.
fn take_alike(map: &mut RunMap, flags: &mut [bool], pages: u32) -> bool
    requires { 0 < pages }
{
    let expected = scanned(flags, pages as usize);
    if let Some(start) = expected {
        mark(flags, start, pages as usize, true);
    }
    takes(map, pages).map(|start| start as usize) == expected
}

/// Gives the pages back to both where all of them are taken, and tells whether both say the same of that.
fn give_alike(map: &mut RunMap, flags: &mut [bool], start: u32, pages: u32) -> bool {
    let (first, count) = (start as usize, pages as usize);
    let there = flags.iter().skip(first).take(count);
    let all = there.filter(|taken| **taken).count() == count;
    if all {
        mark(flags, first, count, false);
    }
    gives(map, start, pages) == all
}

/// One step that is drawn: takes, or gives.
fn step_alike(map: &mut RunMap, flags: &mut [bool], draws: &mut Draws) -> bool {
    let pages = 1 + draws.below(MOST) as u32;
    if draws.below(2) == 0 {
        take_alike(map, flags, pages)
    } else {
        let start = draws.below(128) as u32;
        give_alike(map, flags, start, pages)
    }
}

/// Whether a run map of `pages` pages and a plain scan answer alike at each of `steps` steps.
fn run_alike(alloc: Global, pages: u32, seed: u64, steps: u32) -> Result<bool, NoMemory> {
    let mut map = made(alloc, pages)?;
    let mut flags = vec![in alloc; false; pages as usize]?;
    let mut draws = Draws(seed);
    for _ in 0..steps {
        if !step_alike(&mut map, flags.as_mut_slice(), &mut draws) {
            return Ok(false);
        }
    }
    Ok(true)
}

/// All pages taken at once, given back in pieces, the later ones first, and taken at once again.
fn goes_round(map: &mut RunMap, pieces: u32, piece: u32) -> bool
    requires few { pieces < 100 }
    requires small { piece < 1000 }
    requires some { 0 < pieces }
    requires not_empty { 0 < piece }
{
    let all = pieces * piece;
    let first = takes(map, all) == Some(0) && takes(map, 1).is_none();
    for before in 0..pieces {
        let start = (pieces - 1 - before) * piece;
        if !gives(map, start, piece) || gives(map, start, piece) {
            return false;
        }
    }
    first && takes(map, all) == Some(0)
}

/// Of 8 pages, of which only page 3 is free: a start, how many pages, and whether all of them are taken.
const EDGES: &[(u32, u32, bool)] = &[
    (0, 3, true),
    (0, 4, false),
    (2, 2, false),
    (3, 0, true),
    (3, 1, false),
    (4, 4, true),
    (4, 5, false),
    (7, 1, true),
    (7, 2, false),
    (8, 0, true),
    (8, 1, false),
    (9, 0, false),
    (4, 0xffff_ffff, false),
    (4, 0xffff_fffc, false),
    (0xffff_ffff, 1, false),
    (0xffff_ffff, 6, false),
    (0xffff_ffff, 0xffff_ffff, false),
];

/// The start and pages of the first case of which `all_taken` says otherwise.
fn first_wrong(map: &RunMap, cases: &[(u32, u32, bool)]) -> Option<(u32, u32)> {
    for (start, pages, taken) in cases {
        if map.all_taken(*start, *pages) != *taken {
            return Some((*start, *pages));
        }
    }
    None
}

#[test]
fn lowest_runs_of_eight_pages(rt: HostRuntime) -> Result<(), Fail> {
    let mut map = made(rt.alloc(), 8)?;
    let before = (takes(&mut map, 3), takes(&mut map, 2));
    let gave = gives(&mut map, 0, 3);
    let after = (takes(&mut map, 4), takes(&mut map, 3));
    assert_eq!(rt;
        (before, gave, after),
        ((Some(0), Some(3)), true, (None, Some(0)))
    );
    Ok(())
}

#[test]
fn all_pages_go_round(rt: HostRuntime) -> Result<(), Fail> {
    let mut map = made(rt.alloc(), 8192)?;
    assert!(rt; goes_round(&mut map, 16, 512));
    Ok(())
}

#[test]
fn all_taken_at_the_edges(rt: HostRuntime) -> Result<(), Fail> {
    let mut map = made(rt.alloc(), 8)?;
    let made_so = (map.pages(), takes(&mut map, 8), gives(&mut map, 3, 1));
    assert_eq!(rt; made_so, (8, Some(0), true));
    assert_eq!(rt; first_wrong(&map, EDGES), None);
    let none = made(rt.alloc(), 0)?;
    assert_eq!(rt;
        (
            none.pages(),
            first_wrong(&none, &[(0, 0, true), (0, 1, false)])
        ),
        (0, None)
    );
    Ok(())
}

#[test]
fn as_a_plain_scan(rt: HostRuntime) -> Result<(), Fail> {
    for (pages, seed) in [(8, 1), (61, 2), (128, 3), (200, 4)] {
        assert!(rt;
            run_alike(rt.alloc(), pages, seed, 1500)?,
            "{pages} pages, seed {seed}"
        );
    }
    Ok(())
}
