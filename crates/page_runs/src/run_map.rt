//! Which pages are taken, one flag a page: the plain form, which answers by one pass over the flags.
ghost use Rattle.std.specs.Prelude.{◌≡◌, ◌↔◌, ◌+◌, ◌^◌, ◌<◌, ◌≤◌, true, false, None, length, replicate, IsTrue, IfOk, IfSome, IfNone};
ghost use Rattle.page_runs.specs.Runs.{IsLowestRun, HasNoRun, AreTaken, with_run};

use mm_base::NoMemory;
use std::alloc::Global;
use std::marker::Model;

/// Pages by number, each of them taken or free. Contracts see it as the list of its flags: for each page whether it is taken.
#[derive(Debug, Drop)]
pub struct RunMap {
    taken: Vec<bool>,
}

impl Model for RunMap {
    ghost use Rattle.std.specs.Prelude.{ℕ, ◌^◌, ◌<◌, List, Bool, length};

    ghost Value = { List Bool };

    ghost view = { λ map. map.taken.items };

    ghost invariant = { λ map. length map.taken.items < 2 ^ 32 };
}

impl RunMap {
    /// Pages 0 to `pages` - 1, all free. It takes all the memory that it will ever need, a byte a page, and costs one step a
    /// page.
    pub fn new(alloc: Global, pages: u32) -> Result<RunMap, NoMemory>
        ensures { IfOk result (λ map. map ≡ replicate pages false) }
    {
        let taken = vec![in alloc; false; pages as usize]?;
        Ok(RunMap { taken })
    }

    /// How many pages there are, taken and free.
    pub fn pages(&self) -> u32
        ensures { result ≡ length self.now }
    {
        self.taken.len() as u32
    }

    /// Takes the lowest free run of `pages` pages and tells its first page. Where there is no such run it answers `None`, and
    /// nothing changes. It takes no memory, and passes over the pages once.
    pub fn take(&mut self, pages: u32) -> Option<u32>
        requires { 1 ≤ pages }
        ensures lowest { IfSome result (IsLowestRun self.old pages) }
        ensures taken { IfSome result (λ start. self.new ≡ with_run true start pages self.old) }
        ensures none { (result ≡ None) ↔ HasNoRun self.old pages }
        ensures unchanged { IfNone result (self.new ≡ self.old) }
    {
        let start = lowest_run(self.taken.as_slice(), pages as usize)?;
        mark(self.taken.as_mut_slice(), start, pages as usize, true);
        Some(start as u32)
    }

    /// Gives `pages` pages from `start` on back, all of which are taken. It takes no memory, and costs one step a page given.
    pub fn give(&mut self, start: u32, pages: u32)
        requires { AreTaken self.old start pages }
        ensures { self.new ≡ with_run false start pages self.old }
    {
        let start = start as usize;
        mark(self.taken.as_mut_slice(), start, pages as usize, false);
    }

    /// Whether `pages` pages from `start` on are there and all taken: the test of what `give` requires. It costs at most one
    /// step a page.
    pub fn all_taken(&self, start: u32, pages: u32) -> bool
        ensures { IsTrue result ↔ AreTaken self.now start pages }
    {
        all_set(self.taken.as_slice(), start as usize, pages as usize)
    }
}

/// The start of the lowest free run of `pages` pages, by one pass: `start` is where the free pages before `page` begin.
fn lowest_run(taken: &[bool], pages: usize) -> Option<usize>
    requires { 1 ≤ pages }
    ensures lowest { IfSome result (IsLowestRun taken.now pages) }
    ensures none { IfNone result (HasNoRun taken.now pages) }
{
    let mut start = 0;
    for (page, is_taken) in taken.iter().enumerate() {
        if *is_taken {
            start = page + 1;
        } else if page + 1 - start == pages {
            return Some(start);
        }
    }
    None
}

/// Makes `pages` pages from `start` on taken, or free.
fn mark(taken: &mut [bool], start: usize, pages: usize, value: bool)
    requires { start + pages ≤ length taken.old }
    ensures { taken.new ≡ with_run value start pages taken.old }
{
    taken[start..start + pages].fill(value);
}

/// Whether `pages` pages from `start` on are there and all taken.
fn all_set(taken: &[bool], start: usize, pages: usize) -> bool
    requires { start + pages < 2 ^ 64 }
    ensures { IsTrue result ↔ AreTaken taken.now start pages }
{
    let end = start + pages;
    end <= taken.len() && taken[start..end].iter().all(|is_taken| *is_taken)
}
