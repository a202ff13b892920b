//! What images hold: blocks of their pools, and pages of their reserves.
ghost use Rattle.std.specs.Prelude.{◌≡◌, ◌<◌, ◌≤◌, ◌-◌, ◌+◌, ◌*◌, length};
ghost use Rattle.mm_base.specs.Bus.{Answers};
ghost use Rattle.mm_base.specs.Regions.{reserve_of};
ghost use Rattle.supervisor_calls.specs.Holdings.{next_block, is_live_at, next_run, are_taken_at};
ghost use Rattle.supervisor_calls.specs.HoldingsInside.{block_taken, block_freed, run_taken, run_given, pool_at, reserve_at, region_at};
ghost use Rattle.supervisor_calls.specs.Services.{region_in};

use crate::domain::Domain;
use crate::tables::Tables;
use mm_base::{Frames, MMRAM, PAGE_BYTES, RESERVE_PAGES, Region};
use page_runs::RunMap;

/// Whether `pages` pages of a reserve that begins at a base begin at an address, and all of them are taken.
fn has_taken(reserve: &RunMap, base: u64, address: u64, pages: u64) -> bool
    ensures { result ≡ are_taken_at base reserve.now address pages }
{
    if address < base || (address - base) % PAGE_BYTES as u64 != 0 {
        return false;
    }
    let start = (address - base) / PAGE_BYTES as u64;
    let most = reserve.pages() as u64;
    if most < start || most < pages {
        return false;
    }
    reserve.all_taken(start as u32, pages as u32)
}

impl<F: Frames> Tables<F> {
    /// Makes the next block of an image's pool for `n` bytes live, and answers its place; None where there is none.
    pub(crate) fn take_block(&mut self, image: u32, n: u64) -> Option<u32>
        requires there { image < length self.old.site.images }
        requires some { 1 ≤ n }
        ensures { Answers (block_taken image (next_block (pool_at image self.old) n) self.old) result self.new }
    {
        self.pools[image as usize].alloc(n)
    }

    /// Frees the block of an image's pool that begins at an address, and answers whether there is one. The pool begins at a base.
    pub(crate) fn free_block(&mut self, image: u32, base: u64, address: u64) -> bool
        requires there { image < length self.old.site.images }
        ensures { Answers (block_freed image (address - base) (is_live_at base (pool_at image self.old) address) self.old)
            result self.new }
    {
        if address < base {
            return false;
        }
        self.pools[image as usize].free(address - base).is_ok()
    }

    /// Takes the lowest run of `pages` free pages of an image's reserve, and answers its first page; None where there is none.
    pub(crate) fn take_run(&mut self, image: u32, pages: u64) -> Option<u32>
        requires there { image < length self.old.site.images }
        requires some { 1 ≤ pages }
        ensures { Answers (run_taken image pages (next_run (reserve_at image self.old) pages) self.old) result self.new }
    {
        self.keeps();
        if pages > RESERVE_PAGES as u64 {
            return None;
        }
        self.reserves[image as usize].take(pages as u32)
    }

    /// Clears `pages` pages of an image's reserve from an address on, and gives them back, where all of them are taken. It answers
    /// whether they are. The reserve begins at a base.
    pub(crate) fn give_run(&mut self, image: u32, base: u64, address: u64, pages: u64) -> bool
        requires there { image < length self.old.site.images }
        requires region { base ≡ (reserve_of (region_at image self.old)).base }
        ensures { Answers
            (run_given image base address pages (are_taken_at base (reserve_at image self.old) address pages) self.old)
            result self.new }
    {
        self.keeps();
        if !has_taken(&self.reserves[image as usize], base, address, pages) {
            return false;
        }
        let start = (address - base) / PAGE_BYTES as u64;
        self.reserves[image as usize].give(start as u32, pages as u32);
        self.memory
            .clear((address - MMRAM.base) as u32, PAGE_BYTES * pages as u32);
        true
    }
}

impl<F: Frames> Domain<F> {
    /// The region of the image.
    pub(crate) fn region(&self) -> Region
        ensures value { result ≡ region_in self.now }
        ensures within { result.base + 4096 * (result.pages + 38) ≤ 0x82000000 }
    {
        self.tables.keeps();
        Region {
            base: self.tables.images.base(self.image),
            pages: self.tables.images.pages(self.image),
        }
    }
}
