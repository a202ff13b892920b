//! The region of an image in management-mode memory.
ghost use Rattle.std.specs.Prelude.{◌≡◌, ◌+◌, ◌≤◌};
ghost use Rattle.mm_base.specs.Regions.{pages_filled, pages_of, region_of, stack_of, communicate_page_of, service_page_of, pool_of, reserve_of, IsAddressable};

use crate::Range;
use crate::platform::PAGE_BYTES;

/// How many pages of a region come after the image's own, in this order.
pub const STACK_PAGES: u32 = 4;

pub const COMMUNICATE_PAGES: u32 = 1;

pub const SERVICE_PAGES: u32 = 1;

pub const POOL_PAGES: u32 = 16;

pub const RESERVE_PAGES: u32 = 16;

/// Which of these pages is the first of each part.
const COMMUNICATE: u32 = STACK_PAGES;

const SERVICE: u32 = COMMUNICATE + COMMUNICATE_PAGES;

const POOL: u32 = SERVICE + SERVICE_PAGES;

const RESERVE: u32 = POOL + POOL_PAGES;

/// How many they are.
pub const EXTRA_PAGES: u32 = RESERVE + RESERVE_PAGES;

/// The region of an image: where it begins, and how many pages the image itself fills.
#[derive(Clone, Copy, Debug, PartialEq, Eq)]
pub struct Region {
    pub base: u64,
    pub pages: u32,
}

/// How many pages `bytes` bytes fill.
pub fn pages_for(bytes: u32) -> u32
    ensures { result ≡ pages_filled bytes }
{
    bytes.div_ceil(PAGE_BYTES)
}

impl Region {
    /// All its pages.
    pub fn whole(&self) -> Range
        requires { IsAddressable self.now }
        ensures { result ≡ region_of self.now }
    {
        Range {
            base: self.base,
            length: PAGE_BYTES as u64 * (self.pages as u64 + EXTRA_PAGES as u64),
        }
    }

    /// The stack.
    pub fn stack(&self) -> Range
        requires { IsAddressable self.now }
        ensures { result ≡ stack_of self.now }
    {
        self.part(0, STACK_PAGES)
    }

    /// The page of the size cell and the communicate buffer.
    pub fn communicate_page(&self) -> Range
        requires { IsAddressable self.now }
        ensures { result ≡ communicate_page_of self.now }
    {
        self.part(COMMUNICATE, COMMUNICATE_PAGES)
    }

    /// The page with the addresses of the services.
    pub fn service_page(&self) -> Range
        requires { IsAddressable self.now }
        ensures { result ≡ service_page_of self.now }
    {
        self.part(SERVICE, SERVICE_PAGES)
    }

    /// The arena of its pool.
    pub fn pool(&self) -> Range
        requires { IsAddressable self.now }
        ensures { result ≡ pool_of self.now }
    {
        self.part(POOL, POOL_PAGES)
    }

    /// The pages that it may allocate.
    pub fn reserve(&self) -> Range
        requires { IsAddressable self.now }
        ensures { result ≡ reserve_of self.now }
    {
        self.part(RESERVE, RESERVE_PAGES)
    }

    /// `count` pages from page `first` on, counted from the end of the image's own.
    fn part(&self, first: u32, count: u32) -> Range
        requires region { IsAddressable self.now }
        requires some { 1 ≤ count }
        requires within { first + count ≤ 38 }
        ensures { result ≡ pages_of self.now (self.now.pages + first) count }
    {
        let page = PAGE_BYTES as u64;
        Range {
            base: self.base + page * (self.pages as u64 + first as u64),
            length: page * count as u64,
        }
    }
}
