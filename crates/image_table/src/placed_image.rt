//! An image in memory, and what of memory is its own.
ghost use Rattle.std.specs.Prelude.{◌≡◌, ◌^◌, ◌<◌, ◌≤◌, length, map, slice_get};
ghost use Rattle.std.specs.List.{list_any};
ghost use Rattle.mm_base.specs.Regions.{IsAddressable};
ghost use Rattle.image_table.specs.HomeRanges.{IsPlaced, grants, header_home, home_ranges, is_own, page_homes, section_home};

use mm_base::{Guid, List, Part, Range, Region, Right};

/// The bits of a set of rights.
const READ: u8 = 1;

const READ_AND_WRITE: u8 = 3;

/// How many home ranges an image has beside its sections: its headers, and five past its own pages.
const HEADERS_AND_PAGES: u32 = 6;

/// An image in memory: its name, its region, how many bytes its headers have, and those of its sections that have bytes, by
/// rising address.
#[derive(Debug, Drop)]
pub struct PlacedImage {
    pub name: Guid,
    pub region: Region,
    pub headers: u32,
    pub sections: List<Part>,
}

impl PlacedImage {
    /// How many home ranges it has. It costs one step.
    pub fn ranges(&self) -> u32
        requires { IsPlaced self.now }
        ensures value { result ≡ length (home_ranges self.now) }
        ensures most { length (home_ranges self.now) ≤ 33554438 }
    {
        let sections = self.sections.as_slice().len();
        sections as u32 + HEADERS_AND_PAGES
    }

    /// The home range at place `k` by rising address, with the bits of its rights; None past the last. It costs a bounded
    /// number of steps.
    pub fn range(&self, k: u32) -> Option<(Range, u8)>
        requires { IsPlaced self.now }
        ensures { result ≡ slice_get (home_ranges self.now) k }
    {
        if k == 0 {
            return Some(self.header_range());
        }
        let place = k as usize - 1;
        let sections = self.sections.as_slice();
        if place < sections.len() {
            return Some(section_range(self.region.base, &sections[place]));
        }
        page_ranges(&self.region)
            .as_slice()
            .get(place - sections.len())
            .copied()
    }

    /// Whether one of its home ranges that has this right covers a range. It costs a number of steps in the logarithm of its
    /// sections.
    pub fn owns(&self, range: &Range, right: Right) -> bool
        requires { IsPlaced self.now }
        ensures { result ≡ is_own right range.now self.now }
    {
        covers_with(&self.header_range(), range, right)
            || self.sections_own(range, right)
            || self.pages_own(range, right)
    }

    /// The bytes of its headers, which may be read.
    fn header_range(&self) -> (Range, u8)
        ensures { result ≡ header_home self.now }
    {
        let range = Range {
            base: self.region.base,
            length: self.headers as u64,
        };
        (range, READ)
    }

    /// Whether one of the home ranges past its own pages that has this right covers a range.
    fn pages_own(&self, range: &Range, right: Right) -> bool
        requires { IsAddressable self.now.region }
        ensures { result ≡ list_any (grants right range.now) (page_homes self.now.region) }
    {
        page_ranges(&self.region)
            .iter()
            .any(|home| covers_with(home, range, right))
    }

    /// Whether one of its sections that has this right covers a range. Only the last two that begin where the range does or
    /// before can: the last but one only where the range is empty and lies between the two. They are found by halving.
    fn sections_own(&self, range: &Range, right: Right) -> bool
        requires { IsPlaced self.now }
        ensures { result ≡ list_any (grants right range.now) (map (section_home self.now.region.base) self.now.sections) }
    {
        let base = self.region.base;
        let Some(offset) = range.base.checked_sub(base) else {
            return false;
        };
        let sections = self.sections.as_slice();
        let count = sections.partition_point(|part| part.at as u64 <= offset);
        let last_two = &sections[count.saturating_sub(2)..count];
        last_two.iter().any(|part| covers_with(&section_range(base, part), range, right))
    }
}

/// The range of a section of an image whose region begins at `base`, with the section's rights.
fn section_range(base: u64, part: &Part) -> (Range, u8)
    requires { base < 2 ^ 63 }
    ensures { result ≡ section_home base part.now }
{
    let range = Range {
        base: base + part.at as u64,
        length: part.length as u64,
    };
    (range, part.rights)
}

/// The home ranges past the image's own pages, by rising address.
fn page_ranges(region: &Region) -> [(Range, u8); 5]
    requires { IsAddressable region.now }
    ensures { result ≡ page_homes region.now }
{
    [
        (region.stack(), READ_AND_WRITE),
        (region.communicate_page(), READ_AND_WRITE),
        (region.service_page(), READ),
        (region.pool(), READ_AND_WRITE),
        (region.reserve(), READ_AND_WRITE),
    ]
}

/// Whether a home range has this right and covers a range.
fn covers_with(home: &(Range, u8), range: &Range, right: Right) -> bool
    ensures { result ≡ grants right range.now home.now }
{
    let (place, rights) = home;
    right.is_among(*rights) && place.covers(range)
}
