//! Images of one page and images of many sections. Expected addresses are worked out by hand from the order of an image's pages:
//! its own, 4 of the stack, one to communicate, one of services, 16 of the pool, 16 in reserve.
ghost use Rattle.std.specs.Prelude.{◌≡◌, ◌+◌, ◌*◌, ◌^◌, ◌<◌, ◌≤◌, [], length, IfOk};
ghost use Rattle.image_table.specs.TestImages.{Fit};

use crate::{ImageTable, MOST_IMAGES};
use mm_base::{Guid, Homes, Image, List, NoMemory, Part, Range, Right};
use std::alloc::Global;
use std::test::Fail;

/// Where the headers of these images end.
const HEADERS: u32 = 0x200;

/// An image of this size, with 512 bytes of headers.
fn image(size: u32, parts: u16) -> Image
    ensures size { result.size ≡ size }
    ensures header { result.headers ≡ 0x200 }
    ensures count { result.parts ≡ parts }
{
    Image {
        machine: 0x0ebc,
        entry: HEADERS,
        base: 0,
        size,
        headers: HEADERS,
        parts,
        table: 0x100,
        relocs: Range { base: 0, length: 0 },
    }
}

/// Puts an image with these sections into the table. Its name is 16 times a byte.
fn put(table: &mut ImageTable, name: u8, base: u64, size: u32, parts: List<Part>) -> Option<u32>
    requires low { 0x8000_0000 ≤ base }
    requires high { base ≤ 0x8100_0000 }
    requires header { 0x200 ≤ size }
    requires size { size ≤ 0x80_0000 }
    requires few { length parts < 2 ^ 16 }
    requires fits { Fit 0x200 size (length parts) parts }
{
    let image = image(size, parts.len() as u16);
    table.admit(Guid([name; 16]), base, &image, parts)
}

/// A part of an image.
fn part(at: u32, length: u32, rights: u8) -> Part
    ensures { result ≡ record { at = at; length = length; raw = 0; copied = 0; rights = rights } }
{
    Part {
        at,
        length,
        raw: 0,
        copied: 0,
        rights,
    }
}

/// Four sections of an image of one page, neither in order nor all with bytes: code at 200 (hexadecimal), data right after it, and
/// constants after a gap in which an empty section stands.
fn four_sections(alloc: Global) -> Result<List<Part>, NoMemory>
    ensures { IfOk result (λ parts. Fit 0x200 0x1000 4 parts) }
{
    let parts = [
        part(0x300, 0x80, 3),
        part(0x390, 0, 7),
        part(0x400, 0x10, 1),
        part(0x200, 0x100, 5),
    ];
    List::from_slice(alloc, &parts)
}

/// A table with one image of one page at the begin of memory.
fn one_page(alloc: Global) -> Result<ImageTable, NoMemory> {
    let mut table = ImageTable::new(alloc)?;
    let _ = put(&mut table, 7, 0x8000_0000, 0x1000, four_sections(alloc)?);
    Ok(table)
}

/// The home range at this place, as base, length and rights; zeros where there is none.
fn told(table: &ImageTable, image: u32, k: u32) -> (u64, u64, u8) {
    if image as usize >= table.len() {
        return (0, 0, 0);
    }
    match table.range(image, k) {
        Some((range, rights)) => (range.base, range.length, rights),
        None => (0, 0, 0),
    }
}

/// The rights that an image has at home on a range.
fn rights_at(table: &ImageTable, image: u32, base: u64, length: u64) -> u8 {
    let range = Range { base, length };
    let mut rights = 0;
    for right in [Right::Read, Right::Write, Right::Execute] {
        if table.home(image, range, right) {
            rights |= right.bit();
        }
    }
    rights
}

/// The home ranges of the image of one page, by rising address, and what comes after the last.
const HOME_RANGES: [(u64, u64, u8); 10] = [
    (0x8000_0000, 0x200, 1),
    (0x8000_0200, 0x100, 5),
    (0x8000_0300, 0x80, 3),
    (0x8000_0400, 0x10, 1),
    (0x8000_1000, 0x4000, 3),
    (0x8000_5000, 0x1000, 3),
    (0x8000_6000, 0x1000, 1),
    (0x8000_7000, 0x1_0000, 3),
    (0x8001_7000, 0x1_0000, 3),
    (0, 0, 0),
];

#[test]
fn tells_home_ranges(rt: HostRuntime) -> Result<(), Fail> {
    let table = one_page(rt.alloc())?;
    let mut found = [(0, 0, 9); 10];
    for (k, home) in found.iter_mut().enumerate() {
        *home = told(&table, 0, k as u32);
    }
    assert_eq!(rt; found, HOME_RANGES);
    assert_eq!(rt;
        (table.owner(0), table.owner(1)),
        (Guid([7; 16]), Guid([0; 16]))
    );
    Ok(())
}

/// Ranges, and the rights that the image of one page has on each.
const RIGHTS: [(u64, u64, u8); 58] = [
    // one byte at each edge
    (0x7fff_ffff, 1, 0),
    (0x8000_0000, 1, 1),
    (0x8000_01ff, 1, 1),
    (0x8000_0200, 1, 5),
    (0x8000_02ff, 1, 5),
    (0x8000_0300, 1, 3),
    (0x8000_037f, 1, 3),
    (0x8000_0380, 1, 0),
    (0x8000_03ff, 1, 0),
    (0x8000_0400, 1, 1),
    (0x8000_040f, 1, 1),
    (0x8000_0410, 1, 0),
    (0x8000_0fff, 1, 0),
    (0x8000_1000, 1, 3),
    (0x8000_4fff, 1, 3),
    (0x8000_5000, 1, 3),
    (0x8000_5fff, 1, 3),
    (0x8000_6000, 1, 1),
    (0x8000_6fff, 1, 1),
    (0x8000_7000, 1, 3),
    (0x8001_6fff, 1, 3),
    (0x8001_7000, 1, 3),
    (0x8002_6fff, 1, 3),
    (0x8002_7000, 1, 0),
    // two bytes across each seam
    (0x7fff_ffff, 2, 0),
    (0x8000_01ff, 2, 0),
    (0x8000_02ff, 2, 0),
    (0x8000_037f, 2, 0),
    (0x8000_03ff, 2, 0),
    (0x8000_040f, 2, 0),
    (0x8000_0fff, 2, 0),
    (0x8000_4fff, 2, 0),
    (0x8000_5fff, 2, 0),
    (0x8000_6fff, 2, 0),
    (0x8001_6fff, 2, 0),
    (0x8002_6fff, 2, 0),
    // whole ranges, and one byte more
    (0x8000_0000, 0x200, 1),
    (0x8000_0000, 0x201, 0),
    (0x8000_0200, 0x100, 5),
    (0x8000_0200, 0x101, 0),
    (0x8000_0300, 0x80, 3),
    (0x8000_0300, 0x81, 0),
    (0x8000_1000, 0x4000, 3),
    (0x8000_1000, 0x4001, 0),
    // ranges that wrap
    (0xffff_ffff_ffff_ffff, 2, 0),
    (0x8000_1000, 0xffff_ffff_ffff_ffff, 0),
    // nothing, at the edges: each neighbour covers it
    (0x7fff_ffff, 0, 0),
    (0x8000_0000, 0, 1),
    (0x8000_0200, 0, 5),
    (0x8000_0300, 0, 7),
    (0x8000_0380, 0, 3),
    (0x8000_0390, 0, 0),
    (0x8000_0400, 0, 1),
    (0x8000_0410, 0, 1),
    (0x8000_0411, 0, 0),
    (0x8000_7000, 0, 3),
    (0x8002_7000, 0, 3),
    (0x8002_7001, 0, 0),
];

/// The first row of the table that is answered otherwise, with the answer.
fn first_wrong(table: &ImageTable) -> Option<(u64, u64, u8)> {
    for (base, length, rights) in RIGHTS {
        let found = rights_at(table, 0, base, length);
        if found != rights {
            return Some((base, length, found));
        }
    }
    None
}

#[test]
fn answers_home(rt: HostRuntime) -> Result<(), Fail> {
    let table = one_page(rt.alloc())?;
    assert_eq!(rt; first_wrong(&table), None);
    assert_eq!(rt; rights_at(&table, 1, 0x8000_1000, 1), 0);
    assert_eq!(rt; rights_at(&table, u32::MAX, 0x8000_1000, 1), 0);
    Ok(())
}

/// A table with as many images of one page as it has place for, 64 pages apart; and whether each got its number, and one more
/// none.
fn full(alloc: Global) -> Result<(ImageTable, bool), NoMemory> {
    let mut table = ImageTable::new(alloc)?;
    let mut right = true;
    for k in 0..33u32 {
        let base = 0x8000_0000 + 0x4_0000 * k as u64;
        let number = put(&mut table, k as u8, base, 0x1000, List::new(alloc));
        let expected = if k < 32 { Some(k) } else { None };
        right = right && number == expected;
    }
    Ok((table, right))
}

/// The base and the pages of an image; zeros where it isn't there.
fn region(table: &ImageTable, image: u32) -> (u64, u32) {
    if (image as usize) < table.len() {
        (table.base(image), table.pages(image))
    } else {
        (0, 0)
    }
}

/// Withdraws the last image.
fn withdraw_last(table: &mut ImageTable) {
    let count = table.len();
    if count > 0 {
        table.withdraw(count as u32 - 1);
    }
}

#[test]
fn admits_and_withdraws(rt: HostRuntime) -> Result<(), Fail> {
    let (mut table, right) = full(rt.alloc())?;
    assert_eq!(rt; (right, table.len()), (true, MOST_IMAGES));
    assert_eq!(rt;
        (region(&table, 0), region(&table, 31)),
        ((0x8000_0000, 1), (0x807c_0000, 1))
    );
    withdraw_last(&mut table);
    let names = (table.owner(0), table.owner(30), table.owner(31));
    assert_eq!(rt; names, (Guid([0; 16]), Guid([30; 16]), Guid([0; 16])));
    let again = put(&mut table, 99, 0x8100_0000, 0x1001, List::new(rt.alloc()));
    assert_eq!(rt; (again, region(&table, 31)), (Some(31), (0x8100_0000, 2)));
    // without sections the stack comes right after the headers
    assert_eq!(rt; told(&table, 31, 1), (0x8100_2000, 0x4000, 3));
    Ok(())
}

/// An order in which sections come: where the next one lies of those that are left.
#[derive(Clone, Copy, Debug)]
enum Order {
    Rising,
    Falling,
    /// Two of three times the lowest.
    Mixed,
}

fn is_lowest(order: Order, k: u32) -> bool {
    match order {
        Order::Rising => true,
        Order::Falling => false,
        Order::Mixed => k % 3 != 0,
    }
}

/// So many sections of 8 bytes at each 16th byte after the headers, in this order.
fn sections(alloc: Global, count: u32, order: Order) -> Result<List<Part>, NoMemory>
    requires { count < 2 ^ 16 }
    ensures { IfOk result (λ parts. Fit 0x200 (0x200 + 16 * count) count parts) }
{
    let mut parts = List::new(alloc);
    let mut low = HEADERS;
    let mut high = HEADERS + 16 * count;
    for k in 0..count {
        if is_lowest(order, k) {
            parts.push(part(low, 8, 1))?;
            low += 16;
        } else {
            high -= 16;
            parts.push(part(high, 8, 1))?;
        }
    }
    Ok(parts)
}

/// A table with one image of so many sections that come in this order.
fn with_sections(alloc: Global, count: u32, order: Order) -> Result<ImageTable, NoMemory>
    requires { count < 2 ^ 16 }
{
    let mut table = ImageTable::new(alloc)?;
    let parts = sections(alloc, count, order)?;
    let _ = put(&mut table, 1, 0x8000_0000, HEADERS + 16 * count, parts);
    Ok(table)
}

/// Whether a range of the first image may be read.
fn is_read(table: &ImageTable, base: u64, length: u64) -> bool {
    table.home(0, Range { base, length }, Right::Read)
}

/// The first of so many sections that is not told at its place, or whose bytes are not at home, or a byte beside which is.
fn first_lost(table: &ImageTable, count: u32) -> Option<u32>
    requires { count < 2 ^ 16 }
{
    for k in 0..count {
        let base = 0x8000_0200 + 16 * k as u64;
        let whole = is_read(table, base, 8) && is_read(table, base + 8, 0);
        let beside = is_read(table, base, 9) || is_read(table, base + 9, 0);
        if told(table, 0, k + 1) != (base, 8, 1) || !whole || beside {
            return Some(k);
        }
    }
    None
}

/// The first count and order of which a section is lost, and which.
fn first_lost_of_all(alloc: Global) -> Result<Option<(u32, Order, u32)>, NoMemory> {
    for count in [0, 1, 3, 65_535] {
        for order in [Order::Rising, Order::Falling, Order::Mixed] {
            let table = with_sections(alloc, count, order)?;
            if let Some(k) = first_lost(&table, count) {
                return Ok(Some((count, order, k)));
            }
        }
    }
    Ok(None)
}

#[test]
fn sorts_sections(rt: HostRuntime) -> Result<(), Fail> {
    let lost = first_lost_of_all(rt.alloc())?;
    assert!(rt; lost.is_none(), "{lost:?}");
    Ok(())
}
