//! Tables with images of one page each: 100 bytes of headers (hexadecimal, as all addresses here), a section that may be read and
//! executed, and nothing up to the page's end; then the stack of four pages, the communicate page, the service page, the pool of 16
//! pages, and the reserve of 16. The region of the first image begins at 80000000: its stack at 80001000, its communicate page at
//! 80005000, its service page at 80006000, its pool at 80007000, and its reserve at 80017000, which ends at 80027000.
ghost use Rattle.std.specs.Prelude.{◌≡◌, ◌+◌, ◌≤◌, true, replicate, IfOk, OnOk};
ghost use Rattle.sample_domains.specs.TestTables.{IsWholeMemory, IsOneSection, HaveAllPages, HasAllPages};

use mm_base::{Guid, Image, List, NoMemory, Opening, Part, Range, Records, Saved};
use mm_memory::{Memory, PlainFrames};
use platform_model::Platform;
use policy_blob::read_policy;
use secure_policy::Guard;
use std::alloc::Global;
use supervisor_calls::{Domain, Tables, enter};

/// A policy of one rule: all images may read and write the device window.
const DEVICES: &[u8] = b"MMSP\x01\0\0\0\x01\0\0\0\0\0\x01\0\
    \x01\0\x01\0\x03\0\0\0\0\0\0\0\0\0\0\0\0\0\0\0\0\0\0\0\0\0\0\xfe\0\0\0\0\0\0\x01\0\0\0\0\0";

/// An image: its headers have 100 bytes, and it fills a page.
const IMAGE: Image = Image {
    machine: 0x0ebc,
    entry: 0x100,
    base: 0,
    size: 0x1000,
    headers: 0x100,
    parts: 1,
    table: 0,
    relocs: Range { base: 0, length: 0 },
};

/// Memory that is zero but for a piece from a place on.
pub(crate) fn memory_with(
    alloc: Global,
    at: u32,
    piece: &[u8],
) -> Result<Memory<PlainFrames>, NoMemory>
    ensures { IfOk result IsWholeMemory }
{
    let mut memory = whole_memory(alloc, 8_192)?;
    put(&mut memory, at, piece);
    Ok(memory)
}

/// Memory that is zero.
fn whole_memory(alloc: Global, pages: u32) -> Result<Memory<PlainFrames>, NoMemory>
    requires { pages ≡ 8192 }
    ensures { IfOk result IsWholeMemory }
{
    Ok(Memory::new(PlainFrames::new(alloc, pages)?))
}

/// Copies a piece in, where it fits.
fn put(memory: &mut Memory<PlainFrames>, at: u32, piece: &[u8])
    requires { IsWholeMemory memory.old }
    ensures { IsWholeMemory memory.new }
{
    if at <= 33_554_432 && piece.len() <= 33_554_432 - at as usize {
        memory.copy_in(at, piece);
    }
}

/// The section of an image: so many bytes behind its headers.
fn one_section(alloc: Global, length: u32) -> Result<List<Part>, NoMemory>
    requires { length ≤ 3840 }
    ensures { IfOk result IsOneSection }
{
    let parts = [Part {
        at: 0x100,
        length,
        raw: 0,
        copied: 0,
        rights: 5,
    }];
    List::from_slice(alloc, &parts)
}

/// Tables without images over this memory; None where these bytes are no policy.
pub(crate) fn tables_over(
    alloc: Global,
    memory: Memory<PlainFrames>,
    policy: &[u8],
) -> Result<Option<Tables<PlainFrames>>, NoMemory>
    requires whole { IsWholeMemory memory }
    ensures { IfOk result HasAllPages }
{
    if policy.len() > 16_777_216 {
        return Ok(None);
    }
    let policy = match read_policy(alloc, policy) {
        Ok(policy) => policy,
        Err(_) => return Ok(None),
    };
    let guard = Guard::new(alloc, policy)?;
    let opening = Opening {
        cells: List::new(alloc),
    };
    let platform = Platform::new(alloc, &opening)?;
    Ok(Some(Tables::new(alloc, memory, guard, platform)?))
}

/// Admits an image of this name, with so many bytes in its section.
pub(crate) fn admit_at(
    alloc: Global,
    tables: &mut Tables<PlainFrames>,
    name: Guid,
    base: u64,
    length: u32,
) -> Result<(), NoMemory>
    requires pages { HaveAllPages tables.old }
    requires from { 0x80000000 ≤ base }
    requires to { base + 159744 ≤ 0x82000000 }
    requires length { length ≤ 3840 }
    ensures { OnOk result (HaveAllPages tables.new) }
{
    let parts = one_section(alloc, length)?;
    let _ = tables.admit(alloc, name, base, &IMAGE, parts)?;
    Ok(())
}

/// A domain of an image at 80000000, in whose section of 100 bytes these bytes stand; None where there is none.
pub fn domain_with(alloc: Global, code: &[u8]) -> Result<Option<Domain<PlainFrames>>, NoMemory> {
    let memory = memory_with(alloc, 0x100, code)?;
    let mut tables = match tables_over(alloc, memory, DEVICES)? {
        Some(tables) => tables,
        None => return Ok(None),
    };
    admit_at(alloc, &mut tables, Guid([7; 16]), 0x8000_0000, 0x100)?;
    if tables.images() == 0 {
        return Ok(None);
    }
    Ok(Some(enter(tables, 0, Saved::ZERO, Records::new(alloc)?)))
}
