//! Memory of two pages: numbers and pieces at the seam between them. Expected values are worked out by hand.
ghost use Rattle.std.specs.Prelude.{◌≡◌, ◌+◌, ◌≤◌, ◌<◌, length, IfOk};
ghost use Rattle.mm_memory.specs.Flat.{IsWidth};
ghost use Rattle.mm_memory.specs.TestMemory.{HasTwoPages};

use crate::{Memory, PlainFrames};
use mm_base::NoMemory;
use std::alloc::Global;
use std::test::Fail;

/// Memory of two pages, all zero.
fn two_pages(alloc: Global) -> Result<Memory<PlainFrames>, NoMemory>
    ensures { IfOk result HasTwoPages }
{
    Ok(Memory::new(PlainFrames::new(alloc, 2)?))
}

/// Reads a number in range.
fn get(memory: &Memory<PlainFrames>, at: u32, n: u8) -> Option<u64>
    requires { HasTwoPages memory.now }
{
    if (n == 1 || n == 2 || n == 4 || n == 8) && at <= 8192 - n as u32 {
        Some(memory.read(at, n))
    } else {
        None
    }
}

/// Writes a number in range.
fn put(memory: &mut Memory<PlainFrames>, at: u32, n: u8, value: u64)
    requires { HasTwoPages memory.old }
    ensures { HasTwoPages memory.new }
{
    if (n == 1 || n == 2 || n == 4 || n == 8) && at <= 8192 - n as u32 {
        memory.write(at, n, value);
    }
}

/// Copies a piece in range.
fn copy(memory: &mut Memory<PlainFrames>, at: u32, piece: &[u8])
    requires { HasTwoPages memory.old }
    ensures { HasTwoPages memory.new }
{
    if at <= 8192 && piece.len() <= 8192 - at as usize {
        memory.copy_in(at, piece);
    }
}

/// Clears some bytes in range.
fn clear(memory: &mut Memory<PlainFrames>, at: u32, count: u32)
    requires { HasTwoPages memory.old }
    ensures { HasTwoPages memory.new }
{
    if at <= 8192 && count <= 8192 - at {
        memory.clear(at, count);
    }
}

/// A number of eight bytes, none twice.
const VALUE: u64 = 0x1122_3344_5566_7788;

#[test]
fn a_word_across_the_seam(rt: HostRuntime) -> Result<(), Fail> {
    let mut memory = two_pages(rt.alloc())?;
    put(&mut memory, 4092, 8, VALUE);
    assert_eq!(rt; get(&memory, 4096, 4), Some(0x1122_3344));
    assert_eq!(rt; get(&memory, 4094, 4), Some(0x3344_5566));
    Ok(())
}

/// The place where a number of `n` bytes was written and read back wrong, from 8 before the seam to 8 after it; None where all
/// came back, and the bytes beside them stayed.
fn first_wrong(memory: &mut Memory<PlainFrames>, n: u8) -> Option<u32>
    requires { HasTwoPages memory.old }
    ensures { HasTwoPages memory.new }
{
    let kept = u64::MAX >> (64 - 8 * n.clamp(1, 8) as u32);
    for at in 4088..4104u32 {
        clear(memory, 4000, 200);
        put(memory, at, n, VALUE);
        let back = get(memory, at, n) == Some(VALUE & kept);
        let before = get(memory, at - 1, 1) == Some(0);
        let after = get(memory, at + n as u32, 1) == Some(0);
        if !(back && before && after) {
            return Some(at);
        }
    }
    None
}

#[test]
fn all_widths_at_the_seam(rt: HostRuntime) -> Result<(), Fail> {
    let mut memory = two_pages(rt.alloc())?;
    for n in [1u8, 2, 4, 8] {
        assert_eq!(rt; first_wrong(&mut memory, n), None, "{n} bytes");
    }
    Ok(())
}

/// Whether a piece of `count` bytes of `7` that was copied to a place is there, and nothing of it before or after.
fn is_copied(memory: &mut Memory<PlainFrames>, piece: &[u8], at: u32) -> bool
    requires { HasTwoPages memory.old }
    ensures { HasTwoPages memory.new }
{
    clear(memory, 0, 8192);
    copy(memory, at, piece);
    for place in 0..8192u32 {
        let inside = at <= place && ((place - at) as usize) < piece.len();
        if get(memory, place, 1) != Some(if inside { 7 } else { 0 }) {
            return false;
        }
    }
    true
}

/// Pieces: how many bytes, and where to.
const PIECES: [(usize, u32); 8] = [
    (0, 4096),
    (1, 4095),
    (1, 4096),
    (4096, 0),
    (4096, 4096),
    (4096, 4095),
    (4096, 1),
    (8192, 0),
];

#[test]
fn pieces_around_the_seam(rt: HostRuntime) -> Result<(), Fail> {
    let mut memory = two_pages(rt.alloc())?;
    let sevens = vec![in rt.alloc(); 7u8; 8192]?;
    for (count, at) in PIECES {
        let piece = sevens.get(..count).ok_or("more than there are")?;
        assert!(rt; is_copied(&mut memory, piece, at), "{count} at {at}");
    }
    Ok(())
}

/// Whether clearing these bytes clears them and no other.
fn is_cleared(memory: &mut Memory<PlainFrames>, sevens: &[u8], at: u32, count: u32) -> bool
    requires { HasTwoPages memory.old }
    ensures { HasTwoPages memory.new }
{
    copy(memory, 0, sevens);
    clear(memory, at, count);
    for place in 0..8192u32 {
        let inside = at <= place && place - at < count;
        if get(memory, place, 1) != Some(if inside { 0 } else { 7 }) {
            return false;
        }
    }
    true
}

/// Places and counts to clear.
const CLEARED: [(u32, u32); 8] = [
    (0, 0),
    (4095, 1),
    (4095, 2),
    (0, 4096),
    (4096, 4096),
    (1, 8191),
    (100, 4096),
    (0, 8192),
];

#[test]
fn clears_exactly(rt: HostRuntime) -> Result<(), Fail> {
    let mut memory = two_pages(rt.alloc())?;
    let sevens = vec![in rt.alloc(); 7u8; 8192]?;
    for (at, count) in CLEARED {
        assert!(rt;
            is_cleared(&mut memory, sevens.as_slice(), at, count),
            "{count} at {at}"
        );
    }
    Ok(())
}
