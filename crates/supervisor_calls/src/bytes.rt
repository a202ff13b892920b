//! The bytes of an instruction in memory.
ghost use Rattle.std.specs.Prelude.{◌≡◌, ◌+◌, ◌-◌, ◌<◌, ◌≤◌, ◌++◌, take, drop, replicate, length, All};
ghost use Rattle.mm_base.specs.Numbers.{overwritten};
ghost use Rattle.mm_memory.specs.Flat.{AreLive};

use mm_base::{Frames, MOST_FETCHED};
use mm_memory::Memory;

/// The `n` bytes from a place on, 1 to 8 of them, in front of zeros.
#[inline(always)]
fn word_from<F: Frames>(memory: &Memory<F>, at: u32, n: u8) -> [u8; 8]
    requires low { 1 ≤ n }
    requires high { n ≤ 8 }
    requires within { at + n ≤ length memory.now.bytes }
    requires live { AreLive memory.now.live at n }
    requires small { All (λ byte. byte < 256) memory.now.bytes }
    ensures { result ≡ take n (drop at memory.now.bytes) ++ replicate (8 - n) 0 }
{
    memory.read(at, n).to_le_bytes()
}

/// Writes a piece over bytes from a place on.
#[inline(always)]
fn put(bytes: &mut [u8], at: usize, piece: &[u8])
    requires { at + length piece.now ≤ length bytes.old }
    ensures { bytes.new ≡ overwritten bytes.old at piece.now }
{
    bytes[at..at + piece.len()].copy_from_slice(piece);
}

/// Three words as the front that a fetch answers.
#[inline(always)]
fn joined(first: &[u8; 8], second: &[u8; 8], third: &[u8; 8]) -> [u8; MOST_FETCHED]
    ensures { result ≡ first.now ++ second.now ++ take 2 third.now }
{
    let mut all = [0; MOST_FETCHED];
    let (front, _) = third.split_at(2);
    put(&mut all, 0, first);
    put(&mut all, 8, second);
    put(&mut all, 16, front);
    all
}

/// The `n` bytes from a place on, 18 at most, in front of zeros. It costs one to three reads of memory.
#[inline(always)]
pub(crate) fn code_from<F: Frames>(memory: &Memory<F>, at: u32, n: u8) -> [u8; MOST_FETCHED]
    requires low { 1 ≤ n }
    requires high { n ≤ 18 }
    requires within { at + n ≤ length memory.now.bytes }
    requires near { length memory.now.bytes ≤ 33554432 }
    requires live { AreLive memory.now.live at n }
    requires small { All (λ byte. byte < 256) memory.now.bytes }
    ensures { result ≡ take n (drop at memory.now.bytes) ++ replicate (18 - n) 0 }
{
    let none = [0; 8];
    if n <= 8 {
        let first = word_from(memory, at, n);
        return joined(&first, &none, &none);
    }
    let first = word_from(memory, at, 8);
    if n <= 16 {
        let second = word_from(memory, at + 8, n - 8);
        return joined(&first, &second, &none);
    }
    let second = word_from(memory, at + 8, 8);
    let third = word_from(memory, at + 16, n - 16);
    joined(&first, &second, &third)
}

/// The 16 bytes from a place on.
pub(crate) fn sixteen_from<F: Frames>(memory: &Memory<F>, at: u32) -> [u8; 16]
    requires within { at + 16 ≤ length memory.now.bytes }
    requires near { length memory.now.bytes ≤ 33554432 }
    requires live { AreLive memory.now.live at 16 }
    requires small { All (λ byte. byte < 256) memory.now.bytes }
    ensures { result ≡ take 16 (drop at memory.now.bytes) }
{
    let first = word_from(memory, at, 8);
    let second = word_from(memory, at + 8, 8);
    let mut all = [0; 16];
    put(&mut all, 0, &first);
    put(&mut all, 8, &second);
    all
}
