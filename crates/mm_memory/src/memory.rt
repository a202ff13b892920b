//! Memory: one flat list of bytes, whatever pages it lies in.
ghost use Rattle.std.specs.Prelude.{◌≡◌, ◌+◌, ◌*◌, ◌≤◌, ◌<◌, ◌^◌, length};
ghost use Rattle.mm_base.specs.Frames.{zeros};
ghost use Rattle.mm_base.specs.Numbers.{low_bytes, number_in, overwritten};
ghost use Rattle.mm_memory.specs.Flat.{joined, AreLive, IsWidth};

use mm_base::{Frames, PAGE_BYTES};
use std::marker::Model;

/// How many bytes of a page are cleared at a time where it isn't cleared whole.
const BLOCK: usize = 64;

/// Memory over pages. Places count from 0.
#[derive(Debug, Drop)]
pub struct Memory<F: Frames> {
    frames: F,
}

impl<F: Frames> Model for Memory<F> {
    ghost use Rattle.mm_memory.specs.Flat.{MemoryState, joined, IsWhole};

    ghost Value = { MemoryState };

    ghost view = { λ m. record { bytes = joined (F.contents m.frames); live = F.live m.frames } };

    ghost invariant = { λ m. IsWhole (F.contents m.frames) (F.live m.frames) };
}

impl<F: Frames> Memory<F> {
    /// Memory over these pages, one after another.
    pub fn new(frames: F) -> Memory<F>
        ensures { result ≡ record { bytes = joined (F.contents frames); live = F.live frames } }
    {
        let _ = frames.pages();
        Memory { frames }
    }

    /// The number in the `n` bytes from `at`, for `n` of 1 to 8. It costs one or two reads of a page.
    pub fn read(&self, at: u32, n: u8) -> u64
        requires low { 1 ≤ n }
        requires high { n ≤ 8 }
        requires within { at + n ≤ length self.now.bytes }
        requires live { AreLive self.now.live at n }
        ensures value { result ≡ number_in self.now.bytes at n }
        ensures small { result < 256 ^ n }
    {
        let (page, offset) = place(at as u64);
        let here = PAGE_BYTES as u16 - offset;
        if n as u16 <= here {
            return self.frames.read(page, offset, n);
        }
        let first = here as u8;
        let low = self.frames.read(page, offset, first);
        let high = self.frames.read(page + 1, 0, n - first);
        low + (high << (8 * first))
    }

    /// Writes the `n` low bytes of a number to those from `at`. It costs one or two writes of a page.
    pub fn write(&mut self, at: u32, n: u8, value: u64)
        requires width { IsWidth n }
        requires within { at + n ≤ length self.old.bytes }
        requires live { AreLive self.old.live at n }
        ensures bytes { self.new.bytes ≡ overwritten self.old.bytes at (low_bytes n value) }
        ensures live { self.new.live ≡ self.old.live }
    {
        let (page, offset) = place(at as u64);
        if n as u16 <= PAGE_BYTES as u16 - offset {
            self.frames.write(page, offset, n, value);
            return;
        }
        let bytes = value.to_le_bytes();
        let (piece, _) = bytes.split_at(n as usize);
        self.copy_in(at, piece);
    }

    /// Copies these bytes over those from `at`. It costs one copy for each page that they lie in.
    pub fn copy_in(&mut self, at: u32, bytes: &[u8])
        requires within { at + length bytes.now ≤ length self.old.bytes }
        requires live { AreLive self.old.live at (length bytes.now) }
        ensures bytes { self.new.bytes ≡ overwritten self.old.bytes at bytes.now }
        ensures live { self.new.live ≡ self.old.live }
    {
        let mut rest = bytes;
        let mut from = at as u64;
        while !rest.is_empty() {
            let (page, offset) = place(from);
            let here = rest.len().min((PAGE_BYTES as u16 - offset) as usize);
            let (piece, more) = rest.split_at(here);
            self.frames.copy_in(page, offset, piece);
            rest = more;
            from += here as u64;
        }
    }

    /// Fills `count` bytes from `at` with zeros. It costs one step for each page that lies in them whole, and one for each 64 bytes
    /// of the two that don't.
    pub fn clear(&mut self, at: u32, count: u32)
        requires within { at + count ≤ length self.old.bytes }
        requires live { AreLive self.old.live at count }
        ensures bytes { self.new.bytes ≡ overwritten self.old.bytes at (zeros count) }
        ensures live { self.new.live ≡ self.old.live }
    {
        let end = at as u64 + count as u64;
        let mut from = at as u64;
        while from < end {
            from += self.clear_some(from, end - from);
        }
    }

    /// Fills some bytes from `at` with zeros, `most` at most, and answers how many.
    fn clear_some(&mut self, at: u64, most: u64) -> u64
        requires near { at < 4096 * 2 ^ 32 }
        requires some { 1 ≤ most }
        requires within { at + most ≤ length self.old.bytes }
        requires live { AreLive self.old.live at most }
        ensures some { 1 ≤ result }
        ensures within { result ≤ most }
        ensures bytes { self.new.bytes ≡ overwritten self.old.bytes at (zeros result) }
        ensures live { self.new.live ≡ self.old.live }
    {
        let (page, offset) = place(at);
        if offset == 0 && PAGE_BYTES as u64 <= most {
            self.frames.zero(page);
            return PAGE_BYTES as u64;
        }
        let count = most
            .min(BLOCK as u64)
            .min((PAGE_BYTES as u16 - offset) as u64);
        let block = [0; BLOCK];
        let (piece, _) = block.split_at(count as usize);
        self.frames.copy_in(page, offset, piece);
        count
    }
}

/// The page of a byte, and the place in it.
fn place(at: u64) -> (u32, u16)
    requires { at < 4096 * 2 ^ 32 }
    ensures page { at ≡ 4096 * result.0 + result.1 }
    ensures offset { result.1 < 4096 }
{
    let page = PAGE_BYTES as u64;
    ((at / page) as u32, (at % page) as u16)
}
