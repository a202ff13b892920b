//! Pages in one vector.
ghost use Rattle.std.specs.Prelude.{◌≡◌, ◌+◌, ◌*◌, ◌≤◌, ◌<◌, ◌^◌, length, vec_len, IfOk};
ghost use Rattle.mm_base.specs.Frames.{zeros};
ghost use Rattle.mm_base.specs.Numbers.{number_in, overwritten};

use mm_base::{Frames, NoMemory, PAGE_BYTES, number_at};
use std::alloc::Global;
use std::marker::Model;

const PAGE: usize = PAGE_BYTES as usize;

/// Pages in one vector, all of which are live.
#[derive(Debug, Drop)]
pub struct PlainFrames {
    bytes: Vec<u8>,
    pages: u32,
}

impl Model for PlainFrames {
    ghost use Rattle.std.specs.Prelude.{◌≡◌, ◌*◌, length};
    ghost use Rattle.mm_memory.specs.Flat.{PlainState};

    ghost Value = { PlainState };

    ghost view = { λ f. record { pages = f.pages; bytes = f.bytes.items } };

    ghost invariant = { λ f. length f.bytes.items ≡ 4096 * f.pages };
}

impl PlainFrames {
    /// Pages that are all live and zero. It costs what clearing them once costs.
    pub fn new(alloc: Global, pages: u32) -> Result<PlainFrames, NoMemory>
        ensures { IfOk result (λ f. f ≡ record { pages = pages; bytes = zeros (4096 * pages) }) }
    {
        let bytes = vec![in alloc; 0u8; PAGE * pages as usize]?;
        Ok(PlainFrames { bytes, pages })
    }
}

/// Writes a piece over bytes from a place on.
fn overwrite(bytes: &mut Vec<u8>, at: usize, piece: &[u8])
    requires { at + length piece.now ≤ vec_len bytes.old }
    ensures { bytes.new.items ≡ overwritten bytes.old.items at piece.now }
{
    bytes[at..at + piece.len()].copy_from_slice(piece);
}

/// Fills the page that begins at this place with zeros.
fn clear_page(bytes: &mut Vec<u8>, at: usize)
    requires { at + 4096 ≤ vec_len bytes.old }
    ensures { bytes.new.items ≡ overwritten bytes.old.items at (zeros 4096) }
{
    fill_zeros(&mut bytes[at..at + PAGE]);
}

/// Fills bytes with zeros.
fn fill_zeros(bytes: &mut [u8])
    ensures { bytes.new ≡ zeros (length bytes.old) }
{
    bytes.fill(0);
}

/// The number in `n` bytes, which is small, since each of them is.
fn small_number_at(bytes: &[u8], at: usize, n: u8) -> u64
    requires low { 1 ≤ n }
    requires high { n ≤ 8 }
    requires within { at + n ≤ length bytes.now }
    ensures value { result ≡ number_in bytes.now at n }
    ensures small { result < 256 ^ n }
{
    number_at(bytes, at, n)
}

/// The place of a byte of a page.
fn place(page: u32, at: u16) -> usize
    ensures { result ≡ 4096 * page + at }
{
    PAGE * page as usize + at as usize
}

impl Frames for PlainFrames {
    ghost use Rattle.std.specs.Prelude.{true, replicate};
    ghost use Rattle.mm_memory.specs.Flat.{pages_in};

    ghost contents = { λ f. pages_in f.pages f.bytes };

    ghost live = { λ f. replicate f.pages true };

    fn pages(&self) -> u32 {
        self.pages
    }

    fn read(&self, page: u32, at: u16, n: u8) -> u64 {
        small_number_at(self.bytes.as_slice(), place(page, at), n)
    }

    fn write(&mut self, page: u32, at: u16, n: u8, value: u64) {
        let bytes = value.to_le_bytes();
        let (piece, _) = bytes.split_at(n as usize);
        overwrite(&mut self.bytes, place(page, at), piece);
    }

    fn copy_in(&mut self, page: u32, at: u16, bytes: &[u8]) {
        overwrite(&mut self.bytes, place(page, at), bytes);
    }

    fn zero(&mut self, page: u32) {
        clear_page(&mut self.bytes, place(page, 0));
    }
}
