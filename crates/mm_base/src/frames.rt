//! Frames: the pages that memory is made of.
ghost use Rattle.std.specs.Prelude.{◌≡◌, ◌+◌, ◌≤◌, ◌<◌, ◌^◌, ℕ, Bool, List, length, set};
ghost use Rattle.mm_base.specs.Frames.{ArePages, IsLive, page_in, with_piece, zeros};
ghost use Rattle.mm_base.specs.Numbers.{low_bytes, number_in};

/// Pages of 4,096 bytes, of which those that are live may be read and written.
pub trait Frames {
    /// The bytes of each page, in order.
    ghost contents: { Self → List (List ℕ) };

    /// Which of the pages are live, in order.
    ghost live: { Self → List Bool };

    /// How many pages there are.
    fn pages(&self) -> u32
        ensures count { result ≡ length (contents self.now) }
        ensures whole { ArePages (contents self.now) }
        ensures flags { length (live self.now) ≡ length (contents self.now) };

    /// The number in the `n` bytes from `at` of a page.
    fn read(&self, page: u32, at: u16, n: u8) -> u64
        requires live { IsLive (live self.now) page }
        requires low { 1 ≤ n }
        requires high { n ≤ 8 }
        requires within { at + n ≤ 4096 }
        ensures value { result ≡ number_in (page_in (contents self.now) page) at n }
        ensures small { result < 256 ^ n };

    /// Writes the `n` low bytes of a number to those from `at` of a page.
    fn write(&mut self, page: u32, at: u16, n: u8, value: u64)
        requires live { IsLive (live self.old) page }
        requires low { 1 ≤ n }
        requires high { n ≤ 8 }
        requires within { at + n ≤ 4096 }
        ensures bytes { contents self.new ≡ with_piece (contents self.old) page at (low_bytes n value) }
        ensures live { live self.new ≡ live self.old };

    /// Copies these bytes over those from `at` of a page.
    fn copy_in(&mut self, page: u32, at: u16, bytes: &[u8])
        requires live { IsLive (live self.old) page }
        requires within { at + length bytes.now ≤ 4096 }
        ensures bytes { contents self.new ≡ with_piece (contents self.old) page at bytes.now }
        ensures live { live self.new ≡ live self.old };

    /// Fills a page with zeros.
    fn zero(&mut self, page: u32)
        requires { IsLive (live self.old) page }
        ensures bytes { contents self.new ≡ set (contents self.old) page (zeros 4096) }
        ensures live { live self.new ≡ live self.old };
}
