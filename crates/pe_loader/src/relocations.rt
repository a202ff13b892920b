//! The relocation blocks of an image, as they are checked: they are read from the plain form through a window on the stack.
ghost use Rattle.std.specs.Prelude.{◌≡◌, ◌+◌, ◌-◌, ◌*◌, ◌/◌, ◌%◌, ◌≤◌, ◌<◌, ◌==◌, ◌&&◌, nat_le, true, false, length, MatchOption};
ghost use Rattle.std.specs.Bool.{OnTrue, OnFalse};
ghost use Rattle.std.specs.List.{list_all};
ghost use Rattle.pe_loader.specs.Fixups.{fixup_passes, fixups_from, block_at, is_block, block_passes as block_is_fit, directory_end, directory_fits, AreRead, AreRefused};
ghost use Rattle.pe_loader.specs.LayoutInside.{IsLaidOut};
ghost use Rattle.pe_loader.specs.ReadingInside.{form_in, IsReady, IsHead};

use crate::fixup::Fixup;
use crate::head::{HEAD_BYTES, Head};
use crate::layout::Layout;
use crate::window::{Window, lay_out};
use mm_base::Range;

/// How many bytes of the plain form are seen at a time, of a directory that has no more, and of a larger one.
const SMALL_ROOM: usize = 4_096;

const ROOM: usize = 65_536;

/// Where relocations stand: how their image is laid out, and their directory.
#[derive(Clone, Copy, Debug, PartialEq, Eq)]
pub(crate) struct Relocations {
    pub(crate) layout: Layout,
    pub(crate) directory: Range,
}

impl Relocations {
    /// Where the directory ends.
    fn end(&self) -> usize
        requires near { self.now.layout.size ≤ 16777216 }
        requires fits { directory_fits self.now.layout.size self.now.directory ≡ true }
        ensures { result ≡ directory_end self.now.directory }
    {
        self.directory.base as usize + self.directory.length as usize
    }

    /// Whether the directory lies in the image.
    fn fit(&self) -> bool
        requires base { self.now.directory.base < 4294967296 }
        requires length { self.now.directory.length < 4294967296 }
        ensures { result ≡ directory_fits self.now.layout.size self.now.directory }
    {
        self.directory.base + self.directory.length <= self.layout.size as u64
    }

    /// The head of the block at a place, where there is one.
    fn head_at(&self, bytes: &[u8], window: &mut Window, room: &mut [u8], at: usize) -> Option<Head>
        requires laid_out { IsLaidOut bytes.now self.now.layout }
        requires fits { directory_fits self.now.layout.size self.now.directory ≡ true }
        requires near { at ≤ directory_end self.now.directory }
        requires ready { IsReady bytes.now self.now.layout window.old room.old at }
        ensures head { MatchOption result (is_block (form_in bytes.now self.now.layout) self.now.directory at ≡ false) (IsHead (form_in bytes.now self.now.layout) self.now.directory at) }
        ensures ready { IsReady bytes.now self.now.layout window.new room.new (at + 8) }
    {
        if self.end() - at < HEAD_BYTES {
            return None;
        }
        let page = window.double(bytes, &self.layout, room, at);
        let size = window.double(bytes, &self.layout, room, at + 4);
        if size == 0 {
            return None;
        }
        Some(Head { page, size })
    }

    /// Whether so many entries pass that begin at a place, in a block for this page; linear in them.
    fn entries_pass(
        &self,
        bytes: &[u8],
        window: &mut Window,
        room: &mut [u8],
        page: u32,
        at: usize,
        count: usize,
    ) -> bool
        requires laid_out { IsLaidOut bytes.now self.now.layout }
        requires ready { IsReady bytes.now self.now.layout window.old room.old at }
        requires within { at + 2 * count ≤ self.now.layout.size }
        ensures passes { result
            ≡ list_all (fixup_passes self.now.layout.size self.now.directory) (fixups_from (form_in bytes.now self.now.layout) page at count) }
        ensures ready { IsReady bytes.now self.now.layout window.new room.new (at + 2 * count) }
    {
        for k in 0..count {
            let word = window.word(bytes, &self.layout, room, at + 2 * k);
            if !Fixup::of(page, word).passes(self.layout.size, &self.directory) {
                return false;
            }
        }
        true
    }

    /// Whether the block at a place passes, which begins with this head; linear in it.
    fn block_passes(
        &self,
        bytes: &[u8],
        window: &mut Window,
        room: &mut [u8],
        at: usize,
        head: &Head,
    ) -> bool
        requires laid_out { IsLaidOut bytes.now self.now.layout }
        requires fits { directory_fits self.now.layout.size self.now.directory ≡ true }
        requires head { IsHead (form_in bytes.now self.now.layout) self.now.directory at head.now }
        requires ready { IsReady bytes.now self.now.layout window.old room.old (at + 8) }
        ensures passes { result ≡ block_is_fit (form_in bytes.now self.now.layout) self.now.layout.size self.now.directory at }
        ensures ready { OnTrue result (IsReady bytes.now self.now.layout window.new room.new (at + head.now.size)) }
    {
        let size = head.size as usize;
        if !size_fits(at, size, self.end()) {
            return false;
        }
        let count = (size - HEAD_BYTES) / 2;
        self.entries_pass(bytes, window, room, head.page, at + HEAD_BYTES, count)
    }

    /// Whether the relocations pass, which are seen through a room. Linear in the directory, with one pass over the sections for each
    /// room of it, or one in all where they are in order.
    fn pass_through(&self, bytes: &[u8], room: &mut [u8]) -> bool
        requires laid_out { IsLaidOut bytes.now self.now.layout }
        requires fits { directory_fits self.now.layout.size self.now.directory ≡ true }
        requires some { 0 < length room.old }
        ensures passes { OnTrue result (AreRead (form_in bytes.now self.now.layout) self.now.layout.size self.now.directory) }
        ensures fails { OnFalse result (AreRefused (form_in bytes.now self.now.layout) self.now.layout.size self.now.directory) }
    {
        let mut at = self.directory.base as usize;
        let mut window = Window::new(bytes, &self.layout, at);
        lay_out(bytes, &self.layout, &window, room);
        while let Some(head) = self.head_at(bytes, &mut window, room, at) {
            if !self.block_passes(bytes, &mut window, room, at, &head) {
                return false;
            }
            at += head.size as usize;
        }
        true
    }

    /// Whether the relocations of a small directory pass.
    fn small_pass(&self, bytes: &[u8]) -> bool
        requires laid_out { IsLaidOut bytes.now self.now.layout }
        requires fits { directory_fits self.now.layout.size self.now.directory ≡ true }
        ensures passes { OnTrue result (AreRead (form_in bytes.now self.now.layout) self.now.layout.size self.now.directory) }
        ensures fails { OnFalse result (AreRefused (form_in bytes.now self.now.layout) self.now.layout.size self.now.directory) }
    {
        let mut room = [0; SMALL_ROOM];
        self.pass_through(bytes, &mut room)
    }

    /// Whether the relocations of a large directory pass; the room lies on the stack.
    #[inline(never)]
    fn large_pass(&self, bytes: &[u8]) -> bool
        requires laid_out { IsLaidOut bytes.now self.now.layout }
        requires fits { directory_fits self.now.layout.size self.now.directory ≡ true }
        ensures passes { OnTrue result (AreRead (form_in bytes.now self.now.layout) self.now.layout.size self.now.directory) }
        ensures fails { OnFalse result (AreRefused (form_in bytes.now self.now.layout) self.now.layout.size self.now.directory) }
    {
        let mut room = [0; ROOM];
        self.pass_through(bytes, &mut room)
    }

    /// Whether the relocations pass; it costs what `pass_through` does, with rooms of 65,536 bytes, or one of 4,096 where that is all.
    pub(crate) fn pass(&self, bytes: &[u8]) -> bool
        requires laid_out { IsLaidOut bytes.now self.now.layout }
        requires base { self.now.directory.base < 4294967296 }
        requires length { self.now.directory.length < 4294967296 }
        ensures passes { OnTrue result (AreRead (form_in bytes.now self.now.layout) self.now.layout.size self.now.directory) }
        ensures fails { OnFalse result (AreRefused (form_in bytes.now self.now.layout) self.now.layout.size self.now.directory) }
    {
        if !self.fit() {
            return false;
        }
        if self.directory.length <= SMALL_ROOM as u64 {
            return self.small_pass(bytes);
        }
        self.large_pass(bytes)
    }
}

/// Whether a block of this size at a place has its head and whole entries, and leads past no end.
fn size_fits(at: usize, size: usize, end: usize) -> bool
    requires near { at ≤ 16777216 }
    requires few { size < 4294967296 }
    ensures { result ≡ (nat_le 8 size && (size % 2 == 0) && nat_le (at + size) end) }
{
    HEAD_BYTES <= size && size % 2 == 0 && at + size <= end
}
