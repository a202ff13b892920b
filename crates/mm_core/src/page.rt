//! The communicate page of an image: what a handler in byte code is given, and what it hands back.
ghost use Rattle.std.specs.Prelude.{◌≡◌, ◌+◌, ◌<◌, ◌≤◌, ◌++◌, length, take, drop};
ghost use Rattle.mm_core.specs.CodeInside.{IsInMemory, IsRegion, IsPageLive, refreshed};
ghost use Rattle.mm_core.specs.CodeRun.{message_in, page_place};
ghost use Rattle.mm_memory.specs.Flat.{AreLive};

use crate::buffer::Buffer;
use mm_base::{Frames, Region};
use supervisor_calls::Tables;

/// Where management-mode memory begins.
const MMRAM: u64 = 0x8000_0000;

/// How many bytes the page has.
const PAGE: u32 = 4_096;

/// How many bytes the size takes, before the buffer.
const SIZE: u32 = 8;

/// How many bytes of a message the page has place for.
const ROOM: usize = 4_088;

/// The region of an image, whose communicate page may be read and written.
pub(crate) fn region_of<F: Frames>(tables: &Tables<F>, image: u32) -> Region
    requires { image < length tables.now.site.images }
    ensures region { IsRegion tables.now image result }
    ensures memory { IsInMemory result }
    ensures live { IsPageLive tables.now.pages result }
{
    tables.keeps();
    tables.region(image)
}

/// Where the page stands in memory.
fn place_of(region: Region) -> u32
    requires { IsInMemory region }
    ensures value { result ≡ page_place region }
    ensures within { page_place region + 4096 ≤ 33554432 }
{
    (region.communicate_page().base - MMRAM) as u32
}

/// Fills the page with a message: the size, the buffer's bytes for which there is place, and zeros.
pub(crate) fn fill<F: Frames>(tables: &mut Tables<F>, region: Region, buffer: &Buffer)
    requires memory { IsInMemory region }
    requires live { IsPageLive tables.old.pages region }
    ensures { tables.new ≡ refreshed region buffer.now.message tables.old }
{
    let page = place_of(region);
    let message = buffer.message();
    let (front, _) = message.split_at(ROOM.min(message.len()));
    tables.clear(page, PAGE);
    tables.load(page, &buffer.size().to_le_bytes());
    tables.load(page + SIZE, front);
}

/// Makes the message what the page says.
pub(crate) fn take_back<F: Frames>(tables: &Tables<F>, region: Region, buffer: &mut Buffer)
    requires memory { IsInMemory region }
    requires live { IsPageLive tables.now.pages region }
    ensures { buffer.new ≡ record buffer.old { message = message_in region buffer.old.message tables.now.live.memory } }
{
    let page = place_of(region);
    let count = ROOM.min(buffer.message_bytes());
    copy_back(tables, page + SIZE, count, buffer);
    buffer.resize(tables.number_in_memory(page, SIZE as u8));
}

/// Copies bytes of memory over the first `count` ones of the message. It costs a read for each eight of them.
fn copy_back<F: Frames>(tables: &Tables<F>, place: u32, count: usize, buffer: &mut Buffer)
    requires few { count ≤ length buffer.old.message.buffer }
    requires within { place + count ≤ 33554432 }
    requires live { AreLive tables.now.pages place count }
    ensures { buffer.new ≡ record buffer.old {
      message = record buffer.old.message {
        buffer = take count (drop place tables.now.live.memory) ++ drop count buffer.old.message.buffer;
      };
    } }
{
    tables.keeps();
    let mut at = 0;
    while at < count {
        let n = (count - at).min(8);
        let number = tables.number_in_memory(place + at as u32, n as u8);
        let bytes = number.to_le_bytes();
        let (piece, _) = bytes.split_at(n);
        buffer.put(at, piece);
        at += n;
    }
}
