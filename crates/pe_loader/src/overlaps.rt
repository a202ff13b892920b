//! Which sections share no byte with earlier ones, found through windows: in a window each section marks its places, and one that meets a
//! mark shares a byte with an earlier one.
ghost use Rattle.std.specs.Prelude.{◌≡◌, ◌+◌, ◌≤◌, ◌<◌, ◌&&◌, ℕ, nat_le, nat_lt, true, false, if◌then◌else◌, get_or, length, min};
ghost use Rattle.std.specs.Bool.{OnTrue, OnFalse};
ghost use Rattle.mm_base.specs.Range.{Has};
ghost use Rattle.pe_loader.specs.Sections.{part_of, range_of};
ghost use Rattle.pe_loader.specs.LayoutInside.{HasTable, EndBefore};
ghost use Rattle.pe_loader.specs.WindowsInside.{HasMark, HasNoMark, IsLook, AreApart};

use crate::layout::Layout;
use crate::span::Span;
use mm_base::Part;

/// How many places a window has.
const WINDOW: usize = 65_536;

/// What a look through a window tells: how many of the sections from the front on share no place of it, and from where on these have
/// bytes behind it.
#[derive(Clone, Copy, Debug, PartialEq, Eq)]
struct Look {
    first: u16,
    next: usize,
}

/// Whether one of the places is marked; linear in them.
fn has_mark(marks: &[bool], span: &Span) -> bool
    requires order { span.now.begin ≤ span.now.end }
    requires within { span.now.end ≤ length marks.now }
    ensures marked { OnTrue result (HasMark marks.now span.now.begin span.now.end) }
    ensures none { OnFalse result (HasNoMark marks.now span.now.begin span.now.end) }
{
    for place in span.begin..span.end {
        if marks[place] {
            return true;
        }
    }
    false
}

/// Marks the places; linear in them.
fn mark(marks: &mut [bool], span: &Span)
    requires order { span.now.begin ≤ span.now.end }
    requires within { span.now.end ≤ length marks.old }
    ensures each { (place : ℕ) → get_or marks.new place false
        ≡ (if nat_le span.now.begin place && nat_lt place span.now.end then true else get_or marks.old place false) }
    ensures length { length marks.new ≡ length marks.old }
{
    marks[span.begin..span.end].fill(true);
}

/// Clears all marks; linear in them.
fn clear(marks: &mut [bool])
    ensures each { (place : ℕ) → get_or marks.new place false ≡ false }
    ensures length { length marks.new ≡ length marks.old }
{
    marks.fill(false);
}

/// Where a section has its first byte from `end` on, or `limit` where it has none there.
fn next_begin(part: &Part, end: usize, limit: usize) -> usize
    ensures behind { (place : ℕ) → end ≤ place → place < result → Has (range_of part.now) place → ⊥ }
    ensures low { min end limit ≤ result }
{
    if part.length == 0 || part.at as usize + part.length as usize <= end {
        return limit;
    }
    end.max(part.at as usize)
}

/// Looks at the first `count` sections through a window that begins at `from`, up to one that shares a place with an earlier one; linear
/// in these and in the places.
fn look_through(
    bytes: &[u8],
    layout: &Layout,
    count: u16,
    from: usize,
    limit: usize,
    marks: &mut [bool],
) -> Look
    requires table { HasTable bytes.now layout.now }
    requires few { count ≤ layout.now.count }
    requires some { 0 < length marks.old }
    requires near { from < limit }
    requires low { limit ≤ 16777216 }
    ensures look { IsLook (part_of bytes.now layout.now) from (from + length marks.old) count result.first result.next }
    ensures length { length marks.new ≡ length marks.old }
{
    let end = from + marks.len();
    clear(marks);
    let mut next = limit;
    for k in 0..count {
        let part = layout.part(bytes, k);
        let span = Span::of(part.at, part.length, from, marks.len());
        if has_mark(marks, &span) {
            return Look { first: k, next };
        }
        mark(marks, &span);
        next = next.min(next_begin(&part, end, limit));
    }
    Look { first: count, next }
}

/// How many of the first `count` sections, from the front on, share no byte with earlier ones; one pass over them for each window that
/// one of them reaches.
fn count_through(bytes: &[u8], layout: &Layout, count: u16, marks: &mut [bool]) -> u16
    requires table { HasTable bytes.now layout.now }
    requires few { count ≤ layout.now.count }
    requires ended { EndBefore bytes.now layout.now count layout.now.size }
    requires some { 0 < length marks.old }
    ensures { AreApart (part_of bytes.now layout.now) count result }
{
    let limit = layout.size as usize;
    let mut first = count;
    let mut from = 0;
    while from < limit {
        let look = look_through(bytes, layout, first, from, limit, marks);
        first = look.first;
        from = look.next;
    }
    first
}

/// How many of the first `count` sections, from the front on, share no byte with earlier ones. The marks lie on the stack, 65,536 bytes,
/// so this is called only where the table isn't in order.
#[inline(never)]
pub(crate) fn count_apart(bytes: &[u8], layout: &Layout, count: u16) -> u16
    requires table { HasTable bytes.now layout.now }
    requires few { count ≤ layout.now.count }
    requires ended { EndBefore bytes.now layout.now count layout.now.size }
    ensures { AreApart (part_of bytes.now layout.now) count result }
{
    let mut marks = [false; WINDOW];
    count_through(bytes, layout, count, &mut marks)
}
