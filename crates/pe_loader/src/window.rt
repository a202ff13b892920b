//! The plain form of an image, laid out in a room from a place on.
ghost use Rattle.std.specs.Prelude.{◌≡◌, ◌+◌, ◌*◌, ◌-◌, ◌≤◌, ◌<◌, ◌&&◌, ℕ, nat_lt, nat_le, if◌then◌else◌, length, slice_index, true, false};
ghost use Rattle.mm_base.specs.Numbers.{number_in};
ghost use Rattle.pe_loader.specs.Sections.{part_of};
ghost use Rattle.pe_loader.specs.Forms.{copies_to};
ghost use Rattle.pe_loader.specs.LayoutInside.{HasTable, HasCopy, IsLaidOut, EndBefore};
ghost use Rattle.pe_loader.specs.ReadingInside.{byte_of, form_in, Shows, IsWindow, IsReady};

use crate::layout::Layout;
use crate::sections::are_in_order;
use crate::span::Span;
use crate::writing::put;
use mm_base::Part;

/// A window over the plain form: where it begins, whether the sections stand in the table in the order of their places, and how many from
/// the front of the table on have ended in front of it. Its bytes lie in a room beside it. It goes forth only, so that a table in order
/// is gone through once.
#[derive(Clone, Copy, Debug, PartialEq, Eq)]
pub(crate) struct Window {
    ordered: bool,
    first: u16,
    begin: usize,
}

/// Copies what of the headers lies from a place on, and makes all behind them 0; linear in the room.
fn lay_headers(bytes: &[u8], layout: &Layout, begin: usize, room: &mut [u8])
    requires { HasTable bytes.now layout.now }
    ensures each { (place : ℕ) → place < length room.old
        → slice_index room.new place ≡ (if nat_lt (begin + place) layout.now.headers then slice_index bytes.now (begin + place) else 0) }
    ensures length { length room.new ≡ length room.old }
{
    room.fill(0);
    let count = (layout.headers as usize)
        .saturating_sub(begin)
        .min(room.len());
    if count != 0 {
        put(room, 0, &bytes[begin..begin + count]);
    }
}

/// Copies what of a section's bytes in the file lies in a room that begins at a place; linear in it.
fn copy_part(bytes: &[u8], part: &Part, begin: usize, room: &mut [u8])
    requires { HasCopy bytes.now part.now }
    ensures each { (place : ℕ) → place < length room.old
        → slice_index room.new place
        ≡ (if copies_to (begin + place) part.now
        then slice_index bytes.now (part.now.raw + (begin + place - part.now.at))
        else slice_index room.old place) }
    ensures length { length room.new ≡ length room.old }
{
    let span = Span::of(part.at, part.copied, begin, room.len());
    if span.begin < span.end {
        let raw = part.raw as usize + (begin + span.begin - part.at as usize);
        put(room, span.begin, &bytes[raw..raw + (span.end - span.begin)]);
    }
}

/// Lays the plain form out in a room, from where the window begins on; linear in the room, and in the sections behind `first` that the
/// window may meet: where they are in order, those up to the first one behind it, and else all.
pub(crate) fn lay_out(bytes: &[u8], layout: &Layout, window: &Window, room: &mut [u8])
    requires laid_out { IsLaidOut bytes.now layout.now }
    requires window { IsWindow bytes.now layout.now window.now }
    ensures shows { Shows bytes.now layout.now window.now.begin room.new }
    ensures length { length room.new ≡ length room.old }
{
    lay_headers(bytes, layout, window.begin, room);
    for k in window.first..layout.count {
        let part = layout.part(bytes, k);
        if window.is_behind(&part, room.len()) {
            return;
        }
        copy_part(bytes, &part, window.begin, room);
    }
}

/// How many sections of the table have ended at a place, from its front up to one that hasn't; linear in those behind `first`.
fn ended_at(bytes: &[u8], layout: &Layout, first: u16, at: usize) -> u16
    requires table { HasTable bytes.now layout.now }
    requires few { first ≤ layout.now.count }
    requires ended { EndBefore bytes.now layout.now first at }
    ensures few { result ≤ layout.now.count }
    ensures ended { EndBefore bytes.now layout.now result at }
{
    for k in first..layout.count {
        let part = layout.part(bytes, k);
        if part.at as usize + part.length as usize > at {
            return k;
        }
    }
    layout.count
}

impl Window {
    /// A window at the front; constant, since it asks for no order.
    pub(crate) fn front() -> Window
        ensures { result ≡ record { ordered = false; first = 0; begin = 0 } }
    {
        Window {
            ordered: false,
            first: 0,
            begin: 0,
        }
    }

    /// A window at a place; linear in the sections.
    pub(crate) fn new(bytes: &[u8], layout: &Layout, begin: usize) -> Window
        requires { HasTable bytes.now layout.now }
        ensures window { IsWindow bytes.now layout.now result }
        ensures begin { result.begin ≡ begin }
    {
        Window {
            ordered: are_in_order(bytes, layout),
            first: ended_at(bytes, layout, 0, begin),
            begin,
        }
    }

    /// Whether this section and all later ones of the table begin behind the window with so many places.
    fn is_behind(&self, part: &Part, places: usize) -> bool
        ensures { result ≡ (self.now.ordered && nat_le places (part.now.at - self.now.begin)) }
    {
        self.ordered && places <= (part.at as usize).saturating_sub(self.begin)
    }

    /// Moves the window to a place, which lies behind it, and lays out what it shows; it costs what `lay_out` does.
    fn move_to(&mut self, bytes: &[u8], layout: &Layout, room: &mut [u8], at: usize)
        requires laid_out { IsLaidOut bytes.now layout.now }
        requires ready { IsReady bytes.now layout.now self.old room.old at }
        ensures ready { IsReady bytes.now layout.now self.new room.new at }
        ensures begin { self.new.begin ≡ at }
        ensures length { length room.new ≡ length room.old }
    {
        let moved = Window {
            ordered: self.ordered,
            first: ended_at(bytes, layout, self.first, at),
            begin: at,
        };
        lay_out(bytes, layout, &moved, room);
        *self = moved;
    }

    /// The byte at a place of the plain form; constant but where the window has to move.
    fn byte(&mut self, bytes: &[u8], layout: &Layout, room: &mut [u8], at: usize) -> u8
        requires laid_out { IsLaidOut bytes.now layout.now }
        requires ready { IsReady bytes.now layout.now self.old room.old at }
        ensures byte { result ≡ byte_of bytes.now layout.now at }
        ensures ready { IsReady bytes.now layout.now self.new room.new at }
        ensures length { length room.new ≡ length room.old }
    {
        if at - self.begin >= room.len() {
            self.move_to(bytes, layout, room, at);
            return room[0];
        }
        room[at - self.begin]
    }

    /// The 16-bit number at a place of the plain form.
    pub(crate) fn word(&mut self, bytes: &[u8], layout: &Layout, room: &mut [u8], at: usize) -> u16
        requires laid_out { IsLaidOut bytes.now layout.now }
        requires ready { IsReady bytes.now layout.now self.old room.old at }
        requires within { at + 2 ≤ layout.now.size }
        ensures number { result ≡ number_in (form_in bytes.now layout.now) at 2 }
        ensures ready { IsReady bytes.now layout.now self.new room.new (at + 2) }
    {
        let low = self.byte(bytes, layout, room, at);
        let high = self.byte(bytes, layout, room, at + 1);
        u16::from(low) + 256 * u16::from(high)
    }

    /// The 32-bit number at a place of the plain form.
    pub(crate) fn double(
        &mut self,
        bytes: &[u8],
        layout: &Layout,
        room: &mut [u8],
        at: usize,
    ) -> u32
        requires laid_out { IsLaidOut bytes.now layout.now }
        requires ready { IsReady bytes.now layout.now self.old room.old at }
        requires within { at + 4 ≤ layout.now.size }
        ensures number { result ≡ number_in (form_in bytes.now layout.now) at 4 }
        ensures ready { IsReady bytes.now layout.now self.new room.new (at + 4) }
    {
        let low = self.word(bytes, layout, room, at);
        let high = self.word(bytes, layout, room, at + 2);
        u32::from(low) + 65536 * u32::from(high)
    }
}
