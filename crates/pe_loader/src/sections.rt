//! The checks of sections and of the entry point.
ghost use Rattle.std.specs.Prelude.{◌≡◌, ◌+◌, ◌≤◌, ◌<◌, ◌&&◌, ◌||◌, ◌==◌, nat_le, [], ◌∷◌, length, None, OnOk, IfErr};
ghost use Rattle.std.specs.Bool.{OnTrue};
ghost use Rattle.std.specs.List.{list_any};
ghost use Rattle.mm_base.specs.Checks.{first_failing};
ghost use Rattle.pe_loader.specs.Headers.{FailsFirst};
ghost use Rattle.pe_loader.specs.Sections.{part_of, parts_of, lies_in as is_within, section_checks, holds_code as has_code_at, entry_passes as entry_is_fit, entry_check};
ghost use Rattle.pe_loader.specs.LayoutInside.{HasHeaders, HasTable, AreInOrder, IsScan, ArePassed};

use crate::fields::ADDRESS_OF_ENTRY_POINT;
use crate::header::{EBC, field, image_size, machine, optional_at};
use crate::layout::{EXECUTE, Layout};
use crate::overlaps::count_apart;
use crate::pe_fault::fault;
use mm_base::{Part, PeFault, PeKind, check};

/// What a first look at the section table tells: how many sections from its front on lie where they may, and whether none of these
/// begins in front of the end of an earlier one.
#[derive(Clone, Copy, Debug, PartialEq, Eq)]
struct Scan {
    count: u16,
    ordered: bool,
}

/// Whether a section lies behind the headers and in the image, and what it copies lies in the file.
fn lies_in(bytes: &[u8], layout: &Layout, part: &Part) -> bool
    ensures { result ≡ is_within bytes.now layout.now.headers layout.now.size part.now }
{
    layout.headers <= part.at
        && part.at as u64 + part.length as u64 <= layout.size as u64
        && (part.copied == 0 || part.raw as usize + part.copied as usize <= bytes.len())
}

/// Whether sections that were in order so far, and end at `highest` or before, stay so with this one; one without bytes may stand
/// anywhere.
fn stays_ordered(ordered: bool, part: &Part, highest: u32) -> bool
    ensures { result ≡ (ordered && ((part.now.length == 0) || nat_le highest part.now.at)) }
{
    ordered && (part.length == 0 || highest <= part.at)
}

/// Looks at the sections in the order of their table, up to the first that lies where it may not; linear in them.
fn first_look(bytes: &[u8], layout: &Layout) -> Scan
    requires { HasTable bytes.now layout.now }
    ensures { IsScan bytes.now layout.now result }
{
    let mut highest = 0;
    let mut ordered = true;
    for k in 0..layout.count {
        let part = layout.part(bytes, k);
        if !lies_in(bytes, layout, &part) {
            return Scan { count: k, ordered };
        }
        ordered = stays_ordered(ordered, &part, highest);
        highest = highest.max(part.at + part.length);
    }
    Scan {
        count: layout.count,
        ordered,
    }
}

/// How many sections from the front of the table on pass their checks. Linear in them where none begins in front of the end of an
/// earlier one; else one pass over them for each window of 65,536 places that one of them reaches.
fn count_passed(bytes: &[u8], layout: &Layout) -> u16
    requires { HasTable bytes.now layout.now }
    ensures { ArePassed bytes.now layout.now result }
{
    let look = first_look(bytes, layout);
    if look.ordered {
        return look.count;
    }
    count_apart(bytes, layout, look.count)
}

/// Checks the sections in the order of their table; the first that fails is the fault. It costs what `count_passed` does.
pub(crate) fn check_sections(bytes: &[u8], layout: &Layout) -> Result<(), PeFault>
    requires table { HasTable bytes.now layout.now }
    requires few { length bytes.now ≤ 16777216 }
    ensures ok { OnOk result (first_failing (section_checks bytes.now layout.now) ≡ None) }
    ensures fault { IfErr result (FailsFirst (section_checks bytes.now layout.now)) }
{
    let passed = count_passed(bytes, layout);
    check(
        passed == layout.count,
        fault(layout.entry(bytes, passed) as u32, PeKind::Section),
    )
}

/// Whether two bytes from a place on lie in a section that may be executed.
fn holds_code(place: u32, part: &Part) -> bool
    ensures { result ≡ has_code_at place part.now }
{
    part.rights & EXECUTE != 0
        && part.at <= place
        && place as u64 + 2 <= part.at as u64 + part.length as u64
}

/// Whether two bytes from a place on lie in some section that may be executed; linear in the sections.
fn is_code(bytes: &[u8], layout: &Layout, place: u32) -> bool
    requires { HasTable bytes.now layout.now }
    ensures { result ≡ list_any (has_code_at place) (parts_of bytes.now layout.now) }
{
    for k in 0..layout.count {
        if holds_code(place, &layout.part(bytes, k)) {
            return true;
        }
    }
    false
}

/// Whether the entry point is where code can begin; linear in the sections.
fn entry_passes(bytes: &[u8]) -> bool
    requires { HasHeaders bytes.now }
    ensures { result ≡ entry_is_fit bytes.now }
{
    let entry = field(bytes, ADDRESS_OF_ENTRY_POINT);
    if machine(bytes) == EBC {
        entry % 2 == 0 && is_code(bytes, &Layout::of(bytes), entry)
    } else {
        entry < image_size(bytes)
    }
}

/// Checks the entry point.
pub(crate) fn check_entry(bytes: &[u8]) -> Result<(), PeFault>
    requires headers { HasHeaders bytes.now }
    requires few { length bytes.now ≤ 16777216 }
    ensures ok { OnOk result (first_failing (entry_check bytes.now ∷ []) ≡ None) }
    ensures fault { IfErr result (FailsFirst (entry_check bytes.now ∷ [])) }
{
    check(
        entry_passes(bytes),
        fault(
            optional_at(bytes) as u32 + ADDRESS_OF_ENTRY_POINT as u32,
            PeKind::Entry,
        ),
    )
}

/// Whether each section ends before the next of the table begins; linear in them.
pub(crate) fn are_in_order(bytes: &[u8], layout: &Layout) -> bool
    requires { HasTable bytes.now layout.now }
    ensures { OnTrue result (AreInOrder bytes.now layout.now) }
{
    let mut highest = 0;
    for k in 0..layout.count {
        let part = layout.part(bytes, k);
        if (part.at as u64) < highest {
            return false;
        }
        highest = part.at as u64 + part.length as u64;
    }
    true
}
