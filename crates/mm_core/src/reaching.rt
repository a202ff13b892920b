//! What images may reach, and the units at which that can change.
ghost use Rattle.std.specs.Prelude.{◌≡◌, ◌^◌, ◌<◌, ◌≤◌, Some, length, slice_get, filter};
ghost use Rattle.image_groups.specs.Ends.{ends_of, home_ends, range_ends, rule_ends, window_ends};
ghost use Rattle.image_groups.specs.Reach.{reach};
ghost use Rattle.image_table.specs.ImageTable.{home_ranges_at};
ghost use Rattle.mm_base.specs.Kinds.{same_kind};
ghost use Rattle.mm_core.specs.ReachingInside.{ends_of_homes};
ghost use Rattle.secure_policy.specs.Laws.{passes};

use crate::core_parts::CoreParts;
use crate::machine_core::Core;
use mm_base::{Kind, Range, Right, Rule, Verdict};
use mm_memory::PlainFrames;
use supervisor_calls::Tables;

/// The begins and ends of the windows with units of a kind, 0 among them.
const MEMORY_ENDS: [u64; 7] = [
    0,
    0x4000_0000,
    0x4010_0000,
    0x8000_0000,
    0x8200_0000,
    0xfe00_0000,
    0xfe01_0000,
];

const PORT_ENDS: [u64; 2] = [0, 0x1_0000];

const MSR_ENDS: [u64; 4] = [0, 0x2000, 0xc000_0000, 0xc000_2000];

const SAVED_ENDS: [u64; 2] = [0, 19];

impl Core {
    /// Whether an image may reach a unit with this right: an access to this unit alone passes. It costs one step a rule, up to the one
    /// that decides, or a number of steps in the logarithm of the image's sections.
    pub fn reaches(&self, image: u32, kind: Kind, unit: u64, right: Right) -> bool
        requires { image < length self.now.site.supervised.images }
        ensures { result ≡ reach self.now.site.supervised image kind unit right }
    {
        match &self.parts {
            CoreParts::Scripted(..) => unreachable!(),
            CoreParts::Booted(Some(tables)) => passes(tables.verdict(image, kind, unit, right)),
            CoreParts::Booted(None) => unreachable!(),
        }
    }

    /// The unit at place `k` of those at which what images may reach can change, 0 among them; None past the last. They stand in no order,
    /// and one may stand there twice. It costs two steps a rule, and one an image.
    pub fn end(&self, kind: Kind, k: u32) -> Option<u64>
        ensures value { result ≡ slice_get (ends_of kind self.now.site.supervised) k }
        ensures few { length (ends_of kind self.now.site.supervised) < 2 ^ 32 }
    {
        match &self.parts {
            CoreParts::Scripted(..) => window_end(kind, k),
            CoreParts::Booted(Some(tables)) => end_of(tables, kind, k),
            CoreParts::Booted(None) => unreachable!(),
        }
    }
}

/// Whether an access passes by this verdict.
fn passes(verdict: Verdict) -> bool
    ensures { result ≡ passes verdict }
{
    match verdict {
        Verdict::Pass(_) => true,
        Verdict::Deny(_) => false,
    }
}

/// The end at place `k` of tables: of windows, of rules, and of home ranges, in this order.
fn end_of(tables: &Tables<PlainFrames>, kind: Kind, k: u32) -> Option<u64>
    ensures value { result ≡ slice_get (ends_of kind tables.now.site) k }
    ensures few { length (ends_of kind tables.now.site) < 2 ^ 32 }
{
    tables.keeps();
    let rules = tables.policy().rules.as_slice();
    let windows = count_window_ends(kind);
    if k < windows {
        return window_end(kind, k);
    }
    let past_windows = k - windows;
    let ends = 2 * count_rules(rules, kind);
    if past_windows < ends {
        return rule_end(rules, kind, past_windows);
    }
    match kind {
        Kind::Memory => home_end(tables, past_windows - ends),
        Kind::Io | Kind::Msr | Kind::Saved => None,
    }
}

/// How many ends the windows with units of a kind have.
fn count_window_ends(kind: Kind) -> u32
    ensures { result ≡ length (window_ends kind) }
{
    match kind {
        Kind::Memory => MEMORY_ENDS.len() as u32,
        Kind::Io => PORT_ENDS.len() as u32,
        Kind::Msr => MSR_ENDS.len() as u32,
        Kind::Saved => SAVED_ENDS.len() as u32,
    }
}

/// The end at place `k` of those of the windows with units of a kind; None past the last.
fn window_end(kind: Kind, k: u32) -> Option<u64>
    ensures { result ≡ slice_get (window_ends kind) k }
{
    match kind {
        Kind::Memory => MEMORY_ENDS.get(k as usize).copied(),
        Kind::Io => PORT_ENDS.get(k as usize).copied(),
        Kind::Msr => MSR_ENDS.get(k as usize).copied(),
        Kind::Saved => SAVED_ENDS.get(k as usize).copied(),
    }
}

/// How many rules are of a kind.
fn count_rules(rules: &[Rule], kind: Kind) -> u32
    requires { length rules.now ≤ 1024 }
    ensures { result ≡ length (filter (λ rule. same_kind rule.kind kind) rules.now) }
{
    rules.iter().filter(|rule| rule.kind == kind).count() as u32
}

/// The rule at place `k` of those of a kind; None past the last.
fn rule_of(rules: &[Rule], kind: Kind, k: u32) -> Option<Rule>
    ensures { result ≡ slice_get (filter (λ rule. same_kind rule.kind kind) rules.now) k }
{
    rules
        .iter()
        .filter(|rule| rule.kind == kind)
        .nth(k as usize)
        .copied()
}

/// The end at place `k` of those of the rules of a kind; None past the last.
fn rule_end(rules: &[Rule], kind: Kind, k: u32) -> Option<u64>
    ensures { result ≡ slice_get (rule_ends kind rules.now) k }
{
    let rule = rule_of(rules, kind, k / 2)?;
    Some(range_end(&rule.range, k % 2))
}

/// The end at place `k` of those of the home ranges of all images; None past the last. It costs one step an image.
fn home_end(tables: &Tables<PlainFrames>, k: u32) -> Option<u64>
    ensures { result ≡ slice_get (home_ends tables.now.site.images) k }
{
    let mut left = k;
    for image in 0..tables.images() {
        let ends = 2 * tables.home_ranges(image);
        if left < ends {
            return home_range_end(tables, image, left);
        }
        left -= ends;
    }
    None
}

/// The end at place `k` of those of the home ranges of an image; None past the last.
fn home_range_end(tables: &Tables<PlainFrames>, image: u32, k: u32) -> Option<u64>
    requires { image < length tables.now.site.images }
    ensures { result ≡ slice_get (ends_of_homes (home_ranges_at tables.now.site.images image)) k }
{
    let (range, _) = tables.home_range(image, k / 2)?;
    Some(range_end(&range, k % 2))
}

/// Where a range begins, for `side` 0, and where it ends, for 1. An end past the last unit that there is counts as 0.
fn range_end(range: &Range, side: u32) -> u64
    requires { side < 2 }
    ensures { slice_get (range_ends range.now) side ≡ Some result }
{
    if side == 0 {
        range.base
    } else {
        range.base.checked_add(range.length).unwrap_or(0)
    }
}
