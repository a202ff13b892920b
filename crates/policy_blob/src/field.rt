//! The fields of a rule: which numbers they may have, and what these stand for.
ghost use Rattle.std.specs.Prelude.{◌≡◌, ◌≤◌, ◌+◌, ◌^◌, true, false, nat_le, IfSome, IsNone};
ghost use Rattle.policy_blob.specs.Faults.{is_kind, are_rights, is_range};
ghost use Rattle.policy_blob.specs.Spelling.{kind_number, action_number};

use crate::layout::MOST_RIGHTS;
use mm_base::{Kind, Range};

/// The kind that a number stands for.
pub(crate) fn kind_of(number: u64) -> Option<Kind>
    ensures some { IfSome result (λ kind. (kind_number kind ≡ number) × (is_kind number ≡ true)) }
    ensures none { IsNone result → is_kind number ≡ false }
{
    match number {
        1 => Some(Kind::Memory),
        2 => Some(Kind::Io),
        3 => Some(Kind::Msr),
        4 => Some(Kind::Saved),
        _ => None,
    }
}

/// The number of a kind.
pub(crate) fn number_of_kind(kind: Kind) -> u16
    ensures { result ≡ kind_number kind }
{
    match kind {
        Kind::Memory => 1,
        Kind::Io => 2,
        Kind::Msr => 3,
        Kind::Saved => 4,
    }
}

/// The number of an action.
pub(crate) fn number_of_action(allow: bool) -> u16
    ensures { result ≡ action_number allow }
{
    if allow { 1 } else { 0 }
}

/// Whether a rule with this number of an action allows.
pub(crate) fn action_of(number: u64) -> Option<bool>
    ensures some { IfSome result (λ allow. (action_number allow ≡ number) × (nat_le number 1 ≡ true)) }
    ensures none { IsNone result → nat_le number 1 ≡ false }
{
    match number {
        0 => Some(false),
        1 => Some(true),
        _ => None,
    }
}

/// The rights that a number stands for, in a rule of an action.
pub(crate) fn rights_of(allow: bool, number: u64) -> Option<u8>
    ensures some { IfSome result (λ rights. (rights ≡ number) × (are_rights allow number ≡ true)) }
    ensures none { IsNone result → are_rights allow number ≡ false }
{
    let fit = if allow {
        1 <= number && number <= MOST_RIGHTS
    } else {
        number == 0
    };
    if fit { Some(number as u8) } else { None }
}

/// The range of a base and a length, where it isn't empty and ends at 2^64 or before.
pub(crate) fn range_of(base: u64, length: u64) -> Option<Range>
    ensures some { IfSome result (λ range. (range ≡ record { base = base; length = length }) × (is_range base length ≡ true)) }
    ensures none { IsNone result → is_range base length ≡ false }
{
    if length == 0 {
        return None;
    }
    Range::new(base, length)
}
