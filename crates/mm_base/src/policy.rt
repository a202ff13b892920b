//! Policies: what images may access beside their own ranges.
use crate::{Guid, Kind, List, Range};

/// One rule. `rights` has bit 1 for read and bit 2 for write, and is 0 exactly where the rule denies. The GUID of zeros stands
/// for every owner.
#[derive(Clone, Copy, Debug, PartialEq, Eq)]
pub struct Rule {
    pub kind: Kind,
    pub allow: bool,
    pub rights: u8,
    pub owner: Guid,
    pub range: Range,
}

/// Rules, of which the first that overlaps an access decides it, and the fuel of an invocation.
#[derive(Debug, Drop)]
pub struct Policy {
    pub rules: List<Rule>,
    pub fuel: u32,
}

/// What the bytes of a policy are refused for, in the order in which it is checked.
#[derive(Clone, Copy, Debug, PartialEq, Eq)]
pub enum PolicyKind {
    /// The policy file's body isn't sound, one of its sections is refused, or it has no raw section.
    File,
    /// There are fewer bytes than the header has, or than all rules have.
    Short,
    /// The signature isn't `MMSP`.
    Magic,
    /// The version isn't 1.
    Version,
    /// The reserved field isn't 0.
    Reserved,
    /// There are more than 1,024 rules.
    Count,
    /// The fuel is 0, or over 1,000,000.
    Fuel,
    /// A rule's kind is none of memory, I/O, MSR and save state.
    Kind,
    /// A rule's action is neither deny nor allow.
    Action,
    /// A rule's rights are not those of its action.
    Rights,
    /// A rule's range is empty, or ends past 2^64.
    Length,
    /// Bytes stand after the last rule.
    Trailing,
}

/// The first check that the bytes of a policy fail, and the place in them that it names.
#[derive(Clone, Copy, Debug, PartialEq, Eq)]
pub struct PolicyFault {
    pub at: u32,
    pub kind: PolicyKind,
}
