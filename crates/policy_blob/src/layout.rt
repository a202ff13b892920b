//! How the bytes of a policy are laid out.

/// The four letters that a policy begins with.
pub(crate) const SIGNATURE: [u8; 4] = *b"MMSP";

/// The version of the form.
pub(crate) const VERSION: u16 = 1;

/// How many bytes the header has.
pub(crate) const HEADER_BYTES: usize = 16;

/// How many bytes a rule has.
pub(crate) const RULE_BYTES: usize = 40;

/// The most rules that a policy has.
pub(crate) const MOST_RULES: u64 = 1_024;

/// The most fuel that a policy gives an invocation.
pub(crate) const MOST_FUEL: u64 = 1_000_000;

/// The most that the rights of a rule are: to read and to write.
pub(crate) const MOST_RIGHTS: u64 = 3;
