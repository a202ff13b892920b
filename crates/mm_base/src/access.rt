//! Accesses of a demoted image: what they are of, and why one passes or is denied.
ghost use Rattle.std.specs.Prelude.{◌≡◌};
ghost use Rattle.mm_base.specs.Rights.{bit_of, have_right};

/// What an access is of.
#[derive(Clone, Copy, Debug, PartialEq, Eq)]
pub enum Kind {
    /// A byte of memory.
    Memory,
    /// A byte of the I/O ports.
    Io,
    /// A model-specific register.
    Msr,
    /// A saved register of the processor that entered.
    Saved,
}

/// What an access wants to do.
#[derive(Clone, Copy, Debug, PartialEq, Eq)]
pub enum Right {
    Read,
    Write,
    Execute,
}

impl Right {
    /// The bit of a set of rights that stands for it: 1 for read, 2 for write, 4 for execute.
    pub fn bit(self) -> u8
        ensures { result ≡ bit_of self }
    {
        match self {
            Right::Read => 1,
            Right::Write => 2,
            Right::Execute => 4,
        }
    }

    /// Whether a set of rights has it.
    pub fn is_among(self, rights: u8) -> bool
        ensures { result ≡ have_right rights self }
    {
        rights & self.bit() != 0
    }
}

/// What decided an access.
#[derive(Clone, Copy, Debug, PartialEq, Eq)]
pub enum Why {
    /// One of the image's own ranges.
    Home,
    /// The place doesn't exist, or the range wraps.
    Range,
    /// Management-mode memory that is not the image's own.
    Mmram,
    /// The window that the lanes share with the operating system.
    Buffer,
    /// The rule of the policy with this number, counted from 0.
    Rule(u32),
    /// No rule overlaps the access.
    NoRule,
    /// The invocation had made all the cell writes that it may make.
    Quota,
}

/// What becomes of an access, and what decided that.
#[derive(Clone, Copy, Debug, PartialEq, Eq)]
pub enum Verdict {
    Pass(Why),
    Deny(Why),
}

/// An access that was denied: `n` units of `kind` from `at`.
#[derive(Clone, Copy, Debug, PartialEq, Eq)]
pub struct Denial {
    pub kind: Kind,
    pub right: Right,
    pub at: u64,
    pub n: u8,
    pub why: Why,
}
