//! Items of a dependency expression.
ghost use Rattle.std.specs.Prelude.{◌≡◌, ◌+◌, length};
ghost use Rattle.depex.specs.Trees.{taken_by, guid_of};
ghost use Rattle.depex.specs.FindingInside.{IsWhole};

use mm_base::{GUID_BYTES, Guid};

/// An opcode with what belongs to it. Operands stand in front of their operator.
#[derive(Clone, Copy, Debug, PartialEq, Eq)]
pub(crate) enum Item {
    /// Whether the protocol with this GUID is installed.
    Push(Guid),
    And,
    Or,
    Not,
    True,
    False,
}

impl Item {
    /// How many operands it takes. It leaves one.
    pub(crate) fn takes(&self) -> usize
        ensures { result ≡ taken_by self.now }
    {
        match self {
            Item::Push(_) | Item::True | Item::False => 0,
            Item::Not => 1,
            Item::And | Item::Or => 2,
        }
    }

    /// How many bytes it has.
    pub(crate) fn len(&self) -> usize
        requires { IsWhole self.now }
        ensures { result ≡ 1 + length (guid_of self.now) }
    {
        match self {
            Item::Push(_) => 1 + GUID_BYTES,
            _ => 1,
        }
    }
}
