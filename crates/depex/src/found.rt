//! What is found at a place of an expression.
use crate::item::Item;
use mm_base::DepexFault;

/// What stands at a place, behind so many operands.
#[derive(Clone, Copy, Debug, PartialEq, Eq)]
pub(crate) enum Found {
    /// END, behind the one operand that is the expression.
    End,
    /// An item that may stand there.
    Next(Item),
    /// The first fault.
    Refused(DepexFault),
}
