//! Opcodes of dependency expressions: PI 1.8, volume 2, the dependency expression instruction set.

/// The driver is to be scheduled before the one with the GUID that follows.
pub(crate) const BEFORE: u8 = 0x00;

/// The driver is to be scheduled behind the one with the GUID that follows.
pub(crate) const AFTER: u8 = 0x01;

/// An operand: whether the protocol with the GUID that follows is installed.
pub(crate) const PUSH: u8 = 0x02;

/// The conjunction of two operands.
pub(crate) const AND: u8 = 0x03;

/// The disjunction of two operands.
pub(crate) const OR: u8 = 0x04;

/// The negation of an operand.
pub(crate) const NOT: u8 = 0x05;

/// The operand that holds.
pub(crate) const TRUE: u8 = 0x06;

/// The operand that doesn't hold.
pub(crate) const FALSE: u8 = 0x07;

/// The end of the expression.
pub(crate) const END: u8 = 0x08;

/// The most operands that may stand at once. This limit is the project's own.
pub(crate) const MOST_OPERANDS: usize = 256;
