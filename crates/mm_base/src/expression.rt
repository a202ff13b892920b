//! Dependency expressions, as they are read.

/// The first fault of bytes that spell no dependency expression. The places count from the first byte.
#[derive(Clone, Copy, Debug, PartialEq, Eq)]
pub enum DepexFault {
    /// END is the first byte.
    Empty,
    /// The bytes end before END.
    NoEnd,
    /// The byte is no opcode.
    Unknown(u32),
    /// An operator has too few operands.
    Underflow(u32),
    /// At END there are two operands or more.
    Leftover(u32),
    /// A BEFORE or AFTER isn't first, or something else than END stands after it.
    BeforeNotFirst(u32),
    /// The operand would be the 257th.
    TooDeep(u32),
}
