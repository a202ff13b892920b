//! Operations of EFI Byte Code: what is computed of two operands, and what is tested.

/// What an instruction computes (UEFI 2.10, chapter 22; the instruction's name there is the variant's, unless it is said).
#[derive(Clone, Copy, Debug, PartialEq, Eq)]
pub enum AluOp {
    Not,
    Neg,
    Add,
    Sub,
    /// The signed product.
    Mul,
    /// The unsigned product.
    Mulu,
    /// The signed quotient, cut towards 0.
    Div,
    /// The unsigned quotient.
    Divu,
    /// The remainder of the signed quotient.
    Mod,
    /// The remainder of the unsigned quotient.
    Modu,
    And,
    Or,
    Xor,
    Shl,
    /// The shift to the right that fills with 0.
    Shr,
    /// The shift to the right that fills with the sign.
    Ashr,
    /// EXTNDB: the low byte with its sign extended.
    ExtendByte,
    /// EXTNDW: the low 16 bits with their sign extended.
    ExtendWord,
    /// EXTNDD: the low 32 bits with their sign extended.
    ExtendDouble,
}

/// What a comparison tests of its two operands.
#[derive(Clone, Copy, Debug, PartialEq, Eq)]
pub enum CmpOp {
    /// CMPeq: they are equal.
    Equal,
    /// CMPlte: the first is at most the second, both signed.
    LessOrEqual,
    /// CMPgte: the first is at least the second, both signed.
    GreaterOrEqual,
    /// CMPulte: the first is at most the second, both unsigned.
    UnsignedLessOrEqual,
    /// CMPugte: the first is at least the second, both unsigned.
    UnsignedGreaterOrEqual,
}
