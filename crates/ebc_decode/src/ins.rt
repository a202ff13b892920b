//! Instructions.
use crate::choices::{BreakCode, Condition, Special, StackOp};
use crate::operand::{Field, FieldWidth, Operand, Place, Target, Width};
use mm_base::{AluOp, CmpOp};

/// An instruction of EFI Byte Code (UEFI 2.10, 22.8), a variant for each row of its table of opcodes. `wide` is whether
/// it works on 64 bits, else it works on 32.
#[derive(Clone, Copy, Debug, PartialEq, Eq)]
pub enum Ins {
    /// 00 BREAK.
    Break(BreakCode),
    /// 01 JMP.
    Jump {
        when: Condition,
        relative: bool,
        target: Target,
    },
    /// 02 JMP8.
    ShortJump {
        when: Condition,
        /// Byte 1 as it stands: a signed number of two bytes each.
        distance: u8,
    },
    /// 03 CALL.
    Call {
        native: bool,
        relative: bool,
        target: Target,
    },
    /// 04 RET.
    Return,
    /// 05 to 09 CMP: operand 1 is a register, and a field of operand 2 has 16 bits.
    Compare {
        op: CmpOp,
        wide: bool,
        first: u8,
        second: Operand,
    },
    /// 0A to 1C, from NOT to EXTNDD: a field of operand 2 has 16 bits.
    Compute {
        op: AluOp,
        wide: bool,
        first: Place,
        second: Operand,
    },
    /// 1D to 24 and 28 MOV, with indexes of one width.
    Move {
        moved: Width,
        index: FieldWidth,
        first: Operand,
        second: Operand,
    },
    /// 25 and 26 MOVSN: the field of a direct operand 2 is an immediate. Fields have 16 or 32 bits.
    MoveSigned {
        index: FieldWidth,
        first: Operand,
        second: Operand,
    },
    /// 32 and 33 MOVN, with indexes of 16 or 32 bits.
    MoveNatural {
        index: FieldWidth,
        first: Operand,
        second: Operand,
    },
    /// 29 LOADSP: the flags are loaded from a register.
    LoadFlags {
        register: u8,
    },
    /// 2A STORESP.
    StoreSpecial {
        register: u8,
        from: Special,
    },
    /// 2B PUSH and 2C POP: a field has 16 bits.
    Stack {
        op: StackOp,
        wide: bool,
        operand: Operand,
    },
    /// 35 PUSHN and 36 POPN: a field has 16 bits.
    StackNatural {
        op: StackOp,
        operand: Operand,
    },
    /// 2D to 31 CMPI: an index of 16 bits, and an immediate of 16 or 32.
    CompareImmediate {
        op: CmpOp,
        wide: bool,
        first: Operand,
        immediate: Field,
    },
    /// 37 MOVI: an index of 16 bits, and an immediate, which has a width of its own.
    MoveImmediate {
        moved: Width,
        first: Operand,
        immediate: Field,
    },
    /// 38 MOVIN: an index of 16 bits, and the index whose value is moved.
    MoveIndex {
        first: Operand,
        index: Field,
    },
    /// 39 MOVREL: an index of 16 bits, and an immediate that is added to the next address.
    MoveRelative {
        first: Operand,
        immediate: Field,
    },
}
