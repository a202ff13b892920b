//! Instructions with their bytes, which were worked out by hand from the table of opcodes.
use crate::{
    BreakCode, Condition, Field, FieldWidth, Ins, Operand, Place, Special, StackOp, Target, Width,
};
use mm_base::{AluOp, CmpOp};

/// A place: direct after `r`, indirect after `m`.
macro_rules! at {
    (r $register:literal) => {
        Place { register: $register, indirect: false }
    };
    (m $register:literal) => {
        Place { register: $register, indirect: true }
    };
}

/// An operand: a place, with a field or without one.
macro_rules! on {
    ($way:ident $register:literal) => {
        Operand { place: at!($way $register), field: None }
    };
    ($way:ident $register:literal, $field:literal) => {
        Operand { place: at!($way $register), field: Some($field) }
    };
}

macro_rules! jump {
    ($when:ident, $relative:literal, $target:expr) => {
        Ins::Jump { when: Condition::$when, relative: $relative, target: $target }
    };
}

macro_rules! short_jump {
    ($when:ident, $distance:literal) => {
        Ins::ShortJump { when: Condition::$when, distance: $distance }
    };
}

macro_rules! call {
    ($native:literal, $relative:literal, $target:expr) => {
        Ins::Call { native: $native, relative: $relative, target: $target }
    };
}

macro_rules! compare {
    ($op:ident, $wide:literal, $first:literal, $second:expr) => {
        Ins::Compare { op: CmpOp::$op, wide: $wide, first: $first, second: $second }
    };
}

macro_rules! compute {
    ($op:ident, $wide:literal, $first:expr, $second:expr) => {
        Ins::Compute { op: AluOp::$op, wide: $wide, first: $first, second: $second }
    };
}

macro_rules! moves {
    ($moved:ident, $index:ident, $first:expr, $second:expr) => {
        Ins::Move { moved: Width::$moved, index: FieldWidth::$index, first: $first, second: $second }
    };
}

macro_rules! move_signed {
    ($index:ident, $first:expr, $second:expr) => {
        Ins::MoveSigned { index: FieldWidth::$index, first: $first, second: $second }
    };
}

macro_rules! move_natural {
    ($index:ident, $first:expr, $second:expr) => {
        Ins::MoveNatural { index: FieldWidth::$index, first: $first, second: $second }
    };
}

macro_rules! store_special {
    ($register:literal, $from:ident) => {
        Ins::StoreSpecial { register: $register, from: Special::$from }
    };
}

macro_rules! stack {
    ($op:ident, $wide:literal, $operand:expr) => {
        Ins::Stack { op: StackOp::$op, wide: $wide, operand: $operand }
    };
}

macro_rules! stack_natural {
    ($op:ident, $operand:expr) => {
        Ins::StackNatural { op: StackOp::$op, operand: $operand }
    };
}

macro_rules! field {
    ($width:ident, $raw:literal) => {
        Field { width: FieldWidth::$width, raw: $raw }
    };
}

macro_rules! compare_immediate {
    ($op:ident, $wide:literal, $first:expr, $width:ident, $raw:literal) => {
        Ins::CompareImmediate { op: CmpOp::$op, wide: $wide, first: $first, immediate: field!($width, $raw) }
    };
}

macro_rules! move_immediate {
    ($moved:ident, $first:expr, $width:ident, $raw:literal) => {
        Ins::MoveImmediate { moved: Width::$moved, first: $first, immediate: field!($width, $raw) }
    };
}

macro_rules! move_index {
    ($first:expr, $width:ident, $raw:literal) => {
        Ins::MoveIndex { first: $first, index: field!($width, $raw) }
    };
}

macro_rules! move_relative {
    ($first:expr, $width:ident, $raw:literal) => {
        Ins::MoveRelative { first: $first, immediate: field!($width, $raw) }
    };
}

/// Bytes with the instruction that they are.
pub(crate) type Case = (&'static [u8], Ins);

pub(crate) const CONTROL: &[Case] = &[
    (&[0x00, 0x00], Ins::Break(BreakCode::Runaway)),
    (&[0x00, 0x01], Ins::Break(BreakCode::Version)),
    (&[0x00, 0x03], Ins::Break(BreakCode::Breakpoint)),
    (&[0x00, 0x04], Ins::Break(BreakCode::SystemCall)),
    (&[0x00, 0x05], Ins::Break(BreakCode::Thunk)),
    (&[0x00, 0x06], Ins::Break(BreakCode::CompilerVersion)),
    (
        &[0x01, 0x07],
        jump!(Always, false, Target::Operand(on!(r 7))),
    ),
    (
        &[0x01, 0x9b],
        jump!(CarryClear, true, Target::Operand(on!(m 3))),
    ),
    (
        &[0x81, 0xd0, 0x04, 0x03, 0x02, 0x01],
        jump!(CarrySet, true, Target::Operand(on!(r 0, 0x01020304))),
    ),
    (
        &[0x81, 0xca, 0xff, 0xff, 0xff, 0xff],
        jump!(CarrySet, false, Target::Operand(on!(m 2, 0xffffffff))),
    ),
    (
        &[0xc1, 0x00, 1, 2, 3, 4, 5, 6, 7, 0x88],
        jump!(Always, false, Target::Immediate(0x8807060504030201)),
    ),
    (&[0x02, 0xff], short_jump!(Always, 0xff)),
    (&[0x82, 0x10], short_jump!(CarryClear, 0x10)),
    (&[0xc2, 0x80], short_jump!(CarrySet, 0x80)),
    (&[0x03, 0x23], call!(true, false, Target::Operand(on!(r 3)))),
    (&[0x03, 0x1c], call!(false, true, Target::Operand(on!(m 4)))),
    (
        &[0x83, 0x31, 0x00, 0x00, 0x00, 0x80],
        call!(true, true, Target::Operand(on!(r 1, 0x80000000))),
    ),
    (
        &[0xc3, 0x10, 0, 0, 0, 0, 0, 0, 0, 0x80],
        call!(false, true, Target::Immediate(0x8000000000000000)),
    ),
    (&[0x04, 0x00], Ins::Return),
];

pub(crate) const COMPARISONS: &[Case] = &[
    (&[0x05, 0x21], compare!(Equal, false, 1, on!(r 2))),
    (&[0x46, 0xf0], compare!(LessOrEqual, true, 0, on!(m 7))),
    (
        &[0x87, 0x56, 0xfe, 0xff],
        compare!(GreaterOrEqual, false, 6, on!(r 5, 0xfffe)),
    ),
    (
        &[0xc8, 0xc3, 0x34, 0x12],
        compare!(UnsignedLessOrEqual, true, 3, on!(m 4, 0x1234)),
    ),
    (
        &[0x49, 0x07],
        compare!(UnsignedGreaterOrEqual, true, 7, on!(r 0)),
    ),
    (
        &[0x2d, 0x01, 0x00, 0x80],
        compare_immediate!(Equal, false, on!(r 1), Bits16, 0x8000),
    ),
    (
        &[0xee, 0x0a, 0x78, 0x56, 0x34, 0x12],
        compare_immediate!(LessOrEqual, true, on!(m 2), Bits32, 0x12345678),
    ),
    (
        &[0x2f, 0x1b, 0x01, 0x10, 0x02, 0x00],
        compare_immediate!(GreaterOrEqual, false, on!(m 3, 0x1001), Bits16, 2),
    ),
    (
        &[0xf0, 0x1c, 0x01, 0x00, 0x02, 0x00, 0x00, 0xff],
        compare_immediate!(UnsignedLessOrEqual, true, on!(m 4, 1), Bits32, 0xff000002),
    ),
    (
        &[0x31, 0x05, 0x05, 0x00],
        compare_immediate!(UnsignedGreaterOrEqual, false, on!(r 5), Bits16, 5),
    ),
];

pub(crate) const OPERATIONS: &[Case] = &[
    (&[0x0a, 0x10], compute!(Not, false, at!(r 0), on!(r 1))),
    (&[0x4b, 0xb2], compute!(Neg, true, at!(r 2), on!(m 3))),
    (
        &[0x8c, 0x4b, 0x10, 0x00],
        compute!(Add, false, at!(m 3), on!(r 4, 0x10)),
    ),
    (
        &[0xcd, 0xfb, 0xf0, 0xff],
        compute!(Sub, true, at!(m 3), on!(m 7, 0xfff0)),
    ),
    (&[0x0e, 0x00], compute!(Mul, false, at!(r 0), on!(r 0))),
    (&[0x0f, 0x00], compute!(Mulu, false, at!(r 0), on!(r 0))),
    (&[0x10, 0x00], compute!(Div, false, at!(r 0), on!(r 0))),
    (&[0x11, 0x00], compute!(Divu, false, at!(r 0), on!(r 0))),
    (&[0x12, 0x00], compute!(Mod, false, at!(r 0), on!(r 0))),
    (&[0x13, 0x00], compute!(Modu, false, at!(r 0), on!(r 0))),
    (&[0x14, 0x00], compute!(And, false, at!(r 0), on!(r 0))),
    (&[0x15, 0x00], compute!(Or, false, at!(r 0), on!(r 0))),
    (&[0x16, 0x00], compute!(Xor, false, at!(r 0), on!(r 0))),
    (&[0x17, 0x00], compute!(Shl, false, at!(r 0), on!(r 0))),
    (&[0x18, 0x00], compute!(Shr, false, at!(r 0), on!(r 0))),
    (&[0x19, 0x00], compute!(Ashr, false, at!(r 0), on!(r 0))),
    (
        &[0x5a, 0x00],
        compute!(ExtendByte, true, at!(r 0), on!(r 0)),
    ),
    (
        &[0x5b, 0x00],
        compute!(ExtendWord, true, at!(r 0), on!(r 0)),
    ),
    (
        &[0x5c, 0x00],
        compute!(ExtendDouble, true, at!(r 0), on!(r 0)),
    ),
];

pub(crate) const MOVES: &[Case] = &[
    (&[0x1d, 0x21], moves!(Byte, Bits16, on!(r 1), on!(r 2))),
    (
        &[0x5e, 0x21, 0x34, 0x12],
        moves!(Word, Bits16, on!(r 1), on!(r 2, 0x1234)),
    ),
    (
        &[0x9f, 0xa9, 0x34, 0x12],
        moves!(Double, Bits16, on!(m 1, 0x1234), on!(m 2)),
    ),
    (
        &[0xe0, 0xa9, 0x34, 0x12, 0x78, 0x56],
        moves!(Quad, Bits16, on!(m 1, 0x1234), on!(m 2, 0x5678)),
    ),
    (&[0x21, 0x21], moves!(Byte, Bits32, on!(r 1), on!(r 2))),
    (
        &[0x62, 0x21, 1, 2, 3, 4],
        moves!(Word, Bits32, on!(r 1), on!(r 2, 0x04030201)),
    ),
    (
        &[0xa3, 0x2f, 1, 2, 3, 4],
        moves!(Double, Bits32, on!(m 7, 0x04030201), on!(r 2)),
    ),
    (
        &[0xe4, 0xa9, 1, 2, 3, 4, 5, 6, 7, 8],
        moves!(Quad, Bits32, on!(m 1, 0x04030201), on!(m 2, 0x08070605)),
    ),
    (&[0x28, 0x80], moves!(Quad, Bits64, on!(r 0), on!(m 0))),
    (
        &[0x68, 0x21, 1, 2, 3, 4, 5, 6, 7, 8],
        moves!(Quad, Bits64, on!(r 1), on!(r 2, 0x0807060504030201)),
    ),
    (
        &[
            0xe8, 0xa9, 1, 2, 3, 4, 5, 6, 7, 8, 9, 10, 11, 12, 13, 14, 15, 16,
        ],
        moves!(
            Quad,
            Bits64,
            on!(m 1, 0x0807060504030201),
            on!(m 2, 0x100f0e0d0c0b0a09)
        ),
    ),
    (
        &[0x65, 0x12, 0xff, 0xff],
        move_signed!(Bits16, on!(r 2), on!(r 1, 0xffff)),
    ),
    (
        &[0xe6, 0x9a, 1, 0, 0, 0, 2, 0, 0, 0x80],
        move_signed!(Bits32, on!(m 2, 1), on!(m 1, 0x80000002)),
    ),
    (&[0x32, 0x12], move_natural!(Bits16, on!(r 2), on!(r 1))),
    (
        &[0xb3, 0x9a, 1, 0, 0, 0x80],
        move_natural!(Bits32, on!(m 2, 0x80000001), on!(m 1)),
    ),
];

pub(crate) const STACK_AND_SPECIAL: &[Case] = &[
    (&[0x29, 0x50], Ins::LoadFlags { register: 5 }),
    (&[0x2a, 0x06], store_special!(6, Flags)),
    (&[0x2a, 0x11], store_special!(1, NextAddress)),
    (&[0x2b, 0x03], stack!(Push, false, on!(r 3))),
    (
        &[0xeb, 0x0c, 0x02, 0x10],
        stack!(Push, true, on!(m 4, 0x1002)),
    ),
    (
        &[0xac, 0x03, 0xff, 0x7f],
        stack!(Pop, false, on!(r 3, 0x7fff)),
    ),
    (&[0x6c, 0x0f], stack!(Pop, true, on!(m 7))),
    (&[0x35, 0x01], stack_natural!(Push, on!(r 1))),
    (&[0xb6, 0x09, 0x05, 0x00], stack_natural!(Pop, on!(m 1, 5))),
];

pub(crate) const IMMEDIATES: &[Case] = &[
    (
        &[0x77, 0x01, 0xfe, 0xff],
        move_immediate!(Byte, on!(r 1), Bits16, 0xfffe),
    ),
    (
        &[0xb7, 0x5a, 0x08, 0x10, 1, 2, 3, 4],
        move_immediate!(Word, on!(m 2, 0x1008), Bits32, 0x04030201),
    ),
    (
        &[0xf7, 0x2b, 1, 2, 3, 4, 5, 6, 7, 8],
        move_immediate!(Double, on!(m 3), Bits64, 0x0807060504030201),
    ),
    (
        &[0xf7, 0x7b, 9, 0, 1, 2, 3, 4, 5, 6, 7, 8],
        move_immediate!(Quad, on!(m 3, 9), Bits64, 0x0807060504030201),
    ),
    (
        &[0x78, 0x04, 0x34, 0x12],
        move_index!(on!(r 4), Bits16, 0x1234),
    ),
    (
        &[0xb8, 0x4c, 7, 0, 1, 0, 0, 0x90],
        move_index!(on!(m 4, 7), Bits32, 0x90000001),
    ),
    (
        &[0xf9, 0x05, 0, 0, 0, 0, 0, 0, 0, 0x80],
        move_relative!(on!(r 5), Bits64, 0x8000000000000000),
    ),
    (
        &[0x79, 0x4d, 0xff, 0xff, 0xfe, 0xff],
        move_relative!(on!(m 5, 0xffff), Bits16, 0xfffe),
    ),
];

/// The code of the sample image: its entry and its handler.
pub(crate) const SAMPLE: &[Case] = &[
    (
        &[0x60, 0x81, 0x18, 0x00],
        moves!(Quad, Bits16, on!(r 1), on!(m 0, 24)),
    ),
    (&[0x6b, 0x05], stack!(Push, true, on!(r 5))),
    (&[0x20, 0x04], moves!(Quad, Bits16, on!(r 4), on!(r 0))),
    (&[0x6b, 0x04], stack!(Push, true, on!(r 4))),
    (
        &[0x79, 0x02, 0x32, 0x00],
        move_relative!(on!(r 2), Bits16, 50),
    ),
    (&[0x6b, 0x02], stack!(Push, true, on!(r 2))),
    (
        &[0x79, 0x02, 0x0e, 0x00],
        move_relative!(on!(r 2), Bits16, 14),
    ),
    (&[0x6b, 0x02], stack!(Push, true, on!(r 2))),
    (
        &[0x60, 0x13, 0x90, 0x01],
        moves!(Quad, Bits16, on!(r 3), on!(r 1, 0x190)),
    ),
    (&[0x03, 0x23], call!(true, false, Target::Operand(on!(r 3)))),
    (
        &[0x60, 0x00, 0x20, 0x00],
        moves!(Quad, Bits16, on!(r 0), on!(r 0, 32)),
    ),
    (&[0x04, 0x00], Ins::Return),
    (
        &[0x60, 0x81, 0x20, 0x00],
        moves!(Quad, Bits16, on!(r 1), on!(m 0, 32)),
    ),
    (&[0x6b, 0x01], stack!(Push, true, on!(r 1))),
    (
        &[0x77, 0x32, 0x70, 0x00],
        move_immediate!(Quad, on!(r 2), Bits16, 0x70),
    ),
    (&[0x6b, 0x02], stack!(Push, true, on!(r 2))),
    (
        &[0x77, 0x32, 0x01, 0x00],
        move_immediate!(Quad, on!(r 2), Bits16, 1),
    ),
    (&[0x6b, 0x02], stack!(Push, true, on!(r 2))),
    (
        &[0x60, 0x13, 0x37, 0x52],
        moves!(Quad, Bits16, on!(r 3), on!(r 1, 0x5237)),
    ),
    (&[0x03, 0x23], call!(true, false, Target::Operand(on!(r 3)))),
    (
        &[0x60, 0x00, 0x18, 0x00],
        moves!(Quad, Bits16, on!(r 0), on!(r 0, 24)),
    ),
    (&[0x04, 0x00], Ins::Return),
];

/// Bytes that begin no instruction, and why.
pub(crate) const REFUSED: &[(&[u8], &str)] = &[
    (&[0x40, 0x00], "b6 of BREAK"),
    (&[0x80, 0x00], "b7 of BREAK"),
    (&[0x00, 0x02], "code 2 of BREAK"),
    (&[0x00, 0x07], "code 7 of BREAK"),
    (&[0x00, 0x08], "code 8 of BREAK"),
    (&[0x00, 0x10], "code 16 of BREAK"),
    (
        &[0x41, 0x00, 0, 0, 0, 0, 0, 0, 0, 0],
        "JMP with b6 without b7",
    ),
    (
        &[0xc1, 0x01, 0, 0, 0, 0, 0, 0, 0, 0],
        "JMP with an immediate and a register",
    ),
    (
        &[0xc1, 0x08, 0, 0, 0, 0, 0, 0, 0, 0],
        "JMP with an immediate and i1",
    ),
    (&[0x01, 0x40], "JMP that wants C without a condition"),
    (&[0x01, 0x20], "bit 5 of JMP"),
    (&[0x42, 0x00], "JMP8 that wants C without a condition"),
    (&[0x03, 0x40], "bit 6 of CALL"),
    (&[0x03, 0x80], "bit 7 of CALL"),
    (&[0x04, 0x01], "byte 1 of RET"),
    (&[0x44, 0x00], "b6 of RET"),
    (&[0x05, 0x08], "i1 of CMP"),
    (&[0x9d, 0x01, 0, 0], "an index on a direct operand 1 of MOV"),
    (
        &[0xa5, 0x01, 0, 0],
        "an index on a direct operand 1 of MOVSN",
    ),
    (
        &[0xb2, 0x01, 0, 0],
        "an index on a direct operand 1 of MOVN",
    ),
    (&[0x27, 0x00], "opcode 27"),
    (&[0x34, 0x00], "opcode 34"),
    (&[0x3a, 0x00], "opcode 3A"),
    (&[0x3f, 0x00], "opcode 3F"),
    (&[0x29, 0x01], "operand 1 of LOADSP is not the flags"),
    (&[0x29, 0x80], "i2 of LOADSP"),
    (&[0x2a, 0x20], "operand 2 of STORESP over 1"),
    (&[0x2a, 0x08], "i1 of STORESP"),
    (&[0x2b, 0x10], "operand 2 of PUSH"),
    (&[0x75, 0x00], "b6 of PUSHN"),
    (
        &[0x2d, 0x10, 0, 0, 0, 0],
        "an index on a direct operand 1 of CMPI",
    ),
    (&[0x2d, 0x20, 0, 0], "bit 5 of CMPI"),
    (&[0x37, 0x00], "MOVI without a width"),
    (&[0x77, 0x80, 0, 0], "bit 7 of MOVI"),
    (
        &[0x77, 0x41, 0, 0, 0, 0],
        "an index on a direct operand 1 of MOVI",
    ),
    (&[0x78, 0x10, 0, 0], "bit 4 of MOVIN"),
    (&[0x79, 0x20, 0, 0], "bit 5 of MOVREL"),
];
