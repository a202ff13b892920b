//! The table of opcodes.
ghost use Rattle.std.specs.Prelude.{◌≡◌, ◌<◌, IfSome};
ghost use Rattle.ebc_decode.specs.ReadingInside.{IsOpcode, TellsOpcode};

use crate::choices::StackOp;
use crate::operand::{FieldWidth, Width};
use mm_base::{AluOp, CmpOp};

pub(crate) const BREAK: u8 = 0x00;

pub(crate) const JUMP: u8 = 0x01;

pub(crate) const SHORT_JUMP: u8 = 0x02;

pub(crate) const CALL: u8 = 0x03;

pub(crate) const RETURN: u8 = 0x04;

/// The first of five, one a comparison.
pub(crate) const COMPARE: u8 = 0x05;

/// The first of four with indexes of 16 bits, one a width of what is moved.
pub(crate) const MOVE_BY_16: u8 = 0x1d;

/// The first of four with indexes of 32 bits.
pub(crate) const MOVE_BY_32: u8 = 0x21;

/// The one with indexes of 64 bits.
pub(crate) const MOVE_BY_64: u8 = 0x28;

/// The first of two, with indexes of 16 and of 32 bits.
pub(crate) const MOVE_SIGNED: u8 = 0x25;

pub(crate) const LOAD_FLAGS: u8 = 0x29;

pub(crate) const STORE_SPECIAL: u8 = 0x2a;

/// The first of two: PUSH and POP.
pub(crate) const STACK: u8 = 0x2b;

/// The first of five, one a comparison.
pub(crate) const COMPARE_IMMEDIATE: u8 = 0x2d;

/// The first of two, with indexes of 16 and of 32 bits.
pub(crate) const MOVE_NATURAL: u8 = 0x32;

/// The first of two: PUSHN and POPN.
pub(crate) const STACK_NATURAL: u8 = 0x35;

pub(crate) const MOVE_IMMEDIATE: u8 = 0x37;

pub(crate) const MOVE_INDEX: u8 = 0x38;

pub(crate) const MOVE_RELATIVE: u8 = 0x39;

/// How many numbers of opcodes there are.
pub(crate) const NUMBERS: usize = 64;

/// An opcode: its row of the table, and which of the row's opcodes it is.
#[derive(Clone, Copy)]
pub(crate) enum Opcode {
    Break,
    Jump,
    ShortJump,
    Call,
    Return,
    Compare(CmpOp),
    Compute(AluOp),
    Move(Width, FieldWidth),
    MoveSigned(FieldWidth),
    MoveNatural(FieldWidth),
    LoadFlags,
    StoreSpecial,
    Stack(StackOp),
    StackNatural(StackOp),
    CompareImmediate(CmpOp),
    MoveImmediate,
    MoveIndex,
    MoveRelative,
}

/// The opcode of each number below 64.
static OPCODES: [Option<Opcode>; NUMBERS] = [
    Some(Opcode::Break),
    Some(Opcode::Jump),
    Some(Opcode::ShortJump),
    Some(Opcode::Call),
    Some(Opcode::Return),
    Some(Opcode::Compare(CmpOp::Equal)),
    Some(Opcode::Compare(CmpOp::LessOrEqual)),
    Some(Opcode::Compare(CmpOp::GreaterOrEqual)),
    Some(Opcode::Compare(CmpOp::UnsignedLessOrEqual)),
    Some(Opcode::Compare(CmpOp::UnsignedGreaterOrEqual)),
    Some(Opcode::Compute(AluOp::Not)),
    Some(Opcode::Compute(AluOp::Neg)),
    Some(Opcode::Compute(AluOp::Add)),
    Some(Opcode::Compute(AluOp::Sub)),
    Some(Opcode::Compute(AluOp::Mul)),
    Some(Opcode::Compute(AluOp::Mulu)),
    Some(Opcode::Compute(AluOp::Div)),
    Some(Opcode::Compute(AluOp::Divu)),
    Some(Opcode::Compute(AluOp::Mod)),
    Some(Opcode::Compute(AluOp::Modu)),
    Some(Opcode::Compute(AluOp::And)),
    Some(Opcode::Compute(AluOp::Or)),
    Some(Opcode::Compute(AluOp::Xor)),
    Some(Opcode::Compute(AluOp::Shl)),
    Some(Opcode::Compute(AluOp::Shr)),
    Some(Opcode::Compute(AluOp::Ashr)),
    Some(Opcode::Compute(AluOp::ExtendByte)),
    Some(Opcode::Compute(AluOp::ExtendWord)),
    Some(Opcode::Compute(AluOp::ExtendDouble)),
    Some(Opcode::Move(Width::Byte, FieldWidth::Bits16)),
    Some(Opcode::Move(Width::Word, FieldWidth::Bits16)),
    Some(Opcode::Move(Width::Double, FieldWidth::Bits16)),
    Some(Opcode::Move(Width::Quad, FieldWidth::Bits16)),
    Some(Opcode::Move(Width::Byte, FieldWidth::Bits32)),
    Some(Opcode::Move(Width::Word, FieldWidth::Bits32)),
    Some(Opcode::Move(Width::Double, FieldWidth::Bits32)),
    Some(Opcode::Move(Width::Quad, FieldWidth::Bits32)),
    Some(Opcode::MoveSigned(FieldWidth::Bits16)),
    Some(Opcode::MoveSigned(FieldWidth::Bits32)),
    None,
    Some(Opcode::Move(Width::Quad, FieldWidth::Bits64)),
    Some(Opcode::LoadFlags),
    Some(Opcode::StoreSpecial),
    Some(Opcode::Stack(StackOp::Push)),
    Some(Opcode::Stack(StackOp::Pop)),
    Some(Opcode::CompareImmediate(CmpOp::Equal)),
    Some(Opcode::CompareImmediate(CmpOp::LessOrEqual)),
    Some(Opcode::CompareImmediate(CmpOp::GreaterOrEqual)),
    Some(Opcode::CompareImmediate(CmpOp::UnsignedLessOrEqual)),
    Some(Opcode::CompareImmediate(CmpOp::UnsignedGreaterOrEqual)),
    Some(Opcode::MoveNatural(FieldWidth::Bits16)),
    Some(Opcode::MoveNatural(FieldWidth::Bits32)),
    None,
    Some(Opcode::StackNatural(StackOp::Push)),
    Some(Opcode::StackNatural(StackOp::Pop)),
    Some(Opcode::MoveImmediate),
    Some(Opcode::MoveIndex),
    Some(Opcode::MoveRelative),
    None,
    None,
    None,
    None,
    None,
    None,
];

/// The opcode with a number.
#[inline(always)]
pub(crate) fn opcode_at(number: u8) -> Option<Opcode>
    requires { number < 64 }
    ensures found { IfSome result (λ opcode. IsOpcode number opcode) }
    ensures only { TellsOpcode number result }
{
    OPCODES[number as usize]
}
