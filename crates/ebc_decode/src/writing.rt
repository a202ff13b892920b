//! Instructions as their bytes.
ghost use Rattle.std.specs.Prelude.{◌≡◌, ◌+◌, ◌-◌, ◌*◌, ◌<◌, ◌^◌, ◌∷◌, ◌++◌, false, replicate};
ghost use Rattle.ebc_decode.specs.Bytes.{little};
ghost use Rattle.ebc_decode.specs.Spelling.{bit, place_bits, compare_number, compute_opcode, width_number, move_opcode};
ghost use Rattle.ebc_decode.specs.Spelling.{index_number, stack_number, special_number, break_number, immediate_six};
ghost use Rattle.ebc_decode.specs.Spelling.{immediate_seven, is_conditional, wanted_carry, spelling_of};
ghost use Rattle.ebc_decode.specs.Spelling.{bytes_in, head, with_target, with_second, with_indexes, with_operand};
ghost use Rattle.ebc_decode.specs.Spelling.{with_immediate};
ghost use Rattle.ebc_decode.specs.declared.ins.Ins.TheVariants.{ShortJump, CompareImmediate};
ghost use Rattle.ebc_decode.specs.Lawful.{IsLawful, IsRegister, IsOperand, IsTarget, IsField, IsJumpTarget, FitsIn};
ghost use Rattle.ebc_decode.specs.Lawful.{HasIndex};
ghost use Rattle.ebc_decode.specs.Reading.{size_of};
ghost use Rattle.ebc_decode.specs.WritingInside.{bytes_of_field, Fits, bytes_of_parts, AllFit, field_size};
ghost use Rattle.ebc_decode.specs.WritingInside.{joined_number, field_if};

use crate::choices::{BreakCode, Condition, Special, StackOp};
use crate::head::{BIT_5, BIT_6, HIGH, REGISTERS, SEVEN, SIX};
use crate::ins::Ins;
use crate::opcode::{
    BREAK, CALL, COMPARE, COMPARE_IMMEDIATE, JUMP, LOAD_FLAGS, MOVE_BY_16, MOVE_BY_32, MOVE_BY_64,
    MOVE_IMMEDIATE, MOVE_INDEX, MOVE_NATURAL, MOVE_RELATIVE, MOVE_SIGNED, RETURN, SHORT_JUMP,
    STACK, STACK_NATURAL, STORE_SPECIAL,
};
use crate::operand::{Field, FieldWidth, Operand, Place, Target, Width};
use crate::reading::MOST_BYTES;
use crate::tail::{TO_16, TO_32, TO_48};
use mm_base::{AluOp, CmpOp};

/// The first two bytes of an instruction, and the fields that follow.
#[derive(Clone, Copy)]
struct Parts {
    first: u8,
    second: u8,
    one: Option<Field>,
    other: Option<Field>,
}

/// Byte 0.
fn first_byte(opcode: u8, six: bool, seven: bool) -> u8
    requires { opcode < 64 }
    ensures { result ≡ opcode + 64 * bit six + 128 * bit seven }
{
    opcode + if six { SIX } else { 0 } + if seven { SEVEN } else { 0 }
}

/// Four bits that are an operand.
fn bits_of(place: Place) -> u8
    requires { IsRegister place.register }
    ensures bits { result ≡ place_bits place }
    ensures few { result < 16 }
{
    place.register + if place.indirect { REGISTERS } else { 0 }
}

fn bit_of(set: bool) -> u8
    ensures { result ≡ bit set }
{
    if set { 1 } else { 0 }
}

fn break_code(code: BreakCode) -> u8
    ensures number { result ≡ break_number code }
    ensures few { result < 16 }
{
    match code {
        BreakCode::Runaway => 0,
        BreakCode::Version => 1,
        BreakCode::Breakpoint => 3,
        BreakCode::SystemCall => 4,
        BreakCode::Thunk => 5,
        BreakCode::CompilerVersion => 6,
    }
}

/// The place of a comparison among the opcodes of its row.
fn place_of_comparison(op: CmpOp) -> u8
    ensures number { result ≡ compare_number op }
    ensures few { result < 5 }
{
    match op {
        CmpOp::Equal => 0,
        CmpOp::LessOrEqual => 1,
        CmpOp::GreaterOrEqual => 2,
        CmpOp::UnsignedLessOrEqual => 3,
        CmpOp::UnsignedGreaterOrEqual => 4,
    }
}

fn opcode_of_operation(op: AluOp) -> u8
    ensures number { result ≡ compute_opcode op }
    ensures few { result < 64 }
{
    match op {
        AluOp::Not => 0x0a,
        AluOp::Neg => 0x0b,
        AluOp::Add => 0x0c,
        AluOp::Sub => 0x0d,
        AluOp::Mul => 0x0e,
        AluOp::Mulu => 0x0f,
        AluOp::Div => 0x10,
        AluOp::Divu => 0x11,
        AluOp::Mod => 0x12,
        AluOp::Modu => 0x13,
        AluOp::And => 0x14,
        AluOp::Or => 0x15,
        AluOp::Xor => 0x16,
        AluOp::Shl => 0x17,
        AluOp::Shr => 0x18,
        AluOp::Ashr => 0x19,
        AluOp::ExtendByte => 0x1a,
        AluOp::ExtendWord => 0x1b,
        AluOp::ExtendDouble => 0x1c,
    }
}

fn number_of_width(width: Width) -> u8
    ensures number { result ≡ width_number width }
    ensures few { result < 4 }
{
    match width {
        Width::Byte => 0,
        Width::Word => 1,
        Width::Double => 2,
        Width::Quad => 3,
    }
}

fn opcode_of_move(moved: Width, index: FieldWidth) -> u8
    ensures number { result ≡ move_opcode moved index }
    ensures few { result < 64 }
{
    match index {
        FieldWidth::Bits16 => MOVE_BY_16 + number_of_width(moved),
        FieldWidth::Bits32 => MOVE_BY_32 + number_of_width(moved),
        FieldWidth::Bits64 => MOVE_BY_64,
    }
}

/// The place of an opcode with indexes of a width among the two of its row.
fn place_of_index(index: FieldWidth) -> u8
    ensures number { result ≡ index_number index }
    ensures few { result < 2 }
{
    match index {
        FieldWidth::Bits16 => 0,
        FieldWidth::Bits32 | FieldWidth::Bits64 => 1,
    }
}

fn place_of_stack(op: StackOp) -> u8
    ensures number { result ≡ stack_number op }
    ensures few { result < 2 }
{
    match op {
        StackOp::Push => 0,
        StackOp::Pop => 1,
    }
}

fn number_of_special(special: Special) -> u8
    ensures number { result ≡ special_number special }
    ensures few { result < 16 }
{
    match special {
        Special::Flags => 0,
        Special::NextAddress => 1,
    }
}

fn is_conditional_jump(when: Condition) -> bool
    ensures { result ≡ is_conditional when }
{
    match when {
        Condition::Always => false,
        Condition::CarryClear | Condition::CarrySet => true,
    }
}

fn carry_wanted(when: Condition) -> bool
    ensures { result ≡ wanted_carry when }
{
    match when {
        Condition::Always | Condition::CarryClear => false,
        Condition::CarrySet => true,
    }
}

fn six_of(width: FieldWidth) -> bool
    ensures { result ≡ immediate_six width }
{
    match width {
        FieldWidth::Bits16 | FieldWidth::Bits64 => true,
        FieldWidth::Bits32 => false,
    }
}

fn seven_of(width: FieldWidth) -> bool
    ensures { result ≡ immediate_seven width }
{
    match width {
        FieldWidth::Bits16 => false,
        FieldWidth::Bits32 | FieldWidth::Bits64 => true,
    }
}

/// A field of a width, if it is there.
fn field(width: FieldWidth, raw: Option<u64>) -> Option<Field>
    ensures { result ≡ field_if width raw }
{
    match raw {
        Some(raw) => Some(Field { width, raw }),
        None => None,
    }
}

/// Byte 1.
fn second_byte(low: u8, high: u8) -> u8
    requires low { low < 16 }
    requires high { high < 16 }
    ensures { result ≡ low + 16 * high }
{
    low + HIGH * high
}

/// Two bytes alone.
fn bare(opcode: u8, low: u8, high: u8) -> Parts
    requires opcode { opcode < 64 }
    requires low { low < 16 }
    requires high { high < 16 }
    ensures bytes { bytes_of_parts result ≡ head opcode false false low high }
    ensures fit { AllFit result }
{
    Parts {
        first: opcode,
        second: second_byte(low, high),
        one: None,
        other: None,
    }
}

/// A jump or a call.
fn to_target(opcode: u8, target: Target, high: u8) -> Parts
    requires opcode { opcode < 64 }
    requires target { IsJumpTarget target }
    requires high { high < 16 }
    ensures bytes { bytes_of_parts result ≡ with_target opcode target high }
    ensures fit { AllFit result }
{
    match target {
        Target::Immediate(raw) => Parts {
            first: first_byte(opcode, true, true),
            second: second_byte(0, high),
            one: Some(Field {
                width: FieldWidth::Bits64,
                raw,
            }),
            other: None,
        },
        Target::Operand(to) => Parts {
            first: first_byte(opcode, false, to.field.is_some()),
            second: second_byte(bits_of(to.place), high),
            one: field(FieldWidth::Bits32, to.field),
            other: None,
        },
    }
}

/// A jump over some pairs of bytes.
#[tactic(auto, unfolding(crate::specs::Spelling::spelling_of))]
fn short_jump(when: Condition, distance: u8) -> Parts
    requires { distance < 256 }
    ensures bytes { bytes_of_parts result ≡ spelling_of (ShortJump when distance) }
    ensures fit { AllFit result }
{
    Parts {
        first: first_byte(SHORT_JUMP, carry_wanted(when), is_conditional_jump(when)),
        second: distance,
        one: None,
        other: None,
    }
}

/// An operation on two operands, of which the second may have a field of 16 bits.
fn on_two(opcode: u8, wide: bool, low: u8, second: Operand) -> Parts
    requires opcode { opcode < 64 }
    requires low { low < 16 }
    requires second { IsOperand 2 second }
    ensures bytes { bytes_of_parts result ≡ with_second opcode wide low second }
    ensures fit { AllFit result }
{
    Parts {
        first: first_byte(opcode, wide, second.field.is_some()),
        second: second_byte(low, bits_of(second.place)),
        one: field(FieldWidth::Bits16, second.field),
        other: None,
    }
}

/// A move with indexes of one width.
fn with_two_indexes(opcode: u8, index: FieldWidth, first: Operand, second: Operand) -> Parts
    requires opcode { opcode < 64 }
    requires first { IsTarget (bytes_in index) first }
    requires second { IsOperand (bytes_in index) second }
    ensures bytes { bytes_of_parts result ≡ with_indexes opcode index first second }
    ensures fit { AllFit result }
{
    Parts {
        first: first_byte(opcode, second.field.is_some(), first.field.is_some()),
        second: second_byte(bits_of(first.place), bits_of(second.place)),
        one: field(index, first.field),
        other: field(index, second.field),
    }
}

/// An operation on one operand, which may have a field of 16 bits.
fn on_one(opcode: u8, six: bool, operand: Operand) -> Parts
    requires opcode { opcode < 64 }
    requires operand { IsOperand 2 operand }
    ensures bytes { bytes_of_parts result ≡ with_operand opcode six operand }
    ensures fit { AllFit result }
{
    Parts {
        first: first_byte(opcode, six, operand.field.is_some()),
        second: second_byte(bits_of(operand.place), 0),
        one: field(FieldWidth::Bits16, operand.field),
        other: None,
    }
}

/// A comparison with an immediate.
#[tactic(auto, unfolding(crate::specs::Spelling::spelling_of))]
fn with_compared(op: CmpOp, wide: bool, first: Operand, immediate: Field) -> Parts
    requires first { IsTarget 2 first }
    requires immediate { IsField immediate }
    ensures bytes { bytes_of_parts result ≡ spelling_of (CompareImmediate op wide first immediate) }
    ensures fit { AllFit result }
{
    Parts {
        first: first_byte(
            COMPARE_IMMEDIATE + place_of_comparison(op),
            wide,
            seven_of(immediate.width),
        ),
        second: second_byte(bits_of(first.place), bit_of(first.field.is_some())),
        one: field(FieldWidth::Bits16, first.field),
        other: Some(immediate),
    }
}

/// A move of an immediate.
fn with_moved(opcode: u8, first: Operand, given: u8, immediate: Field) -> Parts
    requires opcode { opcode < 64 }
    requires first { IsTarget 2 first }
    requires given { given < 4 }
    requires immediate { IsField immediate }
    ensures bytes { bytes_of_parts result ≡ with_immediate opcode first given immediate }
    ensures fit { AllFit result }
{
    Parts {
        first: first_byte(opcode, six_of(immediate.width), seven_of(immediate.width)),
        second: second_byte(
            bits_of(first.place),
            given + BIT_6 * bit_of(first.field.is_some()),
        ),
        one: field(FieldWidth::Bits16, first.field),
        other: Some(immediate),
    }
}

/// The high bits of byte 1 of a jump.
fn jump_bits(when: Condition, relative: bool) -> u8
    ensures bits { result ≡ bit relative + 4 * bit (wanted_carry when) + 8 * bit (is_conditional when) }
    ensures few { result < 16 }
{
    bit_of(relative)
        + BIT_6 * bit_of(carry_wanted(when))
        + REGISTERS * bit_of(is_conditional_jump(when))
}

/// The parts of an instruction.
#[tactic(auto, unfolding(crate::specs::Spelling::spelling_of))]
fn parts_of(ins: &Ins) -> Parts
    requires { IsLawful ins.now }
    ensures bytes { bytes_of_parts result ≡ spelling_of ins.now }
    ensures fit { AllFit result }
{
    match *ins {
        Ins::Break(code) => bare(BREAK, break_code(code), 0),
        Ins::Jump {
            when,
            relative,
            target,
        } => to_target(JUMP, target, jump_bits(when, relative)),
        Ins::ShortJump { when, distance } => short_jump(when, distance),
        Ins::Call {
            native,
            relative,
            target,
        } => to_target(CALL, target, bit_of(relative) + BIT_5 * bit_of(native)),
        Ins::Return => bare(RETURN, 0, 0),
        Ins::Compare {
            op,
            wide,
            first,
            second,
        } => on_two(COMPARE + place_of_comparison(op), wide, first, second),
        Ins::Compute {
            op,
            wide,
            first,
            second,
        } => on_two(opcode_of_operation(op), wide, bits_of(first), second),
        Ins::Move {
            moved,
            index,
            first,
            second,
        } => with_two_indexes(opcode_of_move(moved, index), index, first, second),
        Ins::MoveSigned {
            index,
            first,
            second,
        } => with_two_indexes(MOVE_SIGNED + place_of_index(index), index, first, second),
        Ins::MoveNatural {
            index,
            first,
            second,
        } => with_two_indexes(MOVE_NATURAL + place_of_index(index), index, first, second),
        Ins::LoadFlags { register } => bare(LOAD_FLAGS, 0, register),
        Ins::StoreSpecial { register, from } => bare(
            STORE_SPECIAL,
            register,
            number_of_special(from),
        ),
        Ins::Stack { op, wide, operand } => on_one(STACK + place_of_stack(op), wide, operand),
        Ins::StackNatural { op, operand } => on_one(
            STACK_NATURAL + place_of_stack(op),
            false,
            operand,
        ),
        Ins::CompareImmediate {
            op,
            wide,
            first,
            immediate,
        } => with_compared(op, wide, first, immediate),
        Ins::MoveImmediate {
            moved,
            first,
            immediate,
        } => with_moved(MOVE_IMMEDIATE, first, number_of_width(moved), immediate),
        Ins::MoveIndex { first, index } => with_moved(MOVE_INDEX, first, 0, index),
        Ins::MoveRelative { first, immediate } => with_moved(MOVE_RELATIVE, first, 0, immediate),
    }
}

/// How many bytes a field has, if it is there.
fn size(field: Option<Field>) -> u8
    ensures { result ≡ field_size field }
{
    match field {
        Some(field) => field.width.bytes(),
        None => 0,
    }
}

/// The number that two fields spell, in its low and high 64 bits.
fn joined(one: Option<Field>, other: Option<Field>) -> (u64, u64)
    requires one { Fits one }
    requires other { Fits other }
    ensures { result.0 + 2 ^ 64 * result.1 ≡ joined_number one other }
{
    let next = match other {
        Some(field) => field.raw,
        None => 0,
    };
    match one {
        None => (next, 0),
        Some(
            Field {
                width: FieldWidth::Bits16,
                raw,
            },
        ) => { (raw + next % TO_48 * TO_16, next / TO_48) }
        Some(
            Field {
                width: FieldWidth::Bits32,
                raw,
            },
        ) => (raw + next % TO_32 * TO_32, next / TO_32),
        Some(
            Field {
                width: FieldWidth::Bits64,
                raw,
            },
        ) => (raw, next),
    }
}

/// Two bytes and two words, the lowest byte first.
fn all_bytes(first: u8, second: u8, low: u64, high: u64) -> [u8; MOST_BYTES]
    ensures { result ≡ first ∷ second ∷ (little 8 low ++ little 8 high) }
{
    let l = low.to_le_bytes();
    let h = high.to_le_bytes();
    [
        first, second, l[0], l[1], l[2], l[3], l[4], l[5], l[6], l[7], h[0], h[1], h[2], h[3],
        h[4], h[5], h[6], h[7],
    ]
}

/// The bytes of an instruction (UEFI 2.10, chapter 22, in this project's profile) with zeros after them, and its
/// length, 2 to 18. The instruction must be lawful, as what `decode` answers is. It takes a bounded number of steps and
/// no memory.
pub fn encode(ins: &Ins) -> ([u8; MOST_BYTES], u8)
    requires { IsLawful ins.now }
    ensures bytes { result.0 ≡ spelling_of ins.now ++ replicate (18 - size_of ins.now) 0 }
    ensures length { result.1 ≡ size_of ins.now }
{
    let parts = parts_of(ins);
    let (low, high) = joined(parts.one, parts.other);
    let length = 2 + size(parts.one) + size(parts.other);
    (all_bytes(parts.first, parts.second, low, high), length)
}
