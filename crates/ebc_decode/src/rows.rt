//! The instruction that two bytes and the fields after them make, row by row.
ghost use Rattle.std.specs.Prelude.{◌≡◌};
ghost use Rattle.ebc_decode.specs.ReadingInside.{break_with, width_with, condition_with, special_with};
ghost use Rattle.ebc_decode.specs.ReadingInside.{operand_with, target_with, indexed, immediate_with, built};

use crate::choices::{BreakCode, Condition, Special};
use crate::head::{BIT_5, BIT_6, Head};
use crate::ins::Ins;
use crate::layout::{width_of_compared, width_of_immediate};
use crate::opcode::Opcode;
use crate::operand::{Field, Operand, Place, Target, Width};

/// The code of BREAK with a number that it has.
#[inline(always)]
fn break_code(number: u8) -> BreakCode
    ensures { result ≡ break_with number }
{
    match number {
        0 => BreakCode::Runaway,
        1 => BreakCode::Version,
        3 => BreakCode::Breakpoint,
        4 => BreakCode::SystemCall,
        5 => BreakCode::Thunk,
        _ => BreakCode::CompilerVersion,
    }
}

/// The width of a move in two bits.
#[inline(always)]
fn moved_width(number: u8) -> Width
    ensures { result ≡ width_with number }
{
    match number {
        0 => Width::Byte,
        1 => Width::Word,
        2 => Width::Double,
        _ => Width::Quad,
    }
}

/// When a jump is taken, by whether it asks for C and whether it wants it set.
#[inline(always)]
fn condition(conditional: bool, wanted: bool) -> Condition
    ensures { result ≡ condition_with conditional wanted }
{
    match (conditional, wanted) {
        (true, true) => Condition::CarrySet,
        (true, false) => Condition::CarryClear,
        (false, _) => Condition::Always,
    }
}

/// What STORESP stores, by its operand 2.
#[inline(always)]
fn special(number: u8) -> Special
    ensures { result ≡ special_with number }
{
    if number == 0 {
        Special::Flags
    } else {
        Special::NextAddress
    }
}

/// An operand whose field, if it is there, is this number.
#[inline(always)]
fn operand(place: Place, there: bool, raw: u64) -> Operand
    ensures { result ≡ operand_with place there raw }
{
    Operand {
        place,
        field: if there { Some(raw) } else { None },
    }
}

/// Where a jump or a call goes.
#[inline(always)]
fn target(head: Head, raw: u64) -> Target
    ensures { result ≡ target_with head raw }
{
    if head.six {
        Target::Immediate(raw)
    } else {
        Target::Operand(operand(head.first, head.seven, raw))
    }
}

/// Operand 1 of a move of an immediate: bit 6 of byte 1 is its index.
#[inline(always)]
fn indexed_operand(head: Head, raw: u64) -> Operand
    ensures { result ≡ indexed head raw }
{
    operand(head.first, head.second.register >= BIT_6, raw)
}

/// The immediate of a move.
#[inline(always)]
fn immediate(head: Head, raw: u64) -> Field
    ensures { result ≡ immediate_with head raw }
{
    Field {
        width: width_of_immediate(head),
        raw,
    }
}

/// The instruction of an opcode, the first two bytes and the fields that follow, where these are accepted.
#[inline(always)]
pub(crate) fn build(opcode: Opcode, head: Head, first: u64, second: u64) -> Ins
    ensures { result ≡ built opcode head first second }
{
    match opcode {
        Opcode::Break => Ins::Break(break_code(head.first.register)),
        Opcode::Jump => Ins::Jump {
            when: condition(head.second.indirect, head.second.register >= BIT_6),
            relative: head.second.register % 2 == 1,
            target: target(head, first),
        },
        Opcode::ShortJump => Ins::ShortJump {
            when: condition(head.seven, head.six),
            distance: head.byte,
        },
        Opcode::Call => Ins::Call {
            native: head.second.register >= BIT_5,
            relative: head.second.register % 2 == 1,
            target: target(head, first),
        },
        Opcode::Return => Ins::Return,
        Opcode::Compare(op) => Ins::Compare {
            op,
            wide: head.six,
            first: head.first.register,
            second: operand(head.second, head.seven, first),
        },
        Opcode::Compute(op) => Ins::Compute {
            op,
            wide: head.six,
            first: head.first,
            second: operand(head.second, head.seven, first),
        },
        Opcode::Move(moved, index) => Ins::Move {
            moved,
            index,
            first: operand(head.first, head.seven, first),
            second: operand(head.second, head.six, second),
        },
        Opcode::MoveSigned(index) => Ins::MoveSigned {
            index,
            first: operand(head.first, head.seven, first),
            second: operand(head.second, head.six, second),
        },
        Opcode::MoveNatural(index) => Ins::MoveNatural {
            index,
            first: operand(head.first, head.seven, first),
            second: operand(head.second, head.six, second),
        },
        Opcode::LoadFlags => Ins::LoadFlags {
            register: head.second.register,
        },
        Opcode::StoreSpecial => Ins::StoreSpecial {
            register: head.first.register,
            from: special(head.second.register),
        },
        Opcode::Stack(op) => Ins::Stack {
            op,
            wide: head.six,
            operand: operand(head.first, head.seven, first),
        },
        Opcode::StackNatural(op) => Ins::StackNatural {
            op,
            operand: operand(head.first, head.seven, first),
        },
        Opcode::CompareImmediate(op) => Ins::CompareImmediate {
            op,
            wide: head.six,
            first: operand(head.first, head.second.register == 1, first),
            immediate: Field {
                width: width_of_compared(head),
                raw: second,
            },
        },
        Opcode::MoveImmediate => Ins::MoveImmediate {
            moved: moved_width(head.second.register % BIT_6),
            first: indexed_operand(head, first),
            immediate: immediate(head, second),
        },
        Opcode::MoveIndex => Ins::MoveIndex {
            first: indexed_operand(head, first),
            index: immediate(head, second),
        },
        Opcode::MoveRelative => Ins::MoveRelative {
            first: indexed_operand(head, first),
            immediate: immediate(head, second),
        },
    }
}
