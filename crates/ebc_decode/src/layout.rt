//! Which first two bytes begin an instruction, and which fields follow them.
ghost use Rattle.std.specs.Prelude.{◌≡◌};
ghost use Rattle.ebc_decode.specs.ReadingInside.{has_no_bits, is_bare, may_index, names_target, has_jump_bits};
ghost use Rattle.ebc_decode.specs.ReadingInside.{is_break};
ghost use Rattle.ebc_decode.specs.ReadingInside.{has_index_bit, has_immediate, accepts};
ghost use Rattle.ebc_decode.specs.ReadingInside.{width_if, target_width, immediate_width, compared_width, widths};
ghost use Rattle.ebc_decode.specs.ReadingInside.{bytes_if, layout_length};

use crate::head::{BIT_5, BIT_6, Head};
use crate::opcode::Opcode;
use crate::operand::{FieldWidth, Place};

/// The widths of the fields that follow the first two bytes.
#[derive(Clone, Copy)]
pub(crate) struct Layout {
    pub(crate) first: Option<FieldWidth>,
    pub(crate) second: Option<FieldWidth>,
}

impl Layout {
    /// No field.
    const EMPTY: Layout = Layout {
        first: None,
        second: None,
    };

    /// How many bytes the instruction has.
    #[inline(always)]
    pub(crate) fn length(self) -> u8
        ensures { result ≡ layout_length self }
    {
        2 + bytes_if_any(self.first) + bytes_if_any(self.second)
    }
}

/// How many bytes a field has, if it is there.
#[inline(always)]
fn bytes_if_any(width: Option<FieldWidth>) -> u8
    ensures { result ≡ bytes_if width }
{
    match width {
        Some(width) => width.bytes(),
        None => 0,
    }
}

/// Whether all bits of a place are 0.
#[inline(always)]
fn is_zero(place: Place) -> bool
    ensures { result ≡ has_no_bits place }
{
    !place.indirect && place.register == 0
}

/// Whether neither bit 6 nor bit 7 of byte 0 is set.
#[inline(always)]
fn is_plain(head: Head) -> bool
    ensures { result ≡ is_bare head }
{
    !head.six && !head.seven
}

/// Whether an operand 1 may have an index, where it has one: a direct one may not.
#[inline(always)]
fn takes_index(index: bool, place: Place) -> bool
    ensures { result ≡ may_index index place }
{
    !index || place.indirect
}

/// Whether bits 6 and 7 of byte 0 and operand 1 name a target: an immediate comes with no register.
#[inline(always)]
fn is_target(head: Head) -> bool
    ensures { result ≡ names_target head }
{
    !head.six || head.seven && is_zero(head.first)
}

/// Whether the high bits of byte 1 are those of a jump: a jump that asks for no C wants 0.
#[inline(always)]
fn is_jump(bits: Place) -> bool
    ensures { result ≡ has_jump_bits bits }
{
    bits.register / BIT_5 % 2 == 0 && (bits.register < BIT_6 || bits.indirect)
}

/// Whether BREAK has a code.
#[inline(always)]
fn is_break_code(bits: Place) -> bool
    ensures { result ≡ is_break bits }
{
    !bits.indirect && (bits.register < 7 && bits.register != 2)
}

/// Whether byte 1 is that of a comparison with an immediate.
#[inline(always)]
fn is_comparison(head: Head) -> bool
    ensures { result ≡ has_index_bit head }
{
    !head.second.indirect
        && head.second.register < BIT_5
        && takes_index(head.second.register == 1, head.first)
}

/// Whether the two bytes are those of a move of an immediate.
#[inline(always)]
fn is_immediate(head: Head) -> bool
    ensures { result ≡ has_immediate head }
{
    !head.second.indirect
        && (head.six || head.seven)
        && takes_index(head.second.register >= BIT_6, head.first)
}

/// Whether two bytes with this opcode begin an instruction.
#[inline(always)]
pub(crate) fn is_accepted(opcode: Opcode, head: Head) -> bool
    ensures { result ≡ accepts opcode head }
{
    match opcode {
        Opcode::Break => is_plain(head) && is_break_code(head.first) && is_zero(head.second),
        Opcode::Jump => is_target(head) && is_jump(head.second),
        Opcode::ShortJump => head.seven || !head.six,
        Opcode::Call => is_target(head) && (!head.second.indirect && head.second.register < BIT_6),
        Opcode::Return => is_plain(head) && is_zero(head.first) && is_zero(head.second),
        Opcode::Compare(_) => !head.first.indirect,
        Opcode::Compute(_) => true,
        Opcode::Move(_, _) | Opcode::MoveSigned(_) | Opcode::MoveNatural(_) => takes_index(
            head.seven, head.first,
        ),
        Opcode::LoadFlags => is_plain(head) && is_zero(head.first) && !head.second.indirect,
        Opcode::StoreSpecial => {
            is_plain(head)
                && !head.first.indirect
                && (!head.second.indirect && head.second.register < BIT_5)
        }
        Opcode::Stack(_) => is_zero(head.second),
        Opcode::StackNatural(_) => !head.six && is_zero(head.second),
        Opcode::CompareImmediate(_) => is_comparison(head),
        Opcode::MoveImmediate => is_immediate(head),
        Opcode::MoveIndex | Opcode::MoveRelative => is_immediate(head)
            && head.second.register % BIT_6 == 0,
    }
}

/// The width of a field, if it is there.
#[inline(always)]
fn width_where(there: bool, width: FieldWidth) -> Option<FieldWidth>
    ensures { result ≡ width_if there width }
{
    if there { Some(width) } else { None }
}

/// The width of a target's field, if it is there.
#[inline(always)]
fn width_of_target(head: Head) -> Option<FieldWidth>
    ensures { result ≡ target_width head }
{
    if head.six {
        Some(FieldWidth::Bits64)
    } else {
        width_where(head.seven, FieldWidth::Bits32)
    }
}

/// The width of the immediate of a move.
#[inline(always)]
pub(crate) fn width_of_immediate(head: Head) -> FieldWidth
    ensures { result ≡ immediate_width head }
{
    match (head.seven, head.six) {
        (true, true) => FieldWidth::Bits64,
        (true, false) => FieldWidth::Bits32,
        (false, _) => FieldWidth::Bits16,
    }
}

/// The width of the immediate of a comparison.
#[inline(always)]
pub(crate) fn width_of_compared(head: Head) -> FieldWidth
    ensures { result ≡ compared_width head }
{
    if head.seven {
        FieldWidth::Bits32
    } else {
        FieldWidth::Bits16
    }
}

/// The fields that follow two bytes with this opcode.
#[inline(always)]
pub(crate) fn fields_after(opcode: Opcode, head: Head) -> Layout
    ensures { result ≡ widths opcode head }
{
    match opcode {
        Opcode::Break
        | Opcode::ShortJump
        | Opcode::Return
        | Opcode::LoadFlags
        | Opcode::StoreSpecial => Layout::EMPTY,
        Opcode::Jump | Opcode::Call => Layout {
            first: width_of_target(head),
            second: None,
        },
        Opcode::Compare(_) | Opcode::Compute(_) | Opcode::Stack(_) | Opcode::StackNatural(_) => {
            Layout {
                first: width_where(head.seven, FieldWidth::Bits16),
                second: None,
            }
        }
        Opcode::Move(_, index) | Opcode::MoveSigned(index) | Opcode::MoveNatural(index) => {
            Layout {
                first: width_where(head.seven, index),
                second: width_where(head.six, index),
            }
        }
        Opcode::CompareImmediate(_) => Layout {
            first: width_where(head.second.register == 1, FieldWidth::Bits16),
            second: Some(width_of_compared(head)),
        },
        Opcode::MoveImmediate | Opcode::MoveIndex | Opcode::MoveRelative => Layout {
            first: width_where(head.second.register >= BIT_6, FieldWidth::Bits16),
            second: Some(width_of_immediate(head)),
        },
    }
}
