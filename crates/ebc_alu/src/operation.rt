//! The arithmetic instructions: one result of two operands.
ghost use Rattle.std.specs.Prelude.{◌≡◌, ◌<◌, ◌↔◌, IsErr, IfOk};
ghost use Rattle.ebc_alu.specs.Results.{result_of, IsDivisionByZero};

use crate::bits::invert;
use crate::extensions::{extend_byte, extend_double, extend_word};
use crate::quotients::{divide_signed, remainder_signed};
use crate::reading::operand;
use crate::shifts::{shift_left, shift_right, shift_right_signed};
use crate::sums::{add, multiply, subtract};
use mm_base::AluOp;

/// A divisor is 0.
#[derive(Clone, Copy, Debug, PartialEq, Eq)]
pub struct DivideError;

/// DivideError where the divisor is 0.
#[inline]
fn check_divisor(divisor: u64) -> Result<(), DivideError>
    ensures ok { IfOk result (λ _. 0 < divisor) }
    ensures zero { IsErr result ↔ (divisor ≡ 0) }
{
    if divisor == 0 {
        Err(DivideError)
    } else {
        Ok(())
    }
}

/// What an arithmetic instruction computes of its operands (UEFI 2.10, section 22.8): on all 64 bits where it is wide,
/// else on the low 32 bits of both, with a result below 2^32. NOT, NEG and EXTND use `b` alone. DivideError comes
/// exactly where the divisor of DIV, DIVU, MOD or MODU is 0 in those bits. A few machine operations; takes no memory.
#[inline]
pub fn alu(op: AluOp, wide: bool, a: u64, b: u64) -> Result<u64, DivideError>
    ensures ok { IfOk result (λ value. value ≡ result_of op wide a b) }
    ensures divide { IsErr result ↔ IsDivisionByZero op wide b }
{
    let first = operand(wide, a);
    let second = operand(wide, b);
    match op {
        AluOp::Not => Ok(invert(wide, second)),
        AluOp::Neg => Ok(subtract(wide, 0, second)),
        AluOp::Add => Ok(add(wide, first, second)),
        AluOp::Sub => Ok(subtract(wide, first, second)),
        AluOp::Mul | AluOp::Mulu => Ok(multiply(wide, first, second)),
        AluOp::Div => {
            check_divisor(second)?;
            Ok(divide_signed(wide, first, second))
        }
        AluOp::Divu => {
            check_divisor(second)?;
            Ok(first / second)
        }
        AluOp::Mod => {
            check_divisor(second)?;
            Ok(remainder_signed(wide, first, second))
        }
        AluOp::Modu => {
            check_divisor(second)?;
            Ok(first % second)
        }
        AluOp::And => Ok(first & second),
        AluOp::Or => Ok(first | second),
        AluOp::Xor => Ok(first ^ second),
        AluOp::Shl => Ok(shift_left(wide, first, second)),
        AluOp::Shr => Ok(shift_right(first, second)),
        AluOp::Ashr => Ok(shift_right_signed(wide, first, second)),
        AluOp::ExtendByte => Ok(extend_byte(wide, second)),
        AluOp::ExtendWord => Ok(extend_word(wide, second)),
        AluOp::ExtendDouble => Ok(extend_double(wide, second)),
    }
}
