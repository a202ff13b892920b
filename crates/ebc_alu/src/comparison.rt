//! The comparisons of CMP and CMPI.
ghost use Rattle.std.specs.Prelude.{◌≡◌};
ghost use Rattle.ebc_alu.specs.Tests.{test_of};

use crate::reading::{operand, to_signed};
use mm_base::CmpOp;

/// Whether a comparison holds of its operands (UEFI 2.10, section 22.8, CMP and CMPI): of all 64 bits where it is wide,
/// else of the low 32 bits of both. A few machine operations; takes no memory.
#[inline]
pub fn compare(op: CmpOp, wide: bool, a: u64, b: u64) -> bool
    ensures { result ≡ test_of op wide a b }
{
    let first = operand(wide, a);
    let second = operand(wide, b);
    match op {
        CmpOp::Equal => first == second,
        CmpOp::LessOrEqual => to_signed(wide, first) <= to_signed(wide, second),
        CmpOp::GreaterOrEqual => to_signed(wide, second) <= to_signed(wide, first),
        CmpOp::UnsignedLessOrEqual => first <= second,
        CmpOp::UnsignedGreaterOrEqual => second <= first,
    }
}
