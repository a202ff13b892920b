//! Shifts by any count.
ghost use Rattle.std.specs.Prelude.{◌≡◌, ◌^◌, ◌<◌};
ghost use Rattle.ebc_alu.specs.Reading.{width};
ghost use Rattle.ebc_alu.specs.Results.{left_shift, right_shift, signed_right_shift};

use crate::reading::{from_signed, operand, shift_count, to_signed};

#[inline]
pub fn shift_left(wide: bool, a: u64, b: u64) -> u64
    ensures { result ≡ left_shift (width wide) a b }
{
    operand(wide, a.unbounded_shl(shift_count(b)))
}

/// Fills with 0.
#[inline]
pub fn shift_right(a: u64, b: u64) -> u64
    ensures { result ≡ right_shift a b }
{
    a.unbounded_shr(shift_count(b))
}

/// Fills with the sign.
#[inline]
pub fn shift_right_signed(wide: bool, a: u64, b: u64) -> u64
    requires { a < 2 ^ width wide }
    ensures { result ≡ signed_right_shift (width wide) a b }
{
    from_signed(wide, to_signed(wide, a).unbounded_shr(shift_count(b)))
}
