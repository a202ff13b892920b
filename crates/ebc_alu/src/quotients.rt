//! Quotients and remainders of two signed numbers.
ghost use Rattle.std.specs.Prelude.{◌≡◌, ◌^◌, ◌<◌};
ghost use Rattle.ebc_alu.specs.Reading.{width};
ghost use Rattle.ebc_alu.specs.Results.{signed_quotient, signed_remainder};

use crate::reading::{from_signed, to_signed};

/// Cut towards 0; the least number divided by -1 is the least number.
#[inline]
pub fn divide_signed(wide: bool, a: u64, b: u64) -> u64
    requires a { a < 2 ^ width wide }
    requires b { b < 2 ^ width wide }
    requires divisor { 0 < b }
    ensures { result ≡ signed_quotient (width wide) a b }
{
    from_signed(wide, to_signed(wide, a).wrapping_div(to_signed(wide, b)))
}

/// With the sign of the dividend.
#[inline]
pub fn remainder_signed(wide: bool, a: u64, b: u64) -> u64
    requires a { a < 2 ^ width wide }
    requires b { b < 2 ^ width wide }
    requires divisor { 0 < b }
    ensures { result ≡ signed_remainder (width wide) a b }
{
    from_signed(wide, to_signed(wide, a).wrapping_rem(to_signed(wide, b)))
}
