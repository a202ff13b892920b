//! Sums, differences and products. Their low bits are the same with and without a sign.
ghost use Rattle.std.specs.Prelude.{◌≡◌, ◌^◌, ◌<◌};
ghost use Rattle.ebc_alu.specs.Reading.{width};
ghost use Rattle.ebc_alu.specs.Results.{sum_of, difference, product_of, signed_product};

use crate::reading::operand;

#[inline]
pub fn add(wide: bool, a: u64, b: u64) -> u64
    ensures { result ≡ sum_of (width wide) a b }
{
    operand(wide, a.wrapping_add(b))
}

#[inline]
pub fn subtract(wide: bool, a: u64, b: u64) -> u64
    ensures { result ≡ difference (width wide) a b }
{
    operand(wide, a.wrapping_sub(b))
}

#[inline]
pub fn multiply(wide: bool, a: u64, b: u64) -> u64
    requires a { a < 2 ^ width wide }
    requires b { b < 2 ^ width wide }
    ensures unsigned { result ≡ product_of (width wide) a b }
    ensures signed { result ≡ signed_product (width wide) a b }
{
    operand(wide, a.wrapping_mul(b))
}
