//! A byte, 16 or 32 bits, with their sign extended.
ghost use Rattle.std.specs.Prelude.{◌≡◌};
ghost use Rattle.ebc_alu.specs.Reading.{width};
ghost use Rattle.ebc_alu.specs.Results.{extension};

use crate::reading::{from_signed, operand, to_signed};

#[inline]
pub fn extend_byte(wide: bool, b: u64) -> u64
    ensures { result ≡ extension 8 (width wide) b }
{
    from_signed(wide, i64::from(((b % 0x100) as u8).cast_signed()))
}

#[inline]
pub fn extend_word(wide: bool, b: u64) -> u64
    ensures { result ≡ extension 16 (width wide) b }
{
    from_signed(wide, i64::from(((b % 0x1_0000) as u16).cast_signed()))
}

#[inline]
pub fn extend_double(wide: bool, b: u64) -> u64
    ensures { result ≡ extension 32 (width wide) b }
{
    from_signed(wide, to_signed(false, operand(false, b)))
}
