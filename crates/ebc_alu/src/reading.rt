//! Operands as numbers with and without a sign, and results cut to the width.
ghost use Rattle.std.specs.Prelude.{◌≡◌, ◌^◌, ◌<◌, ◌≤◌, min};
ghost use Rattle.ebc_alu.specs.Reading.{width, low_bits, signed, reduced};

/// The bits that an operation works on: all 64, or the low 32.
#[inline]
pub fn operand(wide: bool, n: u64) -> u64
    ensures { result ≡ low_bits (width wide) n }
{
    if wide { n } else { n % 0x1_0000_0000 }
}

/// An operand read with its sign.
#[inline]
pub fn to_signed(wide: bool, n: u64) -> i64
    requires { n < 2 ^ width wide }
    ensures { result ≡ signed (width wide) n }
{
    if wide {
        n.cast_signed()
    } else {
        i64::from((n as u32).cast_signed())
    }
}

/// A signed number modulo 2^64 or 2^32.
#[inline]
pub fn from_signed(wide: bool, z: i64) -> u64
    ensures { result ≡ reduced (width wide) z }
{
    operand(wide, z.cast_unsigned())
}

/// A shift's count; one of 64 or more counts as 64, since it shifts out all bits at either width.
#[inline]
pub fn shift_count(n: u64) -> u32
    ensures { result ≡ min n 64 }
{
    n.min(64) as u32
}
