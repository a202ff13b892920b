//! NOT.
ghost use Rattle.std.specs.Prelude.{◌≡◌, ◌^◌, ◌<◌};
ghost use Rattle.ebc_alu.specs.Reading.{width};
ghost use Rattle.ebc_alu.specs.Results.{complement};

/// Each bit the other way.
#[inline]
pub fn invert(wide: bool, b: u64) -> u64
    requires { b < 2 ^ width wide }
    ensures { result ≡ complement (width wide) b }
{
    if wide { u64::MAX - b } else { 0xffff_ffff - b }
}
