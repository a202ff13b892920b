//! Numbers of a width, the lowest byte first.
ghost use Rattle.std.specs.Prelude.{◌≡◌, ◌+◌, ◌≤◌, length};
ghost use Rattle.mm_base.specs.Numbers.{number_in};

use mm_base::number_at;

/// The 16-bit number at a place.
pub(crate) fn u16_at(bytes: &[u8], at: usize) -> u16
    requires { at + 2 ≤ length bytes.now }
    ensures { result ≡ number_in bytes.now at 2 }
{
    number_at(bytes, at, 2) as u16
}

/// The 32-bit number at a place.
pub(crate) fn u32_at(bytes: &[u8], at: usize) -> u32
    requires { at + 4 ≤ length bytes.now }
    ensures { result ≡ number_in bytes.now at 4 }
{
    number_at(bytes, at, 4) as u32
}
