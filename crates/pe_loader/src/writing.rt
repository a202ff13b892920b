//! Writing bytes and numbers at a place.
ghost use Rattle.std.specs.Prelude.{◌≡◌, ◌+◌, ◌≤◌, length};
ghost use Rattle.std.specs.Int.{w16, w32, w64};
ghost use Rattle.pe_loader.specs.Loading.{put as put_at, raised};

use crate::numbers::{u16_at, u32_at};
use mm_base::number_at;

/// Writes bytes at a place.
pub(crate) fn put(out: &mut [u8], at: usize, bytes: &[u8])
    requires { at + length bytes.now ≤ length out.old }
    ensures { out.new ≡ put_at out.old at bytes.now }
{
    out[at..at + bytes.len()].copy_from_slice(bytes);
}

/// Raises the 16-bit number at a place; it wraps.
pub(crate) fn raise_u16(out: &mut [u8], at: usize, by: u16)
    requires { at + 2 ≤ length out.old }
    ensures { out.new ≡ raised w16 out.old at by }
{
    let number = u16_at(out, at).wrapping_add(by);
    put(out, at, &number.to_le_bytes());
}

/// Raises the 32-bit number at a place; it wraps.
pub(crate) fn raise_u32(out: &mut [u8], at: usize, by: u32)
    requires { at + 4 ≤ length out.old }
    ensures { out.new ≡ raised w32 out.old at by }
{
    let number = u32_at(out, at).wrapping_add(by);
    put(out, at, &number.to_le_bytes());
}

/// Raises the 64-bit number at a place; it wraps.
pub(crate) fn raise_u64(out: &mut [u8], at: usize, by: u64)
    requires { at + 8 ≤ length out.old }
    ensures { out.new ≡ raised w64 out.old at by }
{
    let number = number_at(out, at, 8).wrapping_add(by);
    put(out, at, &number.to_le_bytes());
}
