//! Immediate values.
ghost use Rattle.std.specs.Prelude.{◌≡◌, ◌⊎◌};
ghost use Rattle.ebc_alu.specs.Index.{immediate_of};

use crate::extensions::{extend_byte, extend_double, extend_word};

/// The number that an immediate of 1, 2, 4 or 8 bytes stands for: its low bytes, with their sign extended to 64 bits (UEFI
/// 2.10, section 22.7). A few machine operations; takes no memory.
#[inline(always)]
pub fn immediate_value(raw: u64, bytes: u8) -> u64
    requires { (bytes ≡ 1) ⊎ ((bytes ≡ 2) ⊎ ((bytes ≡ 4) ⊎ (bytes ≡ 8))) }
    ensures { result ≡ immediate_of bytes raw }
{
    match bytes {
        1 => extend_byte(true, raw),
        2 => extend_word(true, raw),
        4 => extend_double(true, raw),
        _ => raw,
    }
}
