//! The first two bytes of an instruction.
ghost use Rattle.std.specs.Prelude.{◌≡◌};
ghost use Rattle.ebc_decode.specs.ReadingInside.{head_in, place_in};

use crate::operand::Place;

/// Bit 6 of byte 0.
pub(crate) const SIX: u8 = 0x40;

/// Bit 7 of byte 0.
pub(crate) const SEVEN: u8 = 0x80;

/// How many registers there are; in four bits that are a place, the bit that makes it indirect.
pub(crate) const REGISTERS: u8 = 8;

/// Bit 4 of byte 1: the first of its high bits.
pub(crate) const HIGH: u8 = 0x10;

/// Bit 5 of byte 1, in the register of its high bits.
pub(crate) const BIT_5: u8 = 2;

/// Bit 6 of byte 1, in the register of its high bits.
pub(crate) const BIT_6: u8 = 4;

/// The fields of the first two bytes.
#[derive(Clone, Copy)]
pub(crate) struct Head {
    /// Bits 0 to 5 of byte 0.
    pub(crate) opcode: u8,
    /// Bit 6 of byte 0.
    pub(crate) six: bool,
    /// Bit 7 of byte 0.
    pub(crate) seven: bool,
    /// Bits 0 to 3 of byte 1.
    pub(crate) first: Place,
    /// Bits 4 to 7 of byte 1.
    pub(crate) second: Place,
    /// Byte 1.
    pub(crate) byte: u8,
}

/// The place in four bits.
#[inline(always)]
fn place_in_bits(bits: u8) -> Place
    ensures { result ≡ place_in bits }
{
    Place {
        register: bits % REGISTERS,
        indirect: bits / REGISTERS == 1,
    }
}

impl Head {
    /// The fields of two bytes.
    #[inline(always)]
    pub(crate) fn of(first: u8, second: u8) -> Head
        ensures { result ≡ head_in first second }
    {
        Head {
            opcode: first % SIX,
            six: first / SIX % 2 == 1,
            seven: first / SEVEN == 1,
            first: place_in_bits(second % HIGH),
            second: place_in_bits(second / HIGH),
            byte: second,
        }
    }
}
