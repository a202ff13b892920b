//! The sixteen bytes after the first two, as two words.
ghost use Rattle.std.specs.Prelude.{◌≡◌, ◌+◌, ◌*◌, ◌/◌, ◌%◌, ◌^◌};
ghost use Rattle.ebc_decode.specs.ReadingInside.{bytes_if, tail_number};

use crate::layout::Layout;
use crate::operand::FieldWidth;

/// One more than the largest number of 16 bits.
pub(crate) const TO_16: u64 = 0x1_0000;

/// One more than the largest number of 32 bits.
pub(crate) const TO_32: u64 = 0x1_0000_0000;

/// One more than the largest number of 48 bits.
pub(crate) const TO_48: u64 = 0x1_0000_0000_0000;

/// The number in sixteen bytes, the lowest byte first.
#[derive(Clone, Copy)]
pub(crate) struct Tail {
    /// Its low 64 bits.
    pub(crate) low: u64,
    /// Its high 64 bits.
    pub(crate) high: u64,
}

/// The field with which a word begins, or 0 where there is none.
#[inline(always)]
fn field_in(word: u64, width: Option<FieldWidth>) -> u64
    ensures { result ≡ word % 256 ^ bytes_if width }
{
    match width {
        None => 0,
        Some(FieldWidth::Bits16) => word % TO_16,
        Some(FieldWidth::Bits32) => word % TO_32,
        Some(FieldWidth::Bits64) => word,
    }
}

impl Tail {
    /// The word that follows a first field.
    #[inline(always)]
    fn after(self, width: Option<FieldWidth>) -> u64
        ensures { result ≡ tail_number self / 256 ^ bytes_if width % 2 ^ 64 }
    {
        match width {
            None => self.low,
            Some(FieldWidth::Bits16) => self.low / TO_16 + self.high % TO_16 * TO_48,
            Some(FieldWidth::Bits32) => self.low / TO_32 + self.high % TO_32 * TO_32,
            Some(FieldWidth::Bits64) => self.high,
        }
    }

    /// The two fields with which it begins, each 0 where it isn't there.
    #[inline(always)]
    pub(crate) fn fields(self, layout: Layout) -> (u64, u64)
        ensures first { result.0 ≡ tail_number self % 256 ^ bytes_if layout.first }
        ensures second { result.1 ≡ tail_number self / 256 ^ bytes_if layout.first % 256 ^ bytes_if layout.second }
    {
        (
            field_in(self.low, layout.first),
            field_in(self.after(layout.first), layout.second),
        )
    }
}
