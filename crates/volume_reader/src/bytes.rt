//! Bytes, and sums of them.
ghost use Rattle.std.specs.Prelude.{◌≡◌, ◌+◌, ◌%◌, ◌^◌, ◌≤◌, ◌<◌, length};
ghost use Rattle.mm_base.specs.Numbers.{number_in};
ghost use Rattle.volume_reader.specs.Sums.{sum_in_8_bits, sum_in_16_bits};
ghost use Rattle.volume_reader.specs.VolumeHeader.{up_to_8 as rounded_up};

/// The byte at a place.
pub(crate) fn byte_at(bytes: &[u8], at: usize) -> u8
    requires { at < length bytes.now }
    ensures { result ≡ number_in bytes.now at 1 }
{
    bytes[at]
}

/// The 8-bit sum of bytes; linear in them.
pub(crate) fn sum_of_bytes(bytes: &[u8]) -> u8
    ensures { result ≡ sum_in_8_bits bytes.now }
{
    let mut total: u8 = 0;
    for byte in bytes {
        total = total.wrapping_add(*byte);
    }
    total
}

/// The 16-bit sum of bytes; linear in them.
pub(crate) fn sum_of_words(bytes: &[u8]) -> u16
    requires { length bytes.now % 2 ≡ 0 }
    ensures { result ≡ sum_in_16_bits bytes.now }
{
    let mut total: u16 = 0;
    for place in 0..bytes.len() / 2 {
        let low = u16::from(bytes[2 * place]);
        let high = u16::from(bytes[2 * place + 1]);
        total = total.wrapping_add(low + 256 * high);
    }
    total
}

/// A place rounded up to a multiple of 8.
pub(crate) fn up_to_8(place: usize) -> usize
    requires { place ≤ 4294967296 }
    ensures { result ≡ rounded_up place }
{
    8 * ((place + 7) / 8)
}
