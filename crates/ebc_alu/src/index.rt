//! Natural indexes.
ghost use Rattle.std.specs.Prelude.{◌≡◌, ◌+◌, ◌*◌, ◌/◌, ◌%◌, ◌^◌, ◌<◌, ◌≤◌, ◌⊎◌};
ghost use Rattle.ebc_alu.specs.Index.{offset_of};

/// The low bits of a number.
#[inline]
fn keep_low(n: u64, count: u32) -> u64
    requires { count < 64 }
    ensures { result ≡ n % 2 ^ count }
{
    n & ((1 << count) - 1)
}

/// The two fields below `end`: bytes from `natural` on, and units of 8 bytes below it.
#[inline]
fn sum_of_fields(raw: u64, end: u32, natural: u32) -> u64
    requires within { natural ≤ end }
    requires small { end ≤ 60 }
    ensures value { result ≡ (raw % 2 ^ end) / 2 ^ natural + 8 * (raw % 2 ^ natural) }
{
    (keep_low(raw, end) >> natural) + 8 * keep_low(raw, natural)
}

/// The offset in bytes that a natural index of 2, 4 or 8 bytes stands for, modulo 2^64, where a natural unit has 8
/// bytes (UEFI 2.10, section 22.4). A few machine operations; takes no memory.
#[inline]
pub fn index_value(raw: u64, bytes: u8) -> u64
    requires width { (bytes ≡ 2) ⊎ ((bytes ≡ 4) ⊎ (bytes ≡ 8)) }
    requires fits { raw < 2 ^ (8 * bytes) }
    ensures { result ≡ offset_of bytes raw }
{
    let end = 8 * u32::from(bytes) - 4;
    let head = raw >> end;
    let natural = (u32::from(bytes) * (head % 8) as u32).min(end);
    let distance = sum_of_fields(raw, end, natural);
    if head < 8 {
        distance
    } else {
        0u64.wrapping_sub(distance)
    }
}
