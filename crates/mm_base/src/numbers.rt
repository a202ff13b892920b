//! Numbers in bytes, the lowest byte first.
ghost use Rattle.std.specs.Prelude.{◌≡◌, ◌+◌, ◌*◌, ◌≤◌, ◌<◌, ◌↔◌, IsSome, IfSome, take, drop, length};
ghost use Rattle.std.specs.Str.{bytes_eq};
ghost use Rattle.mm_base.specs.Numbers.{number_of, number_in, word_in, bytes_of_word};

use byteorder::{ByteOrder, LittleEndian};

/// How many bytes a word has.
pub const WORD_BYTES: usize = 8;

/// The number in the `n` bytes from `at`, for `n` of 1 to 8; None where fewer are left.
pub fn le_at(bytes: &[u8], at: usize, n: u8) -> Option<u64>
    requires low { 1 ≤ n }
    requires high { n ≤ 8 }
    ensures found { IsSome result ↔ (at + n ≤ length bytes.now) }
    ensures value { IfSome result (λ number. number ≡ number_of (take n (drop at bytes.now))) }
{
    let count = usize::from(n);
    if at > bytes.len() || bytes.len() - at < count {
        return None;
    }
    let (_, rest) = bytes.split_at(at);
    Some(LittleEndian::read_uint(rest, count))
}

/// The number in the `n` bytes from `at`, which are there, for `n` of 1 to 8.
pub fn number_at(bytes: &[u8], at: usize, n: u8) -> u64
    requires low { 1 ≤ n }
    requires high { n ≤ 8 }
    requires within { at + n ≤ length bytes.now }
    ensures { result ≡ number_in bytes.now at n }
{
    le_at(bytes, at, n).unwrap()
}

/// Whether the bytes from `at` on begin with these; linear in these.
pub fn stands_at(bytes: &[u8], at: usize, wanted: &[u8]) -> bool
    requires { at + length wanted.now ≤ length bytes.now }
    ensures { result ≡ bytes_eq (take (length wanted.now) (drop at bytes.now)) wanted.now }
{
    let there = &bytes[at..at + wanted.len()];
    there == wanted
}

/// Word `j` of bytes; what is past their end counts as 0.
pub fn word_at(bytes: &[u8], j: usize) -> u64
    requires { 8 * j < length bytes.now }
    ensures { result ≡ word_in bytes.now j }
{
    let (_, rest) = bytes.split_at(WORD_BYTES * j);
    let count = WORD_BYTES.min(rest.len());
    LittleEndian::read_uint(rest, count)
}
