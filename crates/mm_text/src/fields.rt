//! How one word of a line is read; the cost is linear in its bytes.
ghost use Rattle.std.specs.Prelude.{◌≡◌, ◌≤◌, ◌^◌, Some, None, MatchOption, vec_len, IfOk};
ghost use Rattle.mm_text.specs.LineReaderInside.{split_at as split_of, digits_in, decimal_in, hexadecimal_in, bytes_in, owner_in, cells_in, pair_in, has_equals as has_equals_in, or_unreadable, Gives};

use crate::line::{CellKind, Named};
use crate::line_end::LineEnd;
use mm_base::{Guid, List, NoMemory};
use std::alloc::Global;
use std::str;

/// The most digits of a decimal number.
const MOST_DECIMALS: usize = 10;

/// The most digits of a hexadecimal number.
const MOST_HEXADECIMALS: usize = 16;

const EQUALS: u8 = 61;

/// A number of 1 to 10 decimal digits.
pub(crate) fn read_decimal(word: &[u8]) -> Result<u64, LineEnd>
    ensures { result ≡ or_unreadable (decimal_in word.now) }
{
    match read_number(word, 10, MOST_DECIMALS) {
        Some(number) => Ok(number),
        None => Err(LineEnd::Number),
    }
}

/// A number of 1 to 16 hexadecimal digits of either case.
pub(crate) fn read_hexadecimal(word: &[u8]) -> Result<u64, LineEnd>
    ensures { result ≡ or_unreadable (hexadecimal_in word.now) }
{
    match read_number(word, 16, MOST_HEXADECIMALS) {
        Some(number) => Ok(number),
        None => Err(LineEnd::Number),
    }
}

/// A number of at most so many digits in this base. A plus, which `from_str_radix` takes in front, is no digit.
fn read_number(word: &[u8], base: u32, most: usize) -> Option<u64>
    requires low { 2 ≤ base }
    requires high { base ≤ 36 }
    requires small { base ^ most ≤ 2 ^ 64 }
    ensures { result ≡ digits_in base most word.now }
{
    if word.len() > most || word.starts_with(b"+") {
        return None;
    }
    match str::from_utf8(word) {
        Ok(digits) => u64::from_str_radix(digits, base).ok(),
        Err(_) => None,
    }
}

/// The bytes of an even count of hexadecimal digits of either case.
#[tactic(auto, unfolding(crate::specs::LineReaderInside::bytes_in))]
pub(crate) fn read_bytes(alloc: Global, word: &[u8]) -> Result<List<u8>, LineEnd>
    ensures { Gives (or_unreadable (bytes_in word.now)) result }
{
    let mut bytes = zeros(alloc, word.len() / 2)?;
    match hex::decode_to_slice(word, bytes.as_mut_slice()) {
        Ok(()) => Ok(List::from_vec(bytes)),
        Err(_) => Err(LineEnd::Number),
    }
}

/// As many bytes 0.
fn zeros(alloc: Global, count: usize) -> Result<Vec<u8>, NoMemory>
    ensures { IfOk result (λ bytes. vec_len bytes ≡ count) }
{
    Ok(vec![in alloc; 0u8; count]?)
}

/// Whom a stub is registered for: the root chain by the word `root`, or a GUID.
#[tactic(auto, unfolding(crate::specs::LineReaderInside::owner_in))]
pub(crate) fn read_owner(word: &[u8]) -> Result<Option<Guid>, LineEnd>
    ensures { result ≡ or_unreadable (owner_in word.now) }
{
    if word == b"root".as_slice() {
        return Ok(None);
    }
    let Ok(text) = str::from_utf8(word) else {
        return Err(LineEnd::Number);
    };
    match Guid::from_text(text) {
        Some(guid) => Ok(Some(guid)),
        None => Err(LineEnd::Number),
    }
}

/// A kind of cells.
#[tactic(auto, unfolding(crate::specs::LineReaderInside::cells_in))]
pub(crate) fn read_cells(word: &[u8]) -> Option<CellKind>
    ensures { result ≡ cells_in word.now }
{
    if word == b"io".as_slice() {
        return Some(CellKind::Io);
    }
    if word == b"msr".as_slice() {
        return Some(CellKind::Msr);
    }
    if word == b"dev".as_slice() {
        return Some(CellKind::Device);
    }
    None
}

/// Whether a word has a `=`.
#[tactic(auto, unfolding(crate::specs::LineReaderInside::has_equals))]
pub(crate) fn has_equals(word: &[u8]) -> bool
    ensures { result ≡ has_equals_in word.now }
{
    split_at(word, EQUALS).is_some()
}

/// A register's number and its value, with the first `=` between them.
#[tactic(auto, unfolding(crate::specs::LineReaderInside::pair_in))]
pub(crate) fn read_pair(word: &[u8]) -> Option<Named>
    ensures { result ≡ pair_in word.now }
{
    let (register, value) = split_at(word, EQUALS)?;
    Some(Named {
        register: read_decimal(register).ok()?,
        value: read_hexadecimal(value).ok()?,
    })
}

/// What stands in front of the first of this byte, and what stands behind it.
fn split_at(text: &[u8], stop: u8) -> Option<(&[u8], &[u8])>
    ensures { MatchOption result (split_of stop text.now ≡ None) (λ p. split_of stop text.now ≡ Some (p.0.now, p.1.now)) }
{
    for (i, byte) in text.iter().enumerate() {
        if *byte == stop {
            let (front, rest) = text.split_at(i);
            let (_, rest) = rest.split_at(1);
            return Some((front, rest));
        }
    }
    None
}
