//! Bytes read as an instruction.
ghost use Rattle.std.specs.Prelude.{◌≡◌, ◌<◌, ◌≤◌, IfOk, length, take, drop};
ghost use Rattle.ebc_decode.specs.Bytes.{little};
ghost use Rattle.ebc_decode.specs.Reading.{IsInstruction, TellsEach, BeginsInstruction, TellsEachLength};
ghost use Rattle.ebc_decode.specs.Decoding.{length_begun, instruction_begun, Tells};
ghost use Rattle.ebc_decode.specs.ReadingInside.{Begins, BeginsOnly, widths, number_in, number_of};

use crate::head::Head;
use crate::ins::Ins;
use crate::layout::{Layout, fields_after, is_accepted};
use crate::opcode::{Opcode, opcode_at};
use crate::rows::build;
use crate::tail::{TO_16, TO_48, Tail};

/// The most bytes that an instruction has.
pub const MOST_BYTES: usize = 18;

/// One more than the largest number of a byte.
const TO_8: u64 = 0x100;

/// No instruction begins there, or not all of its bytes are there.
#[derive(Clone, Copy, Debug, PartialEq, Eq)]
pub struct EncodingFault;

/// The opcode of the first two bytes, and the fields that follow them.
#[inline(always)]
fn begin(head: Head) -> Result<(Opcode, Layout), EncodingFault>
    requires { head.opcode < 64 }
    ensures found { IfOk result (λ told. Begins head told.0) }
    ensures fields { IfOk result (λ told. told.1 ≡ widths told.0 head) }
    ensures only { BeginsOnly head result }
{
    match opcode_at(head.opcode) {
        Some(opcode) if is_accepted(opcode, head) => Ok((opcode, fields_after(opcode, head))),
        _ => Err(EncodingFault),
    }
}

/// How many bytes the instruction has that two bytes begin, 2 to 18: `EncodingFault` exactly where they begin none. It
/// takes a bounded number of steps and no memory.
#[inline(always)]
pub fn length(first: u8, second: u8) -> Result<u8, EncodingFault>
    ensures found { IfOk result (λ n. BeginsInstruction first second n) }
    ensures only { TellsEachLength first second result }
    ensures value { Tells result (length_begun first second) }
{
    let (_, layout) = begin(Head::of(first, second))?;
    Ok(layout.length())
}

/// The instruction in the first n bytes of words, the lowest byte first.
#[inline(always)]
fn decode_words(first: u64, second: u64, third: u16, n: u8) -> Result<(Ins, u8), EncodingFault>
    requires { n ≤ 18 }
    ensures found { let bytes = little n (number_in first second third) in
        IfOk result (λ told. IsInstruction bytes told.0 told.1) }
    ensures only { TellsEach (little n (number_in first second third)) result }
{
    let head = Head::of((first % TO_8) as u8, (first / TO_8 % TO_8) as u8);
    let (opcode, layout) = begin(head)?;
    let length = layout.length();
    if n < length {
        return Err(EncodingFault);
    }
    let tail = Tail {
        low: first / TO_16 + second % TO_16 * TO_48,
        high: second / TO_16 + u64::from(third) * TO_48,
    };
    let (one, other) = tail.fields(layout);
    Ok((build(opcode, head, one, other), length))
}

/// The eight bytes from a place on as a word, the lowest first.
#[inline(always)]
fn word_at(bytes: &[u8; MOST_BYTES], at: usize) -> u64
    requires { at ≤ 10 }
    ensures { result ≡ number_of (take 8 (drop at bytes.now)) }
{
    u64::from_le_bytes([
        bytes[at],
        bytes[at + 1],
        bytes[at + 2],
        bytes[at + 3],
        bytes[at + 4],
        bytes[at + 5],
        bytes[at + 6],
        bytes[at + 7],
    ])
}

/// The instruction that the first n of these bytes begin with, and its length: `EncodingFault` exactly where they begin
/// with none. It takes a bounded number of steps and no memory, and no step for each byte.
#[inline(always)]
pub fn decode_fetched(bytes: &[u8; MOST_BYTES], n: u8) -> Result<(Ins, u8), EncodingFault>
    requires { n ≤ 18 }
    ensures found { IfOk result (λ told. IsInstruction (take n bytes.now) told.0 told.1) }
    ensures only { TellsEach (take n bytes.now) result }
    ensures value { Tells result (instruction_begun (take n bytes.now)) }
{
    let third = u16::from_le_bytes([bytes[16], bytes[17]]);
    decode_words(word_at(bytes, 0), word_at(bytes, 8), third, n)
}

/// Up to 18 bytes, and zeros.
fn padded(bytes: &[u8]) -> [u8; MOST_BYTES]
    requires { length bytes.now ≤ 18 }
    ensures { take (length bytes.now) result ≡ bytes.now }
{
    let mut all = [0; MOST_BYTES];
    for i in 0..bytes.len() {
        all[i] = bytes[i];
    }
    all
}

/// The instruction that the bytes begin with (UEFI 2.10, chapter 22, in this project's profile), and its length, 2 to
/// 18: `EncodingFault` exactly where they begin with none, also where some of its bytes are missing. It takes a
/// bounded number of steps, however many bytes there are, and no memory.
pub fn decode(bytes: &[u8]) -> Result<(Ins, u8), EncodingFault>
    ensures found { IfOk result (λ told. IsInstruction bytes.now told.0 told.1) }
    ensures only { TellsEach bytes.now result }
{
    let (front, _) = bytes.split_at(bytes.len().min(MOST_BYTES));
    decode_fetched(&padded(front), front.len() as u8)
}
