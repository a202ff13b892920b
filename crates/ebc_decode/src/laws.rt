//! Laws of the spelling of instructions. The functions without a result do nothing: their contracts are the laws.
ghost use Rattle.std.specs.Prelude.{◌≡◌, Ok};
ghost use Rattle.ebc_decode.specs.Lawful.{IsLawful};
ghost use Rattle.ebc_decode.specs.Reading.{size_of};
ghost use Rattle.ebc_decode.specs.Laws.{OneInstruction, NoneBeginsAnother, HasTwoToEighteen, BegunIsSpelled, SpelledIsBegun};

use crate::ins::Ins;
use crate::reading::{EncodingFault, MOST_BYTES, decode};
use crate::writing::encode;

/// A spelling is that of one instruction.
pub fn one_instruction()
    ensures { OneInstruction }
{}

/// No spelling begins with another one.
pub fn none_begins_another()
    ensures { NoneBeginsAnother }
{}

/// An instruction has 2 to 18 bytes.
pub fn two_to_eighteen()
    ensures sizes { HasTwoToEighteen }
    ensures most { MOST_BYTES ≡ 18 }
{}

/// The instruction that bytes begin with is the one with whose spelling they begin, both ways.
pub fn decoding()
    ensures found { BegunIsSpelled }
    ensures only { SpelledIsBegun }
{}

/// An instruction that was encoded is decoded as it was, with its length.
pub fn comes_back(ins: &Ins) -> Result<(Ins, u8), EncodingFault>
    requires { IsLawful ins.now }
    ensures { result ≡ Ok (ins.now, size_of ins.now) }
{
    let (bytes, n) = encode(ins);
    decode(&bytes[..n as usize])
}
