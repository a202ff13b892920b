//! Floor: byte code. It promises that EFI Byte Code has one spelling an instruction: `decode` takes exactly the bytes that begin with it,
//! and `encode` gives it. It never touches registers, memory or a bus, and takes no memory.
#![tactic(auto)]

mod choices;
mod head;
mod ins;
pub mod laws;
mod layout;
mod opcode;
mod operand;
mod reading;
mod rows;
#[cfg(test)]
mod samples;
mod tail;
#[cfg(test)]
mod tests;
mod writing;

pub use choices::{BreakCode, Condition, Special, StackOp};
pub use ins::Ins;
pub use operand::{Field, FieldWidth, Operand, Place, Target, Width};
pub use reading::{EncodingFault, MOST_BYTES, decode, decode_fetched, length};
pub use writing::encode;
