//! Floor: byte code. Results, comparisons and natural indexes of EFI Byte Code (UEFI 2.10, chapter 22) are the whole
//! numbers that their definitions name, modulo 2^64 or 2^32. This crate never touches a register, an instruction's
//! bytes or memory.
#![tactic(auto)]

mod bits;
mod comparison;
mod extensions;
mod immediate;
mod index;
pub mod laws;
mod operation;
mod quotients;
mod reading;
mod shifts;
mod sums;
#[cfg(test)]
mod tests;

pub use comparison::compare;
pub use immediate::immediate_value;
pub use index::index_value;
pub use mm_base::{AluOp, CmpOp};
pub use operation::{DivideError, alu};
