//! Floor: readers. It promises of any bytes the dependency expression that they begin with, or the first fault, and of an
//! expression whether it holds. It never reads past END, and takes no memory but for the list of a condition's items.
#![tactic(auto)]

mod expression;
mod found;
mod holding;
mod installed;
mod item;
mod item_walk;
pub mod laws;
mod look;
mod opcode;
mod operands;
mod reading;
#[cfg(test)]
mod tests;

pub use expression::Depex;
pub use holding::holds;
pub use installed::Installed;
pub use mm_base::DepexFault;
pub use reading::{DepexEnd, judge, parse};
