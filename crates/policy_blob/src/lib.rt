//! Floor: readers. It promises of any bytes the policy that they are, or the first fault, and of a policy its bytes. It never decides an
//! access, and takes no memory but for the list of rules, and for the bytes that it writes.
#![tactic(auto)]

mod field;
pub mod laws;
mod layout;
mod reading;
#[cfg(test)]
mod tests;
mod writing;

pub use mm_base::{PolicyFault, PolicyKind};
pub use reading::{PolicyEnd, read_policy};
pub use writing::policy_bytes;
