//! Floor: core. It promises of a volume the policy that its policy file has, or that it has no such file, or the first fault of that file.
//! It never decides an access, and takes no memory but for the list of rules.
#![tactic(auto)]

pub mod laws;
mod reading;

pub use reading::{BootEnd, policy_of};
