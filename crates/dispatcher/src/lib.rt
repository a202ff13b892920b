//! Floor: core. It promises of any drivers and any starter that they are started in the rounds that their expressions say, in
//! the order that BEFORE and AFTER say, and no driver twice. It never looks into an image, and never judges a start.
#![tactic(auto)]

mod dispatching;
mod driver;
mod families;
pub mod laws;
mod name_index;
mod starter;
#[cfg(test)]
mod tests;

pub use dispatching::dispatch;
pub use driver::{Driver, Started};
pub use starter::Starter;
