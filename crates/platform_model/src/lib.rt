//! Floor: tables. It promises that a cell of the platform holds what was last written to it, or what it held at the start, and that
//! a write changes its own cells alone. It never decides who may access which of them, and records nothing.
#![tactic(auto)]

pub mod laws;
mod platform;
mod registers;
#[cfg(test)]
mod tests;

pub use platform::Platform;
pub use registers::saved;
