//! Floor: tables. It promises that each access of an image gets the verdict that the platform's map, the image's own ranges and the
//! first rule about it give. It never touches memory or cells, and keeps no count of anything.
#![tactic(auto)]

mod guard;
pub mod laws;
mod place;
mod rules;
#[cfg(test)]
mod tests;

pub use guard::Guard;
