//! Floor: lanes. It promises that a machine with the entries that it served is, after each of them, the replay of their
//! requests from the machine at the start. It never takes memory, looks at what a request says, or knows of lanes.
#![tactic(auto)]

mod kept;
pub mod laws;
#[cfg(test)]
mod tests;

pub use kept::Kept;
