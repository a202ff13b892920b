//! Floor: memory. It promises that each block of a pool arena of 65,536 bytes gets the lowest aligned place, and that
//! live blocks lie apart. It never touches an arena's bytes, takes memory after its making, prints, or starts a thread.
#![tactic(auto)]

pub mod laws;
mod pool;
#[cfg(test)]
mod tests;
mod tree;

pub use pool::{ARENA_BYTES, NotLive, PoolTree};
