//! Floor: memory. It promises that memory is one flat list of bytes, whatever pages it lies in. It never decides who may access
//! which of them.
#![tactic(auto)]

pub mod laws;
mod memory;
mod plain_frames;
#[cfg(test)]
mod tests;

pub use memory::Memory;
pub use mm_base::Frames;
pub use plain_frames::PlainFrames;
