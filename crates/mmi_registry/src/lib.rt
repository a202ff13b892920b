//! Floor: tables. It promises that handlers stay in order of registration, that each refusal has its cause and changes
//! nothing, and that a chain comes to what its handlers' statuses say. It never calls a handler, and takes memory only
//! where a registry is made.
#![tactic(auto)]

mod chain_rule;
mod handlers;
pub mod laws;
mod registry;
#[cfg(test)]
mod tests;

pub use chain_rule::combine;
pub use registry::{
    MOST_BUILT_IN, MOST_HANDLERS, MOST_IMAGES, MOST_OF_IMAGE, RegisterEnd, Registry, UnregisterEnd,
};
