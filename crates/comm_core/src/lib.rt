//! Floor: lanes. It promises that a request is captured word by word from words that others can rewrite at any moment,
//! each loaded once and before the turn, and that a world is always what its events make happen. It never takes memory
//! after an accepted ring, and never looks at what a request says but its length.
#![tactic(auto)]

mod action;
mod answer;
mod event;
mod lane;
pub mod laws;
mod processor;
mod script;
#[cfg(test)]
mod tests;
mod trace;
mod world;

pub use action::Action;
pub use event::Event;
pub use processor::{Fed, LEAST_WORDS, MOST_WORDS, Processor};
pub use script::Script;
pub use trace::Trace;
pub use world::World;
