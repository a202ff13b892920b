//! Floor: memory. It promises that a request for pages is answered with the lowest free run of them, and with none exactly where
//! there is none. It never takes memory after it was made, and never touches the pages themselves.
#![tactic(auto)]

pub mod laws;
mod run_map;
#[cfg(test)]
mod tests;

pub use run_map::RunMap;
