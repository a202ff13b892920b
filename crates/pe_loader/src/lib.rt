//! Floor: readers. It promises of any bytes the image in the PE32+ format that they are, as UEFI uses it, or the first fault, and
//! of an image its bytes where it is loaded. It never takes memory.
#![tactic(auto)]

mod applying;
mod fields;
mod fixup;
mod fixup_kind;
mod head;
mod header;
#[cfg(test)]
mod inspect_tests;
mod inspecting;
pub mod laws;
mod layout;
#[cfg(test)]
mod many_tests;
mod numbers;
mod overlaps;
mod pe_fault;
#[cfg(test)]
mod place_tests;
mod placing;
mod relocations;
#[cfg(test)]
mod samples;
mod sections;
mod span;
mod window;
mod writing;

pub use inspecting::{inspect, part};
pub use mm_base::{Image, Part, PeFault, PeKind};
pub use placing::place;
