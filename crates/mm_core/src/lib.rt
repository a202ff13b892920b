//! Floor: core. It promises that a captured request is answered by the entry step over the handlers that are registered, and that a boot
//! leaves the core of the tables that its drivers left. It never reads a lane, or takes memory in a step. The words of files, which
//! `file_words` finds, the policy of a volume, which `volume_policy` reads, and how starts ended, which `driver_start` says, are offered
//! again.
#![tactic(auto)]

mod booted;
mod booting;
mod buffer;
mod chain;
mod code;
mod core_parts;
mod entry_step;
mod header;
mod invoke;
pub mod laws;
mod machine_core;
mod page;
mod reaching;
mod script_core;
#[cfg(test)]
mod tests;
mod version;

pub use booted::Boot;
pub use booting::boot;
pub use driver_start::{StartEnd, StartRecord};
pub use file_words::{Cause, FileWord, catalog};
pub use machine_core::Core;
pub use script_core::scripted;
pub use version::{VERSION_GUID, VERSION_NUMBER};
pub use volume_policy::{BootEnd, policy_of};
