//! Floor: core. It promises of the boot of a volume that its drivers are those of its files, that they start in their rounds under its policy,
//! and that all is locked then. It never answers a request, and never tells anybody what it did.
#![tactic(auto)]

mod booting;
mod drivers;
mod starter;
mod waiting;

pub use booting::{VolumeBoot, boot_volume};
