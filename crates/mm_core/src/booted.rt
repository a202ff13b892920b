//! What the boot of a volume leaves.
use crate::machine_core::Core;
use driver_start::StartRecord;
use mm_base::{Guid, List};

/// A core after the boot of a volume, and what is told of the boot.
#[derive(Drop)]
pub struct Boot {
    /// The core. Registration and installation are over.
    pub core: Core,
    /// The starts of drivers, in order.
    pub starts: List<StartRecord>,
    /// The names of the drivers that were never scheduled, in volume order.
    pub waiting: List<Guid>,
}
