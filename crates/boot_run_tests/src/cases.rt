//! Cases of volumes whose boot is known.
use memory_runs::is_booted_last;
use mm_base::NoMemory;
use sample_volumes::{Driver, Part, volume_with};
use std::alloc::Global;

/// What a volume's report ends with.
pub struct Case {
    /// The files before the drivers.
    pub front: &'static [Part],
    pub drivers: &'static [Driver],
    /// The lines from the policy's on.
    pub said: &'static [u8],
}

/// Whether the volume of this case is booted so. It costs a boot.
pub fn is_as_said(alloc: Global, case: &Case) -> Result<bool, NoMemory> {
    let volume = volume_with(alloc, case.front, case.drivers, &[])?;
    is_booted_last(alloc, volume.as_slice(), case.said)
}
