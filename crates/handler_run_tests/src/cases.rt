//! Cases of drivers and scripts whose report is known.
use memory_runs::served;
use mm_base::{List, NoMemory};
use mm_run::Status;
use sample_volumes::{Driver, Part, volume_with};
use std::alloc::Global;

/// What `serve` comes to on a volume and a script.
pub struct Case {
    pub name: &'static str,
    /// The files before the drivers.
    pub front: &'static [Part],
    pub drivers: &'static [Driver],
    pub script: &'static [u8],
    /// The lines from the policy's on, in pieces.
    pub said: &'static [&'static [u8]],
}

/// Whether `serve` answers 0 on the volume and the script of this case, hands out the world that it drove, and the report ends so. It costs
/// a boot and the script's entries.
fn is_as_said(alloc: Global, case: &Case) -> Result<bool, NoMemory> {
    let mut said = List::new(alloc);
    for piece in case.said {
        said.extend(piece)?;
    }
    let volume = volume_with(alloc, case.front, case.drivers, &[])?;
    let end = served(alloc, volume.as_slice(), case.script, &[])?;
    Ok(end.status == Status::Done && end.world && end.written.as_slice().ends_with(said.as_slice()))
}

/// The first of these cases that is served otherwise.
pub fn first_wrong(alloc: Global, cases: &[Case]) -> Result<Option<&'static str>, NoMemory> {
    for case in cases {
        if !is_as_said(alloc, case)? {
            return Ok(Some(case.name));
        }
    }
    Ok(None)
}
