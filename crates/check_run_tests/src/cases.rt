//! Cases of one driver file in a volume.
use memory_runs::is_listed_last;
use mm_base::NoMemory;
use sample_volumes::{Section, volume_with};
use std::alloc::Global;

/// What is shown, the sections of a driver file, and the end of the report on a volume with that file alone.
pub type Case = (&'static str, &'static [Section], &'static [u8]);

/// Whether the volume of this case is listed so.
fn is_as_said(alloc: Global, case: &Case) -> Result<bool, NoMemory> {
    let (_, sections, said) = case;
    let volume = volume_with(alloc, &[], &[(b"driver number 01", sections)], &[])?;
    is_listed_last(alloc, volume.as_slice(), said)
}

/// The first of these that is listed otherwise.
pub fn first_wrong(alloc: Global, cases: &[Case]) -> Result<Option<&'static str>, NoMemory> {
    for case in cases {
        if !is_as_said(alloc, case)? {
            return Ok(Some(case.0));
        }
    }
    Ok(None)
}
