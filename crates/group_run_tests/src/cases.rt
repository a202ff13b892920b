//! Boots of two drivers under policies, of which each image is known to be closed or open.
use memory_runs::is_booted_last;
use mm_base::NoMemory;
use sample_volumes::{Driver, Layout, POLICY_NAME, Part, volume_with};
use std::alloc::Global;

/// What a policy comes to for two drivers.
pub struct Case {
    pub name: &'static str,
    /// The body of the policy file.
    pub policy: &'static [Layout],
    pub drivers: &'static [Driver],
    /// What the report ends with.
    pub said: &'static [u8],
}

/// What is said where two images without handlers stay, and which of them are closed.
pub const BOTH_CLOSED: &[u8] = b"locked images 2 handlers 0 protocols 0
image 0 76697264-7265-6e20-756d-626572203031 closed
image 1 76697264-7265-6e20-756d-626572203032 closed
";

pub const FIRST_OPEN: &[u8] = b"locked images 2 handlers 0 protocols 0
image 0 76697264-7265-6e20-756d-626572203031 open
image 1 76697264-7265-6e20-756d-626572203032 closed
";

pub const SECOND_OPEN: &[u8] = b"locked images 2 handlers 0 protocols 0
image 0 76697264-7265-6e20-756d-626572203031 closed
image 1 76697264-7265-6e20-756d-626572203032 open
";

pub const BOTH_OPEN: &[u8] = b"locked images 2 handlers 0 protocols 0
image 0 76697264-7265-6e20-756d-626572203031 open
image 1 76697264-7265-6e20-756d-626572203032 open
";

/// Whether the report of this case's boot ends so. It costs a boot.
fn is_as_said(alloc: Global, case: &Case) -> Result<bool, NoMemory> {
    let front = [Part {
        name: POLICY_NAME,
        kind: 0x02,
        attributes: 0,
        off: 0,
        body: case.policy,
    }];
    let volume = volume_with(alloc, &front, case.drivers, &[])?;
    is_booted_last(alloc, volume.as_slice(), case.said)
}

/// The first of these cases that is booted otherwise.
pub fn first_wrong(alloc: Global, cases: &[Case]) -> Result<Option<&'static str>, NoMemory> {
    for case in cases {
        if !is_as_said(alloc, case)? {
            return Ok(Some(case.name));
        }
    }
    Ok(None)
}
