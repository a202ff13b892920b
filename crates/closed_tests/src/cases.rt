//! Cases of volumes: which groups of the images that their boot leaves are closed.
use crate::plain::is_closed_plainly;
use mm_base::{List, NoMemory, Opening};
use mm_core::{Core, boot};
use mm_groups::{each_alone_closed, is_closed};
use sample_volumes::{Driver, Layout, POLICY_NAME, Part, volume_with};
use std::alloc::Global;
use volume_reader::read_volume;

/// The most bytes that a volume may have.
const MOST_BYTES: usize = 16_777_216;

/// A group, by the numbers of its images, and whether it is closed.
pub type Group = (&'static [u32], bool);

/// What is known of a volume.
pub struct Case {
    /// The section of the policy.
    pub policy: &'static [Layout],
    pub drivers: &'static [Driver],
    /// How many handlers the boot leaves.
    pub handlers: u32,
    /// Of each image that the boot leaves, by its number, whether the group of that image alone is closed.
    pub alone: &'static [bool],
    pub groups: &'static [Group],
}

/// Whether the images of this case's volume are as it says. It costs a boot, and what the plain test costs for each group.
pub fn is_as_said(alloc: Global, case: &Case) -> Result<bool, NoMemory> {
    let policy = Part {
        name: POLICY_NAME,
        kind: 0x02,
        attributes: 0,
        off: 0,
        body: case.policy,
    };
    let volume = volume_with(alloc, &[policy], case.drivers, &[])?;
    match core_of(alloc, volume.as_slice()) {
        Some(core) => is_core_as_said(alloc, &core, case),
        None => Ok(false),
    }
}

/// Whether a core is as the case says.
fn is_core_as_said(alloc: Global, core: &Core, case: &Case) -> Result<bool, NoMemory> {
    Ok(
        core.handlers() == case.handlers
            && are_groups_as_said(core, case.groups)
            && are_alone_as_said(alloc, core, case.alone)?,
    )
}

/// The core that the boot of a volume leaves; None where there is none.
fn core_of(alloc: Global, bytes: &[u8]) -> Option<Core> {
    if bytes.len() > MOST_BYTES {
        return None;
    }
    let Ok(volume) = read_volume(alloc, bytes) else {
        return None;
    };
    let opening = Opening {
        cells: List::new(alloc),
    };
    match boot(alloc, bytes, &volume, &opening) {
        Ok(boot) => Some(boot.core),
        Err(_) => None,
    }
}

/// Whether `is_closed` and the plain test both answer what is said of each of these groups.
fn are_groups_as_said(core: &Core, groups: &[Group]) -> bool {
    for (group, closed) in groups {
        if !is_group_as_said(core, group, *closed) {
            return false;
        }
    }
    true
}

/// Whether they do of this group.
fn is_group_as_said(core: &Core, group: &[u32], closed: bool) -> bool {
    closed_of(core, group) == Some(closed) && is_closed_plainly(core, group) == closed
}

/// What `is_closed` answers of a group; None where one of its images isn't there.
fn closed_of(core: &Core, group: &[u32]) -> Option<bool> {
    let images = core.images();
    if group.iter().all(|image| *image < images) {
        Some(is_closed(core, group))
    } else {
        None
    }
}

/// Whether `each_alone_closed` answers what is said of each image, and `is_closed` the same.
fn are_alone_as_said(alloc: Global, core: &Core, alone: &[bool]) -> Result<bool, NoMemory> {
    let flags = each_alone_closed(alloc, core)?;
    Ok(flags.as_slice() == alone && are_flags_of_groups(core, flags.as_slice()))
}

/// Whether there is a flag for each image, which is what `is_closed` answers of that image alone.
fn are_flags_of_groups(core: &Core, flags: &[bool]) -> bool {
    for image in 0..core.images() {
        if closed_of(core, &[image]) != flags.get(image as usize).copied() {
            return false;
        }
    }
    flags.len() == core.images() as usize
}
