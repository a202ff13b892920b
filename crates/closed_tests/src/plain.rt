//! Whether a group is closed, by its definition: every unit is looked at, and every two handlers. Nothing here asks where what images may
//! reach can change.
use mm_base::{Handler, HandlerBody, Kind, Right};
use mm_core::Core;

/// Units of a kind, from the first one up to the last one, which isn't among them: each window of cells, with two units on either side.
type Units = (Kind, u64, u64);

const WINDOWS: &[Units] = &[
    (Kind::Io, 0, 0x1_0002),
    (Kind::Msr, 0, 0x2002),
    (Kind::Msr, 0xbfff_fffe, 0xc000_2002),
    (Kind::Memory, 0xfdff_fffe, 0xfe01_0002),
];

/// Where the pages of the first image begin, as the number of a page. The others' follow one after another; where a driver is withdrawn, the
/// next one takes its place.
const FIRST_PAGE: u64 = 0x8_0000;

/// How many pages an image takes: one for itself, and 38 past it.
const PAGES_OF_IMAGE: u64 = 39;

/// How many images there may be.
const MOST_IMAGES: u64 = 32;

/// How many bytes an image has, and one more.
const BYTES_OF_IMAGE: u64 = 0x161;

/// Whether a group is closed. It costs a question to the core for each image at each of some 170,000 units, and more where an image outside
/// may write.
pub fn is_closed_plainly(core: &Core, group: &[u32]) -> bool {
    are_handlers_alike(core, group)
        && are_windows_apart(core, group)
        && are_images_apart(core, group)
        && are_pages_apart(core, group)
}

/// Whether every two handlers of one GUID are both code of the group's images, or both not.
fn are_handlers_alike(core: &Core, group: &[u32]) -> bool {
    for place in 0..core.handlers() {
        if !is_alike_with_all(core, group, place) {
            return false;
        }
    }
    true
}

/// Whether the handler at a place is so with every handler.
fn is_alike_with_all(core: &Core, group: &[u32], place: u32) -> bool {
    for other in 0..core.handlers() {
        if !are_alike(group, core.handler(place), core.handler(other)) {
            return false;
        }
    }
    true
}

/// Whether two handlers, which are there, are so. A root handler has no GUID.
fn are_alike(group: &[u32], handler: Option<Handler>, other: Option<Handler>) -> bool {
    match (handler, other) {
        (Some(handler), Some(other)) => {
            handler.guid.is_none()
                || handler.guid != other.guid
                || is_code_of(group, &handler) == is_code_of(group, &other)
        }
        _ => false,
    }
}

/// Whether a handler is code of the group's images.
fn is_code_of(group: &[u32], handler: &Handler) -> bool {
    match handler.body {
        HandlerBody::Code { image, .. } => group.contains(&image),
        _ => false,
    }
}

/// Whether no unit of the windows is both written outside and granted.
fn are_windows_apart(core: &Core, group: &[u32]) -> bool {
    for window in WINDOWS {
        if !are_units_apart(core, group, window) {
            return false;
        }
    }
    true
}

/// Whether none of these units is.
fn are_units_apart(core: &Core, group: &[u32], units: &Units) -> bool {
    let (kind, first, last) = units;
    for unit in *first..*last {
        if !is_unit_apart(core, group, *kind, unit) {
            return false;
        }
    }
    true
}

/// Whether no byte of the images themselves is.
fn are_images_apart(core: &Core, group: &[u32]) -> bool {
    for image in 0..MOST_IMAGES {
        let page = FIRST_PAGE.wrapping_add(image.wrapping_mul(PAGES_OF_IMAGE));
        let base = page.wrapping_mul(0x1000);
        let units = (Kind::Memory, base, base.wrapping_add(BYTES_OF_IMAGE));
        if !are_units_apart(core, group, &units) {
            return false;
        }
    }
    true
}

/// Whether neither the last two bytes of a page nor the first two of the next one are, for all pages that images may have.
fn are_pages_apart(core: &Core, group: &[u32]) -> bool {
    let pages = MOST_IMAGES.wrapping_mul(PAGES_OF_IMAGE);
    for page in FIRST_PAGE..FIRST_PAGE.wrapping_add(pages).wrapping_add(1) {
        let base = page.wrapping_mul(0x1000);
        let units = (Kind::Memory, base.wrapping_sub(2), base.wrapping_add(2));
        if !are_units_apart(core, group, &units) {
            return false;
        }
    }
    true
}

/// Whether a unit isn't both written outside and granted.
fn is_unit_apart(core: &Core, group: &[u32], kind: Kind, unit: u64) -> bool {
    !is_written_outside(core, group, kind, unit) || !is_granted(core, group, kind, unit)
}

/// Whether some image outside the group may write a unit.
fn is_written_outside(core: &Core, group: &[u32], kind: Kind, unit: u64) -> bool {
    for image in 0..core.images() {
        if !group.contains(&image) && may(core, image, kind, unit, Right::Write) {
            return true;
        }
    }
    false
}

/// Whether some image of the group may read, write or execute a unit.
fn is_granted(core: &Core, group: &[u32], kind: Kind, unit: u64) -> bool {
    for image in group {
        if may(core, *image, kind, unit, Right::Read)
            || may(core, *image, kind, unit, Right::Write)
            || may(core, *image, kind, unit, Right::Execute)
        {
            return true;
        }
    }
    false
}

/// Whether an image is there and may reach a unit.
fn may(core: &Core, image: u32, kind: Kind, unit: u64, right: Right) -> bool {
    image < core.images() && core.reaches(image, kind, unit, right)
}
