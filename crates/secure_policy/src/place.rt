//! Where an access lies on the platform's map, which is this project's own.
ghost use Rattle.std.specs.Prelude.{◌≡◌};
ghost use Rattle.secure_policy.specs.Places.{place_of, place_of_bytes, have_cells};

use mm_base::{
    DEVICE_WINDOW, Kind, LANE_WINDOW, MMRAM, MSRS, PORTS, Range, SAVED_REGISTERS, UPPER_MSRS,
};

/// What the map says of an access.
pub enum Place {
    /// Some unit of it doesn't exist.
    Nowhere,
    /// Some byte of it is management-mode memory.
    Mmram,
    /// Some byte of it is in the window of the lanes.
    LaneWindow,
    /// Each unit of it has a cell.
    Cells,
}

/// All ports.
const PORT_CELLS: Range = Range {
    base: 0,
    length: PORTS,
};

/// The lower model-specific registers.
const LOWER_MSR_CELLS: Range = Range {
    base: 0,
    length: MSRS,
};

/// The upper model-specific registers.
const UPPER_MSR_CELLS: Range = Range {
    base: UPPER_MSRS,
    length: MSRS,
};

/// All saved registers.
const SAVED_CELLS: Range = Range {
    base: 0,
    length: SAVED_REGISTERS as u64,
};

/// Where an access lies. The tests come in this order: its end is past 2^64; some of it is management-mode memory; some of it is in
/// the lanes' window; all of it has cells.
pub fn locate(kind: Kind, access: &Range) -> Place
    ensures { result ≡ place_of kind access.now }
{
    match kind {
        Kind::Memory => locate_bytes(access),
        Kind::Io | Kind::Msr | Kind::Saved => {
            if has_cells(kind, access) {
                Place::Cells
            } else {
                Place::Nowhere
            }
        }
    }
}

/// Where an access to memory lies.
fn locate_bytes(access: &Range) -> Place
    ensures { result ≡ place_of_bytes access.now }
{
    if access.length > 0 && access.base > u64::MAX - (access.length - 1) {
        Place::Nowhere
    } else if MMRAM.overlaps(access) {
        Place::Mmram
    } else if LANE_WINDOW.overlaps(access) {
        Place::LaneWindow
    } else if DEVICE_WINDOW.covers(access) {
        Place::Cells
    } else {
        Place::Nowhere
    }
}

/// Whether each unit of an access has a cell.
fn has_cells(kind: Kind, access: &Range) -> bool
    ensures { result ≡ have_cells kind access.now.base access.now.length }
{
    access.length == 0
        || match kind {
            Kind::Memory => DEVICE_WINDOW.covers(access),
            Kind::Io => PORT_CELLS.covers(access),
            Kind::Msr => LOWER_MSR_CELLS.covers(access) || UPPER_MSR_CELLS.covers(access),
            Kind::Saved => SAVED_CELLS.covers(access),
        }
}
