//! Cells of the platform: ports, model-specific registers and the bytes of the device window.
ghost use Rattle.std.specs.Prelude.{◌≡◌};
ghost use Rattle.mm_base.specs.Cells.{may_hold};

use crate::platform::{DEVICE_WINDOW, MSRS, PORTS, SAVED_REGISTERS, UPPER_MSRS};
use crate::{Kind, List};

/// The most that a byte cell holds.
const MOST_OF_BYTE: u64 = 0xff;

/// A write to `n` cells from `at`. `value` is the number that these cells hold after it.
#[derive(Clone, Copy, Debug, PartialEq, Eq)]
pub struct CellWrite {
    pub kind: Kind,
    pub at: u64,
    pub n: u8,
    pub value: u64,
}

/// What the cells hold at the start. Of two writes to one cell the later one holds; every other cell is 0.
#[derive(Debug, Drop)]
pub struct Opening {
    pub cells: List<CellWrite>,
}

/// Whether the platform has this cell, and it may hold this value. A device byte is of the kind `Memory`, at its address.
pub fn is_cell(kind: Kind, at: u64, value: u64) -> bool
    ensures { result ≡ may_hold kind at value }
{
    match kind {
        Kind::Memory => {
            DEVICE_WINDOW.base <= at
                && at < DEVICE_WINDOW.base + DEVICE_WINDOW.length
                && value <= MOST_OF_BYTE
        }
        Kind::Io => at < PORTS && value <= MOST_OF_BYTE,
        Kind::Msr => at < MSRS || (UPPER_MSRS <= at && at < UPPER_MSRS + MSRS),
        Kind::Saved => false,
    }
}

/// The registers of the processor that entered, as they were saved: RAX, RBX, RCX, RDX, RSI, RDI, RBP, RSP,
/// R8 to R15, RIP, RFLAGS, and the trapped access (bits 0 to 15 the port, bit 16 read, bit 17 write).
#[derive(Clone, Copy, Debug, PartialEq, Eq)]
pub struct Saved(pub [u64; SAVED_REGISTERS]);

impl Saved {
    /// All registers 0.
    pub const ZERO: Saved = Saved([0; SAVED_REGISTERS]);
}
