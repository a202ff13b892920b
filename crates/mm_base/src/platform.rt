//! The platform's map, which is this project's own: where memory, windows and cells are. `laws::platform_map` says which number
//! each is.
use crate::Range;

/// Management-mode memory.
pub const MMRAM: Range = Range {
    base: 0x8000_0000,
    length: 0x200_0000,
};

/// How many bytes a page of management-mode memory has.
pub const PAGE_BYTES: u32 = 4096;

/// The window that the lanes share with the operating system. No image may access it.
pub const LANE_WINDOW: Range = Range {
    base: 0x4000_0000,
    length: 0x10_0000,
};

/// The window of device bytes, each of which is a cell.
pub const DEVICE_WINDOW: Range = Range {
    base: 0xfe00_0000,
    length: 0x1_0000,
};

/// How many I/O ports there are.
pub const PORTS: u64 = 0x1_0000;

/// How many model-specific registers stand at each end of their numbers.
pub const MSRS: u64 = 0x2000;

/// The number of the first of the upper ones.
pub const UPPER_MSRS: u64 = 0xc000_0000;

/// How many registers are saved of the processor that enters.
pub const SAVED_REGISTERS: usize = 19;

/// Which of them is the trapped access: bits 0 to 15 the port, bit 16 read, bit 17 write.
pub const TRAPPED_ACCESS: usize = 18;
