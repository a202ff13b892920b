//! Status codes of the UEFI and PI specifications, as they stand in registers and in a lane's status word. The top bit marks an
//! error. `laws::statuses` says which number each is.

/// All went well.
pub const SUCCESS: u64 = 0;

pub const INVALID_PARAMETER: u64 = 0x8000_0000_0000_0002;

pub const UNSUPPORTED: u64 = 0x8000_0000_0000_0003;

pub const OUT_OF_RESOURCES: u64 = 0x8000_0000_0000_0009;

pub const NOT_FOUND: u64 = 0x8000_0000_0000_000e;

pub const ACCESS_DENIED: u64 = 0x8000_0000_0000_000f;

pub const TIMEOUT: u64 = 0x8000_0000_0000_0012;

pub const ABORTED: u64 = 0x8000_0000_0000_0015;

/// An interrupt is pending. The number is this project's own, as are the next two.
pub const INTERRUPT_PENDING: u64 = 0xa000_0000_0000_0000;

pub const WARN_INTERRUPT_SOURCE_PENDING: u64 = 0x2000_0000_0000_0000;

pub const WARN_INTERRUPT_SOURCE_QUIESCED: u64 = 0x2000_0000_0000_0001;
