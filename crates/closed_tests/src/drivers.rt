//! Drivers and policies that several tests put together.
use sample_volumes::{Contents, Driver, Layout, Section, TRUE};

/// The place of the code in the sample image.
pub const CODE: usize = 0x100;

/// RET, with a result of 0.
const RETURNS: Section = (0x10, Contents::Image(336, &[(CODE, b"\x04\0")]));

/// The sections of a driver that returns 0 and does nothing.
pub const RETURNING: &[Section] = &[TRUE, RETURNS];

/// Two drivers that do nothing. Their images have the numbers 0 and 1.
pub const TWO_DRIVERS: &[Driver] = &[
    (b"driver number 01", RETURNING),
    (b"driver number 02", RETURNING),
];

/// What stands before so many rules in a policy's section: the section's size and type, the signature, the version, how many rules there
/// are, and 65,536 of fuel. A rule has 40 bytes: the kind at 0, 1 at 2 where it allows, the rights at 4, whose it is at 8, the first unit at
/// 24, and how many units at 32. Kind 1 is memory, 2 is ports, 3 is model-specific registers, 4 is saved registers. Right 1 is read, 2 is
/// write.
pub const ONE: Layout = Layout {
    length: 20,
    pieces: &[(0, b"\x3c\0\0\x19MMSP\x01\0\0\0\x01\0\0\0\0\0\x01\0")],
};

pub const TWO: Layout = Layout {
    length: 20,
    pieces: &[(0, b"\x64\0\0\x19MMSP\x01\0\0\0\x02\0\0\0\0\0\x01\0")],
};

pub const THREE: Layout = Layout {
    length: 20,
    pieces: &[(0, b"\x8c\0\0\x19MMSP\x01\0\0\0\x03\0\0\0\0\0\x01\0")],
};

/// The first driver may read and write ports 70 to 77 (hexadecimal, as all numbers of units here).
pub const FIRST_70: Layout = Layout {
    length: 40,
    pieces: &[
        (0, b"\x02\0\x01\0\x03\0\0\0driver number 01\x70"),
        (32, b"\x08"),
    ],
};
