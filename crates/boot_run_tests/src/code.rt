//! Images of byte code that several tests boot: the sample image with other code, which begins at 100 (hexadecimal) of it. It takes 39 pages,
//! of which the first is the image itself, so that the first image's code stands at 80000100 and the second one's at 80027100.
use sample_volumes::{Contents, Section};

/// The place of the code in the image.
pub const CODE: usize = 0x100;

/// RET, with a result of 0.
pub const RETURNS: Section = (0x10, Contents::Image(336, &[(CODE, b"\x04\0")]));

/// BREAK 0.
pub const BREAKS: Section = (0x10, Contents::Image(336, &[(CODE, b"\0\0")]));

/// R7 = @R0(+16), which is the image's number and 1; RET.
pub const TELLS_NUMBER: Section = (
    0x10,
    Contents::Image(336, &[(CODE, b"\x60\x87\x10\0\x04\0")]),
);

/// Installs a protocol, whose interface is the number 1234 (hexadecimal), on a new handle.
pub const INSTALLS: Section = (
    0x10,
    Contents::Image(
        336,
        &[
            // R1 = @R0(+24), the service page; PUSH64 R5, a cell; R4 = R0; PUSH64 R4, where the handle goes
            (CODE, b"\x60\x81\x18\0\x6b\x05\x20\x04\x6b\x04"),
            // R2 = 1234; PUSH64 R2; R2 = the name, 44 bytes on; PUSH64 R2; PUSH64 R5, no handle
            (
                CODE + 10,
                b"\x77\x32\x34\x12\x6b\x02\x79\x02\x2c\0\x6b\x02\x6b\x05",
            ),
            // R3 = R1(+320); native call of service 4; R0 = R0(+40); RET
            (CODE + 24, b"\x60\x13\x40\x01\x03\x23\x60\0\x28\0\x04\0"),
        ],
    ),
);

/// The expression that the protocol is there which `INSTALLS` installs.
pub const WANTS: Section = (
    0x1c,
    Contents::Bytes(b"\x02\x11\x11\x11\x11\x22\x22\x33\x33\x44\x44\x55\x55\x55\x55\x55\x55\x08"),
);
