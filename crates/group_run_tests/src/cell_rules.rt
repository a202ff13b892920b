//! Rules over device bytes, other memory, model-specific registers and saved registers, of two images without handlers. Numbers of cells are
//! hexadecimal. What is expected was worked out by hand from the formats.
use crate::cases::{BOTH_CLOSED, BOTH_OPEN, Case, FIRST_OPEN, first_wrong};
use crate::code::QUIET_PAIR;
use crate::rules::{FIRST_READS_70_71, ONE, THREE, TWO};
use sample_volumes::Layout;
use std::test::Fail;

/// The first driver may read the device bytes FE000010 to FE000017.
const FIRST_READS_BYTES: &[u8] =
    b"\x01\0\x01\0\x01\0\0\0driver number 01\x10\0\0\xfe\0\0\0\0\x08\0\0\0\0\0\0\0";

/// The second driver may read and write the last one of them.
const SECOND_USES_THE_LAST: &[u8] =
    b"\x01\0\x01\0\x03\0\0\0driver number 02\x17\0\0\xfe\0\0\0\0\x01\0\0\0\0\0\0\0";

/// The second driver may read and write the byte after them.
const SECOND_USES_THE_NEXT: &[u8] =
    b"\x01\0\x01\0\x03\0\0\0driver number 02\x18\0\0\xfe\0\0\0\0\x01\0\0\0\0\0\0\0";

/// The last one of them is denied to all.
const DENIED_THE_LAST: &[u8] =
    b"\x01\0\0\0\0\0\0\0\0\0\0\0\0\0\0\0\0\0\0\0\0\0\0\0\x17\0\0\xfe\0\0\0\0\x01\0\0\0\0\0\0\0";

/// All images may read and write the last device byte.
const LAST_BYTE: &[u8] =
    b"\x01\0\x01\0\x03\0\0\0\0\0\0\0\0\0\0\0\0\0\0\0\0\0\0\0\xff\xff\0\xfe\0\0\0\0\x01\0\0\0\0\0\0\0";

/// All images may read and write 4,096 bytes after the device bytes.
const PAST_ALL_BYTES: &[u8] =
    b"\x01\0\x01\0\x03\0\0\0\0\0\0\0\0\0\0\0\0\0\0\0\0\0\0\0\0\0\x01\xfe\0\0\0\0\0\x10\0\0\0\0\0\0";

/// All images may read and write what lies before the device bytes: the lanes and the images, which no rule is about.
const BEFORE_ALL_BYTES: &[u8] =
    b"\x01\0\x01\0\x03\0\0\0\0\0\0\0\0\0\0\0\0\0\0\0\0\0\0\0\0\0\0\0\0\0\0\0\0\0\0\xfe\0\0\0\0";

/// The same, and the first device byte.
const UP_TO_THE_FIRST: &[u8] =
    b"\x01\0\x01\0\x03\0\0\0\0\0\0\0\0\0\0\0\0\0\0\0\0\0\0\0\0\0\0\0\0\0\0\0\x01\0\0\xfe\0\0\0\0";

const MEMORY_CASES: &[Case] = &[
    Case {
        name: "a shared device byte",
        policy: &[Layout {
            length: 100,
            pieces: &[
                (0, TWO),
                (20, FIRST_READS_BYTES),
                (60, SECOND_USES_THE_LAST),
            ],
        }],
        drivers: QUIET_PAIR,
        said: FIRST_OPEN,
    },
    Case {
        name: "the next device byte",
        policy: &[Layout {
            length: 100,
            pieces: &[
                (0, TWO),
                (20, FIRST_READS_BYTES),
                (60, SECOND_USES_THE_NEXT),
            ],
        }],
        drivers: QUIET_PAIR,
        said: BOTH_CLOSED,
    },
    Case {
        name: "a device byte that is denied in front",
        policy: &[Layout {
            length: 140,
            pieces: &[
                (0, THREE),
                (20, DENIED_THE_LAST),
                (60, FIRST_READS_BYTES),
                (100, SECOND_USES_THE_LAST),
            ],
        }],
        drivers: QUIET_PAIR,
        said: BOTH_CLOSED,
    },
    Case {
        name: "the last device byte",
        policy: &[Layout {
            length: 60,
            pieces: &[(0, ONE), (20, LAST_BYTE)],
        }],
        drivers: QUIET_PAIR,
        said: BOTH_OPEN,
    },
    Case {
        name: "after the device bytes",
        policy: &[Layout {
            length: 60,
            pieces: &[(0, ONE), (20, PAST_ALL_BYTES)],
        }],
        drivers: QUIET_PAIR,
        said: BOTH_CLOSED,
    },
    Case {
        name: "before the device bytes",
        policy: &[Layout {
            length: 60,
            pieces: &[(0, ONE), (20, BEFORE_ALL_BYTES)],
        }],
        drivers: QUIET_PAIR,
        said: BOTH_CLOSED,
    },
    Case {
        name: "up to the first device byte",
        policy: &[Layout {
            length: 60,
            pieces: &[(0, ONE), (20, UP_TO_THE_FIRST)],
        }],
        drivers: QUIET_PAIR,
        said: BOTH_OPEN,
    },
];

#[test]
fn of_memory_only_device_bytes_can_be_shared(rt: HostRuntime) -> Result<(), Fail> {
    assert_eq!(rt; first_wrong(rt.alloc(), MEMORY_CASES)?, None);
    Ok(())
}

/// The first driver may read the model-specific register C0001FFF, the last one of the second range.
const FIRST_READS_REGISTER: &[u8] =
    b"\x03\0\x01\0\x01\0\0\0driver number 01\xff\x1f\0\xc0\0\0\0\0\x01\0\0\0\0\0\0\0";

/// The second driver may write C0001000 to C0001FFF.
const SECOND_WRITES_REGISTERS: &[u8] =
    b"\x03\0\x01\0\x02\0\0\0driver number 02\0\x10\0\xc0\0\0\0\0\0\x10\0\0\0\0\0\0";

/// The second driver may write C0001000 to C0001FFE.
const SECOND_WRITES_OTHERS: &[u8] =
    b"\x03\0\x01\0\x02\0\0\0driver number 02\0\x10\0\xc0\0\0\0\0\xff\x0f\0\0\0\0\0\0";

/// All images may read and write 2000 to BFFFFFFF, which there are not.
const BETWEEN_THE_RANGES: &[u8] =
    b"\x03\0\x01\0\x03\0\0\0\0\0\0\0\0\0\0\0\0\0\0\0\0\0\0\0\0\x20\0\0\0\0\0\0\0\xe0\xff\xbf\0\0\0\0";

/// The same from 1FFF on, the last one of the first range.
const FROM_THE_FIRST_RANGE: &[u8] =
    b"\x03\0\x01\0\x03\0\0\0\0\0\0\0\0\0\0\0\0\0\0\0\0\0\0\0\xff\x1f\0\0\0\0\0\0\x01\xe0\xff\xbf\0\0\0\0";

/// The same up to C0000000, the first one of the second range.
const INTO_THE_SECOND_RANGE: &[u8] =
    b"\x03\0\x01\0\x03\0\0\0\0\0\0\0\0\0\0\0\0\0\0\0\0\0\0\0\0\x20\0\0\0\0\0\0\x01\xe0\xff\xbf\0\0\0\0";

/// The second driver may write the model-specific register 70.
const SECOND_WRITES_REGISTER_70: &[u8] =
    b"\x03\0\x01\0\x02\0\0\0driver number 02\x70\0\0\0\0\0\0\0\x01\0\0\0\0\0\0\0";

/// All images may read and write the 19 saved registers.
const SAVED_REGISTERS: &[u8] =
    b"\x04\0\x01\0\x03\0\0\0\0\0\0\0\0\0\0\0\0\0\0\0\0\0\0\0\0\0\0\0\0\0\0\0\x13\0\0\0\0\0\0\0";

const REGISTER_CASES: &[Case] = &[
    Case {
        name: "a register of the second range",
        policy: &[Layout {
            length: 100,
            pieces: &[
                (0, TWO),
                (20, FIRST_READS_REGISTER),
                (60, SECOND_WRITES_REGISTERS),
            ],
        }],
        drivers: QUIET_PAIR,
        said: FIRST_OPEN,
    },
    Case {
        name: "the registers before it",
        policy: &[Layout {
            length: 100,
            pieces: &[
                (0, TWO),
                (20, FIRST_READS_REGISTER),
                (60, SECOND_WRITES_OTHERS),
            ],
        }],
        drivers: QUIET_PAIR,
        said: BOTH_CLOSED,
    },
    Case {
        name: "between the ranges",
        policy: &[Layout {
            length: 60,
            pieces: &[(0, ONE), (20, BETWEEN_THE_RANGES)],
        }],
        drivers: QUIET_PAIR,
        said: BOTH_CLOSED,
    },
    Case {
        name: "the last register of the first range",
        policy: &[Layout {
            length: 60,
            pieces: &[(0, ONE), (20, FROM_THE_FIRST_RANGE)],
        }],
        drivers: QUIET_PAIR,
        said: BOTH_OPEN,
    },
    Case {
        name: "the first register of the second range",
        policy: &[Layout {
            length: 60,
            pieces: &[(0, ONE), (20, INTO_THE_SECOND_RANGE)],
        }],
        drivers: QUIET_PAIR,
        said: BOTH_OPEN,
    },
    Case {
        name: "a register and a port of one number",
        policy: &[Layout {
            length: 100,
            pieces: &[
                (0, TWO),
                (20, FIRST_READS_70_71),
                (60, SECOND_WRITES_REGISTER_70),
            ],
        }],
        drivers: QUIET_PAIR,
        said: BOTH_CLOSED,
    },
    // Nobody writes saved registers.
    Case {
        name: "saved registers",
        policy: &[Layout {
            length: 60,
            pieces: &[(0, ONE), (20, SAVED_REGISTERS)],
        }],
        drivers: QUIET_PAIR,
        said: BOTH_CLOSED,
    },
];

#[test]
fn model_specific_registers_of_both_ranges_can_be_shared(rt: HostRuntime) -> Result<(), Fail> {
    assert_eq!(rt; first_wrong(rt.alloc(), REGISTER_CASES)?, None);
    Ok(())
}
