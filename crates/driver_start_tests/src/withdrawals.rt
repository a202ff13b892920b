//! What a start that fails takes back, and what it leaves. What is expected was worked out by hand.
use crate::samples::{CODE, DRIVER, made};
use crate::sequences::{NAME, NOTHING, PORTS, Start, first_wrong, host_under, started};
use driver_start::StartEnd::Ran;
use mm_base::Ended::Returned;
use mm_base::{CellWrite, Guid, Handler, HandlerBody, Kind, NoMemory};
use std::alloc::Global;
use std::test::Fail;

/// R1 = @R0(+24), the service page; R2 = 5a; PUSH64 R2; R2 = 70; PUSH64 R2; R2 = 1; PUSH64 R2; R3 = R1(+464); the call: port 70 becomes 5a.
const WRITES_70: &[u8] =
    b"\x60\x81\x18\0\x77\x32\x5a\0\x6b\x02\x77\x32\x70\0\x6b\x02\x77\x32\x01\0\x6b\x02\x60\x13\xd0\x01\x03\x23";

/// R1 = @R0(+24); PUSH64 R5; R4 = R0; PUSH64 R4; R2 = 70; PUSH64 R2; R2 = 1; PUSH64 R2; R3 = R1(+448); the call; R7 = @R0(+24), what was
/// read from port 70; R0 = R0(+32); RET.
const READS_70: &[u8] =
    b"\x60\x81\x18\0\x6b\x05\x20\x04\x6b\x04\x77\x32\x70\0\x6b\x02\x77\x32\x01\0\x6b\x02\x60\x13\xc0\x01\x03\x23\x60\x87\x18\0\x60\0\x20\0\x04\0";

/// 5a in port 70.
const WRITE: CellWrite = CellWrite {
    kind: Kind::Io,
    at: 0x70,
    n: 1,
    value: 0x5a,
};

const CELLS: &[Start] = &[
    (
        "nothing is in port 70 yet",
        &[(CODE, READS_70)],
        Ran(Returned(0)),
        (1, 0, 0),
        &[],
        &[],
    ),
    (
        "a write, and a status with the top bit: R7 = it; R0 = R0(+24); RET",
        &[
            (CODE, WRITES_70),
            (CODE + 28, b"\xf7\x37\x07\0\0\0\0\0\0\x80\x60\0\x18\0\x04\0"),
        ],
        Ran(Returned(0x8000_0000_0000_0007)),
        (1, 0, 0),
        &[],
        &[WRITE],
    ),
    (
        "the write is still there",
        &[(CODE, READS_70)],
        Ran(Returned(0x5a)),
        (2, 0, 0),
        &[],
        &[],
    ),
];

#[test]
fn cells_stay(rt: HostRuntime) -> Result<(), Fail> {
    assert_eq!(rt; first_wrong(rt.alloc(), PORTS, &DRIVER, CELLS)?, None);
    Ok(())
}

/// R1 = 80007000, where the pool of the first image begins.
const POOL: &[u8] = b"\xf7\x31\0\x70\0\x80\0\0\0\0";

const PAGES: &[Start] = &[
    (
        "R2 = 1234; @R1 = R2; R7 = a status with the top bit; RET",
        &[
            (CODE, POOL),
            (
                CODE + 10,
                b"\x77\x32\x34\x12\x20\x29\xf7\x37\x01\0\0\0\0\0\0\x80\x04\0",
            ),
        ],
        Ran(Returned(0x8000_0000_0000_0001)),
        NOTHING,
        &[],
        &[],
    ),
    (
        "R7 = @R1; RET: the next one has the same pages, which are zero again",
        &[(CODE, POOL), (CODE + 10, b"\x20\x97\x04\0")],
        Ran(Returned(0)),
        (1, 0, 0),
        &[],
        &[],
    ),
];

#[test]
fn pages_are_zero_again(rt: HostRuntime) -> Result<(), Fail> {
    assert_eq!(rt; first_wrong(rt.alloc(), PORTS, &DRIVER, PAGES)?, None);
    Ok(())
}

/// R1 = @R0(+24); PUSH64 R5; R4 = R0; PUSH64 R4; PUSH64 R5; R2 = the GUID; PUSH64 R2; PUSH64 R5; R3 = R1(+320); the call: an interface is
/// installed on a new handle.
const INSTALLS: &[u8] =
    b"\x60\x81\x18\0\x6b\x05\x20\x04\x6b\x04\x6b\x05\x79\x02\x30\0\x6b\x02\x6b\x05\x60\x13\x40\x01\x03\x23";

const INTERFACES: &[Start] = &[
    (
        "an interface, and a status with the top bit: R7 = it; R0 = R0(+40); RET",
        &[
            (CODE, INSTALLS),
            (CODE + 26, b"\xf7\x37\x01\0\0\0\0\0\0\x80\x60\0\x28\0\x04\0"),
        ],
        Ran(Returned(0x8000_0000_0000_0001)),
        NOTHING,
        &[],
        &[],
    ),
    (
        "an interface: R0 = R0(+40); RET",
        &[(CODE, INSTALLS), (CODE + 26, b"\x60\0\x28\0\x04\0")],
        Ran(Returned(0)),
        (1, 0, 1),
        &[],
        &[],
    ),
    (
        "another one, of a start that fails",
        &[
            (CODE, INSTALLS),
            (CODE + 26, b"\xf7\x37\x01\0\0\0\0\0\0\x80\x60\0\x28\0\x04\0"),
        ],
        Ran(Returned(0x8000_0000_0000_0001)),
        (1, 0, 1),
        &[],
        &[],
    ),
];

#[test]
fn interfaces_are_gone(rt: HostRuntime) -> Result<(), Fail> {
    assert_eq!(rt; first_wrong(rt.alloc(), PORTS, &DRIVER, INTERFACES)?, None);
    Ok(())
}

/// The first handler after the sample was started once so that it fails, and then as it is.
fn handler_after_failure(alloc: Global) -> Result<Option<Handler>, NoMemory> {
    let Some(host) = host_under(alloc, PORTS)? else {
        return Ok(None);
    };
    let failing = made(
        alloc,
        &DRIVER,
        &[(0x11c, b"\xf7\x37\x01\0\0\0\0\0\0\x80\x60\0\x20\0\x04\0")],
    )?;
    let Some((host, _)) = started(alloc, host, failing.as_slice())? else {
        return Ok(None);
    };
    let sample = made(alloc, &DRIVER, &[])?;
    let Some((host, _)) = started(alloc, host, sample.as_slice())? else {
        return Ok(None);
    };
    Ok(host.tables().handler(0))
}

#[test]
fn the_next_start_gets_the_same(rt: HostRuntime) -> Result<(), Fail> {
    let expected = Handler {
        number: 0,
        guid: Some(Guid([
            0x11, 0x11, 0x11, 0x11, 0x22, 0x22, 0x33, 0x33, 0x44, 0x44, 0x55, 0x55, 0x55, 0x55,
            0x55, 0x55,
        ])),
        body: HandlerBody::Code {
            image: 0,
            address: 0x8000_0122,
        },
    };
    assert_eq!(rt; handler_after_failure(rt.alloc())?, Some(expected));
    Ok(())
}
