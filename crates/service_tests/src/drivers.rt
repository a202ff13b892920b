//! A driver in byte code that calls each of the 20 services once, before lock and after it. What is expected was worked out by hand.
use ebc_machine::{enter as begin, invoke};
use mm_base::{Bus, Ended, NoMemory, Records, Saved};
use mm_memory::PlainFrames;
use sample_domains::{KEPT, read, two_images, write};
use std::alloc::Global;
use std::test::Fail;
use supervisor_calls::{Domain, Tables, enter};

/// Where the driver's code stands, where its stack ends, and its service page.
const CODE: u64 = 0x8000_0100;

const STACK_END: u64 = 0x8000_5000;

const SERVICE_PAGE: u64 = 0x8000_6000;

/// The name of an interface: 16 bytes of 0.
const NAME: u64 = 0x8000_5000;

/// Where the driver puts the statuses of services, 8 bytes each in the order of its calls, and where the out pointer of service n
/// points: 8 n bytes from there on.
const STATUSES: u64 = 0x8000_5400;

const OUTS: u64 = 0x8000_5800;

/// Statuses.
const SUCCESS: u64 = 0;

const INVALID_PARAMETER: u64 = 0x8000_0000_0000_0002;

const UNSUPPORTED: u64 = 0x8000_0000_0000_0003;

const NOT_FOUND: u64 = 0x8000_0000_0000_000e;

const ACCESS_DENIED: u64 = 0x8000_0000_0000_000f;

/// What stands at the out pointer of a service that writes nothing.
const NOTHING: u64 = KEPT;

/// A call of a service: its number, its arguments, and its status and what stands at its out pointer then, before lock and after it.
type Row = (u8, &'static [u64], (u64, u64), (u64, u64));

const CALLS: &[Row] = &[
    // 40 bytes of the pool, which begins at 80007000 (hexadecimal), and two pages of the reserve, which begins at 80017000
    (
        0,
        &[40, OUTS],
        (SUCCESS, 0x8000_7000),
        (SUCCESS, 0x8000_7000),
    ),
    (1, &[0x8000_7000], (SUCCESS, NOTHING), (SUCCESS, NOTHING)),
    (
        2,
        &[2, OUTS + 16],
        (SUCCESS, 0x8001_7000),
        (SUCCESS, 0x8001_7000),
    ),
    (3, &[0x8001_7000, 2], (SUCCESS, NOTHING), (SUCCESS, NOTHING)),
    // an interface on a new handle, which is 256
    (
        4,
        &[0, NAME, 0xabcd, OUTS + 32],
        (SUCCESS, 256),
        (ACCESS_DENIED, NOTHING),
    ),
    (
        6,
        &[256, NAME, OUTS + 48],
        (SUCCESS, 0xabcd),
        (INVALID_PARAMETER, NOTHING),
    ),
    (
        7,
        &[NAME, 0, OUTS + 56],
        (SUCCESS, 256),
        (NOT_FOUND, NOTHING),
    ),
    (
        8,
        &[NAME, OUTS + 64],
        (SUCCESS, 0xabcd),
        (NOT_FOUND, NOTHING),
    ),
    (
        5,
        &[256, NAME, 0xabcd],
        (SUCCESS, NOTHING),
        (ACCESS_DENIED, NOTHING),
    ),
    // a root handler, whose handle is 1
    (
        9,
        &[CODE, 0, OUTS + 72],
        (SUCCESS, 1),
        (ACCESS_DENIED, NOTHING),
    ),
    (10, &[1], (SUCCESS, NOTHING), (ACCESS_DENIED, NOTHING)),
    // the second saved register
    (11, &[1, OUTS + 88], (SUCCESS, 0), (SUCCESS, 0x5b)),
    // two ports and a model-specific register
    (
        13,
        &[2, 0x70, 0xff_1234],
        (SUCCESS, NOTHING),
        (SUCCESS, NOTHING),
    ),
    (
        12,
        &[2, 0x70, OUTS + 96],
        (SUCCESS, 0x1234),
        (SUCCESS, 0x1234),
    ),
    (15, &[0x20, 7], (SUCCESS, NOTHING), (SUCCESS, NOTHING)),
    (14, &[0x20, OUTS + 112], (SUCCESS, 7), (SUCCESS, 7)),
    (16, &[], (UNSUPPORTED, NOTHING), (UNSUPPORTED, NOTHING)),
    (17, &[], (UNSUPPORTED, NOTHING), (UNSUPPORTED, NOTHING)),
    (18, &[], (UNSUPPORTED, NOTHING), (UNSUPPORTED, NOTHING)),
    (19, &[], (UNSUPPORTED, NOTHING), (UNSUPPORTED, NOTHING)),
];

/// Its units: 2 to begin; for each of 38 arguments 2; for each of 20 services its address, its call, itself, and 3 to go on; one to return.
const UNITS: u32 = 2 + 2 * 38 + 20 * 6 + 1;

/// The processor's saved registers.
const REGISTERS: Saved = Saved([
    0x5a, 0x5b, 0x5c, 0x5d, 0x5e, 0x5f, 0x60, 0x61, 0x62, 0x63, 0x64, 0x65, 0x66, 0x67, 0x68, 0x69,
    0x6a, 0x6b, 0x6c,
]);

/// R2 = a number; PUSH64 R2.
fn put_argument(code: &mut Vec<u8>, number: u64) -> Result<(), NoMemory> {
    code.extend_from_slice(&[0xf7, 0x32])?;
    code.extend_from_slice(&number.to_le_bytes())?;
    code.extend_from_slice(&[0x6b, 0x02])?;
    Ok(())
}

/// R3 = R1(+256 + 16 n); a native CALL of R3; @R4 = R7; R4 = R4(+8); R0 = R0(+8 arguments).
fn put_call(code: &mut Vec<u8>, number: u8, arguments: usize) -> Result<(), NoMemory> {
    let [low, high] = (256 + 16 * number as u16).to_le_bytes();
    let bytes = (arguments.min(4) * 8) as u8;
    code.extend_from_slice(&[0x60, 0x13, low, high])?;
    code.extend_from_slice(&[0x03, 0x23])?;
    code.extend_from_slice(&[0x20, 0x7c])?;
    code.extend_from_slice(&[0x60, 0x44, 0x08, 0x00])?;
    code.extend_from_slice(&[0x60, 0x00, bytes, 0x00])?;
    Ok(())
}

/// The driver: R1 = @R0(+24), the service page; R4 = the place of the statuses; the calls; RET.
fn driver(alloc: Global, calls: &[Row]) -> Result<Vec<u8>, NoMemory> {
    let mut code = Vec::new(alloc);
    code.extend_from_slice(&[0x60, 0x81, 0x18, 0x00])?;
    code.extend_from_slice(&[0xf7, 0x34])?;
    code.extend_from_slice(&STATUSES.to_le_bytes())?;
    for call in calls {
        let (number, arguments, _, _) = *call;
        for argument in arguments.iter().rev() {
            put_argument(&mut code, *argument)?;
        }
        put_call(&mut code, number, arguments.len())?;
    }
    code.extend_from_slice(&[0x04, 0x00])?;
    Ok(code)
}

/// Runs the driver with so much fuel.
fn end_of(domain: &mut Domain<PlainFrames>, fuel: u32) -> Option<Ended> {
    match begin(domain, STACK_END, CODE, [1, SERVICE_PAGE, 0, 0]) {
        Ok(mut regs) => Some(invoke(&mut regs, domain, fuel)),
        Err(_) => None,
    }
}

/// Puts `NOTHING` at each out pointer.
fn clear_outs(domain: &mut Domain<PlainFrames>) {
    for number in 0..20u8 {
        let _ = write(domain, OUTS + 8 * number as u64, 8, NOTHING);
    }
}

/// The number of the first service with another status, or with another number at its out pointer.
fn wrong_service(domain: &mut Domain<PlainFrames>, calls: &[Row], is_locked: bool) -> Option<u8> {
    let mut place = STATUSES;
    for call in calls {
        let (number, _, before, after) = *call;
        let (status, written) = if is_locked { after } else { before };
        let out = OUTS.wrapping_add(8 * number as u64);
        if read(domain, place, 8) != Some(Ok(status)) || read(domain, out, 8) != Some(Ok(written)) {
            return Some(number);
        }
        place = place.wrapping_add(8);
    }
    None
}

/// What came out otherwise: a service by its number, or 20 where the driver ends otherwise, or 21 where it has other records.
type Wrong = Option<u8>;

/// Runs the driver with just the fuel that it needs. It returns the last status, is denied nothing, and makes two cell writes.
fn run(
    alloc: Global,
    tables: Tables<PlainFrames>,
    is_locked: bool,
) -> Result<(Tables<PlainFrames>, Wrong), NoMemory> {
    let records = Records::new(alloc)?;
    if tables.images() == 0 {
        return Ok((tables, Some(20)));
    }
    let mut domain = enter(tables, 0, REGISTERS, records);
    clear_outs(&mut domain);
    let end = end_of(&mut domain, UNITS);
    let wrong = wrong_service(&mut domain, CALLS, is_locked);
    let (tables, records) = domain.leave();
    if end != Some(Ended::Returned(UNSUPPORTED)) {
        return Ok((tables, Some(20)));
    }
    if records.denials() != 0 || records.writes() != 2 {
        return Ok((tables, Some(21)));
    }
    Ok((tables, wrong))
}

/// Runs the driver with one unit less than it needs.
fn end_short_of_fuel(
    alloc: Global,
    tables: Tables<PlainFrames>,
) -> Result<Option<Ended>, NoMemory> {
    let records = Records::new(alloc)?;
    if tables.images() == 0 {
        return Ok(None);
    }
    let mut domain = enter(tables, 0, REGISTERS, records);
    Ok(end_of(&mut domain, UNITS - 1))
}

/// What comes out otherwise before lock, and after it, and the end with too little fuel.
fn outcomes(alloc: Global, code: &[u8]) -> Result<(Wrong, Wrong, Option<Ended>), NoMemory> {
    let Some(tables) = two_images(alloc, code)? else {
        return Ok((Some(22), None, None));
    };
    let (mut tables, before) = run(alloc, tables, false)?;
    tables.lock();
    let (tables, after) = run(alloc, tables, true)?;
    let end = end_short_of_fuel(alloc, tables)?;
    Ok((before, after, end))
}

/// The code has 4 and 10 bytes to begin, 12 for each of 38 arguments, 16 for each of 20 calls, and its RET.
const RETURN: u64 = CODE + 14 + 12 * 38 + 16 * 20;

#[test]
fn a_driver_calls_each_service(rt: HostRuntime) -> Result<(), Fail> {
    let code = driver(rt.alloc(), CALLS)?;
    let expected = (None, None, Some(Ended::Fuel(RETURN)));
    assert_eq!(rt; outcomes(rt.alloc(), code.as_slice())?, expected);
    Ok(())
}
