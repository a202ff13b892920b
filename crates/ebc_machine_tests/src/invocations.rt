//! Whole invocations.
use ebc_machine::{FlatBus, Regs, enter, invoke};
use mm_base::FaultKind::{Alignment, Break, Divide};
use mm_base::{Denial, Ended, Kind, List, NoMemory, Right, Why};
use std::alloc::Global;
use std::test::Fail;

/// Where memory begins, and the code in it.
const BASE: u64 = 0x1000;

/// A code in so many bytes of memory.
fn memory_with(alloc: Global, code: &[u8], size: usize) -> Result<FlatBus, NoMemory> {
    let mut bytes = vec![in alloc; 0xeeu8; size]?;
    for (byte, value) in bytes.iter_mut().zip(code) {
        *byte = *value;
    }
    Ok(FlatBus::new(BASE, List::from_vec(bytes)))
}

/// How an invocation ends that begins at an address, with no arguments and the end of memory as its stack's; None where it doesn't begin.
pub fn ended(
    alloc: Global,
    code: &[u8],
    size: usize,
    address: u64,
    fuel: u32,
) -> Result<Option<Ended>, NoMemory> {
    let mut bus = memory_with(alloc, code, size)?;
    let stack = BASE.wrapping_add(size as u64);
    if stack < 48 {
        return Ok(None);
    }
    match enter(&mut bus, stack, address, [0; 4]) {
        Ok(mut regs) => Ok(Some(invoke(&mut regs, &mut bus, fuel))),
        Err(_) => Ok(None),
    }
}

/// Code, so many bytes of memory, the address at which it begins, fuel, and how it ends.
pub type Run = (&'static [u8], usize, u64, u32, Ended);

/// The place of the first invocation that ends otherwise.
pub fn first_wrong(alloc: Global, runs: &[Run]) -> Result<Option<usize>, NoMemory> {
    for (place, (code, size, address, fuel, end)) in runs.iter().enumerate() {
        if ended(alloc, code, *size, *address, *fuel)? != Some(*end) {
            return Ok(Some(place));
        }
    }
    Ok(None)
}

/// R7 = 0, and back.
const NOTHING: &[u8] = &[0x77, 0x37, 0x00, 0x00, 0x04, 0x00];

/// A jump to itself.
const FOREVER: &[u8] = &[0x02, 0xff];

/// R1 = 10, and down to 0: 1 unit, 4 for each of the 10 turns, 2 where R1 is 0, and 1 for the return.
const LOOP: &[u8] = &[
    0x77, 0x31, 0x0a, 0x00, // 1000: R1 = 10
    0x6d, 0x01, 0x00, 0x00, // 1004: is R1 0?
    0xc2, 0x03, // 1008: then to 1010
    0xcc, 0x51, 0xff, 0xff, // 100a: R1 + (R5 - 1)
    0x02, 0xfa, // 100e: to 1004
    0x04, 0x00, // 1010: back
];

/// A function calls itself until R7 is 100: 1 unit for the call, 5 for each of 99 times, 4 for the last, and 1 for the return.
const NESTED: &[u8] = &[
    0x83, 0x10, 0x02, 0x00, 0x00, 0x00, // 1000: call 1008
    0x04, 0x00, // 1006: back
    0xcc, 0x57, 0x01, 0x00, // 1008: R7 + (R5 + 1)
    0x6d, 0x07, 0x64, 0x00, // 100c: is R7 100?
    0xc2, 0x03, // 1010: then to 1018
    0x83, 0x10, 0xf0, 0xff, 0xff, 0xff, // 1012: call 1008
    0x04, 0x00, // 1018: back
];

/// R1 is 0 at the beginning: R2 / R1, by 0.
const DIVIDES: &[u8] = &[0x00, 0x03, 0x50, 0x12];

const RUNS: &[Run] = &[
    (NOTHING, 0x100, 0x1000, 0, Ended::Fuel(0x1000)),
    (NOTHING, 0x100, 0x1000, 1, Ended::Fuel(0x1004)),
    (NOTHING, 0x100, 0x1000, 2, Ended::Returned(0)),
    (NOTHING, 0x100, 0x1000, 3, Ended::Returned(0)),
    (FOREVER, 0x100, 0x1000, 1000, Ended::Fuel(0x1000)),
    (NOTHING, 0x100, 0x1001, 0, Ended::Fault(Alignment, 0x1001)),
    (NOTHING, 0x100, 0x1001, 1, Ended::Fault(Alignment, 0x1001)),
    (
        NOTHING,
        0x100,
        0x1001,
        1000,
        Ended::Fault(Alignment, 0x1001),
    ),
    (LOOP, 0x100, 0x1000, 44, Ended::Returned(0)),
    (LOOP, 0x100, 0x1000, 43, Ended::Fuel(0x1010)),
    (LOOP, 0x100, 0x1000, 42, Ended::Fuel(0x1008)),
    (NESTED, 0x1000, 0x1000, 501, Ended::Returned(100)),
    (NESTED, 0x1000, 0x1000, 500, Ended::Fuel(0x1006)),
    // the last instruction with its unit, and without
    (DIVIDES, 0x100, 0x1000, 2, Ended::Fault(Divide, 0x1002)),
    (DIVIDES, 0x100, 0x1000, 1, Ended::Fuel(0x1002)),
    (&[0x00, 0x00], 0x100, 0x1000, 1, Ended::Fault(Break, 0x1000)),
    (&[0x00, 0x00], 0x100, 0x1000, 0, Ended::Fuel(0x1000)),
    (
        &[0x1d, 0xa2],
        0x100,
        0x1000,
        1,
        Ended::Denied(Why::Range, 0),
    ),
    (NOTHING, 0x100, 0x1100, 1, Ended::Denied(Why::Range, 0x1100)),
    (NOTHING, 0x100, 0x1100, 0, Ended::Fuel(0x1100)),
];

#[test]
fn invocations(rt: HostRuntime) -> Result<(), Fail> {
    assert_eq!(rt; first_wrong(rt.alloc(), RUNS)?, None);
    Ok(())
}

/// The end of a stack; R0 as `enter` answers it there with four arguments, or the address of a denied write; and the place and the words
/// that it leaves in memory.
type Frame = (u64, Result<u64, u64>, usize, &'static [u64]);

const ARGUMENTS: [u64; 4] = [
    0x0102_0304_0506_0708,
    0xffff_ffff_ffff_ffff,
    3,
    0x8000_0000_0000_0000,
];

/// What `enter` answers for code at 0x1002: all registers but R0 are 0, and a denied write is one of a word.
fn answer_of(answer: Result<u64, u64>) -> Result<Regs, Denial> {
    match answer {
        Ok(top) => Ok(Regs {
            r: [top, 0, 0, 0, 0, 0, 0, 0],
            carry: false,
            ip: 0x1002,
        }),
        Err(at) => Err(Denial {
            kind: Kind::Memory,
            right: Right::Write,
            at,
            n: 8,
            why: Why::Range,
        }),
    }
}

/// Memory of 0x100 bytes. A frame begins 48 bytes below the stack's end.
const FRAMES: &[Frame] = &[
    (
        0x1100,
        Ok(0x10d0),
        0xd0,
        &[
            0,
            0,
            0x0102_0304_0506_0708,
            0xffff_ffff_ffff_ffff,
            3,
            0x8000_0000_0000_0000,
        ],
    ),
    (
        0x1033,
        Ok(0x1003),
        3,
        &[
            0,
            0,
            0x0102_0304_0506_0708,
            0xffff_ffff_ffff_ffff,
            3,
            0x8000_0000_0000_0000,
        ],
    ),
    (0x1120, Err(0x1100), 0xf0, &[0, 0]),
    (
        0x1101,
        Err(0x10f9),
        0xd1,
        &[0, 0, 0x0102_0304_0506_0708, 0xffff_ffff_ffff_ffff, 3],
    ),
    (0x1130, Err(0x1100), 0, &[]),
    (0x1010, Err(0xfe0), 0, &[]),
    (48, Err(0), 0, &[]),
    (0xffff_ffff_ffff_ffff, Err(0xffff_ffff_ffff_ffcf), 0, &[]),
];

/// Memory of 0x100 bytes in which these words stand.
fn bytes_with(alloc: Global, place: usize, words: &[u64]) -> Result<Vec<u8>, NoMemory> {
    let mut bytes = vec![in alloc; 0xeeu8; 0x100]?;
    let mut at = place;
    for word in words {
        let all = word.to_le_bytes();
        for (byte, value) in bytes.iter_mut().skip(at).zip(&all) {
            *byte = *value;
        }
        at = at.wrapping_add(8);
    }
    Ok(bytes)
}

/// Whether a frame is entered so.
fn is_entered(alloc: Global, frame: &Frame) -> Result<bool, NoMemory> {
    let (stack, answer, place, words) = *frame;
    if stack < 48 {
        return Ok(false);
    }
    let mut bus = memory_with(alloc, &[], 0x100)?;
    let entered = enter(&mut bus, stack, 0x1002, ARGUMENTS);
    let bytes = bytes_with(alloc, place, words)?;
    Ok(entered == answer_of(answer) && bus.bytes() == bytes.as_slice())
}

fn first_wrong_frame(alloc: Global, frames: &[Frame]) -> Result<Option<usize>, NoMemory> {
    for (place, frame) in frames.iter().enumerate() {
        if !is_entered(alloc, frame)? {
            return Ok(Some(place));
        }
    }
    Ok(None)
}

#[test]
fn frames(rt: HostRuntime) -> Result<(), Fail> {
    assert_eq!(rt; first_wrong_frame(rt.alloc(), FRAMES)?, None);
    Ok(())
}
