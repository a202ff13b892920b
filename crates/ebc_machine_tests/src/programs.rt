//! A program that sums a table by a function.
use ebc_machine::{FlatBus, enter, invoke};
use mm_base::{Ended, List, NoMemory};
use std::alloc::Global;
use std::test::Fail;

/// The sum of a table of signed 32-bit numbers: its arguments are the table's address and its count of numbers.
const SUM_32: &[u8] = &[
    0x60, 0x81, 0x21, 0x10, // 1000: R1 = the word at R0 + 16
    0x60, 0x82, 0x18, 0x00, // 1004: R2 = the word at R0 + 24
    0x83, 0x10, 0x02, 0x00, 0x00, 0x00, // 1008: call 1010
    0x04, 0x00, // 100e: back
    0x6d, 0x02, 0x00, 0x00, // 1010: is R2 0?
    0xc2, 0x08, // 1014: then to 1026
    0x1f, 0x94, // 1016: R4 = 4 bytes at R1
    0x5c, 0x44, // 1018: R4 = R4 with its sign
    0x4c, 0x47, // 101a: R7 + R4
    0xcc, 0x51, 0x04, 0x00, // 101c: R1 + (R5 + 4)
    0xcc, 0x52, 0xff, 0xff, // 1020: R2 + (R5 - 1)
    0x02, 0xf5, // 1024: to 1010
    0x04, 0x00, // 1026: back
];

/// The same of 64-bit numbers.
const SUM_64: &[u8] = &[
    0x60, 0x81, 0x21, 0x10, // 1000: R1 = the word at R0 + 16
    0x60, 0x82, 0x18, 0x00, // 1004: R2 = the word at R0 + 24
    0x83, 0x10, 0x02, 0x00, 0x00, 0x00, // 1008: call 1010
    0x04, 0x00, // 100e: back
    0x6d, 0x02, 0x00, 0x00, // 1010: is R2 0?
    0xc2, 0x07, // 1014: then to 1024
    0x20, 0x94, // 1016: R4 = 8 bytes at R1
    0x4c, 0x47, // 1018: R7 + R4
    0xcc, 0x51, 0x08, 0x00, // 101a: R1 + (R5 + 8)
    0xcc, 0x52, 0xff, 0xff, // 101e: R2 + (R5 - 1)
    0x02, 0xf6, // 1022: to 1010
    0x04, 0x00, // 1024: back
];

/// A code, the width and the numbers of its table, fuel, and how it ends.
type Program = (&'static [u8], usize, &'static [u64], u32, Ended);

/// 1 - 1 + 2147483647 - 2147483648 + 123456789 - 10 = 123456778, added up by hand.
const NUMBERS_32: &[u64] = &[
    1,
    0xffff_ffff,
    0x7fff_ffff,
    0x8000_0000,
    123_456_789,
    0xffff_fff6,
];

/// The first two are 2^64 - 1 together, and 0 with the third; 2^63 and 5 are left.
const NUMBERS_64: &[u64] = &[
    0x0123_4567_89ab_cdef,
    0xfedc_ba98_7654_3210,
    1,
    0x8000_0000_0000_0000,
    5,
];

/// Fuel for 32 bits: 3 units, 8 for each number, 2 where none is left, and 2 returns. For 64 bits it is 7 for each.
const PROGRAMS: &[Program] = &[
    (SUM_32, 4, NUMBERS_32, 55, Ended::Returned(123_456_778)),
    (SUM_32, 4, NUMBERS_32, 54, Ended::Fuel(0x100e)),
    (
        SUM_32,
        4,
        &[0xffff_ffff, 0xffff_ffff],
        23,
        Ended::Returned(0xffff_ffff_ffff_fffe),
    ),
    (SUM_32, 4, &[], 7, Ended::Returned(0)),
    (
        SUM_64,
        8,
        NUMBERS_64,
        42,
        Ended::Returned(0x8000_0000_0000_0005),
    ),
    (SUM_64, 8, NUMBERS_64, 41, Ended::Fuel(0x100e)),
    (SUM_64, 8, &[], 7, Ended::Returned(0)),
];

/// Memory from 0x1000 on with a code, and from 0x1080 on with numbers of `n` bytes.
fn memory_with(alloc: Global, code: &[u8], n: usize, numbers: &[u64]) -> Result<FlatBus, NoMemory> {
    let mut bytes = vec![in alloc; 0u8; 0x200]?;
    for (byte, value) in bytes.iter_mut().zip(code) {
        *byte = *value;
    }
    let mut place: usize = 0x80;
    for number in numbers {
        let all = number.to_le_bytes();
        for (byte, value) in bytes.iter_mut().skip(place).take(n).zip(&all) {
            *byte = *value;
        }
        place = place.wrapping_add(n);
    }
    Ok(FlatBus::new(0x1000, List::from_vec(bytes)))
}

/// Whether a program ends so.
fn is_right(alloc: Global, program: &Program) -> Result<bool, NoMemory> {
    let (code, n, numbers, fuel, end) = *program;
    let mut bus = memory_with(alloc, code, n, numbers)?;
    let count = numbers.len() as u64;
    match enter(&mut bus, 0x1200, 0x1000, [0x1080, count, 0, 0]) {
        Ok(mut regs) => Ok(invoke(&mut regs, &mut bus, fuel) == end),
        Err(_) => Ok(false),
    }
}

fn first_wrong(alloc: Global, programs: &[Program]) -> Result<Option<usize>, NoMemory> {
    for (place, program) in programs.iter().enumerate() {
        if !is_right(alloc, program)? {
            return Ok(Some(place));
        }
    }
    Ok(None)
}

#[test]
fn sums(rt: HostRuntime) -> Result<(), Fail> {
    assert_eq!(rt; first_wrong(rt.alloc(), PROGRAMS)?, None);
    Ok(())
}
