//! Tables of operands and indexes. What is expected was worked out by hand from the rules.
use crate::{AluOp, CmpOp, alu, compare, index_value};
use std::test::Fail;

const ALL: u64 = 0xffff_ffff_ffff_ffff;

const LEAST: u64 = 0x8000_0000_0000_0000;

const LEAST_32: u64 = 0x8000_0000;

const ALL_32: u64 = 0xffff_ffff;

/// An operation, whether it is wide, its operands and its result; None where it is a division by 0.
type Result64 = (AluOp, bool, u64, u64, Option<u64>);

const SUMS: [Result64; 26] = [
    (
        AluOp::Not,
        true,
        5,
        0x0123_4567_89ab_cdef,
        Some(0xfedc_ba98_7654_3210),
    ),
    (
        AluOp::Not,
        false,
        5,
        0x0123_4567_89ab_cdef,
        Some(0x7654_3210),
    ),
    (AluOp::Neg, true, 5, 1, Some(ALL)),
    (AluOp::Neg, true, 5, LEAST, Some(LEAST)),
    (AluOp::Neg, true, 5, 0, Some(0)),
    (AluOp::Neg, false, 5, 1, Some(ALL_32)),
    (AluOp::Neg, false, 5, LEAST_32, Some(LEAST_32)),
    (AluOp::Neg, false, 5, 0x1_0000_0000, Some(0)),
    (AluOp::Add, true, ALL, 1, Some(0)),
    (AluOp::Add, false, ALL_32, 1, Some(0)),
    (AluOp::Add, false, 0x1_0000_0001, 0x1_0000_0002, Some(3)),
    (AluOp::Sub, true, 0, 1, Some(ALL)),
    (AluOp::Sub, false, 0, 1, Some(ALL_32)),
    (AluOp::Sub, true, 5, 3, Some(2)),
    (
        AluOp::Mul,
        true,
        0xffff_ffff_ffff_fffd,
        5,
        Some(0xffff_ffff_ffff_fff1),
    ),
    (AluOp::Mul, false, 0xffff_fffd, 5, Some(0xffff_fff1)),
    (AluOp::Mul, false, ALL_32, ALL_32, Some(1)),
    (
        AluOp::Mulu,
        true,
        0x1_0000_0001,
        0x1_0000_0001,
        Some(0x2_0000_0001),
    ),
    (AluOp::Mulu, false, 0x1_0000, 0x1_0000, Some(0)),
    (AluOp::And, true, 0xc, 0xa, Some(0x8)),
    (AluOp::And, false, ALL, ALL, Some(ALL_32)),
    (AluOp::Or, true, 0xc, 0xa, Some(0xe)),
    (AluOp::Or, false, 0x5_0000_0000, 1, Some(1)),
    (AluOp::Xor, true, 0xc, 0xa, Some(0x6)),
    (AluOp::Xor, false, ALL, 0, Some(ALL_32)),
    (AluOp::Xor, true, ALL, ALL, Some(0)),
];

/// -7 and 2, 7 and -2, the least number by -1, and divisors that are 0 in the bits that count.
const QUOTIENTS: [Result64; 31] = [
    (
        AluOp::Div,
        true,
        0xffff_ffff_ffff_fff9,
        2,
        Some(0xffff_ffff_ffff_fffd),
    ),
    (AluOp::Mod, true, 0xffff_ffff_ffff_fff9, 2, Some(ALL)),
    (
        AluOp::Div,
        true,
        7,
        0xffff_ffff_ffff_fffe,
        Some(0xffff_ffff_ffff_fffd),
    ),
    (AluOp::Mod, true, 7, 0xffff_ffff_ffff_fffe, Some(1)),
    (
        AluOp::Divu,
        true,
        0xffff_ffff_ffff_fff9,
        2,
        Some(0x7fff_ffff_ffff_fffc),
    ),
    (AluOp::Modu, true, 0xffff_ffff_ffff_fff9, 2, Some(1)),
    (AluOp::Div, false, 0xffff_fff9, 2, Some(0xffff_fffd)),
    (AluOp::Mod, false, 0xffff_fff9, 2, Some(ALL_32)),
    (AluOp::Div, false, 7, 0xffff_fffe, Some(0xffff_fffd)),
    (AluOp::Mod, false, 7, 0xffff_fffe, Some(1)),
    (AluOp::Divu, false, 0xffff_fff9, 2, Some(0x7fff_fffc)),
    (AluOp::Modu, false, 0xffff_fff9, 2, Some(1)),
    (AluOp::Div, true, LEAST, ALL, Some(LEAST)),
    (AluOp::Mod, true, LEAST, ALL, Some(0)),
    (AluOp::Divu, true, LEAST, ALL, Some(0)),
    (AluOp::Modu, true, LEAST, ALL, Some(LEAST)),
    (AluOp::Div, false, LEAST_32, ALL_32, Some(LEAST_32)),
    (AluOp::Mod, false, LEAST_32, ALL_32, Some(0)),
    (AluOp::Div, true, LEAST_32, ALL_32, Some(0)),
    (AluOp::Div, true, 5, 0, None),
    (AluOp::Divu, true, 5, 0, None),
    (AluOp::Mod, true, 5, 0, None),
    (AluOp::Modu, true, 5, 0, None),
    (AluOp::Div, false, 5, 0x1_0000_0000, None),
    (AluOp::Divu, false, 5, 0x1_0000_0000, None),
    (AluOp::Mod, false, 5, 0x1_0000_0000, None),
    (AluOp::Modu, false, 5, 0x1_0000_0000, None),
    (AluOp::Div, true, 5, 0x1_0000_0000, Some(0)),
    (AluOp::Divu, true, 5, 0x1_0000_0000, Some(0)),
    (AluOp::Mod, true, 5, 0x1_0000_0000, Some(5)),
    (AluOp::Modu, true, 5, 0x1_0000_0000, Some(5)),
];

const SHIFTS: [Result64; 43] = [
    (AluOp::Shl, true, 1, 0, Some(1)),
    (AluOp::Shl, true, 1, 31, Some(LEAST_32)),
    (AluOp::Shl, true, 1, 32, Some(0x1_0000_0000)),
    (AluOp::Shl, true, 1, 63, Some(LEAST)),
    (AluOp::Shl, true, 1, 64, Some(0)),
    (AluOp::Shl, true, 1, ALL, Some(0)),
    (AluOp::Shl, false, 1, 0, Some(1)),
    (AluOp::Shl, false, 1, 31, Some(LEAST_32)),
    (AluOp::Shl, false, 1, 32, Some(0)),
    (AluOp::Shl, false, 1, 63, Some(0)),
    (AluOp::Shl, false, 1, 64, Some(0)),
    (AluOp::Shl, false, 1, ALL, Some(0)),
    (AluOp::Shl, false, 1, 0x1_0000_0001, Some(2)),
    (AluOp::Shr, true, LEAST, 0, Some(LEAST)),
    (AluOp::Shr, true, LEAST, 31, Some(0x1_0000_0000)),
    (AluOp::Shr, true, LEAST, 32, Some(LEAST_32)),
    (AluOp::Shr, true, LEAST, 63, Some(1)),
    (AluOp::Shr, true, LEAST, 64, Some(0)),
    (AluOp::Shr, true, LEAST, ALL, Some(0)),
    (AluOp::Shr, false, LEAST_32, 0, Some(LEAST_32)),
    (AluOp::Shr, false, 0xffff_ffff_8000_0000, 31, Some(1)),
    (AluOp::Shr, false, LEAST_32, 32, Some(0)),
    (AluOp::Shr, false, LEAST_32, 63, Some(0)),
    (AluOp::Shr, false, LEAST_32, 64, Some(0)),
    (AluOp::Shr, false, LEAST_32, ALL, Some(0)),
    (AluOp::Shr, false, 4, 0x1_0000_0001, Some(2)),
    (AluOp::Ashr, true, LEAST, 0, Some(LEAST)),
    (AluOp::Ashr, true, LEAST, 31, Some(0xffff_ffff_0000_0000)),
    (AluOp::Ashr, true, LEAST, 32, Some(0xffff_ffff_8000_0000)),
    (AluOp::Ashr, true, LEAST, 63, Some(ALL)),
    (AluOp::Ashr, true, LEAST, 64, Some(ALL)),
    (AluOp::Ashr, true, LEAST, ALL, Some(ALL)),
    (AluOp::Ashr, true, 0x7fff_ffff_ffff_ffff, 64, Some(0)),
    (
        AluOp::Ashr,
        true,
        0xffff_ffff_ffff_fff9,
        1,
        Some(0xffff_ffff_ffff_fffc),
    ),
    (AluOp::Ashr, false, LEAST_32, 0, Some(LEAST_32)),
    (AluOp::Ashr, false, LEAST_32, 31, Some(ALL_32)),
    (AluOp::Ashr, false, LEAST_32, 32, Some(ALL_32)),
    (AluOp::Ashr, false, LEAST_32, 63, Some(ALL_32)),
    (AluOp::Ashr, false, LEAST_32, 64, Some(ALL_32)),
    (AluOp::Ashr, false, LEAST_32, ALL, Some(ALL_32)),
    (AluOp::Ashr, false, 0x7fff_ffff, 32, Some(0)),
    (AluOp::Ashr, false, 0xffff_ffff_7fff_ffff, 30, Some(1)),
    (
        AluOp::Ashr,
        false,
        LEAST_32,
        0x1_0000_0001,
        Some(0xc000_0000),
    ),
];

const EXTENSIONS: [Result64; 11] = [
    (
        AluOp::ExtendByte,
        true,
        5,
        0x80,
        Some(0xffff_ffff_ffff_ff80),
    ),
    (AluOp::ExtendByte, true, 5, 0x817f, Some(0x7f)),
    (AluOp::ExtendByte, false, 5, 0x80, Some(0xffff_ff80)),
    (
        AluOp::ExtendWord,
        true,
        5,
        0x8000,
        Some(0xffff_ffff_ffff_8000),
    ),
    (AluOp::ExtendWord, true, 5, 0x8000_7fff, Some(0x7fff)),
    (AluOp::ExtendWord, false, 5, 0x8000, Some(0xffff_8000)),
    (
        AluOp::ExtendDouble,
        true,
        5,
        LEAST_32,
        Some(0xffff_ffff_8000_0000),
    ),
    (
        AluOp::ExtendDouble,
        true,
        5,
        0xffff_ffff_7fff_ffff,
        Some(0x7fff_ffff),
    ),
    (AluOp::ExtendDouble, false, 5, LEAST_32, Some(LEAST_32)),
    (
        AluOp::ExtendDouble,
        false,
        5,
        0xffff_ffff_7fff_ffff,
        Some(0x7fff_ffff),
    ),
    (AluOp::ExtendDouble, false, 5, ALL, Some(ALL_32)),
];

/// A comparison, whether it is wide, its operands, and whether it holds.
const TESTS: [(CmpOp, bool, u64, u64, bool); 28] = [
    (CmpOp::Equal, true, LEAST, LEAST, true),
    (CmpOp::Equal, true, 0, 0x1_0000_0000, false),
    (CmpOp::Equal, false, 0, 0x1_0000_0000, true),
    (CmpOp::LessOrEqual, true, 5, 5, true),
    (CmpOp::LessOrEqual, true, LEAST, 0x7fff_ffff_ffff_ffff, true),
    (
        CmpOp::LessOrEqual,
        true,
        0x7fff_ffff_ffff_ffff,
        LEAST,
        false,
    ),
    (CmpOp::LessOrEqual, true, ALL, 0, true),
    (CmpOp::LessOrEqual, true, LEAST_32, 0x7fff_ffff, false),
    (CmpOp::LessOrEqual, false, LEAST_32, 0x7fff_ffff, true),
    (CmpOp::LessOrEqual, false, 0x7fff_ffff, LEAST_32, false),
    (CmpOp::GreaterOrEqual, true, 5, 5, true),
    (
        CmpOp::GreaterOrEqual,
        true,
        LEAST,
        0x7fff_ffff_ffff_ffff,
        false,
    ),
    (
        CmpOp::GreaterOrEqual,
        true,
        0x7fff_ffff_ffff_ffff,
        LEAST,
        true,
    ),
    (CmpOp::GreaterOrEqual, true, ALL, 0, false),
    (CmpOp::GreaterOrEqual, false, LEAST_32, 0x7fff_ffff, false),
    (CmpOp::GreaterOrEqual, false, 0x7fff_ffff, LEAST_32, true),
    (CmpOp::UnsignedLessOrEqual, true, 5, 5, true),
    (
        CmpOp::UnsignedLessOrEqual,
        true,
        LEAST,
        0x7fff_ffff_ffff_ffff,
        false,
    ),
    (
        CmpOp::UnsignedLessOrEqual,
        true,
        0x7fff_ffff_ffff_ffff,
        LEAST,
        true,
    ),
    (
        CmpOp::UnsignedLessOrEqual,
        false,
        LEAST_32,
        0x7fff_ffff,
        false,
    ),
    (
        CmpOp::UnsignedLessOrEqual,
        false,
        0xffff_ffff_0000_0000,
        1,
        true,
    ),
    (
        CmpOp::UnsignedLessOrEqual,
        true,
        0xffff_ffff_0000_0000,
        1,
        false,
    ),
    (CmpOp::UnsignedGreaterOrEqual, true, 5, 5, true),
    (
        CmpOp::UnsignedGreaterOrEqual,
        true,
        LEAST,
        0x7fff_ffff_ffff_ffff,
        true,
    ),
    (
        CmpOp::UnsignedGreaterOrEqual,
        true,
        0x7fff_ffff_ffff_ffff,
        LEAST,
        false,
    ),
    (
        CmpOp::UnsignedGreaterOrEqual,
        false,
        LEAST_32,
        0x7fff_ffff,
        true,
    ),
    (
        CmpOp::UnsignedGreaterOrEqual,
        false,
        0xffff_ffff_0000_0000,
        1,
        false,
    ),
    (
        CmpOp::UnsignedGreaterOrEqual,
        true,
        0xffff_ffff_0000_0000,
        1,
        true,
    ),
];

/// An index, how many bytes it has, and its value.
const INDEXES: [(u64, u8, u64); 19] = [
    (0x1009, 2, 10),
    (0x9009, 2, 0xffff_ffff_ffff_fff6),
    (0x5237, 2, 4536),
    (0x0000, 2, 0),
    (0x8000, 2, 0),
    (0x0fff, 2, 4095),
    (0x6fff, 2, 32760),
    (0x7fff, 2, 32760),
    (0xffff, 2, 0xffff_ffff_ffff_8008),
    (0x1000_0025, 4, 42),
    (0x9000_0025, 4, 0xffff_ffff_ffff_ffd6),
    (0x0fff_ffff, 4, 0x0fff_ffff),
    (0x7fff_ffff, 4, 0x7fff_fff8),
    (0xffff_ffff, 4, 0xffff_ffff_8000_0008),
    (0x1000_0000_0000_0203, 8, 26),
    (0x9000_0000_0000_0203, 8, 0xffff_ffff_ffff_ffe6),
    (0x0fff_ffff_ffff_ffff, 8, 0x0fff_ffff_ffff_ffff),
    (0x7fff_ffff_ffff_ffff, 8, 0x0800_0000_0000_0007),
    (0xffff_ffff_ffff_ffff, 8, 0xf7ff_ffff_ffff_fff9),
];

/// The place of the first case that comes out otherwise.
fn first_wrong(cases: &[Result64]) -> Option<usize> {
    cases
        .iter()
        .position(|case| alu(case.0, case.1, case.2, case.3).ok() != case.4)
}

fn first_wrong_test(cases: &[(CmpOp, bool, u64, u64, bool)]) -> Option<usize> {
    cases
        .iter()
        .position(|case| compare(case.0, case.1, case.2, case.3) != case.4)
}

/// The value of an index that its bytes can hold.
fn value_of_index(raw: u64, bytes: u8) -> Option<u64> {
    match bytes {
        2 if raw < 0x1_0000 => Some(index_value(raw, 2)),
        4 if raw < 0x1_0000_0000 => Some(index_value(raw, 4)),
        8 => Some(index_value(raw, 8)),
        _ => None,
    }
}

fn first_wrong_index(cases: &[(u64, u8, u64)]) -> Option<usize> {
    cases
        .iter()
        .position(|case| value_of_index(case.0, case.1) != Some(case.2))
}

#[test]
fn results(rt: HostRuntime) -> Result<(), Fail> {
    assert_eq!(rt; first_wrong(&SUMS), None);
    assert_eq!(rt; first_wrong(&QUOTIENTS), None);
    assert_eq!(rt; first_wrong(&SHIFTS), None);
    assert_eq!(rt; first_wrong(&EXTENSIONS), None);
    Ok(())
}

#[test]
fn comparisons(rt: HostRuntime) -> Result<(), Fail> {
    assert_eq!(rt; first_wrong_test(&TESTS), None);
    Ok(())
}

#[test]
fn indexes(rt: HostRuntime) -> Result<(), Fail> {
    assert_eq!(rt; first_wrong_index(&INDEXES), None);
    Ok(())
}
