//! Instructions read and written.
use crate::samples::{
    COMPARISONS, CONTROL, Case, IMMEDIATES, MOVES, OPERATIONS, REFUSED, SAMPLE, STACK_AND_SPECIAL,
};
use crate::{EncodingFault, Ins, decode, encode, length};
use std::test::Fail;

/// Whether bytes are this instruction alone: with more bytes after them, and never with fewer.
fn is_read(bytes: &[u8], ins: Ins) -> bool {
    let mut all = [0xee; 24];
    if bytes.len() > 18 {
        return false;
    }
    for i in 0..bytes.len() {
        all[i] = bytes[i];
    }
    let told = Ok((ins, bytes.len() as u8));
    if decode(bytes) != told || decode(&all) != told {
        return false;
    }
    for n in 0..bytes.len() {
        if decode(&bytes[..n]) != Err(EncodingFault) {
            return false;
        }
    }
    true
}

/// Whether an instruction that was read is written as it stood, with zeros after it.
fn is_written(bytes: &[u8]) -> bool {
    let Ok((ins, _)) = decode(bytes) else {
        return false;
    };
    let (all, n) = encode(&ins);
    for (k, byte) in all.iter().enumerate() {
        let expected = if k < bytes.len() { bytes[k] } else { 0 };
        if *byte != expected {
            return false;
        }
    }
    n as usize == bytes.len()
}

/// The number of the first case that fails, or how many there are.
fn first_wrong(cases: &[Case]) -> usize {
    for (k, case) in cases.iter().enumerate() {
        if !(is_read(case.0, case.1) && is_written(case.0)) {
            return k;
        }
    }
    cases.len()
}

/// The number of the first bytes that are read after all, or how many there are.
fn first_accepted(cases: &[(&[u8], &str)]) -> usize {
    for (k, case) in cases.iter().enumerate() {
        if decode(case.0) != Err(EncodingFault) {
            return k;
        }
    }
    cases.len()
}

/// Whether `length` and `decode` agree on two bytes: with zeros after them, and with no more than the length asks for.
fn is_agreed(first: u8, second: u8) -> bool {
    let mut bytes = [0; 18];
    bytes[0] = first;
    bytes[1] = second;
    match (length(first, second), decode(&bytes)) {
        (Ok(n), Ok((_, told))) => n == told && n <= 18 && decode(&bytes[..n as usize]).is_ok(),
        (Err(_), Err(_)) => true,
        _ => false,
    }
}

/// How many of all first two bytes begin an instruction, where `length` and `decode` agree on each.
fn count_of_beginnings() -> Option<u32> {
    let mut count = 0;
    for first in 0..=255u8 {
        for second in 0..=255u8 {
            if !is_agreed(first, second) {
                return None;
            }
            if length(first, second).is_ok() && count < 65_536 {
                count += 1;
            }
        }
    }
    Some(count)
}

#[test]
fn reads_and_writes_each_form(rt: HostRuntime) -> Result<(), Fail> {
    assert_eq!(rt; first_wrong(CONTROL), CONTROL.len());
    assert_eq!(rt; first_wrong(COMPARISONS), COMPARISONS.len());
    assert_eq!(rt; first_wrong(OPERATIONS), OPERATIONS.len());
    assert_eq!(rt; first_wrong(MOVES), MOVES.len());
    assert_eq!(rt; first_wrong(STACK_AND_SPECIAL), STACK_AND_SPECIAL.len());
    assert_eq!(rt; first_wrong(IMMEDIATES), IMMEDIATES.len());
    assert_eq!(rt; first_wrong(SAMPLE), SAMPLE.len());
    Ok(())
}

#[test]
fn refuses_what_the_table_does_not_have(rt: HostRuntime) -> Result<(), Fail> {
    assert_eq!(rt; first_accepted(REFUSED), REFUSED.len());
    Ok(())
}

#[test]
fn agrees_on_all_first_two_bytes(rt: HostRuntime) -> Result<(), Fail> {
    assert_eq!(rt; count_of_beginnings(), Some(34_233));
    Ok(())
}
