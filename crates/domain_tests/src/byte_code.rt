//! Byte code that runs over a domain. What is expected was worked out by hand.
use ebc_machine::{enter, invoke};
use mm_base::{Ended, FaultKind, NoMemory, Why};
use mm_memory::PlainFrames;
use sample_domains::domain_with;
use std::alloc::Global;
use std::test::Fail;
use supervisor_calls::Domain;

/// The bytes of the section: a program at each multiple of 20 (hexadecimal, as all places here), from 80000100 on.
const PROGRAMS: &[u8] = b"\
    \x77\x37\x05\0\x04\0\0\0\0\0\0\0\0\0\0\0\0\0\0\0\0\0\0\0\0\0\0\0\0\0\0\0\
    \xb7\x31\0\0\0\x40\x20\x92\x04\0\0\0\0\0\0\0\0\0\0\0\0\0\0\0\0\0\0\0\0\0\0\0\
    \x79\x01\0\0\x20\x29\x04\0\0\0\0\0\0\0\0\0\0\0\0\0\0\0\0\0\0\0\0\0\0\0\0\0\
    \x77\x31\x07\0\x6b\x01\x6c\x07\x04\0\0\0\0\0\0\0\0\0\0\0\0\0\0\0\0\0\0\0\0\0\0\0\
    \x10\x21\0\0\0\0\0\0\0\0\0\0\0\0\0\0\0\0\0\0\0\0\0\0\0\0\0\0\0\0\0\0\
    \x02\x2f";

/// A program by its address, its fuel, and how its invocation ends.
type Case = (&'static str, u64, u32, Ended);

const CASES: &[Case] = &[
    ("R7 = 5; RET", 0x8000_0100, 2, Ended::Returned(5)),
    ("one unit less", 0x8000_0100, 1, Ended::Fuel(0x8000_0104)),
    (
        "R1 = 40000000; R2 = @R1: the lanes' window",
        0x8000_0120,
        9,
        Ended::Denied(Why::Buffer, 0x4000_0000),
    ),
    (
        "R1 = the next address; @R1 = R2: the section may not be written",
        0x8000_0140,
        9,
        Ended::Denied(Why::Mmram, 0x8000_0144),
    ),
    (
        "R1 = 7; PUSH64 R1; POP64 R7; RET: the stack is its own",
        0x8000_0160,
        9,
        Ended::Returned(7),
    ),
    (
        "a division by 0",
        0x8000_0180,
        9,
        Ended::Fault(FaultKind::Divide, 0x8000_0180),
    ),
    (
        "a jump behind the section: nothing there may be executed",
        0x8000_01a0,
        9,
        Ended::Denied(Why::Mmram, 0x8000_0200),
    ),
    (
        "an odd address",
        0x8000_0101,
        9,
        Ended::Fault(FaultKind::Alignment, 0x8000_0101),
    ),
];

/// How a program ends with so much fuel.
fn end_of(domain: &mut Domain<PlainFrames>, address: u64, fuel: u32) -> Option<Ended> {
    match enter(domain, 0x8000_5000, address, [1, 0, 0, 0]) {
        Ok(mut regs) => Some(invoke(&mut regs, domain, fuel)),
        Err(_) => None,
    }
}

/// The name of the first case that ends otherwise.
fn first_wrong(alloc: Global) -> Result<Option<&'static str>, NoMemory> {
    let Some(mut domain) = domain_with(alloc, PROGRAMS)? else {
        return Ok(Some("no domain"));
    };
    for case in CASES {
        let (name, address, fuel, expected) = *case;
        if end_of(&mut domain, address, fuel) != Some(expected) {
            return Ok(Some(name));
        }
    }
    Ok(None)
}

#[test]
fn runs_over_a_domain(rt: HostRuntime) -> Result<(), Fail> {
    assert_eq!(rt; first_wrong(rt.alloc())?, None);
    Ok(())
}
