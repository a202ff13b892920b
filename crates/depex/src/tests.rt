//! Expressions by their bytes. What is expected was worked out from the rules of expressions, apart from this reader.
ghost use Rattle.std.specs.Prelude.{◌==◌, slice_index};

use crate::opcode::{AND, END, FALSE, MOST_OPERANDS, NOT, OR, PUSH, TRUE};
use crate::{Depex, DepexFault, Installed, holds, judge, parse};
use mm_base::{End, Guid, NoMemory};
use std::alloc::Global;
use std::test::Fail;

/// The most bytes that the reader takes.
const MOST_BYTES: usize = 16_777_216;

/// Each protocol is installed whose GUID begins with this byte.
struct Beginning(u8);

impl Installed for Beginning {
    ghost installed = { λ s guid. slice_index guid.0 0 == s.0 };

    fn has(&self, guid: Guid) -> bool {
        guid.0[0] == self.0
    }
}

/// What comes of an expression where GUIDs that begin with an A are installed.
#[derive(Clone, Copy, Debug, PartialEq, Eq)]
enum Judgement {
    Holds,
    HoldsNot,
    Before,
    After,
    Fault(DepexFault),
    NoMemory,
}

fn judged(depex: &Depex) -> Judgement {
    if holds(depex, &Beginning(b'A')) {
        return Judgement::Holds;
    }
    match (depex.before(), depex.after()) {
        (None, None) => Judgement::HoldsNot,
        (Some(_), _) => Judgement::Before,
        (None, Some(_)) => Judgement::After,
    }
}

fn answer(alloc: Global, bytes: &[u8]) -> Judgement {
    if bytes.len() > MOST_BYTES {
        return Judgement::NoMemory;
    }
    match parse(alloc, bytes) {
        Ok(depex) => judged(&depex),
        Err(End::Fault(fault)) => Judgement::Fault(fault),
        Err(End::NoMemory(_)) => Judgement::NoMemory,
    }
}

struct Case {
    name: &'static str,
    bytes: &'static [u8],
    answer: Judgement,
}

const CASES: &[Case] = &[
    Case {
        name: "TRUE",
        bytes: b"\x06\x08",
        answer: Judgement::Holds,
    },
    Case {
        name: "FALSE",
        bytes: b"\x07\x08",
        answer: Judgement::HoldsNot,
    },
    Case {
        name: "a byte past END",
        bytes: b"\x06\x08\xff",
        answer: Judgement::Holds,
    },
    Case {
        name: "a protocol that is installed",
        bytes: b"\x02ABCDEFGHIJKLMNOP\x08",
        answer: Judgement::Holds,
    },
    Case {
        name: "a protocol that isn't",
        bytes: b"\x02BBCDEFGHIJKLMNOP\x08",
        answer: Judgement::HoldsNot,
    },
    Case {
        name: "neither of two",
        bytes: b"\x02BBCDEFGHIJKLMNOP\x02ABCDEFGHIJKLMNOP\x04\x05\x08",
        answer: Judgement::HoldsNot,
    },
    Case {
        name: "one of two",
        bytes: b"\x02BBCDEFGHIJKLMNOP\x05\x02ABCDEFGHIJKLMNOP\x03\x08",
        answer: Judgement::Holds,
    },
    Case {
        name: "BEFORE",
        bytes: b"\x00ABCDEFGHIJKLMNOP\x08",
        answer: Judgement::Before,
    },
    Case {
        name: "AFTER",
        bytes: b"\x01ABCDEFGHIJKLMNOP\x08\x00",
        answer: Judgement::After,
    },
    Case {
        name: "END alone",
        bytes: b"\x08",
        answer: Judgement::Fault(DepexFault::Empty),
    },
    Case {
        name: "no byte",
        bytes: b"",
        answer: Judgement::Fault(DepexFault::NoEnd),
    },
    Case {
        name: "TRUE without END",
        bytes: b"\x06",
        answer: Judgement::Fault(DepexFault::NoEnd),
    },
    Case {
        name: "PUSH with 15 bytes",
        bytes: b"\x02ABCDEFGHIJKLMNO",
        answer: Judgement::Fault(DepexFault::NoEnd),
    },
    Case {
        name: "BEFORE with 15 bytes",
        bytes: b"\x00ABCDEFGHIJKLMNO",
        answer: Judgement::Fault(DepexFault::NoEnd),
    },
    Case {
        name: "AFTER without END",
        bytes: b"\x01ABCDEFGHIJKLMNOP",
        answer: Judgement::Fault(DepexFault::NoEnd),
    },
    Case {
        name: "no opcode",
        bytes: b"\x09",
        answer: Judgement::Fault(DepexFault::Unknown(0)),
    },
    Case {
        name: "no opcode behind a GUID",
        bytes: b"\x02ABCDEFGHIJKLMNOP\xff\x08",
        answer: Judgement::Fault(DepexFault::Unknown(17)),
    },
    Case {
        name: "no opcode behind BEFORE",
        bytes: b"\x00ABCDEFGHIJKLMNOP\x09",
        answer: Judgement::Fault(DepexFault::Unknown(17)),
    },
    Case {
        name: "AND of none",
        bytes: b"\x03\x08",
        answer: Judgement::Fault(DepexFault::Underflow(0)),
    },
    Case {
        name: "OR of one",
        bytes: b"\x06\x04\x08",
        answer: Judgement::Fault(DepexFault::Underflow(1)),
    },
    Case {
        name: "NOT of none",
        bytes: b"\x05\x06\x08",
        answer: Judgement::Fault(DepexFault::Underflow(0)),
    },
    Case {
        name: "two operands left",
        bytes: b"\x06\x06\x08",
        answer: Judgement::Fault(DepexFault::Leftover(2)),
    },
    Case {
        name: "BEFORE behind TRUE",
        bytes: b"\x06\x00ABCDEFGHIJKLMNOP\x08",
        answer: Judgement::Fault(DepexFault::BeforeNotFirst(1)),
    },
    Case {
        name: "AFTER behind BEFORE",
        bytes: b"\x00ABCDEFGHIJKLMNOP\x01ABCDEFGHIJKLMNOP\x08",
        answer: Judgement::Fault(DepexFault::BeforeNotFirst(17)),
    },
    Case {
        name: "a condition behind AFTER",
        bytes: b"\x01ABCDEFGHIJKLMNOP\x06\x08",
        answer: Judgement::Fault(DepexFault::BeforeNotFirst(17)),
    },
];

#[test]
fn judges_expressions(rt: HostRuntime) {
    let alloc = rt.alloc();
    let wrong = CASES
        .iter()
        .find(|case| answer(alloc, case.bytes) != case.answer)
        .map(|case| case.name);
    assert_eq!(rt; wrong, None);
}

/// So many operands that all stand before their operators, with a NOT of the last one.
fn deep(alloc: Global, operand: u8, count: usize, operator: u8) -> Result<Vec<u8>, NoMemory> {
    let mut bytes = Vec::new(alloc);
    for _ in 0..count {
        bytes.push(operand)?;
    }
    bytes.push(NOT)?;
    for _ in 1..count {
        bytes.push(operator)?;
    }
    bytes.push(END)?;
    Ok(bytes)
}

/// A value that so many operators take in turn, each with one operand of its own.
fn long(alloc: Global, count: usize, operator: u8) -> Result<Vec<u8>, NoMemory> {
    let mut bytes = Vec::new(alloc);
    bytes.push(TRUE)?;
    for _ in 0..count {
        bytes.push(FALSE)?;
        bytes.push(operator)?;
    }
    bytes.push(END)?;
    Ok(bytes)
}

fn is(alloc: Global, bytes: Result<Vec<u8>, NoMemory>, wanted: Judgement) -> bool {
    match bytes {
        Ok(bytes) => answer(alloc, bytes.as_slice()) == wanted,
        Err(_) => false,
    }
}

fn limits_operands(alloc: Global) -> bool {
    let too_deep = Judgement::Fault(DepexFault::TooDeep(256));
    is(alloc, deep(alloc, TRUE, 255, AND), Judgement::HoldsNot)
        && is(alloc, deep(alloc, TRUE, 256, AND), Judgement::HoldsNot)
        && is(alloc, deep(alloc, TRUE, 257, AND), too_deep)
        && is(alloc, deep(alloc, FALSE, 255, OR), Judgement::Holds)
        && is(alloc, deep(alloc, FALSE, 256, OR), Judgement::Holds)
        && is(alloc, deep(alloc, FALSE, 257, OR), too_deep)
}

/// A PUSH that finds no room, and then none of its GUID.
fn misses_room_first(alloc: Global) -> bool {
    let Ok(mut bytes) = deep(alloc, TRUE, MOST_OPERANDS, AND) else {
        return false;
    };
    bytes.truncate(MOST_OPERANDS);
    let pushed = bytes.push(PUSH).is_ok();
    pushed && answer(alloc, bytes.as_slice()) == Judgement::Fault(DepexFault::TooDeep(256))
}

#[test]
fn bounds_depth_and_not_length(rt: HostRuntime) {
    let alloc = rt.alloc();
    let long_or = is(alloc, long(alloc, 100_000, OR), Judgement::Holds);
    let long_and = is(alloc, long(alloc, 100_000, AND), Judgement::HoldsNot);
    assert!(rt; limits_operands(alloc) && misses_room_first(alloc) && long_or && long_and);
}

fn operand(holds: bool) -> u8 {
    if holds { TRUE } else { FALSE }
}

fn operator(either: bool) -> u8 {
    if either { OR } else { AND }
}

fn applied(either: bool, left: bool, right: bool) -> bool {
    if either { left || right } else { left && right }
}

/// Whether three operators on four operands give what they have to, in each grouping; the bits of a number are the operands,
/// the operators, and whether a NOT follows.
fn is_right(alloc: Global, bits: u8) -> bool {
    let (a, b, c, d) = (bits & 1 != 0, bits & 2 != 0, bits & 4 != 0, bits & 8 != 0);
    let (x, y, z, negates) = (
        bits & 16 != 0,
        bits & 32 != 0,
        bits & 64 != 0,
        bits & 128 != 0,
    );
    let (p, q, r, s) = (operand(a), operand(b), operand(c), operand(d));
    let (i, j, k) = (operator(x), operator(y), operator(z));
    let (last, rest) = if negates { (NOT, END) } else { (END, NOT) };
    let left = applied(z, applied(y, applied(x, a, b), c), d) != negates;
    let right = applied(z, a, applied(y, b, applied(x, c, d))) != negates;
    let middle = applied(z, applied(x, a, b), applied(y, c, d)) != negates;
    answers(alloc, &[p, q, i, r, j, s, k, last, rest], left)
        && answers(alloc, &[p, q, r, s, i, j, k, last, rest], right)
        && answers(alloc, &[p, q, i, r, s, j, k, last, rest], middle)
}

fn answers(alloc: Global, bytes: &[u8], holds: bool) -> bool {
    answer(alloc, bytes)
        == if holds {
            Judgement::Holds
        } else {
            Judgement::HoldsNot
        }
}

#[test]
fn works_off_operators(rt: HostRuntime) {
    let alloc = rt.alloc();
    let wrong = (0..=u8::MAX).find(|bits| !is_right(alloc, *bits));
    assert_eq!(rt; wrong, None);
}

/// Whether a case is judged as it is read: with its fault, or without one.
fn is_judged(case: &Case) -> bool {
    if case.bytes.len() > MOST_BYTES {
        return false;
    }
    match (judge(case.bytes), case.answer) {
        (Err(found), Judgement::Fault(fault)) => found == fault,
        (Ok(()), Judgement::Fault(_)) | (Err(_), _) => false,
        (Ok(()), _) => true,
    }
}

#[test]
fn judges_without_memory(rt: HostRuntime) {
    let wrong = CASES
        .iter()
        .find(|case| !is_judged(case))
        .map(|case| case.name);
    assert_eq!(rt; wrong, None);
}
