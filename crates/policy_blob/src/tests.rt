//! Policies as bytes. What is expected was worked out from the form of policies, apart from this reader.
ghost use Rattle.std.specs.Prelude.{◌≤◌, length};

use crate::{PolicyEnd, PolicyKind, policy_bytes, read_policy};
use mm_base::{Bytes, End, Guid, Kind, NoMemory, Range, Rule};
use std::alloc::Global;

/// A policy of one rule: the image AAAAAAAA-0000-0000-0000-000000000001 may read port 70 (hexadecimal).
const ONE: &[u8] = b"MMSP\x01\0\0\0\x01\0\0\0\0\0\x01\0\
    \x02\0\x01\0\x01\0\0\0\xaa\xaa\xaa\xaa\0\0\0\0\0\0\0\0\0\0\0\x01\x70\0\0\0\0\0\0\0\x01\0\0\0\0\0\0\0";

/// Its rule.
const SAMPLE_RULE: Rule = Rule {
    kind: Kind::Io,
    allow: true,
    rights: 1,
    owner: Guid([0xaa, 0xaa, 0xaa, 0xaa, 0, 0, 0, 0, 0, 0, 0, 0, 0, 0, 0, 1]),
    range: Range {
        base: 0x70,
        length: 1,
    },
};

/// Bytes and the place that they are written to.
type Piece = (usize, &'static [u8]);

/// A name, so many bytes (the policy above, then bytes that are 5) with these pieces, and the fault that they have, if any.
type Case = (
    &'static str,
    usize,
    &'static [Piece],
    Option<(u32, PolicyKind)>,
);

const CASES: &[Case] = &[
    // What is a policy.
    ("one rule", 56, &[], None),
    ("a rule that denies", 56, &[(18, b"\0\0\0\0")], None),
    ("both rights", 56, &[(20, b"\x03")], None),
    ("memory", 56, &[(16, b"\x01")], None),
    ("save state", 56, &[(16, b"\x04")], None),
    ("the least fuel", 56, &[(12, b"\x01\0\0\0")], None),
    ("the most fuel", 56, &[(12, b"\x40\x42\x0f\0")], None),
    (
        "a range that ends at 2^64",
        56,
        &[(40, b"\xff\xff\xff\xff\xff\xff\xff\xff")],
        None,
    ),
    (
        "the longest range",
        56,
        &[(40, b"\0\0\0\0\0\0\0\0\xff\xff\xff\xff\xff\xff\xff\xff")],
        None,
    ),
    ("no rule", 16, &[(8, b"\0")], None),
    // Each fault by itself.
    ("no byte", 0, &[], Some((0, PolicyKind::Short))),
    (
        "a header less one byte",
        15,
        &[],
        Some((15, PolicyKind::Short)),
    ),
    (
        "no rule where one is said",
        16,
        &[],
        Some((16, PolicyKind::Short)),
    ),
    (
        "a rule less one byte",
        55,
        &[],
        Some((55, PolicyKind::Short)),
    ),
    (
        "another signature",
        56,
        &[(3, b"Q")],
        Some((0, PolicyKind::Magic)),
    ),
    (
        "version 2",
        56,
        &[(4, b"\x02")],
        Some((4, PolicyKind::Version)),
    ),
    (
        "version 257",
        56,
        &[(5, b"\x01")],
        Some((4, PolicyKind::Version)),
    ),
    (
        "a reserved bit",
        56,
        &[(7, b"\x80")],
        Some((6, PolicyKind::Reserved)),
    ),
    (
        "1,025 rules",
        56,
        &[(8, b"\x01\x04")],
        Some((8, PolicyKind::Count)),
    ),
    ("no fuel", 56, &[(14, b"\0")], Some((12, PolicyKind::Fuel))),
    (
        "1,000,001 of fuel",
        56,
        &[(12, b"\x41\x42\x0f")],
        Some((12, PolicyKind::Fuel)),
    ),
    ("kind 0", 56, &[(16, b"\0")], Some((16, PolicyKind::Kind))),
    ("kind 5", 56, &[(16, b"\x05")], Some((16, PolicyKind::Kind))),
    (
        "kind 258",
        56,
        &[(17, b"\x01")],
        Some((16, PolicyKind::Kind)),
    ),
    (
        "action 2",
        56,
        &[(18, b"\x02")],
        Some((18, PolicyKind::Action)),
    ),
    (
        "an allow rule without rights",
        56,
        &[(20, b"\0")],
        Some((20, PolicyKind::Rights)),
    ),
    (
        "the right to execute",
        56,
        &[(20, b"\x05")],
        Some((20, PolicyKind::Rights)),
    ),
    (
        "a high bit of rights",
        56,
        &[(23, b"\x01")],
        Some((20, PolicyKind::Rights)),
    ),
    (
        "a deny rule with rights",
        56,
        &[(18, b"\0")],
        Some((20, PolicyKind::Rights)),
    ),
    (
        "an empty range",
        56,
        &[(48, b"\0")],
        Some((48, PolicyKind::Length)),
    ),
    (
        "a range that ends past 2^64",
        56,
        &[(40, b"\xff\xff\xff\xff\xff\xff\xff\xff\x02")],
        Some((48, PolicyKind::Length)),
    ),
    ("a byte behind", 57, &[], Some((56, PolicyKind::Trailing))),
    (
        "a byte behind no rule",
        17,
        &[(8, b"\0")],
        Some((16, PolicyKind::Trailing)),
    ),
    // Two faults: the earlier one is told.
    (
        "short, and another signature",
        15,
        &[(0, b"Q")],
        Some((15, PolicyKind::Short)),
    ),
    (
        "signature and version",
        56,
        &[(0, b"Q"), (4, b"\x02")],
        Some((0, PolicyKind::Magic)),
    ),
    (
        "version and reserved",
        56,
        &[(4, b"\x02\0\x01")],
        Some((4, PolicyKind::Version)),
    ),
    (
        "reserved and count",
        56,
        &[(6, b"\x01\0\xff\xff")],
        Some((6, PolicyKind::Reserved)),
    ),
    (
        "count and fuel",
        56,
        &[(8, b"\xff\xff\0\0\0\0\0\0")],
        Some((8, PolicyKind::Count)),
    ),
    (
        "fuel and missing rules",
        55,
        &[(14, b"\0")],
        Some((12, PolicyKind::Fuel)),
    ),
    (
        "missing rules and kind",
        55,
        &[(16, b"\0")],
        Some((55, PolicyKind::Short)),
    ),
    (
        "kind and action",
        56,
        &[(16, b"\0\0\x02")],
        Some((16, PolicyKind::Kind)),
    ),
    (
        "action and rights",
        56,
        &[(18, b"\x02\0\0")],
        Some((18, PolicyKind::Action)),
    ),
    (
        "rights and length",
        56,
        &[(20, b"\0"), (48, b"\0")],
        Some((20, PolicyKind::Rights)),
    ),
    (
        "length and a byte behind",
        57,
        &[(48, b"\0")],
        Some((48, PolicyKind::Length)),
    ),
    // Faults of a second rule.
    (
        "a second rule of kind 5",
        96,
        &[(8, b"\x02")],
        Some((56, PolicyKind::Kind)),
    ),
    (
        "a second rule with an empty range",
        96,
        &[
            (8, b"\x02"),
            (56, b"\x03\0\0\0\0\0\0\0"),
            (88, b"\0\0\0\0\0\0\0\0"),
        ],
        Some((88, PolicyKind::Length)),
    ),
];

/// The bytes of a case.
fn bytes_of(alloc: Global, case: &Case) -> Result<Vec<u8>, NoMemory> {
    let (_, length, edits, _) = *case;
    let mut bytes = Vec::with_capacity(alloc, length)?;
    for at in 0..length {
        let byte = ONE.get(at).copied().unwrap_or(5);
        bytes.push(edited(edits, at, byte))?;
    }
    Ok(bytes)
}

/// The byte at a place where this one stood before the edits.
fn edited(edits: &[Piece], at: usize, byte: u8) -> u8 {
    for (from, piece) in edits {
        if *from <= at && at - *from < piece.len() {
            return piece[at - *from];
        }
    }
    byte
}

/// The policy in bytes, written again, or why it wasn't read.
fn written_again(alloc: Global, bytes: &[u8]) -> Result<Bytes, PolicyEnd>
    requires { length bytes.now ≤ 16777216 }
{
    let policy = read_policy(alloc, bytes)?;
    Ok(policy_bytes(alloc, &policy)?)
}

/// Whether a case comes to what is expected: a policy that is read has the bytes that it was read from.
fn is_right(alloc: Global, case: &Case) -> Result<bool, NoMemory> {
    let (_, _, _, expected) = *case;
    let bytes = bytes_of(alloc, case)?;
    if bytes.len() > 16_777_216 {
        return Ok(false);
    }
    match written_again(alloc, bytes.as_slice()) {
        Ok(written) => Ok(expected.is_none() && written.as_slice() == bytes.as_slice()),
        Err(End::Fault(fault)) => Ok(expected == Some((fault.at, fault.kind))),
        Err(End::NoMemory(refused)) => Err(refused),
    }
}

/// The name of the first case that comes to something else.
fn first_wrong(alloc: Global) -> Option<&'static str> {
    for case in CASES {
        if !is_right(alloc, case).unwrap_or(false) {
            return Some(case.0);
        }
    }
    None
}

/// Policies and faults.
#[test]
fn policies_and_faults(rt: HostRuntime) {
    assert_eq!(rt; first_wrong(rt.alloc()), None);
}

/// Whether the sample is read as its rule and its fuel.
fn says_its_rule(alloc: Global) -> bool {
    match read_policy(alloc, ONE) {
        Ok(policy) => policy.fuel == 65_536 && policy.rules.as_slice() == [SAMPLE_RULE].as_slice(),
        Err(_) => false,
    }
}

/// What the rule of the sample says.
#[test]
fn reads_each_field(rt: HostRuntime) {
    assert!(rt; says_its_rule(rt.alloc()));
}
