//! The sample driver, and one beside it with another GUID and another port: each is closed where only its own rule is there. Then nothing that
//! stands in the second driver's port is told by the first one. What is expected was worked out by hand from the formats.
use crate::code::READS_72;
use crate::rules::{ALL_USE_70, THREE, TWO};
use memory_runs::{is_booted, is_served};
use mm_base::{List, NoMemory};
use sample_volumes::{Driver, Layout, POLICY_NAME, Part, SOUND, TRUE, volume_with};
use std::alloc::Global;
use std::test::Fail;

/// The sample driver, and the one beside it.
const PAIR: &[Driver] = &[
    (
        b"\xaa\xaa\xaa\xaa\0\0\0\0\0\0\0\0\0\0\0\x01",
        &[TRUE, SOUND],
    ),
    (
        b"\xbb\xbb\xbb\xbb\0\0\0\0\0\0\0\0\0\0\0\x02",
        &[TRUE, READS_72],
    ),
];

/// The sample driver may read port 70 (hexadecimal).
const SAMPLE_READS_70: &[u8] =
    b"\x02\0\x01\0\x01\0\0\0\xaa\xaa\xaa\xaa\0\0\0\0\0\0\0\0\0\0\0\x01\x70\0\0\0\0\0\0\0\x01\0\0\0\0\0\0\0";

/// The other driver may read port 72 (hexadecimal).
const OTHER_READS_72: &[u8] =
    b"\x02\0\x01\0\x01\0\0\0\xbb\xbb\xbb\xbb\0\0\0\0\0\0\0\0\0\0\0\x02\x72\0\0\0\0\0\0\0\x01\0\0\0\0\0\0\0";

/// Each driver may read its own port.
const OWN_PORTS: &[Part] = &[Part {
    name: POLICY_NAME,
    kind: 0x02,
    attributes: 0,
    off: 0,
    body: &[Layout {
        length: 100,
        pieces: &[(0, TWO), (20, SAMPLE_READS_70), (60, OTHER_READS_72)],
    }],
}];

const OWN_PORTS_BOOTED: &[u8] = b"volume 000003b8 ffs2 files 3
file 00000048 4d4d5350-0002-4000-8000-000000000002 type 02 size 0000007c policy
file 000000c8 aaaaaaaa-0000-0000-0000-000000000001 type 0e size 00000174 driver
file 00000240 bbbbbbbb-0000-0000-0000-000000000002 type 0e size 00000174 driver
policy rules 2 fuel 65536
start aaaaaaaa-0000-0000-0000-000000000001 round 1 returned 0000000000000000
start bbbbbbbb-0000-0000-0000-000000000002 round 1 returned 0000000000000000
locked images 2 handlers 2 protocols 0
image 0 aaaaaaaa-0000-0000-0000-000000000001 closed
image 1 bbbbbbbb-0000-0000-0000-000000000002 closed
";

/// Whether the pair is booted so after this policy file.
fn are_booted(alloc: Global, front: &[Part], report: &[u8]) -> Result<bool, NoMemory> {
    let volume = volume_with(alloc, front, PAIR, &[])?;
    is_booted(alloc, volume.as_slice(), &[report])
}

#[test]
fn drivers_with_their_own_ports_are_closed(rt: HostRuntime) -> Result<(), Fail> {
    assert!(rt; are_booted(rt.alloc(), OWN_PORTS, OWN_PORTS_BOOTED)?);
    Ok(())
}

/// The same, and in front a rule that all images may read and write port 70 (hexadecimal).
const SHARED_PORT: &[Part] = &[Part {
    name: POLICY_NAME,
    kind: 0x02,
    attributes: 0,
    off: 0,
    body: &[Layout {
        length: 140,
        pieces: &[
            (0, THREE),
            (20, ALL_USE_70),
            (60, SAMPLE_READS_70),
            (100, OTHER_READS_72),
        ],
    }],
}];

/// Each image may write what the other one may read.
const SHARED_PORT_BOOTED: &[u8] = b"volume 000003e0 ffs2 files 3
file 00000048 4d4d5350-0002-4000-8000-000000000002 type 02 size 000000a4 policy
file 000000f0 aaaaaaaa-0000-0000-0000-000000000001 type 0e size 00000174 driver
file 00000268 bbbbbbbb-0000-0000-0000-000000000002 type 0e size 00000174 driver
policy rules 3 fuel 65536
start aaaaaaaa-0000-0000-0000-000000000001 round 1 returned 0000000000000000
start bbbbbbbb-0000-0000-0000-000000000002 round 1 returned 0000000000000000
locked images 2 handlers 2 protocols 0
image 0 aaaaaaaa-0000-0000-0000-000000000001 open
image 1 bbbbbbbb-0000-0000-0000-000000000002 open
";

#[test]
fn drivers_that_may_all_write_a_port_are_open(rt: HostRuntime) -> Result<(), Fail> {
    assert!(rt; are_booted(rt.alloc(), SHARED_PORT, SHARED_PORT_BOOTED)?);
    Ok(())
}

/// How each script begins: what the first driver's port holds.
const OPENING: &[u8] = b"lanes 1 4\ncell io 70 3c\n";

/// An entry to the first driver, one to the second one, and one to the first one again.
const ENTRIES: &[u8] = b"fill 0 1111111122223333444455555555555508000000000000000000000000000000
ring 0
run 0
fill 0 2222222233334444555566666666666608000000000000000000000000000000
ring 0
run 0
fill 0 1111111122223333444455555555555508000000000000000000000000000000
ring 0
run 0
";

/// The lines of the first entry, which is the first driver's.
const FIRST_ENTRY: &[u8] = b"entry 0 lane 0 loads 5 status 0000000000000000
  request 0000000000000020 1111111122223333444455555555555508000000000000000000000000000000
  dispatched 11111111-2222-3333-4444-555555555555
  handler 0 returned 0000000000000000
  reply 1111111122223333444455555555555508000000000000003c00000000000000
";

/// Those of the second one, which is the other driver's, up to what it read.
const OTHER_ENTRY: &[u8] = b"entry 1 lane 0 loads 5 status 0000000000000000
  request 0000000000000020 2222222233334444555566666666666608000000000000000000000000000000
  dispatched 22222222-3333-4444-5555-666666666666
  handler 1 returned 0000000000000000
  reply 222222223333444455556666666666660800000000000000";

/// What stands after that byte, and the lines of the third entry, which is the first driver's, and of the lane, which it had last.
const LAST_LINES: &[u8] = b"00000000000000
entry 2 lane 0 loads 5 status 0000000000000000
  request 0000000000000020 1111111122223333444455555555555508000000000000000000000000000000
  dispatched 11111111-2222-3333-4444-555555555555
  handler 0 returned 0000000000000000
  reply 1111111122223333444455555555555508000000000000003c00000000000000
lane 0 length 0000000000000020 status 0000000000000000 data 1111111122223333444455555555555508000000000000003c00000000000000
";

/// Whether the script that opens the second driver's port with a byte of these digits is served so that it alone reads them.
fn is_told_by_the_other_alone(alloc: Global, digits: &[u8]) -> Result<bool, NoMemory> {
    let volume = volume_with(alloc, OWN_PORTS, PAIR, &[])?;
    let mut script = List::from_slice(alloc, OPENING)?;
    script.extend(b"cell io 72 ")?;
    script.extend(digits)?;
    script.extend(b"\n")?;
    script.extend(ENTRIES)?;
    let report: &[&[u8]] = &[
        OWN_PORTS_BOOTED,
        FIRST_ENTRY,
        OTHER_ENTRY,
        digits,
        LAST_LINES,
    ];
    is_served(alloc, volume.as_slice(), script.as_slice(), report)
}

#[test]
fn a_port_that_holds_0(rt: HostRuntime) -> Result<(), Fail> {
    assert!(rt; is_told_by_the_other_alone(rt.alloc(), b"00")?);
    Ok(())
}

#[test]
fn a_port_that_holds_another_byte(rt: HostRuntime) -> Result<(), Fail> {
    assert!(rt; is_told_by_the_other_alone(rt.alloc(), b"5a")?);
    Ok(())
}

#[test]
fn a_port_that_holds_the_largest_byte(rt: HostRuntime) -> Result<(), Fail> {
    assert!(rt; is_told_by_the_other_alone(rt.alloc(), b"ff")?);
    Ok(())
}
