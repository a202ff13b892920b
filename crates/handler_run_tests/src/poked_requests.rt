//! A driver's request while somebody else stores to its lane. Each word is captured once, and the report shows what was captured. What is
//! expected was worked out by hand from the formats.
use crate::cases::{Case, first_wrong};
use crate::code::{DOUBLES, NAMED, ONE_BOOTED, REGISTERS};
use sample_volumes::{Contents, Driver, TRUE};
use std::test::Fail;

const DRIVERS: &[Driver] = &[(
    b"driver number 01",
    &[
        TRUE,
        (0x10, Contents::Image(336, &[NAMED, REGISTERS, DOUBLES])),
    ],
)];

/// Each word of the request is there just when it is loaded, and another value before and after it. The turn and the stores are poked at
/// too: what is stored before the processor's own store of a word is lost, and what is stored after it stays.
const STORM: &[u8] = b"lanes 1 4
poke 0 0 20
poke 0 1 5
poke 0 4 ffffffffffffffff
ring 0
poke 0 5 ffffffffffffffff
step 0
poke 0 0 ffffffffffffffff
poke 0 2 3333222211111111
step 0
poke 0 2 ffffffffffffffff
poke 0 3 5555555555554444
step 0
poke 0 3 ffffffffffffffff
poke 0 4 8
step 0
poke 0 4 ffffffffffffffff
poke 0 5 807060504030201
step 0
poke 0 5 ffffffffffffffff
poke 0 2 1
step 0
poke 0 2 2
poke 0 5 3
step 0
poke 0 2 4
step 0
poke 0 3 6
step 0
step 0
poke 0 0 17
poke 0 1 9
run 0
poke 0 1 7
";

const STORM_CASES: &[Case] = &[Case {
    name: "a storm",
    front: &[],
    drivers: DRIVERS,
    script: STORM,
    said: &[
        ONE_BOOTED,
        b"entry 0 lane 0 loads 5 status 0000000000000000
  request 0000000000000020 1111111122223333444455555555555508000000000000000102030405060708
  dispatched 11111111-2222-3333-4444-555555555555
  handler 0 returned 0000000000000000
  reply 111111112222333344445555555555550800000000000000020406080a0c0e10
lane 0 length 0000000000000020 status 0000000000000007 data 040000000000000006000000000000000800000000000000020406080a0c0e10
",
    ],
}];

#[test]
fn a_storm_of_stores_on_a_request(rt: HostRuntime) -> Result<(), Fail> {
    assert_eq!(rt; first_wrong(rt.alloc(), STORM_CASES)?, None);
    Ok(())
}

/// The message is stored to between its load and the turn, twice, and so is the word of its length. What the second entry captures is what
/// the first one stored.
const LATE: &[u8] = b"lanes 1 4
fill 0 1111111122223333444455555555555508000000000000000100000000000000
ring 0
step 0 5
poke 0 5 77
poke 0 4 7777777777777777
poke 0 5 78
run 0
ring 0
run 0
";

const LATE_CASES: &[Case] = &[Case {
    name: "late stores",
    front: &[],
    drivers: DRIVERS,
    script: LATE,
    said: &[
        ONE_BOOTED,
        b"entry 0 lane 0 loads 5 status 0000000000000000
  request 0000000000000020 1111111122223333444455555555555508000000000000000100000000000000
  dispatched 11111111-2222-3333-4444-555555555555
  handler 0 returned 0000000000000000
  reply 1111111122223333444455555555555508000000000000000200000000000000
entry 1 lane 0 loads 5 status 0000000000000000
  request 0000000000000020 1111111122223333444455555555555508000000000000000200000000000000
  dispatched 11111111-2222-3333-4444-555555555555
  handler 0 returned 0000000000000000
  reply 1111111122223333444455555555555508000000000000000400000000000000
lane 0 length 0000000000000020 status 0000000000000000 data 1111111122223333444455555555555508000000000000000400000000000000
",
    ],
}];

#[test]
fn stores_after_the_loads_come_too_late(rt: HostRuntime) -> Result<(), Fail> {
    assert_eq!(rt; first_wrong(rt.alloc(), LATE_CASES)?, None);
    Ok(())
}
