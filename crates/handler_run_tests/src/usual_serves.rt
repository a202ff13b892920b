//! A run of `serve` over a usual volume, whose report is known whole. What is expected was worked out by hand from the formats.
use memory_runs::is_served;
use mm_base::NoMemory;
use sample_volumes::usual_volume;
use std::alloc::Global;
use std::test::Fail;

/// An entry for the GUID that both drivers in byte code have a handler for, and one for another GUID.
const SCRIPT: &[u8] = b"lanes 1 4
fill 0 1111111122223333444455555555555508000000000000000000000000000000
ring 0
run 0
fill 0 aaaaaaaa2222333344445555555555550000000000000000
ring 0
run 0
";

/// The policy has no rules: each handler is denied its port, and the chain goes on.
const REPORT: &[&[u8]] = &[
    b"volume 000005d0 ffs2 files 7
file 00000078 4d4d5350-0002-4000-8000-000000000002 type 02 size 0000002c policy
file 000000a8 20656874-6f63-6572-2c20-6e756d626572 type 0d size 0000001c passed
file 000000c8 76697264-7265-6e20-756d-626572203031 type 0e size 00000184 native
file 00000250 76697264-7265-6e20-756d-626572203032 type 0e size 0000003c refused compressed
file 00000290 76697264-7265-6e20-756d-626572203033 type 0e size 00000184 driver
file 00000418 76697264-7265-6e20-756d-626572203034 type 0e size 00000194 driver
file 000005b0 ffffffff-ffff-ffff-ffff-ffffffffffff type f0 size 0000001c pad
policy rules 0 fuel 65536
start 76697264-7265-6e20-756d-626572203033 round 1 returned 0000000000000000
start 76697264-7265-6e20-756d-626572203034 round 1 returned 0000000000000000
locked images 2 handlers 2 protocols 0
image 0 76697264-7265-6e20-756d-626572203033 open
image 1 76697264-7265-6e20-756d-626572203034 open
",
    b"entry 0 lane 0 loads 5 status 800000000000000e
  request 0000000000000020 1111111122223333444455555555555508000000000000000000000000000000
  dispatched 11111111-2222-3333-4444-555555555555
  handler 0 returned 800000000000000f
    deny io read 0000000000000070 1 norule
  handler 1 returned 800000000000000f
    deny io read 0000000000000070 1 norule
  reply 1111111122223333444455555555555508000000000000000000000000000000
entry 1 lane 0 loads 4 status 800000000000000e
  request 0000000000000018 aaaaaaaa2222333344445555555555550000000000000000
  nohandler aaaaaaaa-2222-3333-4444-555555555555
  reply -
lane 0 length 0000000000000018 status 800000000000000e data aaaaaaaa22223333444455555555555500000000000000000000000000000000
",
];

/// Whether the usual volume and the script are served so.
fn is_usual(alloc: Global) -> Result<bool, NoMemory> {
    let volume = usual_volume(alloc)?;
    is_served(alloc, volume.as_slice(), SCRIPT, REPORT)
}

#[test]
fn serves_a_usual_volume(rt: HostRuntime) -> Result<(), Fail> {
    assert!(rt; is_usual(rt.alloc())?);
    Ok(())
}
