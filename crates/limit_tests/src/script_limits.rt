//! Scripts at the limits that are run. What is expected was worked out by hand from the formats.
use crate::texts::{begun, put_lines, put_many, writes};
use mm_base::{Bytes, NoMemory};
use std::alloc::Global;
use std::test::Fail;

/// Whether a run of this script answers 0, hands out a world, and writes just this.
fn is_reported(alloc: Global, script: &[u8], report: &[u8]) -> Result<bool, NoMemory> {
    writes(alloc, &["script", "S"], script, report, true)
}

/// What stands between a lane's number and its data, where nothing happened on it.
const AT_REST: &[u8] = b" length 0000000000000000 status 0000000000000000 data ";

/// Puts the lines of these lanes, of so many words, on which nothing happened.
fn put_lanes(
    report: &mut Bytes,
    alloc: Global,
    lanes: usize,
    words: usize,
) -> Result<(), NoMemory> {
    let mut back = begun(alloc, AT_REST)?;
    put_many(&mut back, b"0000000000000000", words)?;
    back.extend(b"\n")?;
    put_lines(report, alloc, (0, lanes), b"lane ", back.as_slice())
}

/// Whether the text of a `lanes` line alone is reported by the lines of so many lanes of so many words.
fn are_alone(alloc: Global, script: &[u8], lanes: usize, words: usize) -> Result<bool, NoMemory> {
    let mut report = begun(alloc, b"")?;
    put_lanes(&mut report, alloc, lanes, words)?;
    is_reported(alloc, script, report.as_slice())
}

#[test]
fn lanes_alone(rt: HostRuntime) -> Result<(), Fail> {
    let alloc = rt.alloc();
    let all = are_alone(alloc, b"lanes 1 3", 1, 3)?
        && are_alone(alloc, b"lanes 1 512\n", 1, 512)?
        && are_alone(alloc, b"lanes 16 3\n", 16, 3)?
        && are_alone(alloc, b"lanes 16 512", 16, 512)?;
    assert!(rt; all);
    Ok(())
}

/// A header for the version handler, of 4,072 bytes of message.
const LONGEST: &[u8] = b"31564d4d010000408000000000000001e80f000000000000";

/// A request for the version of as many bytes as a lane may have, all of them a5 behind the header.
fn longest_request(alloc: Global) -> Result<Bytes, NoMemory> {
    let mut script = begun(alloc, b"lanes 16 512\nfill 15 ")?;
    script.extend(LONGEST)?;
    put_many(&mut script, b"a5", 4_072)?;
    script.extend(b"\nring 15\nrun 15\n")?;
    Ok(script)
}

/// What that comes to: the version comes back in eight bytes, and all past them stays.
fn longest_entry(alloc: Global) -> Result<Bytes, NoMemory> {
    let mut report = begun(
        alloc,
        b"entry 0 lane 15 loads 513 status 0000000000000000\n  request 0000000000001000 ",
    )?;
    report.extend(LONGEST)?;
    put_many(&mut report, b"a5", 4_072)?;
    report.extend(
        b"
  dispatched 4d4d5631-0001-4000-8000-000000000001
  handler 0 returned 0000000000000000
  reply 31564d4d010000408000000000000001e80f0000000000000800010000000000
",
    )?;
    put_lanes(&mut report, alloc, 15, 512)?;
    report.extend(
        b"lane 15 length 0000000000000020 status 0000000000000000 data 31564d4d010000408000000000000001e80f0000000000000800010000000000",
    )?;
    put_many(&mut report, b"a5", 4_064)?;
    report.extend(b"\n")?;
    Ok(report)
}

#[test]
fn the_longest_request(rt: HostRuntime) -> Result<(), Fail> {
    let alloc = rt.alloc();
    let script = longest_request(alloc)?;
    let report = longest_entry(alloc)?;
    assert!(rt; is_reported(alloc, script.as_slice(), report.as_slice())?);
    Ok(())
}

/// What a request of 24 bytes comes to that 64 stubs were called for, of which the last ends the chain.
const CHAIN_FRONT: &[u8] = b"entry 0 lane 0 loads 4 status 0000000000000000
  request 0000000000000018 111111112222333344445555555555550000000000000000
  dispatched 11111111-2222-3333-4444-555555555555
";

const CHAIN_BACK: &[u8] = b"  handler 64 returned 0000000000000000
  reply 111111112222333344445555555555550000000000000000
lane 0 length 0000000000000018 status 0000000000000000 data 111111112222333344445555555555550000000000000000
";

/// Whether as many stubs as there may be are all called for one GUID.
fn are_called(alloc: Global) -> Result<bool, NoMemory> {
    let mut script = begun(alloc, b"lanes 1 3\n")?;
    put_many(
        &mut script,
        b"handler 11111111-2222-3333-4444-555555555555 7\n",
        63,
    )?;
    script.extend(
        b"handler 11111111-2222-3333-4444-555555555555 0
fill 0 111111112222333344445555555555550000000000000000
ring 0
run 0
",
    )?;
    let mut report = begun(alloc, CHAIN_FRONT)?;
    put_lines(
        &mut report,
        alloc,
        (1, 64),
        b"  handler ",
        b" returned 0000000000000007\n",
    )?;
    report.extend(CHAIN_BACK)?;
    is_reported(alloc, script.as_slice(), report.as_slice())
}

/// Whether as many stubs as there may be are all called as root handlers.
fn are_called_as_root(alloc: Global) -> Result<bool, NoMemory> {
    let mut script = begun(alloc, b"lanes 1 3\n")?;
    put_many(&mut script, b"handler root ffffffffffffffff\n", 64)?;
    script.extend(b"ring 0\nrun 0\n")?;
    let mut report = begun(
        alloc,
        b"entry 0 lane 0 loads 1 status 8000000000000002
  request 0000000000000000 -
  refused length
  reply -
",
    )?;
    put_lines(
        &mut report,
        alloc,
        (1, 65),
        b"  root ",
        b" returned ffffffffffffffff\n",
    )?;
    report.extend(
        b"lane 0 length 0000000000000000 status 8000000000000002 data 000000000000000000000000000000000000000000000000\n",
    )?;
    is_reported(alloc, script.as_slice(), report.as_slice())
}

#[test]
fn all_stubs(rt: HostRuntime) -> Result<(), Fail> {
    let alloc = rt.alloc();
    assert!(rt; are_called(alloc)? && are_called_as_root(alloc)?);
    Ok(())
}

/// A ring that names all registers, the last one first, behind the last cells that there are.
const REGISTERS: &[u8] = b"lanes 1 3
cell io ffff ff
cell msr 1fff ffffffffffffffff
cell msr c0001fff ffffffffffffffff
cell dev ffff ff
ring 0 18=ffffffffffffffff 17=12 16=11 15=10 14=f 13=e 12=d 11=c 10=b 9=a 8=9 7=8 6=7 5=6 4=5 3=4 2=3 1=2 0=1
run 0
";

const REGISTERS_REPORT: &[u8] = b"entry 0 lane 0 loads 1 status 8000000000000002
  request 0000000000000000 -
  regs 0=0000000000000001 1=0000000000000002 2=0000000000000003 3=0000000000000004 4=0000000000000005 5=0000000000000006 6=0000000000000007 7=0000000000000008 8=0000000000000009 9=000000000000000a 10=000000000000000b 11=000000000000000c 12=000000000000000d 13=000000000000000e 14=000000000000000f 15=0000000000000010 16=0000000000000011 17=0000000000000012 18=ffffffffffffffff
  refused length
  reply -
lane 0 length 0000000000000000 status 8000000000000002 data 000000000000000000000000000000000000000000000000
";

#[test]
fn all_registers(rt: HostRuntime) -> Result<(), Fail> {
    assert!(rt; is_reported(rt.alloc(), REGISTERS, REGISTERS_REPORT)?);
    Ok(())
}

/// The first entry of a request for the version, but for its number.
const FIRST_ENTRY: &[u8] = b" lane 0 loads 5 status 0000000000000000
  request 0000000000000020 31564d4d01000040800000000000000108000000000000000000000000000000
  dispatched 4d4d5631-0001-4000-8000-000000000001
  handler 0 returned 0000000000000000
  reply 31564d4d01000040800000000000000108000000000000000800010000000000
";

/// The same for what the first one left in the lane.
const LATER_ENTRY: &[u8] = b" lane 0 loads 5 status 0000000000000000
  request 0000000000000020 31564d4d01000040800000000000000108000000000000000800010000000000
  dispatched 4d4d5631-0001-4000-8000-000000000001
  handler 0 returned 0000000000000000
  reply 31564d4d01000040800000000000000108000000000000000800010000000000
";

/// Whether as many entries are served and reported as there may be.
fn are_served(alloc: Global) -> Result<bool, NoMemory> {
    let mut script = begun(
        alloc,
        b"lanes 1 4\nfill 0 31564d4d01000040800000000000000108000000000000000000000000000000\n",
    )?;
    put_many(&mut script, b"ring 0\nrun 0\n", 8_192)?;
    let mut report = begun(alloc, b"")?;
    put_lines(&mut report, alloc, (0, 1), b"entry ", FIRST_ENTRY)?;
    put_lines(&mut report, alloc, (1, 8_192), b"entry ", LATER_ENTRY)?;
    report.extend(
        b"lane 0 length 0000000000000020 status 0000000000000000 data 31564d4d01000040800000000000000108000000000000000800010000000000\n",
    )?;
    is_reported(alloc, script.as_slice(), report.as_slice())
}

#[test]
fn all_entries(rt: HostRuntime) -> Result<(), Fail> {
    assert!(rt; are_served(rt.alloc())?);
    Ok(())
}

/// Whether as many bytes of stores are read and made as a script may have: 10, 381,298 times 11, and 16.
fn are_stored(alloc: Global) -> Result<bool, NoMemory> {
    let mut script = begun(alloc, b"lanes 1 3\n")?;
    put_many(&mut script, b"poke 0 4 7\n", 381_298)?;
    script.extend(b"poke 0 4 fedcba\n")?;
    let whole = script.len() == 4_194_304;
    let reported = is_reported(
        alloc,
        script.as_slice(),
        b"lane 0 length 0000000000000000 status 0000000000000000 data 00000000000000000000000000000000badcfe0000000000\n",
    )?;
    Ok(whole && reported)
}

#[test]
fn all_bytes_of_stores(rt: HostRuntime) -> Result<(), Fail> {
    assert!(rt; are_stored(rt.alloc())?);
    Ok(())
}
