//! Whole runs over sources and sinks in memory. What is expected was worked out by hand from the definitions.
use crate::running::{SCRIPT, refuses, reports};
use memory_runs::{many, ran, ran_over, sink, source};
use mm_base::{List, NoMemory, TextKind};
use mm_io::FileSource;
use mm_run::{Status, Which};
use std::alloc::Global;
use std::test::Fail;

const VERSION_SCRIPT: &[u8] =
    b"lanes 1 4\nfill 0 31564d4d01000040800000000000000108000000000000000000000000000000\nring 0\nrun 0\n";

const VERSION_REPORT: &[u8] =
    b"entry 0 lane 0 loads 5 status 0000000000000000\n  request 0000000000000020 31564d4d01000040800000000000000108000000000000000000000000000000\n  dispatched 4d4d5631-0001-4000-8000-000000000001\n  handler 0 returned 0000000000000000\n  reply 31564d4d01000040800000000000000108000000000000000800010000000000\nlane 0 length 0000000000000020 status 0000000000000000 data 31564d4d01000040800000000000000108000000000000000800010000000000\n";

#[test]
fn a_version_request(rt: HostRuntime) -> Result<(), Fail> {
    reports(&rt, rt.alloc(), VERSION_SCRIPT, VERSION_REPORT)?;
    Ok(())
}

/// The handler refuses a message of no bytes, and the header comes back.
#[test]
fn a_message_of_no_bytes(rt: HostRuntime) -> Result<(), Fail> {
    reports(
        &rt,
        rt.alloc(),
        b"lanes 1 4\nfill 0 31564d4d0100004080000000000000010000000000000000\nring 0\nrun 0\n",
        b"entry 0 lane 0 loads 4 status 800000000000000e
  request 0000000000000018 31564d4d0100004080000000000000010000000000000000
  dispatched 4d4d5631-0001-4000-8000-000000000001
  handler 0 returned 8000000000000002
  reply 31564d4d0100004080000000000000010000000000000000
lane 0 length 0000000000000018 status 800000000000000e data 31564d4d01000040800000000000000100000000000000000000000000000000
",
    )?;
    Ok(())
}

#[test]
fn a_header_that_tells_more_than_there_is(rt: HostRuntime) -> Result<(), Fail> {
    reports(
        &rt,
        rt.alloc(),
        b"lanes 1 4\nfill 0 31564d4d010000408000000000000001ffffffffffffffff\nring 0\nrun 0\n",
        b"entry 0 lane 0 loads 4 status 8000000000000002
  request 0000000000000018 31564d4d010000408000000000000001ffffffffffffffff
  refused header
  reply -
lane 0 length 0000000000000018 status 8000000000000002 data 31564d4d010000408000000000000001ffffffffffffffff0000000000000000
",
    )?;
    Ok(())
}

#[test]
fn a_length_that_stays_0(rt: HostRuntime) -> Result<(), Fail> {
    reports(
        &rt,
        rt.alloc(),
        b"lanes 1 4\nring 0\nrun 0\n",
        b"entry 0 lane 0 loads 1 status 8000000000000002
  request 0000000000000000 -
  refused length
  reply -
lane 0 length 0000000000000000 status 8000000000000002 data 0000000000000000000000000000000000000000000000000000000000000000
",
    )?;
    Ok(())
}

/// The length is captured once: what is stored behind its load does nothing.
#[test]
fn a_length_that_is_stored_to(rt: HostRuntime) -> Result<(), Fail> {
    reports(
        &rt,
        rt.alloc(),
        b"lanes 1 4
fill 0 31564d4d01000040800000000000000108000000000000000000000000000000
ring 0
step 0
poke 0 0 18
run 0
",
        VERSION_REPORT,
    )?;
    Ok(())
}

/// A length of one byte less than a header is refused by its one load, and stays in the lane.
#[test]
fn a_length_below_a_header(rt: HostRuntime) -> Result<(), Fail> {
    reports(
        &rt,
        rt.alloc(),
        b"lanes 1 4
poke 0 0 17
ring 0
run 0
",
        b"entry 0 lane 0 loads 1 status 8000000000000002
  request 0000000000000017 -
  refused length
  reply -
lane 0 length 0000000000000017 status 8000000000000002 data 0000000000000000000000000000000000000000000000000000000000000000
",
    )?;
    Ok(())
}

/// A ring away from rest is no entry.
#[test]
fn a_second_ring(rt: HostRuntime) -> Result<(), Fail> {
    reports(
        &rt,
        rt.alloc(),
        b"lanes 1 4
fill 0 31564d4d01000040800000000000000108000000000000000000000000000000
ring 0
step 0
ring 0
run 0
",
        VERSION_REPORT,
    )?;
    Ok(())
}

/// A storm of stores before and behind each load: the request that was captured never stood in the lane as a whole.
#[test]
fn a_storm(rt: HostRuntime) -> Result<(), Fail> {
    reports(
        &rt,
        rt.alloc(),
        b"lanes 1 4
poke 0 0 ffffffffffffffff
poke 0 4 ffffffffffffffff
poke 0 1 5
poke 0 0 20
ring 0
step 0
poke 0 0 17
poke 0 2 400000014d4d5631
step 0
poke 0 2 ffffffffffffffff
poke 0 0 18
poke 0 5 1
poke 0 3 0100000000000080
step 0
poke 0 3 0
poke 0 2 1
poke 0 4 8
step 0
poke 0 4 9
poke 0 0 0
poke 0 5 1122334455667788
step 0
poke 0 5 2
poke 0 4 7
step 0
poke 0 2 3
poke 0 3 4
step 0
poke 0 2 ffffffffffffffff
run 0
",
        b"entry 0 lane 0 loads 5 status 0000000000000000
  request 0000000000000020 31564d4d01000040800000000000000108000000000000008877665544332211
  dispatched 4d4d5631-0001-4000-8000-000000000001
  handler 0 returned 0000000000000000
  reply 31564d4d01000040800000000000000108000000000000000800010000000000
lane 0 length 0000000000000020 status 0000000000000000 data ffffffffffffffff800000000000000108000000000000000800010000000000
",
    )?;
    Ok(())
}

/// An entry whose turn came is printed, also where none of its stores is made.
#[test]
fn an_entry_without_its_stores(rt: HostRuntime) -> Result<(), Fail> {
    reports(
        &rt,
        rt.alloc(),
        b"lanes 1 4
fill 0 31564d4d01000040800000000000000108000000000000000000000000000000
ring 0
step 0 6
",
        b"entry 0 lane 0 loads 5 status 0000000000000000
  request 0000000000000020 31564d4d01000040800000000000000108000000000000000000000000000000
  dispatched 4d4d5631-0001-4000-8000-000000000001
  handler 0 returned 0000000000000000
  reply 31564d4d01000040800000000000000108000000000000000800010000000000
lane 0 length 0000000000000020 status 0000000000000000 data 31564d4d01000040800000000000000108000000000000000000000000000000
",
    )?;
    Ok(())
}

/// A ring whose turn did not come is no entry.
#[test]
fn a_ring_without_its_turn(rt: HostRuntime) -> Result<(), Fail> {
    reports(
        &rt,
        rt.alloc(),
        b"lanes 1 4
fill 0 31564d4d01000040800000000000000108000000000000000000000000000000
ring 0
step 0 5
",
        b"lane 0 length 0000000000000020 status 0000000000000000 data 31564d4d01000040800000000000000108000000000000000000000000000000
",
    )?;
    Ok(())
}

/// So many actions as no ring needs are as good as a run.
#[test]
fn as_many_steps_as_a_run(rt: HostRuntime) -> Result<(), Fail> {
    reports(
        &rt,
        rt.alloc(),
        b"lanes 1 4
fill 0 31564d4d01000040800000000000000108000000000000000000000000000000
ring 0
step 0 2048
",
        VERSION_REPORT,
    )?;
    Ok(())
}

#[test]
fn faults_have_their_causes(rt: HostRuntime) -> Result<(), Fail> {
    let alloc = rt.alloc();
    refuses(&rt, alloc, &[], VERSION_SCRIPT, &[], Status::Usage)?;
    refuses(
        &rt,
        alloc,
        SCRIPT,
        b"# a lane\nlanes 1 4\nring 1",
        &[],
        Status::BadText {
            line: 3,
            kind: TextKind::Range,
        },
    )?;
    refuses(
        &rt,
        alloc,
        SCRIPT,
        VERSION_SCRIPT,
        &[0],
        Status::ReadFault(Which::First),
    )?;
    let long = many(alloc, 4_194_305, b'#')?;
    refuses(
        &rt,
        alloc,
        SCRIPT,
        long.as_slice(),
        &[],
        Status::TooLong(Which::First),
    )?;
    Ok(())
}

/// Command lines that are no form.
const NO_FORMS: &[&[&str]] = &[
    &[],
    &["script"],
    &["script", "S", "more"],
    &["Script", "S"],
    &["script ", "S"],
    &["check"],
    &["check", "V", "more"],
    &["Check", "V"],
    &["chec", "V"],
    &["boot"],
    &["boot", "V", "more"],
    &["Boot", "V"],
    &["serve"],
    &["serve", "V"],
    &["serve", "V", "S", "more"],
    &["Serve", "V", "S"],
    &["V"],
    &["", ""],
];

/// Whether a run of these words is refused for them: nothing is read of the source, whose first read would fail, and nothing is
/// written.
fn is_no_form(alloc: Global, words: &[&str]) -> Result<bool, NoMemory> {
    let first = source(alloc, VERSION_SCRIPT, &[0])?;
    let out = sink(alloc, 4_096, &[])?;
    let end = ran(alloc, words, first, out)?;
    Ok(end.is(Status::Usage, false, b"") && end.faults == 0)
}

/// How many of these command lines are refused for their words.
fn refused_forms(alloc: Global) -> Result<usize, NoMemory> {
    let mut count: usize = 0;
    for words in NO_FORMS {
        if is_no_form(alloc, words)? {
            count = count.wrapping_add(1);
        }
    }
    Ok(count)
}

#[test]
fn words_that_are_no_form(rt: HostRuntime) -> Result<(), Fail> {
    assert_eq!(rt; refused_forms(rt.alloc())?, NO_FORMS.len());
    Ok(())
}

/// Lines that say nothing, up to the most bytes that a script may have.
#[test]
fn a_script_of_all_bytes(rt: HostRuntime) -> Result<(), Fail> {
    let alloc = rt.alloc();
    let mut script = many(alloc, 4_194_304 - VERSION_SCRIPT.len(), b'\n')?;
    script.extend(VERSION_SCRIPT)?;
    reports(&rt, alloc, script.as_slice(), VERSION_REPORT)?;
    Ok(())
}

#[test]
fn a_front_is_written(rt: HostRuntime) -> Result<(), Fail> {
    let alloc = rt.alloc();
    let first = source(alloc, VERSION_SCRIPT, &[])?;
    let out = sink(alloc, 16, &[1])?;
    let end = ran(alloc, SCRIPT, first, out)?;
    assert_eq!(rt; (end.status, end.world), (Status::WriteFault, true));
    assert_eq!(rt; end.written.as_slice(), b"entry 0 lane 0 l".as_slice());
    Ok(())
}

#[test]
fn a_file_that_is_not_there(rt: HostRuntime) -> Result<(), Fail> {
    let alloc = rt.alloc();
    let first = FileSource::named(&rt, "version.script");
    let second = FileSource::named(&rt, "");
    let out = sink(alloc, 16, &[])?;
    let end = ran_over(alloc, SCRIPT, first, second, out)?;
    assert_eq!(rt; end.status, Status::ReadFault(Which::First));
    assert_eq!(rt; end.written.len(), 0);
    Ok(())
}
