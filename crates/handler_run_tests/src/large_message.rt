//! A handler that moves all bytes of the largest message. What is expected was worked out by hand from the formats.
use crate::code::{HANDLER, NAMED, REGISTERS};
use memory_runs::{SERVE, ran_over, sink_of, source};
use mm_base::{Bytes, List, NoMemory};
use mm_run::Status;
use sample_volumes::{Contents, Driver, TRUE, volume_with};
use std::alloc::Global;
use std::test::Fail;

/// Turns the order of the 509 words of its message round, and each bit of them: from both ends on to the word in the middle, which changes
/// places with itself.
const DRIVERS: &[Driver] = &[(
    b"driver number 01",
    &[
        TRUE,
        (
            0x10,
            Contents::Image(
                336,
                &[
                    NAMED,
                    REGISTERS,
                    // R1 = @R0(+32), the first word; R5 = R1(+4064), the last one
                    (HANDLER, b"\x60\x81\x20\0\x60\x15\xe0\x0f"),
                    // R2 = @R1; R3 = @R5; R2 = not R2; R3 = not R3; @R1 = R3; @R5 = R2
                    (
                        HANDLER + 8,
                        b"\x20\x92\x20\xd3\x4a\x22\x4a\x33\x20\x39\x20\x2d",
                    ),
                    // R1 = R1(+8); R5 = R5(-8); is R1 at most R5? if so, JMP8 to R2 = @R1; RET
                    (
                        HANDLER + 20,
                        b"\x60\x11\x08\0\x60\x55\x08\x80\x48\x51\xc2\xf4\x04\0",
                    ),
                ],
            ),
        ),
    ],
)];

/// A header for 4,072 bytes of message.
const HEADER: &[u8] = b"11111111222233334444555555555555e80f000000000000";

/// How many words the message has.
const WORDS: u64 = 509;

/// The first word of the message as a number, and what stands in its place in the reply: that of the last one, which is 508 more, with
/// each bit turned round.
const FIRST: u64 = 0x0123_4567_89ab_0000;

const FIRST_TURNED: u64 = 0xfedc_ba98_7654_fe03;

/// Puts the digits of a number at a text's end, those of its lowest byte first.
fn put_word(text: &mut Bytes, alloc: Global, word: u64) -> Result<(), NoMemory> {
    let turned = word.swap_bytes();
    let digits = format!(in alloc; "{turned:016x}")?;
    text.extend(digits.as_bytes())
}

/// Puts as many words as the message has at a text's end, the first of which is this number, and each next one 1 more.
fn put_words(text: &mut Bytes, alloc: Global, first: u64) -> Result<(), NoMemory> {
    for number in 0..WORDS {
        put_word(text, alloc, first.wrapping_add(number))?;
    }
    Ok(())
}

/// Puts the bytes of the request at a text's end.
fn put_request(text: &mut Bytes, alloc: Global) -> Result<(), NoMemory> {
    text.extend(HEADER)?;
    put_words(text, alloc, FIRST)
}

/// Puts the bytes of the reply at a text's end.
fn put_reply(text: &mut Bytes, alloc: Global) -> Result<(), NoMemory> {
    text.extend(HEADER)?;
    put_words(text, alloc, FIRST_TURNED)
}

/// One entry with that message.
fn script_of(alloc: Global) -> Result<Bytes, NoMemory> {
    let mut script = List::from_slice(alloc, b"lanes 1 512\nfill 0 ")?;
    put_request(&mut script, alloc)?;
    script.extend(b"\nring 0\nrun 0\n")?;
    Ok(script)
}

/// The report from the entry on.
fn report_of(alloc: Global) -> Result<Bytes, NoMemory> {
    let mut report = List::from_slice(
        alloc,
        b"entry 0 lane 0 loads 513 status 0000000000000000\n  request 0000000000001000 ",
    )?;
    put_request(&mut report, alloc)?;
    report.extend(
        b"\n  dispatched 11111111-2222-3333-4444-555555555555\n  handler 0 returned 0000000000000000\n  reply ",
    )?;
    put_reply(&mut report, alloc)?;
    report.extend(b"\nlane 0 length 0000000000001000 status 0000000000000000 data ")?;
    put_reply(&mut report, alloc)?;
    report.extend(b"\n")?;
    Ok(report)
}

/// Whether that entry is served so.
fn is_turned_round(alloc: Global) -> Result<bool, NoMemory> {
    let volume = volume_with(alloc, &[], DRIVERS, &[])?;
    let script = script_of(alloc)?;
    let report = report_of(alloc)?;
    let first = source(alloc, volume.as_slice(), &[])?;
    let second = source(alloc, script.as_slice(), &[])?;
    let out = sink_of(alloc, 32_768)?;
    let end = ran_over(alloc, SERVE, first, second, out)?;
    Ok(
        end.status == Status::Done
            && end.world
            && end.written.as_slice().ends_with(report.as_slice()),
    )
}

#[test]
fn moves_each_byte_of_the_largest_message(rt: HostRuntime) -> Result<(), Fail> {
    assert!(rt; is_turned_round(rt.alloc())?);
    Ok(())
}
