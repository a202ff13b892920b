//! Three drivers in two groups: the first and the third one, whose handlers are for one GUID and share port 70 (hexadecimal), and the second
//! one, with another GUID. What the first group is told and tells is the same whether the second driver does no harm or as much as it can.
//! What is expected was worked out by hand from the formats.
use crate::code::{HANDLER, NAMED_1, NAMED_2, REGISTERS};
use memory_runs::served;
use mm_base::{List, NoMemory};
use mm_run::Status;
use sample_volumes::{Contents, Driver, Layout, POLICY_NAME, Part, Section, TRUE, volume_with};
use std::alloc::Global;
use std::test::Fail;

/// A policy that gives 1,000 of fuel, and three rules: the first driver may write port 70, the third one may read it, and the second one may
/// read and write port 72 (all hexadecimal).
const RULES: &[Part] = &[Part {
    name: POLICY_NAME,
    kind: 0x02,
    attributes: 0,
    off: 0,
    body: &[Layout {
        length: 140,
        pieces: &[
            (0, b"\x8c\0\0\x19MMSP\x01\0\0\0\x03\0\0\0\xe8\x03\0\0"),
            (
                20,
                b"\x02\0\x01\0\x02\0\0\0driver number 01\x70\0\0\0\0\0\0\0\x01",
            ),
            (
                60,
                b"\x02\0\x01\0\x01\0\0\0driver number 03\x70\0\0\0\0\0\0\0\x01",
            ),
            (
                100,
                b"\x02\0\x01\0\x03\0\0\0driver number 02\x72\0\0\0\0\0\0\0\x01",
            ),
        ],
    }],
}];

/// Writes the first byte of its message to port 70 (hexadecimal), and returns WARN_INTERRUPT_SOURCE_QUIESCED.
const WRITES_PORT: Section = (
    0x10,
    Contents::Image(
        336,
        &[
            NAMED_1,
            REGISTERS,
            // R1 = @R0(+32), the buffer; R2 = @R1; PUSH64 R2, the value
            (HANDLER, b"\x60\x81\x20\0\x20\x92\x6b\x02"),
            // R4 = 70; PUSH64 R4, the port; R5 = 1; PUSH64 R5, the width
            (HANDLER + 8, b"\x77\x34\x70\0\x6b\x04\x77\x35\x01\0\x6b\x05"),
            // R3 = R1(+4552); native call of service 13; R0 = R0(+24); R7 = 2000000000000001; RET
            (
                HANDLER + 20,
                b"\x60\x13\x39\x52\x03\x23\x60\0\x18\0\xf7\x37\x01\0\0\0\0\0\0\x20\x04\0",
            ),
        ],
    ),
);

/// Reads port 70 (hexadecimal) into the second 8 bytes of its buffer, and returns the status that it is answered.
const READS_PORT: Section = (
    0x10,
    Contents::Image(
        336,
        &[
            NAMED_1,
            REGISTERS,
            // R1 = @R0(+32), the buffer; R2 = R1(+8); PUSH64 R2, where the value goes
            (HANDLER, b"\x60\x81\x20\0\x60\x12\x08\0\x6b\x02"),
            // R2 = 70; PUSH64 R2, the port; R2 = 1; PUSH64 R2, the width
            (
                HANDLER + 10,
                b"\x77\x32\x70\0\x6b\x02\x77\x32\x01\0\x6b\x02",
            ),
            // R3 = R1(+4536); native call of service 12; R0 = R0(+24); RET
            (HANDLER + 22, b"\x60\x13\x37\x52\x03\x23\x60\0\x18\0\x04\0"),
        ],
    ),
);

/// Does no harm: RET, with a result of 0.
const RETURNS: Section = (
    0x10,
    Contents::Image(336, &[NAMED_2, REGISTERS, (HANDLER, b"\x04\0")]),
);

/// Is denied all that it asks for: the first group's port, a model-specific register, and at last the first image's buffer.
const IS_DENIED: Section = (
    0x10,
    Contents::Image(
        336,
        &[
            NAMED_2,
            REGISTERS,
            // R1 = @R0(+32), the buffer; PUSH64 R1; R4 = 70; PUSH64 R4; R5 = 1; PUSH64 R5
            (
                HANDLER,
                b"\x60\x81\x20\0\x6b\x01\x77\x34\x70\0\x6b\x04\x77\x35\x01\0\x6b\x05",
            ),
            // R3 = R1(+4536); native call of service 12; R3 = R3(+16); native call of service 13; R3 = R3(+32); native call of service 15
            (
                HANDLER + 18,
                b"\x60\x13\x37\x52\x03\x23\x60\x33\x10\0\x03\x23\x60\x33\x20\0\x03\x23",
            ),
            // R4 = 80005008 (hexadecimal); @R4 = R4
            (HANDLER + 36, b"\xb7\x24\x08\x50\0\x80\x20\x4c"),
        ],
    ),
);

/// Writes 1 to its own port, and then jumps to itself until its fuel is used up.
const SPENDS_ALL: Section = (
    0x10,
    Contents::Image(
        336,
        &[
            NAMED_2,
            REGISTERS,
            // R1 = @R0(+32), the buffer; R5 = 1; PUSH64 R5, the value
            (HANDLER, b"\x60\x81\x20\0\x77\x35\x01\0\x6b\x05"),
            // R4 = 72; PUSH64 R4, the port; PUSH64 R5, the width; R3 = R1(+4552); native call of service 13; JMP8 to itself
            (
                HANDLER + 10,
                b"\x77\x34\x72\0\x6b\x04\x6b\x05\x60\x13\x39\x52\x03\x23\x02\xff",
            ),
        ],
    ),
);

/// Asks for blocks of 4,096 bytes of its pool until there are no more, the address of each in its buffer, and returns what it is answered then.
const FILLS_POOL: Section = (
    0x10,
    Contents::Image(
        336,
        &[
            NAMED_2,
            REGISTERS,
            // R1 = @R0(+32), the buffer; R3 = R1(+4344), service 0; R2 = 4096
            (HANDLER, b"\x60\x81\x20\0\x60\x13\x1f\x52\x77\x32\0\x10"),
            // PUSH64 R1; PUSH64 R2; native call; R0 = R0(+16); is R7 what R5 is, 0? if so, JMP8 to the first PUSH64; RET
            (
                HANDLER + 12,
                b"\x6b\x01\x6b\x02\x03\x23\x60\0\x10\0\x45\x57\xc2\xf9\x04\0",
            ),
        ],
    ),
);

/// Two entries to either group, whose loads and turns are mixed.
const SCRIPT: &[u8] = b"lanes 2 5
fill 0 111111112222333344445555555555551000000000000000\
2a000000000000000000000000000000
fill 1 2222222233334444555566666666666608000000000000000102030405060708
ring 1
ring 0
step 1 2
step 0 3
run 1
run 0
fill 0 111111112222333344445555555555551000000000000000\
3b000000000000000000000000000000
ring 0
ring 1
step 0 4
run 1
run 0
";

/// What is told of the boot. The first image and the third one share a GUID, and one of them may write what the other one may read.
const BOOTED: &[u8] = b"policy rules 3 fuel 1000
start 76697264-7265-6e20-756d-626572203031 round 1 returned 0000000000000000
start 76697264-7265-6e20-756d-626572203032 round 1 returned 0000000000000000
start 76697264-7265-6e20-756d-626572203033 round 1 returned 0000000000000000
locked images 3 handlers 3 protocols 0
image 0 76697264-7265-6e20-756d-626572203031 open
image 1 76697264-7265-6e20-756d-626572203032 closed
image 2 76697264-7265-6e20-756d-626572203033 open
";

/// The lines of the first group's first entry.
const FIRST_ENTRY: &[u8] = b"entry 1 lane 0 loads 6 status 0000000000000000
  request 0000000000000028 1111111122223333444455555555555510000000000000002a000000000000000000000000000000
  dispatched 11111111-2222-3333-4444-555555555555
  handler 0 returned 2000000000000001
    write io 0000000000000070 1 000000000000002a
  handler 2 returned 0000000000000000
  reply 1111111122223333444455555555555510000000000000002a000000000000002a00000000000000
";

/// Those of its second one, and of its lane.
const SECOND_ENTRY: &[u8] = b"entry 3 lane 0 loads 6 status 0000000000000000
  request 0000000000000028 1111111122223333444455555555555510000000000000003b000000000000000000000000000000
  dispatched 11111111-2222-3333-4444-555555555555
  handler 0 returned 2000000000000001
    write io 0000000000000070 1 000000000000003b
  handler 2 returned 0000000000000000
  reply 1111111122223333444455555555555510000000000000003b000000000000003b00000000000000
lane 0 length 0000000000000028 status 0000000000000000 data \
1111111122223333444455555555555510000000000000003b000000000000003b00000000000000
";

/// The first group's drivers.
const FIRST: Driver = (b"driver number 01", &[TRUE, WRITES_PORT]);

const THIRD: Driver = (b"driver number 03", &[TRUE, READS_PORT]);

/// The drivers, of which the second one differs, and the lines of its group: those of its two entries and of its lane.
struct Neighbour {
    name: &'static str,
    drivers: &'static [Driver],
    first: &'static [u8],
    second: &'static [u8],
    lane: &'static [u8],
}

const NEIGHBOURS: &[Neighbour] = &[
    Neighbour {
        name: "does no harm",
        drivers: &[FIRST, (b"driver number 02", &[TRUE, RETURNS]), THIRD],
        first: b"entry 0 lane 1 loads 5 status 0000000000000000
  request 0000000000000020 2222222233334444555566666666666608000000000000000102030405060708
  dispatched 22222222-3333-4444-5555-666666666666
  handler 1 returned 0000000000000000
  reply 2222222233334444555566666666666608000000000000000102030405060708
",
        second: b"entry 2 lane 1 loads 5 status 0000000000000000
  request 0000000000000020 2222222233334444555566666666666608000000000000000102030405060708
  dispatched 22222222-3333-4444-5555-666666666666
  handler 1 returned 0000000000000000
  reply 2222222233334444555566666666666608000000000000000102030405060708
",
        lane: b"lane 1 length 0000000000000020 status 0000000000000000 data \
22222222333344445555666666666666080000000000000001020304050607080000000000000000
",
    },
    Neighbour {
        name: "is denied all",
        drivers: &[FIRST, (b"driver number 02", &[TRUE, IS_DENIED]), THIRD],
        first: b"entry 0 lane 1 loads 5 status 800000000000000e
  request 0000000000000020 2222222233334444555566666666666608000000000000000102030405060708
  dispatched 22222222-3333-4444-5555-666666666666
  handler 1 denied mmram at 0000000080005008
    deny io read 0000000000000070 1 norule
    deny io write 0000000000000070 1 norule
    deny msr write 0000000000000001 1 norule
    deny mem write 0000000080005008 8 mmram
  reply 2222222233334444555566666666666608000000000000000102030405060708
",
        second: b"entry 2 lane 1 loads 5 status 800000000000000e
  request 0000000000000020 2222222233334444555566666666666608000000000000000102030405060708
  dispatched 22222222-3333-4444-5555-666666666666
  handler 1 denied mmram at 0000000080005008
    deny io read 0000000000000070 1 norule
    deny io write 0000000000000070 1 norule
    deny msr write 0000000000000001 1 norule
    deny mem write 0000000080005008 8 mmram
  reply 2222222233334444555566666666666608000000000000000102030405060708
",
        lane: b"lane 1 length 0000000000000020 status 800000000000000e data \
22222222333344445555666666666666080000000000000001020304050607080000000000000000
",
    },
    // The jump stands 24 bytes after the handler's begin.
    Neighbour {
        name: "spends all fuel",
        drivers: &[FIRST, (b"driver number 02", &[TRUE, SPENDS_ALL]), THIRD],
        first: b"entry 0 lane 1 loads 5 status 800000000000000e
  request 0000000000000020 2222222233334444555566666666666608000000000000000102030405060708
  dispatched 22222222-3333-4444-5555-666666666666
  handler 1 fuel at 000000008002713a
    write io 0000000000000072 1 0000000000000001
  reply 2222222233334444555566666666666608000000000000000102030405060708
",
        second: b"entry 2 lane 1 loads 5 status 800000000000000e
  request 0000000000000020 2222222233334444555566666666666608000000000000000102030405060708
  dispatched 22222222-3333-4444-5555-666666666666
  handler 1 fuel at 000000008002713a
    write io 0000000000000072 1 0000000000000001
  reply 2222222233334444555566666666666608000000000000000102030405060708
",
        lane: b"lane 1 length 0000000000000020 status 800000000000000e data \
22222222333344445555666666666666080000000000000001020304050607080000000000000000
",
    },
    // Its pool begins at 8002E000 (hexadecimal), and the sixteenth block is the last one. The second entry gets none.
    Neighbour {
        name: "fills its pool",
        drivers: &[FIRST, (b"driver number 02", &[TRUE, FILLS_POOL]), THIRD],
        first: b"entry 0 lane 1 loads 5 status 800000000000000e
  request 0000000000000020 2222222233334444555566666666666608000000000000000102030405060708
  dispatched 22222222-3333-4444-5555-666666666666
  handler 1 returned 8000000000000009
  reply 22222222333344445555666666666666080000000000000000d0038000000000
",
        second: b"entry 2 lane 1 loads 5 status 800000000000000e
  request 0000000000000020 22222222333344445555666666666666080000000000000000d0038000000000
  dispatched 22222222-3333-4444-5555-666666666666
  handler 1 returned 8000000000000009
  reply 22222222333344445555666666666666080000000000000000d0038000000000
",
        lane: b"lane 1 length 0000000000000020 status 800000000000000e data \
22222222333344445555666666666666080000000000000000d00380000000000000000000000000
",
    },
];

/// Whether the script is served so beside this driver, where the report is looked at from the policy's line on. The first group's lines are the
/// same beside each.
fn is_as_said(alloc: Global, neighbour: &Neighbour) -> Result<bool, NoMemory> {
    let mut said = List::from_slice(alloc, BOOTED)?;
    said.extend(neighbour.first)?;
    said.extend(FIRST_ENTRY)?;
    said.extend(neighbour.second)?;
    said.extend(SECOND_ENTRY)?;
    said.extend(neighbour.lane)?;
    let volume = volume_with(alloc, RULES, neighbour.drivers, &[])?;
    let end = served(alloc, volume.as_slice(), SCRIPT, &[])?;
    Ok(end.status == Status::Done && end.world && end.written.as_slice().ends_with(said.as_slice()))
}

/// The first of these neighbours beside which something else is told.
fn first_wrong(alloc: Global) -> Result<Option<&'static str>, NoMemory> {
    for neighbour in NEIGHBOURS {
        if !is_as_said(alloc, neighbour)? {
            return Ok(Some(neighbour.name));
        }
    }
    Ok(None)
}

#[test]
fn a_group_is_served_alike_beside_each_neighbour(rt: HostRuntime) -> Result<(), Fail> {
    assert_eq!(rt; first_wrong(rt.alloc())?, None);
    Ok(())
}
