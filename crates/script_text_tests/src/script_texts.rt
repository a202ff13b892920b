//! Texts that are read, and texts that are refused. What is expected was worked out by hand from the rules of the text.
use comm_core::{Event, Script};
use mm_base::{CellWrite, Guid, Handler, HandlerBody, Kind, NoMemory, Saved, TextKind};
use mm_text::{TextEnd, TextFault, read_script};
use std::alloc::Global;
use std::test::Fail;

/// The most bytes that the reader takes.
const MOST_BYTES: usize = 16_777_216;

/// Texts with the number of the line that is refused.
type Table = &'static [(&'static [u8], u32)];

const UNKNOWN: Table = &[
    (b"foo\n", 1),
    (b"Lanes 1 4\n", 1),
    (b"lanes\t1 4\n", 1),
    (b"\xef\xbb\xbflanes 1 4\n", 1),
    (b"\0\n", 1),
    (b"\xff\xfe", 1),
    (b"\r\nlanes 1 4\n", 1),
    (b"lanes 1 4\n\tring 0\n", 2),
    (b"lanes 1 4\nrings 0\n", 2),
    (b"lanes 1 4\nrin 0\n", 2),
    (b"lanes 1 4\nring#0\n", 2),
    (b"lanes 1 4\nfoo", 2),
    (b"lanes 1 4\n\n# a\n  foo ring 9\nring 9\n", 4),
];

/// Lines that only a text with handlers knows, in one without.
const NO_HANDLERS: Table = &[
    (b"handler root 0\n", 1),
    (b"lanes 1 4\nhandler root 0\n", 2),
    (b"lanes 1 4\nring 0\nhandler\n", 3),
];

const ORDER: Table = &[
    (b"ring 0\n", 1),
    (b"ring\n", 1),
    (b"poke 0 2 1\n", 1),
    (b"fill 0 00\n", 1),
    (b"step 0\n", 1),
    (b"step 0 x\n", 1),
    (b"run 0\n", 1),
    (b"cell io 1 1\n", 1),
    (b"cell\n", 1),
    (b"handler root 0\n", 1),
    (b"# a\n\nrun 0\nlanes 1 4\n", 3),
    (b"lanes 1 4\nlanes 1 4\n", 2),
    (b"lanes 1 4\nrun 0\nlanes\n", 3),
    (b"lanes 1 4\nring 0\ncell io 1 1\n", 3),
    (b"lanes 1 4\nstep 0\ncell io 1 1\n", 3),
    (b"lanes 1 4\npoke 0 2 1\nhandler root 0\n", 3),
    (b"lanes 1 4\nfill 0 00\nhandler\n", 3),
    (b"lanes 1 4\nrun 0\ncell mem 0 0\n", 3),
];

const WORDS: Table = &[
    (b"lanes\n", 1),
    (b"lanes 1\n", 1),
    (b"lanes 1 4 5\n", 1),
    (b"lanes x\n", 1),
    (b"lanes 1 4 # a\n", 1),
    (b"lanes 1 4\ncell\n", 2),
    (b"lanes 1 4\ncell io 1\n", 2),
    (b"lanes 1 4\ncell io 1 1 1\n", 2),
    (b"lanes 1 4\ncell mem fe000000 0\n", 2),
    (b"lanes 1 4\ncell IO 1 1\n", 2),
    (b"lanes 1 4\ncell mem x y\n", 2),
    (b"lanes 1 4\nhandler\n", 2),
    (b"lanes 1 4\nhandler root\n", 2),
    (b"lanes 1 4\nhandler root 0 0\n", 2),
    (b"lanes 1 4\npoke 0 2\n", 2),
    (b"lanes 1 4\npoke 0 2 1 1\n", 2),
    (b"lanes 1 4\nfill 0\n", 2),
    (b"lanes 1 4\nfill 0 00 00\n", 2),
    (b"lanes 1 4\nring\n", 2),
    (b"lanes 1 4\nring 0 5\n", 2),
    (b"lanes 1 4\nring 0 #\n", 2),
    (b"lanes 1 4\nring x 5\n", 2),
    (b"lanes 1 4\nring 0 19=1 =x 5\n", 2),
    (b"lanes 1 4\nstep\n", 2),
    (b"lanes 1 4\nstep 0 1 1\n", 2),
    (b"lanes 1 4\nrun\n", 2),
    (b"lanes 1 4\nrun 0 0\n", 2),
];

const NUMBER: Table = &[
    (b"lanes a 4\n", 1),
    (b"lanes 1 0x4\n", 1),
    (b"lanes 1 4\r\n", 1),
    (b"lanes 1 4\0\n", 1),
    (b"lanes +1 4\n", 1),
    (b"lanes -1 4\n", 1),
    (b"lanes 17 00000000004\n", 1),
    (b"lanes 1 4\ncell io 0x70 1\n", 2),
    (b"lanes 1 4\ncell msr 00000000000000001 0\n", 2),
    (b"lanes 1 4\ncell dev 0 g\n", 2),
    (b"lanes 1 4\nhandler ROOT 0\n", 2),
    (b"lanes 1 4\nhandler 1234 0\n", 2),
    (b"lanes 1 4\nhandler \xff 0\n", 2),
    (b"lanes 1 4\nhandler root x\n", 2),
    (b"lanes 1 4\npoke 0 a 1\n", 2),
    (b"lanes 1 4\npoke 9 2 x\n", 2),
    (b"lanes 1 4\npoke 0 2 00000000000000001\n", 2),
    (b"lanes 1 4\nfill 0 0\n", 2),
    (b"lanes 1 4\nfill 0 0g\n", 2),
    (b"lanes 1 4\nfill x 00\n", 2),
    (b"lanes 1 4\nring x\n", 2),
    (b"lanes 1 4\nring 0 1=2=3\n", 2),
    (b"lanes 1 4\nring 0 =\n", 2),
    (b"lanes 1 4\nring 0 0=\n", 2),
    (b"lanes 1 4\nring 0 =1\n", 2),
    (b"lanes 1 4\nring 0 19=1 1=x\n", 2),
    (b"lanes 1 4\nring 0 a=1\n", 2),
    (b"lanes 1 4\nstep x\n", 2),
    (b"lanes 1 4\nstep 0 x\n", 2),
    (b"lanes 1 4\nstep 0 00000000001\n", 2),
    (b"lanes 1 4\nrun x\n", 2),
    (b"lanes 1 4\nrun 0\t\n", 2),
];

const RANGE: Table = &[
    (b"lanes 0 4\n", 1),
    (b"lanes 17 4\n", 1),
    (b"lanes 1 2\n", 1),
    (b"lanes 1 513\n", 1),
    (b"lanes 4294967297 4\n", 1),
    (b"lanes 1 4294967300\n", 1),
    (b"lanes 1 4\ncell io 70 100\n", 2),
    (b"lanes 1 4\ncell io 10000 0\n", 2),
    (b"lanes 1 4\ncell msr 2000 0\n", 2),
    (b"lanes 1 4\ncell msr bfffffff 0\n", 2),
    (b"lanes 1 4\ncell msr c0002000 0\n", 2),
    (b"lanes 1 4\ncell dev 10000 0\n", 2),
    (b"lanes 1 4\ncell dev 0 100\n", 2),
    (b"lanes 1 4\ncell dev ffffffffffffffff 0\n", 2),
    (b"lanes 1 4\npoke 0 6 1\n", 2),
    (b"lanes 1 4\npoke 1 0 0\n", 2),
    (b"lanes 1 4\npoke 4294967296 0 0\n", 2),
    (b"lanes 1 4\npoke 0 4294967296 0\n", 2),
    (b"lanes 1 4\nfill 1 00\n", 2),
    (
        b"lanes 1 4\nfill 0 000000000000000000000000000000000000000000000000000000000000000000\n",
        2,
    ),
    (b"lanes 1 4\nring 1\n", 2),
    (b"lanes 1 4\nring 0 19=1\n", 2),
    (b"lanes 1 4\nring 0 1=1 1=2\n", 2),
    (b"lanes 1 4\nring 0 18=1 0=0 2=0 018=1\n", 2),
    (b"lanes 1 4\nring 0 4294967296=1\n", 2),
    (b"lanes 1 4\nstep 1\n", 2),
    (b"lanes 1 4\nstep 0 0\n", 2),
    (b"lanes 1 4\nstep 0 2049\n", 2),
    (b"lanes 1 4\nstep 0 4294967297\n", 2),
    (b"lanes 1 4\nrun 1\n", 2),
    (b"# a\n\nlanes 2 4\n\n  # b\nring 2\nfoo\n", 6),
];

const MISSING: Table = &[
    (b"", 1),
    (b"\n\n", 1),
    (b"#", 1),
    (b"   ", 1),
    (b"# a\n\n   \n  # lanes 1 4\n#ring 0", 1),
];

/// A text in which each line and each form of spelling stands that is accepted.
const WHOLE: &[u8] =
    b"  # a script \xff\n\n   \n  lanes   02 4  \ncell io 70 ff\ncell msr C0000080 0000000000000001\ncell dev ffff A\nhandler 12345678-9ABC-def0-1122-334455667788 8000000000000003\n handler root 0\n#ring 9\n# \npoke 1 0000000005 DEADbeef\nfill 0 00FF0203040506070809\nring 1 0=1 18=ffffffffffffffff 007=00a\nring 0\nstep 1\nstep 1 02048\n\nrun 0";

const CELLS: &[CellWrite] = &[
    CellWrite {
        kind: Kind::Io,
        at: 0x70,
        n: 1,
        value: 0xff,
    },
    CellWrite {
        kind: Kind::Msr,
        at: 0xc000_0080,
        n: 1,
        value: 1,
    },
    CellWrite {
        kind: Kind::Memory,
        at: 0xfe00_ffff,
        n: 1,
        value: 10,
    },
];

const HANDLERS: &[Handler] = &[
    Handler {
        number: 1,
        guid: Some(Guid([
            0x78, 0x56, 0x34, 0x12, 0xbc, 0x9a, 0xf0, 0xde, 0x11, 0x22, 0x33, 0x44, 0x55, 0x66,
            0x77, 0x88,
        ])),
        body: HandlerBody::Stub(0x8000_0000_0000_0003),
    },
    Handler {
        number: 2,
        guid: None,
        body: HandlerBody::Stub(0),
    },
];

const EVENTS: &[Event] = &[
    Event::Poke {
        lane: 1,
        word: 5,
        value: 0xdead_beef,
    },
    Event::Poke {
        lane: 0,
        word: 2,
        value: 0x0706_0504_0302_ff00,
    },
    Event::Poke {
        lane: 0,
        word: 3,
        value: 0x0908,
    },
    Event::Poke {
        lane: 0,
        word: 0,
        value: 10,
    },
    Event::Ring {
        lane: 1,
        saved: Saved([
            1,
            0,
            0,
            0,
            0,
            0,
            0,
            10,
            0,
            0,
            0,
            0,
            0,
            0,
            0,
            0,
            0,
            0,
            0xffff_ffff_ffff_ffff,
        ]),
    },
    Event::Ring {
        lane: 0,
        saved: Saved::ZERO,
    },
    Event::Steps { lane: 1, count: 1 },
    Event::Steps {
        lane: 1,
        count: 2048,
    },
    Event::Run { lane: 0 },
];

/// The end of a text that is longer than any of these: no text has a line 0.
const NEVER: TextEnd = TextEnd::Fault(TextFault {
    line: 0,
    kind: TextKind::Missing,
});

fn read(alloc: Global, bytes: &[u8], handlers: bool) -> Result<Script, TextEnd> {
    if bytes.len() > MOST_BYTES {
        return Err(NEVER);
    }
    read_script(alloc, bytes, handlers)
}

fn is_refused(read: &Result<Script, TextEnd>, line: u32, kind: TextKind) -> bool {
    match read {
        Err(TextEnd::Fault(fault)) => fault.line == line && fault.kind == kind,
        _ => false,
    }
}

/// The place of the first text of a table that is not refused at its line for this kind.
fn first_wrong(alloc: Global, table: Table, handlers: bool, kind: TextKind) -> Option<usize> {
    for (place, (text, line)) in table.iter().enumerate() {
        if !is_refused(&read(alloc, text, handlers), *line, kind) {
            return Some(place);
        }
    }
    None
}

#[test]
fn refuses_unknown_lines(rt: HostRuntime) {
    assert_eq!(rt;
        first_wrong(rt.alloc(), UNKNOWN, true, TextKind::Unknown),
        None
    );
}

#[test]
fn refuses_handlers_where_none_stand(rt: HostRuntime) {
    assert_eq!(rt;
        first_wrong(rt.alloc(), NO_HANDLERS, false, TextKind::Unknown),
        None
    );
}

#[test]
fn refuses_lines_out_of_order(rt: HostRuntime) {
    assert_eq!(rt; first_wrong(rt.alloc(), ORDER, true, TextKind::Order), None);
}

#[test]
fn refuses_wrong_words(rt: HostRuntime) {
    assert_eq!(rt; first_wrong(rt.alloc(), WORDS, true, TextKind::Words), None);
}

#[test]
fn refuses_unreadable_numbers(rt: HostRuntime) {
    assert_eq!(rt;
        first_wrong(rt.alloc(), NUMBER, true, TextKind::Number),
        None
    );
}

#[test]
fn refuses_numbers_out_of_range(rt: HostRuntime) {
    assert_eq!(rt; first_wrong(rt.alloc(), RANGE, true, TextKind::Range), None);
}

#[test]
fn refuses_texts_without_lines(rt: HostRuntime) {
    assert_eq!(rt;
        first_wrong(rt.alloc(), MISSING, true, TextKind::Missing),
        None
    );
}

/// Whether this is the script of the whole text.
fn is_whole(script: &Script) -> bool {
    script.lanes == 2
        && script.words == 4
        && script.opening.cells.as_slice() == CELLS
        && script.handlers.as_slice() == HANDLERS
        && script.events.as_slice() == EVENTS
}

fn reads_whole(alloc: Global) -> bool {
    match read(alloc, WHOLE, true) {
        Ok(script) => is_whole(&script),
        Err(_) => false,
    }
}

#[test]
fn reads_each_line(rt: HostRuntime) {
    assert!(rt; reads_whole(rt.alloc()));
}

/// A first line, and so many times another one.
fn repeated(alloc: Global, first: &[u8], line: &[u8], count: usize) -> Result<Vec<u8>, NoMemory> {
    let mut text = Vec::new(alloc);
    text.extend_from_slice(first)?;
    for _ in 0..count {
        text.extend_from_slice(line)?;
    }
    Ok(text)
}

/// Whether as many stubs, rings and bytes of a fill as there may be are read.
fn reads_most(alloc: Global) -> Result<bool, NoMemory> {
    let stubs = repeated(alloc, b"lanes 16 512\n", b"handler root 1\n", 64)?;
    let rings = repeated(alloc, b"lanes 1 3\n", b"ring 0\n", 8_192)?;
    let bytes = repeated(alloc, b"lanes 16 512\nfill 15 ", b"0a", 4_096)?;
    Ok(
        has_stubs(&read(alloc, stubs.as_slice(), true))
            && has_rings(&read(alloc, rings.as_slice(), false))
            && has_fill(&read(alloc, bytes.as_slice(), false)),
    )
}

fn has_stubs(read: &Result<Script, TextEnd>) -> bool {
    let Ok(script) = read else {
        return false;
    };
    let last = Handler {
        number: 64,
        guid: None,
        body: HandlerBody::Stub(1),
    };
    script.lanes == 16
        && script.words == 512
        && script.handlers.len() == 64
        && script.handlers.as_slice().last() == Some(&last)
}

fn has_rings(read: &Result<Script, TextEnd>) -> bool {
    match read {
        Ok(script) => script.lanes == 1 && script.words == 3 && script.events.len() == 8_192,
        Err(_) => false,
    }
}

fn has_fill(read: &Result<Script, TextEnd>) -> bool {
    let Ok(script) = read else {
        return false;
    };
    let events = script.events.as_slice();
    let last_word = Event::Poke {
        lane: 15,
        word: 513,
        value: 0x0a0a_0a0a_0a0a_0a0a,
    };
    let length = Event::Poke {
        lane: 15,
        word: 0,
        value: 4_096,
    };
    events.len() == 513 && events.get(511) == Some(&last_word) && events.last() == Some(&length)
}

/// Whether one stub, ring or byte more than there may be is refused.
fn refuses_more(alloc: Global) -> Result<bool, NoMemory> {
    let stubs = repeated(alloc, b"lanes 16 512\n", b"handler root 1\n", 65)?;
    let rings = repeated(alloc, b"lanes 1 3\n", b"ring 0\n", 8_193)?;
    let bytes = repeated(alloc, b"lanes 16 512\nfill 15 ", b"0a", 4_097)?;
    Ok(
        is_refused(&read(alloc, stubs.as_slice(), true), 66, TextKind::Range)
            && is_refused(&read(alloc, rings.as_slice(), true), 8_194, TextKind::Range)
            && is_refused(&read(alloc, bytes.as_slice(), true), 2, TextKind::Range),
    )
}

#[test]
fn reads_limits(rt: HostRuntime) -> Result<(), Fail> {
    assert!(rt; reads_most(rt.alloc())?);
    Ok(())
}

#[test]
fn refuses_past_limits(rt: HostRuntime) -> Result<(), Fail> {
    assert!(rt; refuses_more(rt.alloc())?);
    Ok(())
}

/// Cells at the ends of their ranges.
const EDGES: &[u8] =
    b"lanes 1 3\ncell io ffff 0\ncell msr 1fff 1\ncell msr c0001fff 2\ncell dev 0 3\n";

/// The kind, the place and the value of each.
const EDGE_CELLS: [(Kind, u64, u64); 4] = [
    (Kind::Io, 0xffff, 0),
    (Kind::Msr, 0x1fff, 1),
    (Kind::Msr, 0xc000_1fff, 2),
    (Kind::Memory, 0xfe00_0000, 3),
];

/// One GUID in each form in which it may be written.
const FORMS: &[u8] =
    b"lanes 1 3\nhandler 12345678-9abc-def0-1122-334455667788 0\nhandler 123456789ABCDEF01122334455667788 0\nhandler {12345678-9abc-def0-1122-334455667788} 0\nhandler urn:uuid:12345678-9abc-def0-1122-334455667788 0\n";

const IN_EACH_FORM: Guid = Guid([
    0x78, 0x56, 0x34, 0x12, 0xbc, 0x9a, 0xf0, 0xde, 0x11, 0x22, 0x33, 0x44, 0x55, 0x66, 0x77, 0x88,
]);

fn has_edge_cells(script: &Script) -> bool {
    let cells = script.opening.cells.as_slice();
    cells.len() == EDGE_CELLS.len()
        && cells.iter().zip(EDGE_CELLS.iter()).all(|(cell, edge)| cell.kind == edge.0
            && cell.at == edge.1
            && cell.value == edge.2)
}

fn has_each_form(script: &Script) -> bool {
    let handlers = script.handlers.as_slice();
    handlers.len() == 4
        && handlers
            .iter()
            .all(|handler| handler.guid == Some(IN_EACH_FORM))
}

fn reads_edges(alloc: Global) -> bool {
    match read(alloc, EDGES, false) {
        Ok(script) => has_edge_cells(&script),
        Err(_) => false,
    }
}

fn reads_forms(alloc: Global) -> bool {
    match read(alloc, FORMS, true) {
        Ok(script) => has_each_form(&script),
        Err(_) => false,
    }
}

#[test]
fn reads_cells_at_the_edges(rt: HostRuntime) {
    assert!(rt; reads_edges(rt.alloc()));
}

#[test]
fn reads_guids_in_each_form(rt: HostRuntime) {
    assert!(rt; reads_forms(rt.alloc()));
}
