//! What cores of a few handlers answer. What is expected was worked out by hand from the formats and the chain rule.
ghost use Rattle.std.specs.Prelude.{◌≤◌, IfOk, length};
ghost use Rattle.mm_core.specs.Scripted.{AreStubs};

use crate::{Core, VERSION_GUID, scripted};
use mm_base::status::{
    INTERRUPT_PENDING, NOT_FOUND, SUCCESS, WARN_INTERRUPT_SOURCE_PENDING as SOURCE_PENDING,
    WARN_INTERRUPT_SOURCE_QUIESCED as QUIESCED,
};
use mm_base::{
    Ended, Guid, Handler, HandlerBody, Invocation, List, Machine, NoMemory, Opening, Outcome,
    Prepared, Saved, Shape,
};
use std::alloc::Global;
use std::process::Abort;
use std::test::Fail;

/// The GUID 11111111-2222-3333-4444-555555555555, as it is stored.
const FIRST: Guid = Guid([
    0x11, 0x11, 0x11, 0x11, 0x22, 0x22, 0x33, 0x33, 0x44, 0x44, 0x55, 0x55, 0x55, 0x55, 0x55, 0x55,
]);

/// A request for that GUID, with an empty message.
const TO_FIRST: &[u8] = &[
    0x11, 0x11, 0x11, 0x11, 0x22, 0x22, 0x33, 0x33, 0x44, 0x44, 0x55, 0x55, 0x55, 0x55, 0x55, 0x55,
    0, 0, 0, 0, 0, 0, 0, 0,
];

/// A request for the version handler, with a message of 8 bytes.
const TO_VERSION: &[u8] = &[
    0x31, 0x56, 0x4d, 0x4d, 0x01, 0x00, 0x00, 0x40, 0x80, 0x00, 0x00, 0x00, 0x00, 0x00, 0x00, 0x01,
    8, 0, 0, 0, 0, 0, 0, 0, 0, 0, 0, 0, 0, 0, 0, 0,
];

/// Its reply: the number 10008 (hexadecimal), the lowest byte first.
const VERSION_REPLY: &[u8] = &[
    0x31, 0x56, 0x4d, 0x4d, 0x01, 0x00, 0x00, 0x40, 0x80, 0x00, 0x00, 0x00, 0x00, 0x00, 0x00, 0x01,
    8, 0, 0, 0, 0, 0, 0, 0, 8, 0, 1, 0, 0, 0, 0, 0,
];

/// A request to a core with these stubs, and what has to come of it. An invocation is the number of its handler and the
/// status that it returns.
#[derive(Drop)]
struct Case {
    name: &'static str,
    stubs: &'static [(Option<Guid>, u64)],
    length: u64,
    bytes: &'static [u8],
    shape: Shape,
    status: u64,
    reply: &'static [u8],
    chain: &'static [(u32, u64)],
    root: &'static [(u32, u64)],
}

/// Stubs for these GUIDs, which return these statuses.
fn stubs(alloc: Global, listed: &[(Option<Guid>, u64)]) -> Result<List<Handler>, NoMemory>
    requires { length listed.now ≤ 64 }
    ensures stubs { IfOk result (λ handlers. AreStubs handlers) }
    ensures few { IfOk result (λ handlers. length handlers ≤ 64) }
{
    let mut handlers = List::new(alloc);
    for (guid, status) in listed {
        handlers.push(Handler {
            number: 0,
            guid: *guid,
            body: HandlerBody::Stub(*status),
        })?;
    }
    Ok(handlers)
}

/// The core of a script with these stubs.
fn core(rt: &impl Abort, alloc: Global, listed: &[(Option<Guid>, u64)]) -> Result<Core, NoMemory> {
    assert!(rt; listed.len() <= 64);
    let opening = Opening {
        cells: List::new(alloc),
    };
    scripted(alloc, &opening, &stubs(alloc, listed)?)
}

/// What comes of a request of these bytes, of `length` bytes as its length word says, to a core with these stubs.
fn entered(
    rt: &impl Abort,
    alloc: Global,
    listed: &[(Option<Guid>, u64)],
    length: u64,
    bytes: &[u8],
) -> Result<Prepared, NoMemory> {
    assert!(rt; bytes.len() <= 4096);
    let mut core = core(rt, alloc, listed)?;
    let mut prepared = core.prepare(alloc, 4096)?;
    prepared.capture(bytes);
    prepared.seal(0, length, bytes.len(), Saved::ZERO);
    core.step(&mut prepared);
    Ok(prepared)
}

/// Whether these invocations are of these handlers, which returned these statuses.
fn are(invocations: &[Invocation], expected: &[(u32, u64)]) -> bool {
    invocations.len() == expected.len()
        && invocations.iter().zip(expected).all(|(made, (handler, status))| {
            made.handler == *handler && made.ended == Ended::Returned(*status)
        })
}

/// Whether this outcome is the one that the case asks for.
fn is_right(outcome: &Outcome, case: &Case) -> bool {
    outcome.shape == case.shape
        && outcome.status == case.status
        && outcome.reply.as_slice() == case.reply
        && are(outcome.chain.as_slice(), case.chain)
        && are(outcome.root.as_slice(), case.root)
}

fn version() -> Case {
    Case {
        name: "a message of 8 bytes gets the version, and a stub after the version handler isn't called",
        stubs: &[(Some(VERSION_GUID), 7)],
        length: 32,
        bytes: TO_VERSION,
        shape: Shape::Dispatched(VERSION_GUID),
        status: 0,
        reply: VERSION_REPLY,
        chain: &[(0, 0)],
        root: &[],
    }
}

fn empty_message() -> Case {
    Case {
        name: "an empty message is too short for the version",
        stubs: &[],
        length: 24,
        bytes: &[
            0x31, 0x56, 0x4d, 0x4d, 0x01, 0x00, 0x00, 0x40, 0x80, 0x00, 0x00, 0x00, 0x00, 0x00,
            0x00, 0x01, 0, 0, 0, 0, 0, 0, 0, 0,
        ],
        shape: Shape::Dispatched(VERSION_GUID),
        status: 0x8000_0000_0000_000e,
        reply: &[
            0x31, 0x56, 0x4d, 0x4d, 0x01, 0x00, 0x00, 0x40, 0x80, 0x00, 0x00, 0x00, 0x00, 0x00,
            0x00, 0x01, 0, 0, 0, 0, 0, 0, 0, 0,
        ],
        chain: &[(0, 0x8000_0000_0000_0002)],
        root: &[],
    }
}

fn message_to_the_end() -> Case {
    Case {
        name: "a message of 16 bytes, to the request's end, is answered by 8",
        stubs: &[],
        length: 40,
        bytes: &[
            0x31, 0x56, 0x4d, 0x4d, 0x01, 0x00, 0x00, 0x40, 0x80, 0x00, 0x00, 0x00, 0x00, 0x00,
            0x00, 0x01, 16, 0, 0, 0, 0, 0, 0, 0, 1, 2, 3, 4, 5, 6, 7, 8, 9, 10, 11, 12, 13, 14, 15,
            16,
        ],
        shape: Shape::Dispatched(VERSION_GUID),
        status: 0,
        reply: &[
            0x31, 0x56, 0x4d, 0x4d, 0x01, 0x00, 0x00, 0x40, 0x80, 0x00, 0x00, 0x00, 0x00, 0x00,
            0x00, 0x01, 16, 0, 0, 0, 0, 0, 0, 0, 8, 0, 1, 0, 0, 0, 0, 0,
        ],
        chain: &[(0, 0)],
        root: &[],
    }
}

fn message_past_the_end() -> Case {
    Case {
        name: "a message that goes one byte past the request",
        stubs: &[],
        length: 26,
        bytes: &[
            0x31, 0x56, 0x4d, 0x4d, 0x01, 0x00, 0x00, 0x40, 0x80, 0x00, 0x00, 0x00, 0x00, 0x00,
            0x00, 0x01, 3, 0, 0, 0, 0, 0, 0, 0, 1, 2,
        ],
        shape: Shape::BadHeader,
        status: 0x8000_0000_0000_0002,
        reply: &[],
        chain: &[],
        root: &[],
    }
}

fn greatest_message() -> Case {
    Case {
        name: "the greatest message length",
        stubs: &[(Some(FIRST), 0)],
        length: 24,
        bytes: &[
            0x11, 0x11, 0x11, 0x11, 0x22, 0x22, 0x33, 0x33, 0x44, 0x44, 0x55, 0x55, 0x55, 0x55,
            0x55, 0x55, 0xff, 0xff, 0xff, 0xff, 0xff, 0xff, 0xff, 0xff,
        ],
        shape: Shape::BadHeader,
        status: 0x8000_0000_0000_0002,
        reply: &[],
        chain: &[],
        root: &[],
    }
}

fn one_stub() -> Case {
    Case {
        name: "a stub that succeeds",
        stubs: &[(Some(FIRST), 0)],
        length: 24,
        bytes: TO_FIRST,
        shape: Shape::Dispatched(FIRST),
        status: 0,
        reply: TO_FIRST,
        chain: &[(1, 0)],
        root: &[],
    }
}

fn root_alone() -> Case {
    Case {
        name: "a root handler runs where nobody handles the GUID, and changes no status",
        stubs: &[(None, 0)],
        length: 24,
        bytes: TO_FIRST,
        shape: Shape::NoHandler(FIRST),
        status: 0x8000_0000_0000_000e,
        reply: &[],
        chain: &[],
        root: &[(1, 0)],
    }
}

fn both_chains() -> Case {
    Case {
        name: "a GUID's chain stops at SUCCESS, and the root chain doesn't",
        stubs: &[
            (Some(FIRST), QUIESCED),
            (Some(FIRST), 7),
            (Some(FIRST), 0),
            (Some(FIRST), 0),
            (None, QUIESCED),
            (None, 7),
            (None, 0),
            (None, 0),
        ],
        length: 24,
        bytes: TO_FIRST,
        shape: Shape::Dispatched(FIRST),
        status: 0,
        reply: TO_FIRST,
        chain: &[(1, QUIESCED), (2, 7), (3, 0)],
        root: &[(5, QUIESCED), (6, 7), (7, 0), (8, 0)],
    }
}

fn few_bytes() -> Case {
    Case {
        name: "fewer bytes than the length word says",
        stubs: &[(None, 0)],
        length: 25,
        bytes: &[1, 2, 3, 4],
        shape: Shape::BadLength,
        status: 0x8000_0000_0000_0002,
        reply: &[],
        chain: &[],
        root: &[(1, 0)],
    }
}

fn short_length() -> Case {
    Case {
        name: "a length below a header's",
        stubs: &[(None, 7)],
        length: 8,
        bytes: &[],
        shape: Shape::BadLength,
        status: 0x8000_0000_0000_0002,
        reply: &[],
        chain: &[],
        root: &[(1, 7)],
    }
}

#[test]
fn answers_requests(rt: HostRuntime) -> Result<(), Fail> {
    let cases = [
        version(),
        empty_message(),
        message_to_the_end(),
        message_past_the_end(),
        greatest_message(),
        one_stub(),
        root_alone(),
        both_chains(),
        few_bytes(),
        short_length(),
    ];
    for case in &cases {
        let prepared = entered(&rt, rt.alloc(), case.stubs, case.length, case.bytes)?;
        assert!(rt; is_right(&prepared.entry().outcome, case), "{}", case.name);
    }
    Ok(())
}

/// What two stubs return; how many of them a GUID's chain calls; and the status of the entry.
const PAIRS: [(u64, u64, usize, u64); 25] = [
    (SUCCESS, SUCCESS, 1, SUCCESS),
    (SUCCESS, INTERRUPT_PENDING, 1, SUCCESS),
    (SUCCESS, SOURCE_PENDING, 1, SUCCESS),
    (SUCCESS, QUIESCED, 1, SUCCESS),
    (SUCCESS, 7, 1, SUCCESS),
    (INTERRUPT_PENDING, SUCCESS, 1, NOT_FOUND),
    (INTERRUPT_PENDING, INTERRUPT_PENDING, 1, NOT_FOUND),
    (INTERRUPT_PENDING, SOURCE_PENDING, 1, NOT_FOUND),
    (INTERRUPT_PENDING, QUIESCED, 1, NOT_FOUND),
    (INTERRUPT_PENDING, 7, 1, NOT_FOUND),
    (SOURCE_PENDING, SUCCESS, 2, SUCCESS),
    (SOURCE_PENDING, INTERRUPT_PENDING, 2, NOT_FOUND),
    (SOURCE_PENDING, SOURCE_PENDING, 2, NOT_FOUND),
    (SOURCE_PENDING, QUIESCED, 2, SUCCESS),
    (SOURCE_PENDING, 7, 2, NOT_FOUND),
    (QUIESCED, SUCCESS, 2, SUCCESS),
    (QUIESCED, INTERRUPT_PENDING, 2, NOT_FOUND),
    (QUIESCED, SOURCE_PENDING, 2, SUCCESS),
    (QUIESCED, QUIESCED, 2, SUCCESS),
    (QUIESCED, 7, 2, SUCCESS),
    (7, SUCCESS, 2, SUCCESS),
    (7, INTERRUPT_PENDING, 2, NOT_FOUND),
    (7, SOURCE_PENDING, 2, NOT_FOUND),
    (7, QUIESCED, 2, SUCCESS),
    (7, 7, 2, NOT_FOUND),
];

/// How many of two stubs run, and the status of the entry, where they are for this GUID, or root handlers.
fn pair(
    rt: &impl Abort,
    alloc: Global,
    guid: Option<Guid>,
    first: u64,
    second: u64,
) -> Result<(usize, usize, u64), NoMemory> {
    let listed = [(guid, first), (guid, second)];
    let prepared = entered(rt, alloc, &listed, 24, TO_FIRST)?;
    let outcome = &prepared.entry().outcome;
    Ok((outcome.chain.len(), outcome.root.len(), outcome.status))
}

#[test]
fn answers_pairs(rt: HostRuntime) -> Result<(), Fail> {
    for (first, second, called, status) in PAIRS {
        let guid = pair(&rt, rt.alloc(), Some(FIRST), first, second)?;
        let root = pair(&rt, rt.alloc(), None, first, second)?;
        assert_eq!(rt;
            (guid, root),
            ((called, 0, status), (0, 2, NOT_FOUND)),
            "{first:x} and {second:x}"
        );
    }
    Ok(())
}

#[test]
fn shows_handlers(rt: HostRuntime) -> Result<(), Fail> {
    let core = core(&rt, rt.alloc(), &[(Some(FIRST), 7)])?;
    let version = Handler {
        number: 0,
        guid: Some(VERSION_GUID),
        body: HandlerBody::Version,
    };
    let stub = Handler {
        number: 1,
        guid: Some(FIRST),
        body: HandlerBody::Stub(7),
    };
    assert_eq!(rt; (core.images(), core.handlers()), (0, 2));
    assert_eq!(rt;
        (core.handler(0), core.handler(1), core.handler(2)),
        (Some(version), Some(stub), None)
    );
    let prepared = core.prepare(rt.alloc(), 4096)?;
    assert_eq!(rt; prepared.captured(), 0);
    Ok(())
}
