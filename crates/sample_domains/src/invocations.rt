//! What the tables of invocations are made of. All invocations of a table run one after another over the same tables of a core. Each
//! says by its steps what it is answered, and so what its records are.
use crate::image_pair::two_images;
use mm_base::{Bus, CellWrite, Denial, Ended, Kind, NoMemory, Records, Right, Saved, Served, Why};
use mm_memory::PlainFrames;
use std::alloc::Global;
use supervisor_calls::{Domain, Tables, enter};

/// Places of the first image. Its headers may not be written. Names are put to the communicate page, and an out pointer points there.
pub const HEADERS: u64 = 0x8000_0000;

pub const NAME: u64 = 0x8000_5000;

pub const OTHER_NAME: u64 = 0x8000_5010;

pub const OUT: u64 = 0x8000_5100;

pub const POOL: u64 = 0x8000_7000;

pub const RESERVE: u64 = 0x8001_7000;

/// The same places of the second image.
pub const SECOND_NAME: u64 = 0x81fd_e000;

pub const SECOND_OTHER_NAME: u64 = 0x81fd_e010;

pub const SECOND_OUT: u64 = 0x81fd_e100;

pub const SECOND_POOL: u64 = 0x81fe_0000;

pub const SECOND_RESERVE: u64 = 0x81ff_0000;

/// What stands somewhere before a service is to leave it alone.
pub const KEPT: u64 = 0x1122_3344_5566_7788;

/// Where the arguments of services are put: on the stack of the first image, and of the second.
const ARGUMENTS: u64 = 0x8000_4f00;

const SECOND_ARGUMENTS: u64 = 0x81fd_df00;

/// The saved registers of all invocations.
const REGISTERS: Saved = Saved([
    0xa0, 0xa1, 0xa2, 0xa3, 0xa4, 0xa5, 0xa6, 0xa7, 0xa8, 0xa9, 0xaa, 0xab, 0xac, 0xad, 0xae, 0xaf,
    0xb0, 0xb1, 0x1_0070,
]);

/// How a service is answered.
#[derive(Clone, Copy, Debug)]
pub enum Answer {
    /// With this status; nothing is recorded.
    Gives(u64),
    /// With SUCCESS; so many cells from a place on hold this number then, which is recorded.
    Sets(Kind, u64, u8, u64),
    /// With ACCESS_DENIED, and the denial is recorded.
    Refuses(Kind, Right, u64, u8, Why),
    /// The invocation stops at this denial, which is recorded where it is among the first 8.
    Stops(Kind, Right, u64, u8, Why),
}

pub const SUCCESS: Answer = Answer::Gives(0);

pub const INVALID_PARAMETER: Answer = Answer::Gives(0x8000_0000_0000_0002);

pub const UNSUPPORTED: Answer = Answer::Gives(0x8000_0000_0000_0003);

pub const OUT_OF_RESOURCES: Answer = Answer::Gives(0x8000_0000_0000_0009);

pub const NOT_FOUND: Answer = Answer::Gives(0x8000_0000_0000_000e);

/// Without a record.
pub const ACCESS_DENIED: Answer = Answer::Gives(0x8000_0000_0000_000f);

/// An out pointer to the headers, and a pointer of 0 to a name.
pub const OUT_DENIED: Answer = Answer::Refuses(Kind::Memory, Right::Write, HEADERS, 8, Why::Mmram);

pub const NAME_DENIED: Answer = Answer::Refuses(Kind::Memory, Right::Read, 0, 16, Why::Range);

/// A step of an invocation, and what is expected of it.
#[derive(Clone, Copy, Debug)]
pub enum Step {
    /// A service is called with these arguments, and answered so.
    Call(u8, [u64; 4], Answer),
    /// A service whose arguments are to stand at this address.
    CallAt(u8, u64, Answer),
    /// A read of so many bytes of memory answers this.
    Look(u64, u8, u64),
    /// A number is written to so many bytes of memory.
    Put(u64, u8, u64),
    /// A number is written to so many device bytes, which hold the last number then.
    Set(u64, u8, u64, u64),
    /// A read or a write of so many bytes is denied for this.
    Denied(Right, u64, u8, Why),
}

/// An invocation: what it shows, its image, and its steps.
pub type Invocation = (&'static str, u32, &'static [Step]);

/// What came out otherwise: what its invocation shows, and the number of the step, from 0 on. The records come last.
pub type Wrong = (&'static str, usize);

/// A read of 1, 2, 4 or 8 bytes.
pub fn read(domain: &mut Domain<PlainFrames>, at: u64, n: u8) -> Option<Result<u64, Denial>> {
    if n == 1 || n == 2 || n == 4 || n == 8 {
        Some(domain.read(at, n))
    } else {
        None
    }
}

/// A write of 1, 2, 4 or 8 bytes.
pub fn write(
    domain: &mut Domain<PlainFrames>,
    at: u64,
    n: u8,
    value: u64,
) -> Option<Result<(), Denial>> {
    if n == 1 || n == 2 || n == 4 || n == 8 {
        Some(domain.write(at, n, value))
    } else {
        None
    }
}

/// An access that is denied so.
fn denial(kind: Kind, right: Right, at: u64, n: u8, why: Why) -> Denial {
    Denial {
        kind,
        right,
        at,
        n,
        why,
    }
}

/// How a service is answered, as its caller sees it.
fn served(answer: Answer) -> Served {
    match answer {
        Answer::Gives(status) => Served::Status(status),
        Answer::Sets(..) => Served::Status(0),
        Answer::Refuses(..) => Served::Status(0x8000_0000_0000_000f),
        Answer::Stops(kind, right, at, n, why) => Served::Stop(denial(kind, right, at, n, why)),
    }
}

/// Whether a service with arguments at an address is answered so.
fn is_answered(domain: &mut Domain<PlainFrames>, number: u8, stack: u64, answer: Answer) -> bool {
    number < 20 && domain.call(number, stack) == served(answer)
}

/// Puts the arguments of a service on the stack.
fn put_arguments(domain: &mut Domain<PlainFrames>, stack: u64, arguments: &[u64; 4]) -> bool {
    let [first, second, third, fourth] = *arguments;
    let mut is_put = true;
    for (argument, place) in [(first, 0), (second, 8), (third, 16), (fourth, 24)] {
        if write(domain, stack.wrapping_add(place), 8, argument) != Some(Ok(())) {
            is_put = false;
        }
    }
    is_put
}

/// Whether a service with these arguments is answered so.
fn is_called(
    domain: &mut Domain<PlainFrames>,
    image: u32,
    number: u8,
    arguments: &[u64; 4],
    answer: Answer,
) -> bool {
    let stack = if image == 0 {
        ARGUMENTS
    } else {
        SECOND_ARGUMENTS
    };
    put_arguments(domain, stack, arguments) && is_answered(domain, number, stack, answer)
}

/// Whether a read or a write of so many bytes is denied so.
fn is_denied(domain: &mut Domain<PlainFrames>, right: Right, at: u64, n: u8, why: Why) -> bool {
    let expected = denial(Kind::Memory, right, at, n, why);
    match right {
        Right::Read => read(domain, at, n) == Some(Err(expected)),
        Right::Write => write(domain, at, n, 0) == Some(Err(expected)),
        Right::Execute => false,
    }
}

/// Whether a step comes to what is expected.
fn is_right(domain: &mut Domain<PlainFrames>, image: u32, step: Step) -> bool {
    match step {
        Step::Call(number, arguments, answer) => {
            is_called(domain, image, number, &arguments, answer)
        }
        Step::CallAt(number, stack, answer) => is_answered(domain, number, stack, answer),
        Step::Look(at, n, value) => read(domain, at, n) == Some(Ok(value)),
        Step::Put(at, n, value) => write(domain, at, n, value) == Some(Ok(())),
        Step::Set(at, n, value, _) => write(domain, at, n, value) == Some(Ok(())),
        Step::Denied(right, at, n, why) => is_denied(domain, right, at, n, why),
    }
}

/// The number of the first step that comes to something else.
fn first_wrong_step(domain: &mut Domain<PlainFrames>, image: u32, steps: &[Step]) -> Option<usize> {
    for (number, step) in steps.iter().enumerate() {
        if !is_right(domain, image, *step) {
            return Some(number);
        }
    }
    None
}

/// The denial that a service is answered with.
fn denial_of_answer(answer: Answer) -> Option<Denial> {
    match answer {
        Answer::Refuses(kind, right, at, n, why) | Answer::Stops(kind, right, at, n, why) => {
            Some(denial(kind, right, at, n, why))
        }
        Answer::Gives(_) | Answer::Sets(..) => None,
    }
}

/// The denial of a step.
fn denial_of(step: Step) -> Option<Denial> {
    match step {
        Step::Call(_, _, answer) | Step::CallAt(_, _, answer) => denial_of_answer(answer),
        Step::Denied(right, at, n, why) => Some(denial(Kind::Memory, right, at, n, why)),
        Step::Look(..) | Step::Put(..) | Step::Set(..) => None,
    }
}

/// The cell write of a step.
fn write_of(step: Step) -> Option<CellWrite> {
    match step {
        Step::Call(_, _, Answer::Sets(kind, at, n, value))
        | Step::CallAt(_, _, Answer::Sets(kind, at, n, value)) => {
            Some(CellWrite { kind, at, n, value })
        }
        Step::Set(at, n, _, value) => Some(CellWrite {
            kind: Kind::Memory,
            at,
            n,
            value,
        }),
        _ => None,
    }
}

/// Whether these are the first 8 denials of the steps, in their order.
fn are_denials(steps: &[Step], denials: &[Denial]) -> bool {
    let mut expected = steps.iter().filter_map(|step| denial_of(*step)).take(8);
    for denial in denials {
        if expected.next() != Some(*denial) {
            return false;
        }
    }
    expected.next().is_none()
}

/// Whether these are the cell writes of the steps, in their order.
fn are_writes(steps: &[Step], writes: &[CellWrite]) -> bool {
    let mut expected = steps.iter().filter_map(|step| write_of(*step));
    for write in writes {
        if expected.next() != Some(*write) {
            return false;
        }
    }
    expected.next().is_none()
}

/// Whether the records are those of the steps.
fn are_recorded(records: Records, steps: &[Step]) -> bool {
    let told = records.ended(0, Ended::Returned(0));
    are_denials(steps, told.denials.as_slice()) && are_writes(steps, told.writes.as_slice())
}

/// Runs an invocation. It answers the tables as they are then, and which step came out otherwise.
fn run(
    alloc: Global,
    tables: Tables<PlainFrames>,
    image: u32,
    steps: &[Step],
) -> Result<(Tables<PlainFrames>, Option<usize>), NoMemory> {
    let records = Records::new(alloc)?;
    if tables.images() <= image {
        return Ok((tables, Some(usize::MAX)));
    }
    let mut domain = enter(tables, image, REGISTERS, records);
    let wrong = first_wrong_step(&mut domain, image, steps);
    let (tables, records) = domain.leave();
    let is_recorded = are_recorded(records, steps);
    match wrong {
        None if !is_recorded => Ok((tables, Some(steps.len()))),
        _ => Ok((tables, wrong)),
    }
}

/// Runs invocations, one after another, up to the first that comes out otherwise.
fn run_all(
    alloc: Global,
    tables: Tables<PlainFrames>,
    invocations: &[Invocation],
) -> Result<(Tables<PlainFrames>, Option<Wrong>), NoMemory> {
    let mut tables = tables;
    for invocation in invocations {
        let (shown, image, steps) = *invocation;
        let (left, wrong) = run(alloc, tables, image, steps)?;
        tables = left;
        if let Some(number) = wrong {
            return Ok((tables, Some((shown, number))));
        }
    }
    Ok((tables, None))
}

/// Runs some invocations before lock and some after it. It answers what came out otherwise first.
pub fn first_wrong(
    alloc: Global,
    before: &[Invocation],
    after: &[Invocation],
) -> Result<Option<Wrong>, NoMemory> {
    let Some(tables) = two_images(alloc, b"")? else {
        return Ok(Some(("no tables", 0)));
    };
    let (mut tables, wrong) = run_all(alloc, tables, before)?;
    if wrong.is_some() {
        return Ok(wrong);
    }
    tables.lock();
    let (_, wrong) = run_all(alloc, tables, after)?;
    Ok(wrong)
}

/// What the first of these invocations shows in which it isn't number 1 that comes out otherwise first.
pub fn first_untold(
    alloc: Global,
    invocations: &[Invocation],
) -> Result<Option<&'static str>, NoMemory> {
    let Some(tables) = two_images(alloc, b"")? else {
        return Ok(Some("no tables"));
    };
    let mut tables = tables;
    for invocation in invocations {
        let (shown, image, steps) = *invocation;
        let (left, wrong) = run(alloc, tables, image, steps)?;
        tables = left;
        if wrong != Some(1) {
            return Ok(Some(shown));
        }
    }
    Ok(None)
}
