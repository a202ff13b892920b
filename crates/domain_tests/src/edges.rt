//! Accesses at the edges of all ranges of the map and of two images, by each width. What is expected was worked out by hand from the
//! map and the rules of verdicts; the images and the rules are those of `two_images`.
use mm_base::Why::{Buffer, Mmram, NoRule, Range, Rule};
use mm_base::{Bus, Denial, Kind, NoMemory, Records, Right, Saved, Target, Why};
use mm_memory::PlainFrames;
use sample_domains::{read, two_images, write};
use std::alloc::Global;
use std::test::Fail;
use supervisor_calls::{Domain, Tables, enter};

/// What an access on one side of an edge comes to: it passes, or is denied for this.
type Side = Option<Why>;

const PASS: Side = None;

const MMRAM: Side = Some(Mmram);

const LANES: Side = Some(Buffer);

const NOWHERE: Side = Some(Range);

const NO_RULE: Side = Some(NoRule);

/// An edge by the address of the first byte past it; reads and writes that end in front of it; why each access across it is denied; reads
/// and writes that begin at it.
type Edge = (u64, (Side, Side), Why, (Side, Side));

/// Edges for the first image. The numbers are hexadecimal.
const EDGES: &[Edge] = &[
    // 2^64
    (0, (NOWHERE, NOWHERE), Range, (NOWHERE, NOWHERE)),
    // the lanes' window
    (0x4000_0000, (NOWHERE, NOWHERE), Buffer, (LANES, LANES)),
    (0x4010_0000, (LANES, LANES), Buffer, (NOWHERE, NOWHERE)),
    // where memory begins, and the headers; then the section, which begins where they end, and its end
    (0x8000_0000, (NOWHERE, NOWHERE), Mmram, (PASS, MMRAM)),
    (0x8000_0100, (PASS, MMRAM), Mmram, (PASS, MMRAM)),
    (0x8000_0800, (PASS, MMRAM), Mmram, (MMRAM, MMRAM)),
    // the stack, the communicate page, the service page, the pool, the reserve, and its end
    (0x8000_1000, (MMRAM, MMRAM), Mmram, (PASS, PASS)),
    (0x8000_5000, (PASS, PASS), Mmram, (PASS, PASS)),
    (0x8000_6000, (PASS, PASS), Mmram, (PASS, MMRAM)),
    (0x8000_7000, (PASS, MMRAM), Mmram, (PASS, PASS)),
    (0x8001_7000, (PASS, PASS), Mmram, (PASS, PASS)),
    (0x8002_7000, (PASS, PASS), Mmram, (MMRAM, MMRAM)),
    // ranges of the other image, and where memory ends
    (0x81fd_9000, (MMRAM, MMRAM), Mmram, (MMRAM, MMRAM)),
    (0x81fd_a000, (MMRAM, MMRAM), Mmram, (MMRAM, MMRAM)),
    (0x81fe_0000, (MMRAM, MMRAM), Mmram, (MMRAM, MMRAM)),
    (0x81ff_0000, (MMRAM, MMRAM), Mmram, (MMRAM, MMRAM)),
    (0x8200_0000, (MMRAM, MMRAM), Mmram, (NOWHERE, NOWHERE)),
    // the device window: eight bytes of it are denied, and 16 may only be read
    (0xfe00_0000, (NOWHERE, NOWHERE), Range, (PASS, PASS)),
    (
        0xfe00_0800,
        (PASS, PASS),
        Rule(10),
        (Some(Rule(10)), Some(Rule(10))),
    ),
    (
        0xfe00_0808,
        (Some(Rule(10)), Some(Rule(10))),
        Rule(10),
        (PASS, PASS),
    ),
    (0xfe00_0810, (PASS, PASS), Rule(11), (PASS, Some(Rule(11)))),
    (0xfe00_0820, (PASS, Some(Rule(11))), Rule(11), (PASS, PASS)),
    (0xfe01_0000, (PASS, PASS), Range, (NOWHERE, NOWHERE)),
];

/// Edges for the second image, whose reserve ends where memory does.
const SECOND_EDGES: &[Edge] = &[
    (0x4000_0000, (NOWHERE, NOWHERE), Buffer, (LANES, LANES)),
    (0x4010_0000, (LANES, LANES), Buffer, (NOWHERE, NOWHERE)),
    (0x8000_0000, (NOWHERE, NOWHERE), Mmram, (MMRAM, MMRAM)),
    (0x8000_1000, (MMRAM, MMRAM), Mmram, (MMRAM, MMRAM)),
    (0x8001_7000, (MMRAM, MMRAM), Mmram, (MMRAM, MMRAM)),
    (0x81fd_9000, (MMRAM, MMRAM), Mmram, (PASS, MMRAM)),
    (0x81fd_9100, (PASS, MMRAM), Mmram, (PASS, MMRAM)),
    (0x81fd_9800, (PASS, MMRAM), Mmram, (MMRAM, MMRAM)),
    (0x81fd_a000, (MMRAM, MMRAM), Mmram, (PASS, PASS)),
    (0x81fd_e000, (PASS, PASS), Mmram, (PASS, PASS)),
    (0x81fd_f000, (PASS, PASS), Mmram, (PASS, MMRAM)),
    (0x81fe_0000, (PASS, MMRAM), Mmram, (PASS, PASS)),
    (0x81ff_0000, (PASS, PASS), Mmram, (PASS, PASS)),
    (0x8200_0000, (PASS, PASS), Mmram, (NOWHERE, NOWHERE)),
    // of device bytes it may write 16
    (0xfe00_0000, (NOWHERE, NOWHERE), Range, (NO_RULE, NO_RULE)),
    (
        0xfe00_9000,
        (NO_RULE, NO_RULE),
        Rule(12),
        (Some(Rule(12)), PASS),
    ),
    (
        0xfe00_9010,
        (Some(Rule(12)), PASS),
        Rule(12),
        (NO_RULE, NO_RULE),
    ),
    (0xfe01_0000, (NO_RULE, NO_RULE), Range, (NOWHERE, NOWHERE)),
];

/// An access to memory that is denied so.
fn denial(right: Right, at: u64, n: u8, why: Why) -> Denial {
    Denial {
        kind: Kind::Memory,
        right,
        at,
        n,
        why,
    }
}

/// Whether a read comes to what is expected.
fn is_read(domain: &mut Domain<PlainFrames>, at: u64, n: u8, side: Side) -> bool {
    match (read(domain, at, n), side) {
        (Some(Ok(_)), None) => true,
        (Some(Err(found)), Some(why)) => found == denial(Right::Read, at, n, why),
        _ => false,
    }
}

/// The same of a write.
fn is_written(domain: &mut Domain<PlainFrames>, at: u64, n: u8, side: Side) -> bool {
    match (write(domain, at, n, 0x8877_6655_4433_2211), side) {
        (Some(Ok(())), None) => true,
        (Some(Err(found)), Some(why)) => found == denial(Right::Write, at, n, why),
        _ => false,
    }
}

/// The low bytes of what is written.
fn low_bytes(n: u8) -> u64 {
    match n {
        1 => 0x11,
        2 => 0x2211,
        4 => 0x4433_2211,
        _ => 0x8877_6655_4433_2211,
    }
}

/// Whether both come to what is expected. Where both pass, what was written is read back.
fn is_accessed(domain: &mut Domain<PlainFrames>, at: u64, n: u8, sides: (Side, Side)) -> bool {
    let (reading, writing) = sides;
    is_read(domain, at, n, reading)
        && is_written(domain, at, n, writing)
        && (sides != (PASS, PASS) || read(domain, at, n) == Some(Ok(low_bytes(n))))
}

/// Whether all accesses of this width across an edge are denied for this.
fn is_crossing_denied(domain: &mut Domain<PlainFrames>, edge: u64, n: u8, why: Why) -> bool {
    for before in 1..n {
        let at = edge.wrapping_sub(before as u64);
        if !is_accessed(domain, at, n, (Some(why), Some(why))) {
            return false;
        }
    }
    true
}

/// Whether the accesses of one width at an edge come to what is expected.
fn is_edge(domain: &mut Domain<PlainFrames>, edge: &Edge, n: u8) -> bool {
    let (at, below, across, above) = *edge;
    is_accessed(domain, at.wrapping_sub(n as u64), n, below)
        && is_crossing_denied(domain, at, n, across)
        && is_accessed(domain, at, n, above)
}

/// The first of the widths by which an access at an edge comes to something else.
fn wrong_width(domain: &mut Domain<PlainFrames>, edge: &Edge) -> Option<u8> {
    for n in [1, 2, 4, 8] {
        if !is_edge(domain, edge, n) {
            return Some(n);
        }
    }
    None
}

/// What came out otherwise: an edge or an address, and a width or another number.
type Wrong = (u64, u8);

/// The first edge and width that come to something else, by an invocation of this image for each edge.
fn first_wrong_edge(
    alloc: Global,
    tables: Tables<PlainFrames>,
    image: u32,
    edges: &[Edge],
) -> Result<(Tables<PlainFrames>, Option<Wrong>), NoMemory> {
    let mut tables = tables;
    for edge in edges {
        let records = Records::new(alloc)?;
        if tables.images() <= image {
            return Ok((tables, Some((0, 0))));
        }
        let mut domain = enter(tables, image, Saved::ZERO, records);
        let wrong = wrong_width(&mut domain, edge);
        let (left, _) = domain.leave();
        tables = left;
        if let Some(n) = wrong {
            return Ok((tables, Some((edge.0, n))));
        }
    }
    Ok((tables, None))
}

/// The first edge of either image that comes to something else.
fn first_wrong(alloc: Global) -> Result<Option<Wrong>, NoMemory> {
    let Some(tables) = two_images(alloc, b"")? else {
        return Ok(Some((1, 0)));
    };
    let (tables, wrong) = first_wrong_edge(alloc, tables, 0, EDGES)?;
    if wrong.is_some() {
        return Ok(wrong);
    }
    let (_, wrong) = first_wrong_edge(alloc, tables, 1, SECOND_EDGES)?;
    Ok(wrong)
}

#[test]
fn every_edge_is_kept(rt: HostRuntime) -> Result<(), Fail> {
    assert_eq!(rt; first_wrong(rt.alloc())?, None);
    Ok(())
}

/// Whether a fetch passes, or is denied as memory that isn't the image's to execute.
fn is_fetched(domain: &mut Domain<PlainFrames>, at: u64, n: u8, passes: bool) -> bool {
    if n < 1 || 18 < n {
        return false;
    }
    match domain.fetch(at, n) {
        Ok(_) => passes,
        Err(found) => !passes && found == denial(Right::Execute, at, n, Mmram),
    }
}

/// The first length of an instruction whose fetch at either end of the section comes to something else: only within it all bytes may be
/// executed.
fn wrong_fetch(domain: &mut Domain<PlainFrames>, begin: u64, end: u64) -> Option<Wrong> {
    for n in 1..=18u8 {
        let last = end.wrapping_sub(n as u64);
        let is_right = is_fetched(domain, begin, n, true)
            && is_fetched(domain, last, n, true)
            && is_fetched(domain, begin.wrapping_sub(1), n, false)
            && is_fetched(domain, last.wrapping_add(1), n, false)
            && is_fetched(domain, end, n, false);
        if !is_right {
            return Some((begin, n));
        }
    }
    None
}

/// Whether a service's entry is the target of that service, and the addresses beside it are none.
fn is_entry(domain: &Domain<PlainFrames>, at: u64, number: u8) -> bool {
    domain.target(at) == Target::Service(number)
        && domain.target(at.wrapping_sub(1)) == Target::Other
        && domain.target(at.wrapping_add(1)) == Target::Other
        && domain.target(at.wrapping_add(15)) == Target::Other
}

/// The first service with another target on the image's service page, or with one on the other image's. The entry of service n is
/// 256 + 16 n bytes into the page.
fn wrong_target(domain: &Domain<PlainFrames>, own: u64, other: u64) -> Option<Wrong> {
    let mut place = 256;
    for number in 0..20u8 {
        let at = own.wrapping_add(place);
        let elsewhere = other.wrapping_add(place);
        if !is_entry(domain, at, number) || domain.target(elsewhere) != Target::Other {
            return Some((at, number));
        }
        place = place.wrapping_add(16);
    }
    None
}

/// Whether no service stands in front of the first or behind the last.
fn are_all_services(domain: &Domain<PlainFrames>, own: u64) -> bool {
    domain.target(own) == Target::Other
        && domain.target(own.wrapping_add(240)) == Target::Other
        && domain.target(own.wrapping_add(576)) == Target::Other
}

/// What came out otherwise for an image by its number, with its section and its service page, and the other's.
fn wrong_code(
    domain: &mut Domain<PlainFrames>,
    section: (u64, u64),
    own: u64,
    other: u64,
) -> Option<Wrong> {
    let (begin, end) = section;
    let wrong = wrong_fetch(domain, begin, end);
    if wrong.is_some() {
        return wrong;
    }
    let wrong = wrong_target(domain, own, other);
    if wrong.is_none() && !are_all_services(domain, own) {
        return Some((own, 20));
    }
    wrong
}

/// What came out otherwise first for either image.
fn first_wrong_code(alloc: Global) -> Result<Option<Wrong>, NoMemory> {
    let Some(tables) = two_images(alloc, b"")? else {
        return Ok(Some((1, 0)));
    };
    let records = Records::new(alloc)?;
    if tables.images() < 2 {
        return Ok(Some((2, 0)));
    }
    let mut domain = enter(tables, 0, Saved::ZERO, records);
    let wrong = wrong_code(
        &mut domain,
        (0x8000_0100, 0x8000_0800),
        0x8000_6000,
        0x81fd_f000,
    );
    let (tables, _) = domain.leave();
    let records = Records::new(alloc)?;
    if wrong.is_some() || tables.images() < 2 {
        return Ok(wrong);
    }
    let mut domain = enter(tables, 1, Saved::ZERO, records);
    Ok(wrong_code(
        &mut domain,
        (0x81fd_9100, 0x81fd_9800),
        0x81fd_f000,
        0x8000_6000,
    ))
}

#[test]
fn code_and_services_stand_in_their_ranges(rt: HostRuntime) -> Result<(), Fail> {
    assert_eq!(rt; first_wrong_code(rt.alloc())?, None);
    Ok(())
}
