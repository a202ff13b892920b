//! What the tables of starts are made of. All starts of a table are made one after another, on one host.
use crate::samples::{Piece, Sample, made};
use driver_start::{Driver, Host, StartEnd, StartRecord, start};
use mm_base::{CellWrite, Denial, Guid, List, NoMemory, Opening};
use mm_memory::PlainFrames;
use pe_loader::inspect;
use policy_blob::read_policy;
use std::alloc::Global;

/// The policy of no rules, with fuel of 65,536 units.
pub const NO_RULES: &[u8] = b"MMSP\x01\0\0\0\0\0\0\0\0\0\x01\0";

/// The policy of one rule, by which all images may read and write the ports from 70 to 77 (hexadecimal), with fuel of 65,536 units.
pub const PORTS: &[u8] = b"MMSP\x01\0\0\0\x01\0\0\0\0\0\x01\0\
    \x02\0\x01\0\x03\0\0\0\0\0\0\0\0\0\0\0\0\0\0\0\0\0\0\0\x70\0\0\0\0\0\0\0\x08\0\0\0\0\0\0\0";

/// The name of each driver of these tests.
pub const NAME: Guid = Guid([0xaa, 0xaa, 0xaa, 0xaa, 0, 0, 0, 0, 0, 0, 0, 0, 0, 0, 0, 1]);

/// How many images, handlers and interfaces a host has. In these tests no image takes a handler or an interface out again, so that the
/// next handler gets the number of handlers as its number, and the next new handle is 256 plus the number of interfaces.
pub type Has = (u32, usize, usize);

/// What a host has before the first start, and after starts that all fail.
pub const NOTHING: Has = (0, 0, 0);

/// A start: what it is of, what is written over the sample, how it ends, what the host has then, and what the entry was denied and wrote.
pub type Start = (
    &'static str,
    &'static [Piece],
    StartEnd,
    Has,
    &'static [Denial],
    &'static [CellWrite],
);

/// A host before the first start, under the policy that these bytes are; None where they are none.
pub fn host_under(alloc: Global, policy: &[u8]) -> Result<Option<Host<PlainFrames>>, NoMemory> {
    if policy.len() > 16_777_216 {
        return Ok(None);
    }
    let policy = match read_policy(alloc, policy) {
        Ok(policy) => policy,
        Err(_) => return Ok(None),
    };
    let opening = Opening {
        cells: List::new(alloc),
    };
    Ok(Some(Host::opening(alloc, policy, &opening)?))
}

/// Starts the driver that these bytes are, and tells of it; None where they are none.
pub fn started(
    alloc: Global,
    host: Host<PlainFrames>,
    bytes: &[u8],
) -> Result<Option<(Host<PlainFrames>, StartRecord)>, NoMemory> {
    if bytes.len() > 16_777_216 {
        return Ok(None);
    }
    let image = match inspect(bytes) {
        Ok(image) => image,
        Err(_) => return Ok(None),
    };
    let driver = Driver {
        name: NAME,
        bytes,
        image,
    };
    let (host, ended, records) = start(alloc, host, &driver)?;
    Ok(Some((host, StartRecord::new(NAME, 1, ended, records))))
}

/// Whether a host has that.
pub fn has(host: &Host<PlainFrames>, expected: Has) -> bool {
    let (images, handlers, interfaces) = expected;
    let tables = host.tables();
    tables.images() == images
        && tables.handlers() == handlers
        && tables.next_number() as usize == handlers
        && tables.interfaces() == interfaces
        && tables.next_handle().wrapping_sub(256) == interfaces as u64
}

/// Whether a start left this, and told this.
fn is_as_said(host: &Host<PlainFrames>, record: &StartRecord, case: &Start) -> bool {
    let (_, _, ended, expected, denials, writes) = *case;
    record.name == NAME
        && record.round == 1
        && record.ended == ended
        && has(host, expected)
        && record.denials.as_slice() == denials
        && record.writes.as_slice() == writes
}

/// The first start of a table that comes out otherwise.
pub fn first_wrong(
    alloc: Global,
    policy: &[u8],
    sample: &Sample,
    starts: &[Start],
) -> Result<Option<&'static str>, NoMemory> {
    let Some(mut host) = host_under(alloc, policy)? else {
        return Ok(Some("the policy"));
    };
    for case in starts {
        let (name, pieces, ..) = *case;
        let bytes = made(alloc, sample, pieces)?;
        let Some((after, record)) = started(alloc, host, bytes.as_slice())? else {
            return Ok(Some(name));
        };
        if !is_as_said(&after, &record, case) {
            return Ok(Some(name));
        }
        host = after;
    }
    Ok(None)
}
