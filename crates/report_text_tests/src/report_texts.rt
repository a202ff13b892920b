//! Reports whose text was written by hand from the rules.
ghost use Rattle.std.specs.Prelude.{◌≡◌, ◌≤◌, length, Some, IfOk};
ghost use Rattle.mm_text.specs.Report.{HaveFrontWords};

use mm_base::{
    CellWrite, Denial, Ended, Entries, FaultKind, Guid, Invocation, Kind, List, NoMemory, Outcome,
    Prepared, Right, Saved, Shape, Why,
};
use mm_text::{Parts, report};
use std::alloc::Global;
use std::test::Fail;

const VERSION: Guid = Guid([
    0x31, 0x56, 0x4d, 0x4d, 0x01, 0x00, 0x00, 0x40, 0x80, 0, 0, 0, 0, 0, 0, 0x01,
]);

/// The one entry of a request with these bytes, at most 32.
fn one(
    alloc: Global,
    asked: u64,
    bytes: &[u8],
    saved: Saved,
    outcome: Outcome,
) -> Result<Entries, NoMemory>
    ensures { IfOk result (λ entries. length entries ≡ 1) }
{
    let mut prepared = Prepared::new(alloc, 32, 0)?;
    if bytes.len() <= 32 {
        prepared.capture(bytes);
    }
    let keep = prepared.captured();
    prepared.seal(0, asked, keep, saved);
    prepared.finish(outcome);
    Ok(prepared.into_entry())
}

fn ended(alloc: Global, handler: u32, ended: Ended) -> Invocation {
    Invocation {
        handler,
        ended,
        denials: List::new(alloc),
        writes: List::new(alloc),
    }
}

fn outcome(alloc: Global, shape: Shape, status: u64, reply: List<u8>) -> Outcome {
    Outcome {
        shape,
        status,
        reply,
        chain: List::new(alloc),
        root: List::new(alloc),
    }
}

/// An invocation with a denial and a cell write of each kind of word.
fn recorded(alloc: Global) -> Result<Invocation, NoMemory> {
    let mut invocation = ended(alloc, 12, Ended::Denied(Why::Rule(3), 0x1000));
    let words = [
        (Kind::Memory, Right::Read, Why::Range),
        (Kind::Io, Right::Write, Why::Mmram),
        (Kind::Msr, Right::Execute, Why::Buffer),
        (Kind::Saved, Right::Read, Why::Rule(3)),
        (Kind::Memory, Right::Write, Why::NoRule),
        (Kind::Io, Right::Write, Why::Quota),
    ];
    for (kind, right, why) in words {
        invocation.denials.push(Denial {
            kind,
            right,
            at: 0xb2,
            n: 1,
            why,
        })?;
    }
    invocation.writes.push(CellWrite {
        kind: Kind::Msr,
        at: 0x9e,
        n: 8,
        value: 0xfedc_ba98,
    })?;
    Ok(invocation)
}

/// One lane of these words.
pub(crate) fn lane_of(alloc: Global, words: &[u64]) -> Result<List<List<u64>>, NoMemory>
    requires { 2 ≤ length words.now }
    ensures { IfOk result (λ lanes. HaveFrontWords (Some lanes)) }
{
    let mut lanes = List::new(alloc);
    lanes.push(List::from_slice(alloc, words)?)?;
    Ok(lanes)
}

#[test]
fn records_and_registers(rt: HostRuntime) -> Result<(), Fail> {
    let alloc = rt.alloc();
    let mut first = outcome(
        alloc,
        Shape::BadHeader,
        0x8000_0000_0000_0002,
        List::new(alloc),
    );
    first.root.push(recorded(alloc)?)?;
    first.root.push(ended(alloc, 1, Ended::Fuel(0x20)))?;
    let mut registers = Saved::ZERO;
    registers.0[0] = 0xb2;
    registers.0[18] = 0x2_00b2;
    let mut entries = one(alloc, 24, &[7; 24], registers, first)?;
    let mut second = outcome(
        alloc,
        Shape::NoHandler(VERSION),
        0x8000_0000_0000_000e,
        List::new(alloc),
    );
    second
        .root
        .push(ended(alloc, 2, Ended::Fault(FaultKind::Divide, 0x30)))?;
    entries.join(one(alloc, 25, &[], Saved::ZERO, second)?);
    let lanes = lane_of(alloc, &[25, 0x8000_0000_0000_000e])?;
    let parts = Parts {
        entries: Some(&entries),
        lanes: Some(&lanes),
        ..Parts::none()
    };
    let text = report(alloc, &parts)?;
    assert_eq!(rt;
        text.as_slice(),
        b"entry 0 lane 0 loads 4 status 8000000000000002
  request 0000000000000018 070707070707070707070707070707070707070707070707
  regs 0=00000000000000b2 18=00000000000200b2
  refused header
  reply -
  root 12 denied rule 3 at 0000000000001000
    deny mem read 00000000000000b2 1 range
    deny io write 00000000000000b2 1 mmram
    deny msr exec 00000000000000b2 1 buffer
    deny save read 00000000000000b2 1 rule 3
    deny mem write 00000000000000b2 1 norule
    deny io write 00000000000000b2 1 quota
    write msr 000000000000009e 8 00000000fedcba98
  root 1 fuel at 0000000000000020
entry 1 lane 0 loads 1 status 800000000000000e
  request 0000000000000019 -
  nohandler 4d4d5631-0001-4000-8000-000000000001
  reply -
  root 2 fault divide at 0000000000000030
lane 0 length 0000000000000019 status 800000000000000e data -
"
            .as_slice()
    );
    Ok(())
}

/// The invocations of a chain that ended in each way that the other report doesn't show.
fn chain_of_ends(alloc: Global) -> Result<List<Invocation>, NoMemory> {
    let mut chain = List::new(alloc);
    let ends = [
        Ended::Denied(Why::Mmram, 0x8000_4fff),
        Ended::Denied(Why::NoRule, 0x70),
        Ended::Fault(FaultKind::Encoding, 1),
        Ended::Fault(FaultKind::Alignment, 2),
        Ended::Fault(FaultKind::Break, 3),
        Ended::Fault(FaultKind::NativeCall, 4),
        Ended::Returned(0x8000_0000_0000_000f),
    ];
    for (number, end) in ends.iter().enumerate() {
        chain.push(ended(alloc, number as u32, *end))?;
    }
    Ok(chain)
}

#[test]
fn ends_of_invocations(rt: HostRuntime) -> Result<(), Fail> {
    let alloc = rt.alloc();
    let mut told = outcome(
        alloc,
        Shape::Dispatched(VERSION),
        0,
        List::from_slice(alloc, &[0x0a, 0xb0])?,
    );
    told.chain = chain_of_ends(alloc)?;
    let entries = one(alloc, 24, &[7; 24], Saved::ZERO, told)?;
    let parts = Parts {
        entries: Some(&entries),
        ..Parts::none()
    };
    let text = report(alloc, &parts)?;
    assert_eq!(rt;
        text.as_slice(),
        b"entry 0 lane 0 loads 4 status 0000000000000000
  request 0000000000000018 070707070707070707070707070707070707070707070707
  dispatched 4d4d5631-0001-4000-8000-000000000001
  handler 0 denied mmram at 0000000080004fff
  handler 1 denied norule at 0000000000000070
  handler 2 fault encoding at 0000000000000001
  handler 3 fault alignment at 0000000000000002
  handler 4 fault break at 0000000000000003
  handler 5 fault nativecall at 0000000000000004
  handler 6 returned 800000000000000f
  reply 0ab0
"
            .as_slice()
    );
    Ok(())
}
