//! Reports of boots whose text was written by hand from the rules.
use crate::report_texts::lane_of;
use driver_start::{StartEnd, StartRecord};
use mm_base::{
    CellWrite, Denial, Ended, FaultKind, Guid, Kind, List, NoMemory, Policy, Range, Right, Rule,
    Volume, Why,
};
use mm_text::{Locked, Parts, report};
use std::alloc::Global;
use std::test::Fail;

const FIRST: Guid = Guid([
    0x31, 0x56, 0x4d, 0x4d, 0x01, 0x00, 0x00, 0x40, 0x80, 0, 0, 0, 0, 0, 0, 0x01,
]);

const SECOND: Guid = Guid([0xaa; 16]);

const THIRD: Guid = Guid([
    0xaa, 0xaa, 0xaa, 0xaa, 0, 0, 0, 0, 0, 0, 0, 0, 0, 0, 0, 0x01,
]);

/// A start that left no records.
fn start(alloc: Global, name: Guid, round: u32, ended: StartEnd) -> StartRecord {
    StartRecord {
        name,
        round,
        ended,
        denials: List::new(alloc),
        writes: List::new(alloc),
    }
}

/// A start that ended in each way that there is, one a round.
fn starts_of_ends(alloc: Global) -> Result<List<StartRecord>, NoMemory> {
    let ends = [
        StartEnd::Ran(Ended::Returned(0)),
        StartEnd::Ran(Ended::Returned(0x8000_0000_0000_0005)),
        StartEnd::Ran(Ended::Denied(Why::Quota, 0x8000_4010)),
        StartEnd::Ran(Ended::Denied(Why::Rule(12), 0x8000_4011)),
        StartEnd::Ran(Ended::Fuel(0x8000_011a)),
        StartEnd::Ran(Ended::Fault(FaultKind::Encoding, 0x8000_0100)),
        StartEnd::Ran(Ended::Fault(FaultKind::Divide, 0x8000_0102)),
        StartEnd::Ran(Ended::Fault(FaultKind::Alignment, 0x8000_0103)),
        StartEnd::Ran(Ended::Fault(FaultKind::Break, 0x8000_0104)),
        StartEnd::Ran(Ended::Fault(FaultKind::NativeCall, 0x8000_0106)),
        StartEnd::NoPages,
        StartEnd::TooMany,
    ];
    let mut starts = List::new(alloc);
    let mut round = 1u32;
    for ended in ends {
        starts.push(start(alloc, FIRST, round, ended))?;
        round = round.saturating_add(1);
    }
    Ok(starts)
}

#[test]
fn ends_of_starts(rt: HostRuntime) -> Result<(), Fail> {
    let alloc = rt.alloc();
    let starts = starts_of_ends(alloc)?;
    let parts = Parts {
        starts: Some(&starts),
        ..Parts::none()
    };
    let text = report(alloc, &parts)?;
    assert_eq!(rt;
        text.as_slice(),
        b"policy none fuel 65536
start 4d4d5631-0001-4000-8000-000000000001 round 1 returned 0000000000000000
start 4d4d5631-0001-4000-8000-000000000001 round 2 returned 8000000000000005
start 4d4d5631-0001-4000-8000-000000000001 round 3 denied quota at 0000000080004010
start 4d4d5631-0001-4000-8000-000000000001 round 4 denied rule 12 at 0000000080004011
start 4d4d5631-0001-4000-8000-000000000001 round 5 fuel at 000000008000011a
start 4d4d5631-0001-4000-8000-000000000001 round 6 fault encoding at 0000000080000100
start 4d4d5631-0001-4000-8000-000000000001 round 7 fault divide at 0000000080000102
start 4d4d5631-0001-4000-8000-000000000001 round 8 fault alignment at 0000000080000103
start 4d4d5631-0001-4000-8000-000000000001 round 9 fault break at 0000000080000104
start 4d4d5631-0001-4000-8000-000000000001 round 10 fault nativecall at 0000000080000106
start 4d4d5631-0001-4000-8000-000000000001 round 11 nopages
start 4d4d5631-0001-4000-8000-000000000001 round 12 toomany
"
            .as_slice()
    );
    Ok(())
}

/// A start that was denied, and wrote to cells, and one that was neither.
fn starts_with_records(alloc: Global) -> Result<List<StartRecord>, NoMemory> {
    let ended = StartEnd::Ran(Ended::Denied(Why::NoRule, 0x8000_0100));
    let mut first = start(alloc, SECOND, 1, ended);
    let denied = [
        (Kind::Io, Right::Read, 0x70, 1, Why::NoRule),
        (Kind::Memory, Right::Write, 0x8000_4fff, 2, Why::Mmram),
        (Kind::Memory, Right::Read, 0xfd00_0000, 8, Why::Buffer),
        (Kind::Memory, Right::Execute, 0xfe00_0000, 2, Why::Range),
        (Kind::Msr, Right::Write, 0xc000_0080, 1, Why::Rule(1023)),
    ];
    for (kind, right, at, n, why) in denied {
        first.denials.push(Denial {
            kind,
            right,
            at,
            n,
            why,
        })?;
    }
    let written = [
        (Kind::Io, 0xb2, 1, 5),
        (Kind::Msr, 0xc000_0080, 1, 0x500),
        (Kind::Memory, 0xfe00_0010, 4, 0xdead_beef),
    ];
    for (kind, at, n, value) in written {
        first.writes.push(CellWrite { kind, at, n, value })?;
    }
    let mut starts = List::new(alloc);
    starts.push(first)?;
    starts.push(start(alloc, FIRST, 2, StartEnd::Ran(Ended::Returned(0))))?;
    Ok(starts)
}

/// A policy of these many rules.
fn policy_of(alloc: Global, rules: u32, fuel: u32) -> Result<Policy, NoMemory> {
    let mut list = List::new(alloc);
    for base in 0..rules {
        list.push(Rule {
            kind: Kind::Io,
            allow: true,
            rights: 1,
            owner: Guid([0; 16]),
            range: Range {
                base: u64::from(base),
                length: 1,
            },
        })?;
    }
    Ok(Policy { rules: list, fuel })
}

#[test]
fn policy_and_records(rt: HostRuntime) -> Result<(), Fail> {
    let alloc = rt.alloc();
    let policy = policy_of(alloc, 2, 4_096)?;
    let starts = starts_with_records(alloc)?;
    let parts = Parts {
        policy: Some(&policy),
        starts: Some(&starts),
        ..Parts::none()
    };
    let text = report(alloc, &parts)?;
    assert_eq!(rt;
        text.as_slice(),
        b"policy rules 2 fuel 4096
start aaaaaaaa-aaaa-aaaa-aaaa-aaaaaaaaaaaa round 1 denied norule at 0000000080000100
  deny io read 0000000000000070 1 norule
  deny mem write 0000000080004fff 2 mmram
  deny mem read 00000000fd000000 8 buffer
  deny mem exec 00000000fe000000 2 range
  deny msr write 00000000c0000080 1 rule 1023
  write io 00000000000000b2 1 0000000000000005
  write msr 00000000c0000080 1 0000000000000500
  write mem 00000000fe000010 4 00000000deadbeef
start 4d4d5631-0001-4000-8000-000000000001 round 2 returned 0000000000000000
"
            .as_slice()
    );
    Ok(())
}

/// The two names.
fn names(alloc: Global) -> Result<List<Guid>, NoMemory> {
    let mut names = List::new(alloc);
    names.push(SECOND)?;
    names.push(FIRST)?;
    Ok(names)
}

#[test]
fn waiting_and_locked(rt: HostRuntime) -> Result<(), Fail> {
    let alloc = rt.alloc();
    let policy = policy_of(alloc, 1, 1_000_000)?;
    let waiting = names(alloc)?;
    let locked = Locked {
        names: names(alloc)?,
        handlers: 64,
        protocols: 12,
    };
    // a policy is told only where starts are, and images only where there are flags
    let parts = Parts {
        policy: Some(&policy),
        waiting: Some(&waiting),
        locked: Some(&locked),
        ..Parts::none()
    };
    let text = report(alloc, &parts)?;
    assert_eq!(rt;
        text.as_slice(),
        b"waiting aaaaaaaa-aaaa-aaaa-aaaa-aaaaaaaaaaaa
waiting 4d4d5631-0001-4000-8000-000000000001
locked images 2 handlers 64 protocols 12
"
            .as_slice()
    );
    Ok(())
}

#[test]
fn a_boot_of_an_empty_volume(rt: HostRuntime) -> Result<(), Fail> {
    let alloc = rt.alloc();
    let volume = Volume {
        length: 72,
        ffs3: false,
        files: List::new(alloc),
    };
    let words = List::new(alloc);
    let starts = List::new(alloc);
    let waiting = List::new(alloc);
    let locked = Locked {
        names: List::new(alloc),
        handlers: 0,
        protocols: 0,
    };
    let closed = List::new(alloc);
    let parts = Parts {
        volume: Some(&volume),
        words: Some(&words),
        starts: Some(&starts),
        waiting: Some(&waiting),
        locked: Some(&locked),
        closed: Some(&closed),
        ..Parts::none()
    };
    let text = report(alloc, &parts)?;
    assert_eq!(rt;
        text.as_slice(),
        b"volume 00000048 ffs2 files 0
policy none fuel 65536
locked images 0 handlers 0 protocols 0
"
            .as_slice()
    );
    Ok(())
}

#[test]
fn images_by_number(rt: HostRuntime) -> Result<(), Fail> {
    let alloc = rt.alloc();
    let locked = Locked {
        names: List::from_slice(alloc, &[SECOND, FIRST, THIRD])?,
        handlers: 5,
        protocols: 0,
    };
    let closed = List::from_slice(alloc, &[true, false, true])?;
    let lanes = lane_of(alloc, &[24, 0, 0x0807_0605_0403_0201])?;
    let parts = Parts {
        locked: Some(&locked),
        closed: Some(&closed),
        lanes: Some(&lanes),
        ..Parts::none()
    };
    let text = report(alloc, &parts)?;
    assert_eq!(rt;
        text.as_slice(),
        b"locked images 3 handlers 5 protocols 0
image 0 aaaaaaaa-aaaa-aaaa-aaaa-aaaaaaaaaaaa closed
image 1 4d4d5631-0001-4000-8000-000000000001 open
image 2 aaaaaaaa-0000-0000-0000-000000000001 closed
lane 0 length 0000000000000018 status 0000000000000000 data 0102030405060708
"
            .as_slice()
    );
    Ok(())
}
