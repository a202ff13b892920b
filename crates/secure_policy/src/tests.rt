//! Verdicts on two images. What is expected was worked out by hand from the rules; numbers of places are hexadecimal.
ghost use Rattle.std.specs.Prelude.{IsTrue, All};
ghost use Rattle.mm_base.specs.Policies.{IsRule};
ghost use Rattle.std.specs.Prelude.{◌≡◌, length};
ghost use Rattle.secure_policy.specs.TestHomes.{is_data_of_test};

use crate::Guard;
use mm_base::{Guid, Homes, Kind, List, NoMemory, Policy, Range, Right, Rule, Verdict, Why};
use std::alloc::Global;
use std::test::Fail;

/// The names of the two images, and the owner of rules for all.
const A: Guid = Guid([0xaa; 16]);

const B: Guid = Guid([0xbb; 16]);

const ALL: Guid = Guid([0; 16]);

/// What is home to the first image, whose region begins at 80000000 and has one page of its own bytes: code, the stack, and the
/// communicate page.
const CODE: Range = Range {
    base: 0x8000_0000,
    length: 0x100,
};

const STACK: Range = Range {
    base: 0x8000_1000,
    length: 0x4000,
};

const COMMUNICATE: Range = Range {
    base: 0x8000_5000,
    length: 0x1000,
};

/// Two images. The first has homes; the second has a name alone.
struct TwoImages;

impl Homes for TwoImages {
    ghost use Rattle.secure_policy.specs.TestHomes.{is_home_of_test, name_of_test};

    ghost is_home = { λ _ image range right. is_home_of_test image range right };

    ghost name_of = { λ _ image. name_of_test image };

    fn home(&self, image: u32, range: Range, right: Right) -> bool {
        image == 0
            && match right {
                Right::Read => CODE.covers(&range) || is_data(&range),
                Right::Write => is_data(&range),
                Right::Execute => CODE.covers(&range),
            }
    }

    fn owner(&self, image: u32) -> Guid {
        match image {
            0 => A,
            1 => B,
            _ => ALL,
        }
    }
}

/// Whether the first image may read and write a range.
fn is_data(range: &Range) -> bool
    ensures { result ≡ is_data_of_test range.now }
{
    STACK.covers(range) || COMMUNICATE.covers(range)
}

/// There are 16 of them: a reference to an array tells it, and one to a rule doesn't.
fn are_sixteen(bytes: &[u8; 16])
    ensures { length bytes.now ≡ 16 }
{}

/// Whether a rule is lawful.
fn is_lawful(rule: &Rule) -> bool
    ensures { IsTrue result → IsRule rule.now }
{
    let rights = if rule.allow {
        1 <= rule.rights && rule.rights <= 3
    } else {
        rule.rights == 0
    };
    are_sixteen(&rule.owner.0);
    rights && rule.range.length >= 1 && rule.range.base <= u64::MAX - (rule.range.length - 1)
}

/// Whether all of them are.
fn are_lawful(rules: &[Rule]) -> bool
    ensures { IsTrue result → All IsRule rules.now }
{
    rules.iter().all(is_lawful)
}

/// A guard that decides by these rules; None where they are not lawful.
fn guard_of(alloc: Global, rules: &[Rule]) -> Result<Option<Guard>, NoMemory> {
    if rules.len() > 1024 || !are_lawful(rules) {
        return Ok(None);
    }
    let rules = List::from_slice(alloc, rules)?;
    let guard = Guard::new(
        alloc,
        Policy {
            rules,
            fuel: 65_536,
        },
    )?;
    Ok(Some(guard))
}

/// A rule of a kind.
fn rule(kind: Kind, rights: u8, owner: Guid, base: u64, length: u64) -> Rule {
    Rule {
        kind,
        allow: rights != 0,
        rights,
        owner,
        range: Range { base, length },
    }
}

/// An access: image, kind, base, units and right; and the verdict on it.
type Access = (u32, Kind, u64, u8, Right, Verdict);

/// The first access with another verdict.
fn first_wrong(guard: &Guard, accesses: &[Access]) -> Option<Access> {
    for access in accesses {
        let (image, kind, base, n, right, verdict) = *access;
        if guard.decide(&TwoImages, image, kind, base, n, right, 0) != verdict {
            return Some(*access);
        }
    }
    None
}

const NOWHERE: Verdict = Verdict::Deny(Why::Range);

const BUFFER: Verdict = Verdict::Deny(Why::Buffer);

const MMRAM: Verdict = Verdict::Deny(Why::Mmram);

const HOME: Verdict = Verdict::Pass(Why::Home);

const NO_RULE: Verdict = Verdict::Deny(Why::NoRule);

/// Reads and writes of two ports for the first image, and a denial of sixteen for all.
fn port_rules() -> [Rule; 2] {
    [
        rule(Kind::Io, 3, A, 0x70, 2),
        rule(Kind::Io, 0, ALL, 0x70, 16),
    ]
}

const PORT_ACCESSES: [Access; 10] = [
    (
        0,
        Kind::Io,
        0x70,
        1,
        Right::Read,
        Verdict::Pass(Why::Rule(0)),
    ),
    (
        0,
        Kind::Io,
        0x70,
        2,
        Right::Write,
        Verdict::Pass(Why::Rule(0)),
    ),
    (
        0,
        Kind::Io,
        0x70,
        1,
        Right::Execute,
        Verdict::Deny(Why::Rule(0)),
    ),
    (
        0,
        Kind::Io,
        0x71,
        2,
        Right::Read,
        Verdict::Deny(Why::Rule(0)),
    ),
    (
        0,
        Kind::Io,
        0x6f,
        2,
        Right::Read,
        Verdict::Deny(Why::Rule(0)),
    ),
    (
        0,
        Kind::Io,
        0x72,
        1,
        Right::Read,
        Verdict::Deny(Why::Rule(1)),
    ),
    (
        1,
        Kind::Io,
        0x70,
        1,
        Right::Read,
        Verdict::Deny(Why::Rule(1)),
    ),
    (0, Kind::Io, 0x80, 1, Right::Read, NO_RULE),
    (0, Kind::Io, 0xffff, 2, Right::Read, NOWHERE),
    (0, Kind::Msr, 0x70, 1, Right::Read, NO_RULE),
];

#[test]
fn ports_by_rules(rt: HostRuntime) -> Result<(), Fail> {
    let guard = guard_of(rt.alloc(), &port_rules())?.ok_or("unlawful rules")?;
    assert_eq!(rt; first_wrong(&guard, &PORT_ACCESSES), None);
    let policy = guard.policy();
    assert_eq!(rt;
        (
            policy.fuel,
            policy.rules.as_slice() == port_rules().as_slice()
        ),
        (65_536, true)
    );
    Ok(())
}

/// Accesses to memory by the first image: base, bytes, and the verdicts on a read, a write and an execution.
const BYTES: [(u64, u8, Verdict, Verdict, Verdict); 34] = [
    (0x1000, 1, NOWHERE, NOWHERE, NOWHERE),
    (0x3fff_ffff, 1, NOWHERE, NOWHERE, NOWHERE),
    (0x3fff_ffff, 2, BUFFER, BUFFER, BUFFER),
    (0x4000_0000, 1, BUFFER, BUFFER, BUFFER),
    (0x400f_ffff, 1, BUFFER, BUFFER, BUFFER),
    (0x400f_ffff, 8, BUFFER, BUFFER, BUFFER),
    (0x4010_0000, 1, NOWHERE, NOWHERE, NOWHERE),
    (0x7fff_ffff, 1, NOWHERE, NOWHERE, NOWHERE),
    (0x7fff_ffff, 2, MMRAM, MMRAM, MMRAM),
    (0x8000_0000, 1, HOME, MMRAM, HOME),
    (0x8000_00ff, 1, HOME, MMRAM, HOME),
    (0x8000_00ff, 2, MMRAM, MMRAM, MMRAM),
    (0x8000_0100, 1, MMRAM, MMRAM, MMRAM),
    (0x8000_0fff, 2, MMRAM, MMRAM, MMRAM),
    (0x8000_1000, 8, HOME, HOME, MMRAM),
    (0x8000_4fff, 1, HOME, HOME, MMRAM),
    (0x8000_4fff, 2, MMRAM, MMRAM, MMRAM),
    (0x8000_5000, 4, HOME, HOME, MMRAM),
    (0x8000_5ff8, 8, HOME, HOME, MMRAM),
    (0x8000_5ff9, 8, MMRAM, MMRAM, MMRAM),
    (0x8000_6000, 1, MMRAM, MMRAM, MMRAM),
    (0x81ff_ffff, 1, MMRAM, MMRAM, MMRAM),
    (0x81ff_ffff, 2, MMRAM, MMRAM, MMRAM),
    (0x8200_0000, 1, NOWHERE, NOWHERE, NOWHERE),
    (0xfdff_ffff, 2, NOWHERE, NOWHERE, NOWHERE),
    (0xfe00_0000, 1, NO_RULE, NO_RULE, NO_RULE),
    (0xfe00_ffff, 1, NO_RULE, NO_RULE, NO_RULE),
    (0xfe00_ffff, 2, NOWHERE, NOWHERE, NOWHERE),
    (0xffff_ffff_ffff_fffc, 8, NOWHERE, NOWHERE, NOWHERE),
    (0xffff_ffff_ffff_ffff, 1, NOWHERE, NOWHERE, NOWHERE),
    (0x8000_0000, 0, NOWHERE, NOWHERE, NOWHERE),
    (0xfe00_0000, 0, NO_RULE, NO_RULE, NO_RULE),
    (0xfe01_0000, 0, NO_RULE, NO_RULE, NO_RULE),
    (0xfe01_0001, 0, NOWHERE, NOWHERE, NOWHERE),
];

/// The first base and width whose verdicts are others.
fn first_wrong_bytes(guard: &Guard) -> Option<(u64, u8)> {
    for (base, n, read, write, execute) in BYTES {
        let accesses = [
            (0, Kind::Memory, base, n, Right::Read, read),
            (0, Kind::Memory, base, n, Right::Write, write),
            (0, Kind::Memory, base, n, Right::Execute, execute),
        ];
        if first_wrong(guard, &accesses).is_some() {
            return Some((base, n));
        }
    }
    None
}

/// On both sides of each edge of the map: a kind, a base, and the first of the widths 1, 2, 4 and 8 at which an access from there
/// lies nowhere (9 where none does). Where it doesn't lie nowhere it lies on cells.
const EDGES: [(Kind, u64, u8); 29] = [
    (Kind::Memory, 0xfdff_ffff, 1),
    (Kind::Memory, 0xfe00_0000, 9),
    (Kind::Memory, 0xfe00_fff8, 9),
    (Kind::Memory, 0xfe00_fff9, 8),
    (Kind::Memory, 0xfe00_fffd, 4),
    (Kind::Memory, 0xfe00_ffff, 2),
    (Kind::Memory, 0xfe01_0000, 1),
    (Kind::Io, 0, 9),
    (Kind::Io, 0xfff8, 9),
    (Kind::Io, 0xfffc, 8),
    (Kind::Io, 0xfffe, 4),
    (Kind::Io, 0xffff, 2),
    (Kind::Io, 0x1_0000, 1),
    (Kind::Io, 0xffff_ffff_ffff_ffff, 1),
    (Kind::Msr, 0, 9),
    (Kind::Msr, 0x1ff8, 9),
    (Kind::Msr, 0x1fff, 2),
    (Kind::Msr, 0x2000, 1),
    (Kind::Msr, 0xbfff_ffff, 1),
    (Kind::Msr, 0xc000_0000, 9),
    (Kind::Msr, 0xc000_1ffe, 4),
    (Kind::Msr, 0xc000_1fff, 2),
    (Kind::Msr, 0xc000_2000, 1),
    (Kind::Saved, 0, 9),
    (Kind::Saved, 11, 9),
    (Kind::Saved, 12, 8),
    (Kind::Saved, 17, 4),
    (Kind::Saved, 18, 2),
    (Kind::Saved, 19, 1),
];

/// A rule for each kind that lets all units be read, and none written.
fn read_all() -> [Rule; 4] {
    [
        rule(Kind::Memory, 1, ALL, 0, 0xffff_ffff_ffff_ffff),
        rule(Kind::Io, 1, ALL, 0, 0xffff_ffff_ffff_ffff),
        rule(Kind::Msr, 1, ALL, 0, 0xffff_ffff_ffff_ffff),
        rule(Kind::Saved, 1, ALL, 0, 0xffff_ffff_ffff_ffff),
    ]
}

/// The number of the rule for a kind.
fn number_of(kind: Kind) -> u32 {
    match kind {
        Kind::Memory => 0,
        Kind::Io => 1,
        Kind::Msr => 2,
        Kind::Saved => 3,
    }
}

/// The first edge and width with another verdict, by no rule or by the rules that let all be read.
fn first_wrong_edge(none: &Guard, all: &Guard) -> Option<(Kind, u64, u8)> {
    for (kind, base, nowhere_from) in EDGES {
        let why = Why::Rule(number_of(kind));
        for n in [1u8, 2, 4, 8] {
            let lies = n < nowhere_from;
            let unruled = if lies { NO_RULE } else { NOWHERE };
            let read = if lies { Verdict::Pass(why) } else { NOWHERE };
            let other = if lies { Verdict::Deny(why) } else { NOWHERE };
            let without = [
                (0, kind, base, n, Right::Read, unruled),
                (1, kind, base, n, Right::Write, unruled),
                (2, kind, base, n, Right::Execute, unruled),
            ];
            let with = [
                (0, kind, base, n, Right::Read, read),
                (1, kind, base, n, Right::Write, other),
                (2, kind, base, n, Right::Execute, other),
            ];
            if first_wrong(none, &without).is_some() || first_wrong(all, &with).is_some() {
                return Some((kind, base, n));
            }
        }
    }
    None
}

#[test]
fn edges_of_the_map(rt: HostRuntime) -> Result<(), Fail> {
    let none = guard_of(rt.alloc(), &[])?.ok_or("no rules are unlawful")?;
    assert_eq!(rt; first_wrong_bytes(&none), None);
    let all = guard_of(rt.alloc(), &read_all())?.ok_or("unlawful rules")?;
    assert_eq!(rt; first_wrong_edge(&none, &all), None);
    Ok(())
}

const READ_BY_0: Verdict = Verdict::Pass(Why::Rule(0));

const DENIED_BY_1: Verdict = Verdict::Deny(Why::Rule(1));

const READ_BY_2: Verdict = Verdict::Pass(Why::Rule(2));

/// The owners of three rules that overlap, and the verdicts on a read of the first image and of the second.
const OWNERS: [([Guid; 3], Verdict, Verdict); 27] = [
    ([A, A, A], READ_BY_0, NO_RULE),
    ([A, A, B], READ_BY_0, READ_BY_2),
    ([A, A, ALL], READ_BY_0, READ_BY_2),
    ([A, B, A], READ_BY_0, DENIED_BY_1),
    ([A, B, B], READ_BY_0, DENIED_BY_1),
    ([A, B, ALL], READ_BY_0, DENIED_BY_1),
    ([A, ALL, A], READ_BY_0, DENIED_BY_1),
    ([A, ALL, B], READ_BY_0, DENIED_BY_1),
    ([A, ALL, ALL], READ_BY_0, DENIED_BY_1),
    ([B, A, A], DENIED_BY_1, READ_BY_0),
    ([B, A, B], DENIED_BY_1, READ_BY_0),
    ([B, A, ALL], DENIED_BY_1, READ_BY_0),
    ([B, B, A], READ_BY_2, READ_BY_0),
    ([B, B, B], NO_RULE, READ_BY_0),
    ([B, B, ALL], READ_BY_2, READ_BY_0),
    ([B, ALL, A], DENIED_BY_1, READ_BY_0),
    ([B, ALL, B], DENIED_BY_1, READ_BY_0),
    ([B, ALL, ALL], DENIED_BY_1, READ_BY_0),
    ([ALL, A, A], READ_BY_0, READ_BY_0),
    ([ALL, A, B], READ_BY_0, READ_BY_0),
    ([ALL, A, ALL], READ_BY_0, READ_BY_0),
    ([ALL, B, A], READ_BY_0, READ_BY_0),
    ([ALL, B, B], READ_BY_0, READ_BY_0),
    ([ALL, B, ALL], READ_BY_0, READ_BY_0),
    ([ALL, ALL, A], READ_BY_0, READ_BY_0),
    ([ALL, ALL, B], READ_BY_0, READ_BY_0),
    ([ALL, ALL, ALL], READ_BY_0, READ_BY_0),
];

/// The place of the first row with another verdict.
fn first_wrong_owner(alloc: Global) -> Result<Option<usize>, NoMemory> {
    for (row, (owners, first, second)) in OWNERS.into_iter().enumerate() {
        let [zero, one, two] = owners;
        let rules = [
            rule(Kind::Io, 1, zero, 0x80, 4),
            rule(Kind::Io, 0, one, 0x7f, 2),
            rule(Kind::Io, 3, two, 0, 0x1_0000),
        ];
        let accesses = [
            (0, Kind::Io, 0x80, 1, Right::Read, first),
            (1, Kind::Io, 0x80, 1, Right::Read, second),
        ];
        match guard_of(alloc, &rules)? {
            Some(guard) if first_wrong(&guard, &accesses).is_none() => {}
            _ => return Ok(Some(row)),
        }
    }
    Ok(None)
}

#[test]
fn owners_of_three_rules(rt: HostRuntime) -> Result<(), Fail> {
    assert_eq!(rt; first_wrong_owner(rt.alloc())?, None);
    Ok(())
}
