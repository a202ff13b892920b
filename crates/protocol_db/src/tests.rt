//! Calls one after another with what each answers, worked out by hand from the rules; and some thousand calls beside a plain list.
ghost use Rattle.std.specs.Prelude.{◌<◌};

use crate::{FindEnd, InstallEnd, ProtocolDb, Row, UninstallEnd};
use mm_base::Guid;
use std::alloc::Global;
use std::test::Fail;

const G1: Guid = Guid([1; 16]);

const G2: Guid = Guid([2; 16]);

const G3: Guid = Guid([3; 16]);

/// A call, with its arguments in the order of the database's own.
#[derive(Clone, Copy, Debug)]
enum Call {
    Install(u64, Guid, u64, u32),
    Uninstall(u64, Guid, u64, u32),
    HandleProtocol(u64, Guid),
    LocateHandle(Guid, u64),
    LocateProtocol(Guid),
    Has(Guid),
    Forget(u32),
    Freeze,
    Rows,
    Next,
}

/// What a call answers.
#[derive(Clone, Copy, Debug, PartialEq, Eq)]
enum Answer {
    Number(u64),
    Truth(bool),
    Done,
    Nothing,
    Frozen,
    NoHandle,
    NoProtocol,
    Duplicate,
    Quota,
    NotMine,
    NoMemory,
}

fn installed(told: Result<u64, InstallEnd>) -> Answer {
    match told {
        Ok(handle) => Answer::Number(handle),
        Err(InstallEnd::Frozen) => Answer::Frozen,
        Err(InstallEnd::NoHandle) => Answer::NoHandle,
        Err(InstallEnd::Duplicate) => Answer::Duplicate,
        Err(InstallEnd::Quota) => Answer::Quota,
        Err(InstallEnd::NoMemory(_)) => Answer::NoMemory,
    }
}

fn uninstalled(told: Result<(), UninstallEnd>) -> Answer {
    match told {
        Ok(()) => Answer::Done,
        Err(UninstallEnd::Frozen) => Answer::Frozen,
        Err(UninstallEnd::NoProtocol) => Answer::NoProtocol,
        Err(UninstallEnd::NotMine) => Answer::NotMine,
    }
}

fn found(told: Result<u64, FindEnd>) -> Answer {
    match told {
        Ok(interface) => Answer::Number(interface),
        Err(FindEnd::NoHandle) => Answer::NoHandle,
        Err(FindEnd::NoProtocol) => Answer::NoProtocol,
    }
}

fn located(told: Option<u64>) -> Answer {
    match told {
        Some(number) => Answer::Number(number),
        None => Answer::Nothing,
    }
}

/// Forgets an image, and leaves the next handle.
fn forget(db: &mut ProtocolDb, owner: u32) {
    let next = db.next();
    db.forget(owner, next);
}

fn ask(db: &mut ProtocolDb, call: Call) -> Answer {
    match call {
        Call::Install(handle, guid, interface, owner) => {
            installed(db.install(handle, guid, interface, owner))
        }
        Call::Uninstall(handle, guid, interface, owner) => {
            uninstalled(db.uninstall(handle, guid, interface, owner))
        }
        Call::HandleProtocol(handle, guid) => found(db.handle_protocol(handle, guid)),
        Call::LocateHandle(guid, index) => located(db.locate_handle(guid, index)),
        Call::LocateProtocol(guid) => located(db.locate_protocol(guid)),
        Call::Has(guid) => Answer::Truth(db.has(guid)),
        Call::Forget(owner) => {
            forget(db, owner);
            Answer::Done
        }
        Call::Freeze => {
            db.freeze();
            Answer::Done
        }
        Call::Rows => Answer::Number(db.rows() as u64),
        Call::Next => Answer::Number(db.next()),
    }
}

/// The place of the first call of which the database answers otherwise.
fn first_wrong(db: &mut ProtocolDb, calls: &[(Call, Answer)]) -> Option<usize> {
    for (place, (call, expected)) in calls.iter().enumerate() {
        if ask(db, *call) != *expected {
            return Some(place);
        }
    }
    None
}

const FIRST_CALLS: &[(Call, Answer)] = &[
    (Call::Rows, Answer::Number(0)),
    (Call::Next, Answer::Number(256)),
    (Call::Install(0, G1, 5, 0), Answer::Number(256)),
    (Call::Install(256, G1, 5, 0), Answer::Duplicate),
    (Call::Install(300, G1, 5, 0), Answer::NoHandle),
    (Call::LocateProtocol(G1), Answer::Number(5)),
    (Call::LocateHandle(G1, 1), Answer::Nothing),
    (Call::Freeze, Answer::Done),
    (Call::Install(0, G2, 6, 0), Answer::Frozen),
    (Call::Has(G1), Answer::Truth(true)),
    (Call::Has(G2), Answer::Truth(false)),
    (Call::Rows, Answer::Number(1)),
];

/// What `install` refuses: each cause by itself, and the earlier one where two of them hold.
const REFUSED_INSTALLS: &[(Call, Answer)] = &[
    (Call::Install(0, G1, 5, 1), Answer::Number(256)),
    (Call::Install(256, G2, 6, 2), Answer::Number(256)),
    (Call::Install(257, G1, 5, 1), Answer::NoHandle),
    (Call::Install(255, G1, 5, 1), Answer::NoHandle),
    (
        Call::Install(0xffff_ffff_ffff_ffff, G1, 5, 1),
        Answer::NoHandle,
    ),
    (Call::Install(256, G1, 9, 3), Answer::Duplicate),
    (Call::Install(256, G2, 9, 1), Answer::Duplicate),
    (Call::Rows, Answer::Number(2)),
    (Call::Next, Answer::Number(257)),
    // The same GUID on another handle is no duplicate.
    (Call::Install(0, G1, 5, 1), Answer::Number(257)),
    (Call::Install(257, G2, 5, 1), Answer::Number(257)),
    (Call::LocateHandle(G2, 1), Answer::Number(257)),
    (Call::Freeze, Answer::Done),
    (Call::Install(999, G1, 5, 1), Answer::Frozen),
    (Call::Install(256, G1, 5, 1), Answer::Frozen),
    (Call::Install(256, G3, 5, 1), Answer::Frozen),
    (Call::Rows, Answer::Number(4)),
    (Call::Next, Answer::Number(258)),
];

/// What is refused to image 7 after it installed 16 interfaces, on the handles 256 to 271 for the first GUID.
const AT_THE_LIMIT: &[(Call, Answer)] = &[
    (Call::Install(0, G1, 5, 7), Answer::Quota),
    (Call::Install(256, G2, 5, 7), Answer::Quota),
    (Call::Install(256, G1, 5, 7), Answer::Duplicate),
    (Call::Install(272, G2, 5, 7), Answer::NoHandle),
    (Call::Rows, Answer::Number(16)),
    (Call::Next, Answer::Number(272)),
    // Another image has a limit of its own.
    (Call::Install(256, G2, 5, 8), Answer::Number(256)),
    (Call::Uninstall(256, G2, 5, 8), Answer::Done),
    (Call::Install(256, G2, 5, 7), Answer::Quota),
    // One that is gone makes place for one more, and no handle comes back.
    (Call::Uninstall(271, G1, 5, 7), Answer::Done),
    (Call::Install(0, G1, 5, 7), Answer::Number(272)),
    (Call::Install(0, G1, 5, 7), Answer::Quota),
    (Call::HandleProtocol(271, G1), Answer::NoHandle),
];

/// What `uninstall` refuses: each cause by itself, and the earlier one where two of them hold.
const REFUSED_UNINSTALLS: &[(Call, Answer)] = &[
    (Call::Install(0, G1, 5, 1), Answer::Number(256)),
    (Call::Install(256, G2, 6, 2), Answer::Number(256)),
    (Call::Uninstall(257, G1, 5, 1), Answer::NoProtocol),
    (Call::Uninstall(0, G1, 5, 1), Answer::NoProtocol),
    (Call::Uninstall(256, G3, 5, 1), Answer::NoProtocol),
    (Call::Uninstall(256, G1, 6, 1), Answer::NoProtocol),
    (Call::Uninstall(256, G1, 6, 2), Answer::NoProtocol),
    (Call::Uninstall(256, G1, 5, 2), Answer::NotMine),
    (Call::Uninstall(256, G2, 6, 1), Answer::NotMine),
    (Call::Rows, Answer::Number(2)),
    (Call::Uninstall(256, G1, 5, 1), Answer::Done),
    (Call::Uninstall(256, G1, 5, 1), Answer::NoProtocol),
    (Call::Rows, Answer::Number(1)),
    (Call::Next, Answer::Number(257)),
    (Call::Freeze, Answer::Done),
    (Call::Uninstall(256, G1, 5, 1), Answer::Frozen),
    (Call::Uninstall(256, G2, 6, 1), Answer::Frozen),
    (Call::Uninstall(256, G2, 6, 2), Answer::Frozen),
    (Call::Rows, Answer::Number(1)),
];

/// A handle is there as long as it has an interface, and doesn't come back.
const HANDLES_THAT_GO: &[(Call, Answer)] = &[
    (Call::HandleProtocol(256, G1), Answer::NoHandle),
    (Call::HandleProtocol(0, G1), Answer::NoHandle),
    (Call::Install(0, G1, 5, 1), Answer::Number(256)),
    (Call::HandleProtocol(256, G1), Answer::Number(5)),
    (Call::HandleProtocol(256, G2), Answer::NoProtocol),
    (Call::HandleProtocol(257, G1), Answer::NoHandle),
    (Call::Install(256, G2, 6, 1), Answer::Number(256)),
    (Call::Uninstall(256, G1, 5, 1), Answer::Done),
    (Call::HandleProtocol(256, G1), Answer::NoProtocol),
    (Call::HandleProtocol(256, G2), Answer::Number(6)),
    (Call::Uninstall(256, G2, 6, 1), Answer::Done),
    (Call::HandleProtocol(256, G2), Answer::NoHandle),
    (Call::Install(256, G1, 5, 1), Answer::NoHandle),
    (Call::Rows, Answer::Number(0)),
    (Call::Install(0, G1, 7, 1), Answer::Number(257)),
    (Call::Freeze, Answer::Done),
    (Call::HandleProtocol(257, G1), Answer::Number(7)),
    (Call::LocateProtocol(G1), Answer::Number(7)),
];

/// A GUID has an interface as long as one of its is left, whichever goes first, also where an image is forgotten.
const GUIDS_THAT_GO: &[(Call, Answer)] = &[
    (Call::Has(G1), Answer::Truth(false)),
    (Call::Install(0, G1, 5, 1), Answer::Number(256)),
    (Call::Has(G1), Answer::Truth(true)),
    (Call::Has(G2), Answer::Truth(false)),
    (Call::Install(0, G1, 6, 2), Answer::Number(257)),
    (Call::Install(0, G1, 7, 2), Answer::Number(258)),
    (Call::Install(256, G2, 8, 2), Answer::Number(256)),
    (Call::Install(256, G2, 9, 1), Answer::Duplicate),
    (Call::Uninstall(256, G1, 5, 2), Answer::NotMine),
    (Call::Uninstall(256, G1, 5, 1), Answer::Done),
    (Call::Has(G1), Answer::Truth(true)),
    (Call::Uninstall(256, G1, 5, 1), Answer::NoProtocol),
    (Call::Uninstall(257, G1, 6, 2), Answer::Done),
    (Call::Has(G1), Answer::Truth(true)),
    (Call::Uninstall(258, G1, 7, 2), Answer::Done),
    (Call::Has(G1), Answer::Truth(false)),
    (Call::Install(256, G1, 5, 2), Answer::Number(256)),
    (Call::Install(0, G1, 6, 1), Answer::Number(259)),
    (Call::Install(0, G3, 6, 2), Answer::Number(260)),
    (Call::Forget(2), Answer::Done),
    (Call::Has(G1), Answer::Truth(true)),
    (Call::Has(G2), Answer::Truth(false)),
    (Call::Has(G3), Answer::Truth(false)),
    (Call::Freeze, Answer::Done),
    (Call::Has(G1), Answer::Truth(true)),
    (Call::Forget(1), Answer::Done),
    (Call::Has(G1), Answer::Truth(false)),
];

/// Interfaces keep their order where one in the middle goes, and where an image's go.
const KEPT_ORDER: &[(Call, Answer)] = &[
    (Call::Install(0, G1, 10, 1), Answer::Number(256)),
    (Call::Install(0, G2, 11, 2), Answer::Number(257)),
    (Call::Install(0, G1, 12, 1), Answer::Number(258)),
    (Call::Install(257, G1, 13, 2), Answer::Number(257)),
    (Call::Install(0, G1, 14, 3), Answer::Number(259)),
    (Call::LocateHandle(G1, 0), Answer::Number(256)),
    (Call::LocateHandle(G1, 1), Answer::Number(258)),
    (Call::LocateHandle(G1, 2), Answer::Number(257)),
    (Call::LocateHandle(G1, 3), Answer::Number(259)),
    (Call::LocateHandle(G1, 4), Answer::Nothing),
    (
        Call::LocateHandle(G1, 0xffff_ffff_ffff_ffff),
        Answer::Nothing,
    ),
    (Call::LocateHandle(G3, 0), Answer::Nothing),
    (Call::LocateProtocol(G1), Answer::Number(10)),
    (Call::LocateProtocol(G3), Answer::Nothing),
    (Call::Uninstall(258, G1, 12, 1), Answer::Done),
    (Call::LocateHandle(G1, 0), Answer::Number(256)),
    (Call::LocateHandle(G1, 1), Answer::Number(257)),
    (Call::LocateHandle(G1, 2), Answer::Number(259)),
    (Call::LocateHandle(G1, 3), Answer::Nothing),
    (Call::Uninstall(256, G1, 10, 1), Answer::Done),
    (Call::LocateProtocol(G1), Answer::Number(13)),
    (Call::Install(259, G2, 15, 2), Answer::Number(259)),
    (Call::Forget(2), Answer::Done),
    (Call::LocateHandle(G1, 0), Answer::Number(259)),
    (Call::LocateProtocol(G2), Answer::Nothing),
    (Call::HandleProtocol(257, G1), Answer::NoHandle),
    (Call::HandleProtocol(259, G1), Answer::Number(14)),
    (Call::Rows, Answer::Number(1)),
    (Call::Next, Answer::Number(260)),
];

#[test]
fn calls_one_after_another(rt: HostRuntime) -> Result<(), Fail> {
    for calls in [
        FIRST_CALLS,
        REFUSED_INSTALLS,
        REFUSED_UNINSTALLS,
        HANDLES_THAT_GO,
        GUIDS_THAT_GO,
        KEPT_ORDER,
    ] {
        let mut db = ProtocolDb::new(rt.alloc());
        assert_eq!(rt; first_wrong(&mut db, calls), None);
    }
    Ok(())
}

/// Installs as many interfaces for the first GUID, each on a new handle, and tells whether each got the handle that it should.
fn fill(db: &mut ProtocolDb, count: u64) -> bool
    requires { count < 100 }
{
    for k in 0..count {
        if ask(db, Call::Install(0, G1, 5, 7)) != Answer::Number(256 + k) {
            return false;
        }
    }
    true
}

#[test]
fn sixteen_of_an_image(rt: HostRuntime) -> Result<(), Fail> {
    let mut db = ProtocolDb::new(rt.alloc());
    assert!(rt; fill(&mut db, 16));
    assert_eq!(rt; first_wrong(&mut db, AT_THE_LIMIT), None);
    Ok(())
}

/// Forgets an image, and where none is left sets the next handle back; tells whether it did.
fn forget_last(db: &mut ProtocolDb, owner: u32, next: u64) -> bool {
    forget(db, owner);
    if db.rows() != 0 || next > db.next() {
        return false;
    }
    db.forget(owner, next);
    true
}

#[test]
fn sets_the_next_handle_back(rt: HostRuntime) -> Result<(), Fail> {
    let mut db = ProtocolDb::new(rt.alloc());
    let filled = fill(&mut db, 3);
    let frozen = db.frozen();
    let back = forget_last(&mut db, 7, 257);
    let again = ask(&mut db, Call::Install(0, G1, 5, 7));
    db.freeze();
    assert_eq!(rt;
        (filled, frozen, back, again, db.frozen()),
        (true, false, true, Answer::Number(257), true)
    );
    Ok(())
}

/// The same calls over a plain list.
#[derive(Drop)]
struct Plain {
    rows: Vec<Row>,
    next: u64,
}

impl Plain {
    fn install(&mut self, handle: u64, guid: Guid, interface: u64, owner: u32) -> Answer {
        if handle != 0 {
            if !self.rows.iter().any(|row| row.handle == handle) {
                return Answer::NoHandle;
            }
            if self
                .rows
                .iter()
                .any(|row| row.handle == handle && row.guid == guid)
            {
                return Answer::Duplicate;
            }
        }
        if self.rows.iter().filter(|row| row.owner == owner).count() == 16 {
            return Answer::Quota;
        }
        let taken = if handle == 0 { self.next } else { handle };
        let row = Row {
            handle: taken,
            guid,
            interface,
            owner,
        };
        if self.rows.push(row).is_err() {
            return Answer::NoMemory;
        }
        if handle == 0 {
            self.next = self.next.wrapping_add(1);
        }
        Answer::Number(taken)
    }

    fn uninstall(&mut self, handle: u64, guid: Guid, interface: u64, owner: u32) -> Answer {
        let such = self.rows.iter().position(|row| row.handle == handle
            && row.guid == guid
            && row.interface == interface);
        match such {
            None => Answer::NoProtocol,
            Some(place) if self.rows[place].owner == owner => {
                self.rows.remove(place);
                Answer::Done
            }
            Some(_) => Answer::NotMine,
        }
    }

    fn handle_protocol(&self, handle: u64, guid: Guid) -> Answer {
        let mut there = false;
        for row in self.rows.iter() {
            if row.handle == handle && row.guid == guid {
                return Answer::Number(row.interface);
            }
            there = there || row.handle == handle;
        }
        if there {
            Answer::NoProtocol
        } else {
            Answer::NoHandle
        }
    }

    fn locate_handle(&self, guid: Guid, index: u64) -> Answer {
        let mut left = index;
        for row in self.rows.iter() {
            if row.guid == guid {
                if left == 0 {
                    return Answer::Number(row.handle);
                }
                left -= 1;
            }
        }
        Answer::Nothing
    }

    fn locate_protocol(&self, guid: Guid) -> Answer {
        for row in self.rows.iter() {
            if row.guid == guid {
                return Answer::Number(row.interface);
            }
        }
        Answer::Nothing
    }

    fn has(&self, guid: Guid) -> bool {
        self.rows.iter().any(|row| row.guid == guid)
    }

    fn answer(&mut self, call: Call) -> Answer {
        match call {
            Call::Install(handle, guid, interface, owner) => {
                self.install(handle, guid, interface, owner)
            }
            Call::Uninstall(handle, guid, interface, owner) => {
                self.uninstall(handle, guid, interface, owner)
            }
            Call::HandleProtocol(handle, guid) => self.handle_protocol(handle, guid),
            Call::LocateHandle(guid, index) => self.locate_handle(guid, index),
            Call::LocateProtocol(guid) => self.locate_protocol(guid),
            Call::Has(guid) => Answer::Truth(self.has(guid)),
            Call::Forget(owner) => {
                self.rows.retain(|row| row.owner != owner);
                Answer::Done
            }
            Call::Freeze => Answer::Nothing,
            Call::Rows => Answer::Number(self.rows.len() as u64),
            Call::Next => Answer::Number(self.next),
        }
    }
}

/// Numbers that a seed decides, by the linear congruential generator of Knuth's MMIX.
#[derive(Drop)]
struct Draws(u64);

impl Draws {
    /// The next number below `bound`.
    fn below(&mut self, bound: u64) -> u64
        requires { 0 < bound }
        ensures { result < bound }
    {
        self.0 = self
            .0
            .wrapping_mul(6364136223846793005)
            .wrapping_add(1442695040888963407);
        (self.0 >> 33) % bound
    }

    /// A row, mostly one of those, or like one of them but for a field or two.
    fn row(&mut self, rows: &[Row]) -> Row {
        let mut row = Row {
            handle: 254 + self.below(4),
            guid: Guid([self.below(4) as u8; 16]),
            interface: self.below(3),
            owner: self.below(3) as u32,
        };
        if rows.is_empty() {
            return row;
        }
        let like = rows[self.below(rows.len() as u64) as usize];
        if self.below(8) != 0 {
            row.handle = like.handle;
        }
        if self.below(3) != 0 {
            row.guid = like.guid;
        }
        if self.below(8) != 0 {
            row.interface = like.interface;
        }
        if self.below(8) != 0 {
            row.owner = like.owner;
        }
        row
    }

    /// A call about a row like those.
    fn call(&mut self, rows: &[Row]) -> Call {
        let row = self.row(rows);
        match self.below(32) {
            0..=9 => Call::Install(0, row.guid, row.interface, row.owner),
            10..=15 => Call::Install(row.handle, row.guid, row.interface, row.owner),
            16..=23 => Call::Uninstall(row.handle, row.guid, row.interface, row.owner),
            24..=25 => Call::HandleProtocol(row.handle, row.guid),
            26 => Call::LocateHandle(row.guid, self.below(16)),
            27 => Call::Has(row.guid),
            28 => Call::LocateProtocol(row.guid),
            29 => Call::Rows,
            30 => Call::Next,
            _ if self.below(4) == 0 => Call::Forget(row.owner),
            _ => Call::LocateHandle(row.guid, 0),
        }
    }
}

/// Whether both tell of the same GUIDs that there are interfaces for them.
fn have_alike(db: &ProtocolDb, plain: &Plain) -> bool {
    for guid in 0..5u8 {
        let guid = Guid([guid; 16]);
        if db.has(guid) != plain.has(guid) {
            return false;
        }
    }
    true
}

/// Whether both tell the same handles of each GUID, in the same order, and of the same GUIDs that they have any.
fn tell_alike(db: &mut ProtocolDb, plain: &mut Plain) -> bool {
    if !have_alike(db, plain) {
        return false;
    }
    for guid in 0..4u8 {
        for index in 0..50 {
            let call = Call::LocateHandle(Guid([guid; 16]), index);
            if ask(db, call) != plain.answer(call) {
                return false;
            }
        }
    }
    true
}

/// The first of `steps` calls of which a database answers otherwise than a plain list.
fn first_unlike(alloc: Global, seed: u64, steps: usize) -> Option<usize> {
    let mut db = ProtocolDb::new(alloc);
    let mut plain = Plain {
        rows: Vec::new(alloc),
        next: 256,
    };
    let mut draws = Draws(seed);
    for step in 0..steps {
        let call = draws.call(plain.rows.as_slice());
        if ask(&mut db, call) != plain.answer(call) {
            return Some(step);
        }
        if step % 32 == 0 && !tell_alike(&mut db, &mut plain) {
            return Some(step);
        }
    }
    None
}

#[test]
fn as_a_plain_list(rt: HostRuntime) -> Result<(), Fail> {
    for seed in 1..5 {
        assert_eq!(rt; first_unlike(rt.alloc(), seed, 1500), None, "seed {seed}");
    }
    Ok(())
}
