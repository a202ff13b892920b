//! The database of handles and protocols.
ghost use Rattle.std.specs.Prelude.{◌≡◌, ◌↔◌, ◌+◌, ◌-◌, ◌^◌, ◌<◌, ◌≤◌, ℕ, false, true, Some, None, [], length, slice_get, option_map, All};
ghost use Rattle.std.specs.Prelude.{IsNone, IsSome, IsSomeAnd, IsTrue, IfOk, OnOk, OnErr};
ghost use Rattle.std.specs.Bool.{IsFalse};
ghost use Rattle.std.specs.List.{list_any};
ghost use Rattle.std.specs.Result.{result_ok};
ghost use Rattle.protocol_db.specs.ProtocolDb.{handle_for, is_at_limit, is_duplicate, is_unknown, next_after, with_row};
ghost use Rattle.protocol_db.specs.Rows.{AreApart, first_of, has_handle, is_of_guid, is_owned_by, owned_by, row_at, row_with, rows_of};
ghost use Rattle.protocol_db.specs.Rows.{without_owner, without_row};
ghost use Rattle.protocol_db.specs.declared.database.InstallEnd.TheVariants.{NoMemory as OutOfMemory};

use crate::Row;
use crate::lookup::{find_first, is_handle, nth_of, owned_count};
use crate::row_map::RowMap;
use mm_base::{Guid, NoMemory};
use std::alloc::Global;
use std::marker::Model;

/// The handle that the first new one is.
pub const FIRST_HANDLE: u64 = 256;

/// How many interfaces an image may have at a time.
pub const MOST_OF_OWNER: usize = 16;

/// Why an interface was not installed.
#[derive(Clone, Copy, Debug, PartialEq, Eq)]
pub enum InstallEnd {
    /// Installation is over.
    Frozen,
    /// The handle has no interface, so it isn't there.
    NoHandle,
    /// The handle has an interface for this GUID.
    Duplicate,
    /// The image has as many interfaces as it may have, or no new handle is left.
    Quota,
    /// A growth was refused.
    NoMemory(NoMemory),
}

impl From<NoMemory> for InstallEnd {
    ghost from_gives = { λ refused end. end ≡ OutOfMemory refused };

    fn from(refused: NoMemory) -> Self {
        InstallEnd::NoMemory(refused)
    }
}

/// Why an interface was not removed.
#[derive(Clone, Copy, Debug, PartialEq, Eq)]
pub enum UninstallEnd {
    /// Installation is over.
    Frozen,
    /// The handle doesn't have this interface for this GUID.
    NoProtocol,
    /// Another image installed it.
    NotMine,
}

/// Why an interface was not found.
#[derive(Clone, Copy, Debug, PartialEq, Eq)]
pub enum FindEnd {
    /// The handle has no interface, so it isn't there.
    NoHandle,
    /// The handle has no interface for this GUID.
    NoProtocol,
}

/// The interfaces of handles in order of installation. New handles rise from 256, and none is used again unless the next
/// one is set back by `forget`.
#[derive(Debug, Drop)]
pub struct ProtocolDb {
    rows: RowMap,
    next: u64,
    frozen: bool,
}

impl Model for ProtocolDb {
    ghost use Rattle.protocol_db.specs.ProtocolDb.{DbState, IsDb};

    ghost Value = { DbState };

    ghost view = { λ d. record { rows = d.rows; next = d.next; frozen = d.frozen } };

    ghost invariant = { λ d. IsDb d.rows d.next };
}

impl ProtocolDb {
    /// A database without interfaces. It takes no memory.
    pub fn new(alloc: Global) -> ProtocolDb
        ensures { result ≡ record { rows = []; next = 256; frozen = false } }
    {
        ProtocolDb {
            rows: RowMap::new(alloc),
            next: FIRST_HANDLE,
            frozen: false,
        }
    }

    /// Installs an interface on a handle for a GUID, and answers the handle. Handle 0 asks for a new handle. It costs one
    /// step a row, and is the one call that takes memory.
    pub fn install(
        &mut self,
        handle: u64,
        guid: Guid,
        interface: u64,
        owner: u32,
    ) -> Result<u64, InstallEnd>
        ensures value { IfOk result (λ taken. taken ≡ handle_for handle self.old.next) }
        ensures joins { OnOk result (self.new ≡ with_row handle guid interface owner self.old) }

        // The answers in their order: each comes exactly where those above it don't, by its own cause.
        ensures frozen { (result ≡ Err InstallEnd.Frozen) ↔ IsTrue self.old.frozen }
        ensures no_handle { (result ≡ Err InstallEnd.NoHandle)
            ↔ (IsFalse self.old.frozen × IsTrue (is_unknown handle self.old.rows)) }
        ensures duplicate { (result ≡ Err InstallEnd.Duplicate)
            ↔ (IsFalse self.old.frozen × IsFalse (is_unknown handle self.old.rows)
            × IsTrue (is_duplicate handle guid self.old.rows)) }
        ensures quota { (result ≡ Err InstallEnd.Quota)
            ↔ (IsFalse self.old.frozen × IsFalse (is_unknown handle self.old.rows)
            × IsFalse (is_duplicate handle guid self.old.rows) × IsTrue (is_at_limit handle owner self.old)) }
        ensures err { OnErr result (self.new ≡ self.old) }
    {
        if self.frozen {
            return Err(InstallEnd::Frozen);
        }
        if self.lacks(handle) {
            return Err(InstallEnd::NoHandle);
        }
        if self.holds(handle, guid) {
            return Err(InstallEnd::Duplicate);
        }
        if self.is_full(handle, owner) {
            return Err(InstallEnd::Quota);
        }
        let taken = handle_taken(handle, self.next);
        self.rows.push(Row {
            handle: taken,
            guid,
            interface,
            owner,
        })?;
        self.next = next_handle(handle, self.next);
        Ok(taken)
    }

    /// Removes an interface of a handle for a GUID. Only the image that installed it may. It costs one step a row.
    pub fn uninstall(
        &mut self,
        handle: u64,
        guid: Guid,
        interface: u64,
        owner: u32,
    ) -> Result<(), UninstallEnd>
        ensures removes { let left = without_row handle guid self.old.rows in
            OnOk result (self.new ≡ record self.old { rows = left }) }
        ensures alone { OnOk result (length self.old.rows ≡ length self.new.rows + 1) }

        // The answers in their order: each comes exactly where those above it don't, by its own cause.
        ensures frozen { (result ≡ Err UninstallEnd.Frozen) ↔ IsTrue self.old.frozen }
        ensures no_protocol { (result ≡ Err UninstallEnd.NoProtocol)
            ↔ (IsFalse self.old.frozen × IsNone (row_with handle guid interface self.old.rows)) }
        ensures not_mine { let found = row_with handle guid interface self.old.rows in
            (result ≡ Err UninstallEnd.NotMine)
            ↔ (IsFalse self.old.frozen × IsSomeAnd found (λ row. IsFalse (is_owned_by owner row))) }
        ensures err { OnErr result (self.new ≡ self.old) }
    {
        if self.frozen {
            return Err(UninstallEnd::Frozen);
        }
        match self.find_interface(handle, guid, interface) {
            None => Err(UninstallEnd::NoProtocol),
            Some(row) if row.owner == owner => {
                self.rows.remove(handle, guid);
                Ok(())
            }
            Some(_) => Err(UninstallEnd::NotMine),
        }
    }

    /// The interface of a handle for a GUID. Where there is one it costs the same however many rows there are, else one
    /// step a row.
    pub fn handle_protocol(&self, handle: u64, guid: Guid) -> Result<u64, FindEnd>
        ensures value { result_ok result ≡ option_map (λ row. row.interface) (row_at handle guid self.now.rows) }
        ensures no_handle { (result ≡ Err FindEnd.NoHandle) ↔ IsFalse (has_handle handle self.now.rows) }
        ensures no_protocol { (result ≡ Err FindEnd.NoProtocol)
            ↔ (IsTrue (has_handle handle self.now.rows) × IsNone (row_at handle guid self.now.rows)) }
    {
        match self.rows.find(handle, guid) {
            Some(row) => Ok(row.interface),
            None if is_handle(self.rows.as_slice(), handle) => Err(FindEnd::NoProtocol),
            None => Err(FindEnd::NoHandle),
        }
    }

    /// The handle of the row at place `index` of those of a GUID, in order of installation; None past the last. It costs
    /// one step a row.
    pub fn locate_handle(&self, guid: Guid, index: u64) -> Option<u64>
        ensures { result ≡ option_map (λ row. row.handle) (slice_get (rows_of guid self.now.rows) index) }
    {
        let row = nth_of(self.rows.as_slice(), guid, index)?;
        Some(row.handle)
    }

    /// The interface that was installed first for a GUID; None where there is none. It costs one step a row.
    pub fn locate_protocol(&self, guid: Guid) -> Option<u64>
        ensures { result ≡ option_map (λ row. row.interface) (first_of guid self.now.rows) }
    {
        let row = find_first(self.rows.as_slice(), guid)?;
        Some(row.interface)
    }

    /// Whether an interface is installed for a GUID. It costs the same however many rows there are.
    pub fn has(&self, guid: Guid) -> bool
        ensures { result ≡ list_any (is_of_guid guid) self.now.rows }
    {
        self.rows.has(guid)
    }

    /// Removes all interfaces of an image, and sets the handle that the next new one gets. The order of the others stays.
    /// It costs one step a row.
    pub fn forget(&mut self, owner: u32, next: u64)
        requires back { next ≤ self.old.next }
        requires over { All (λ row. row.handle < next) (without_owner owner self.old.rows) }
        ensures { let left = without_owner owner self.old.rows in
            self.new ≡ record self.old { rows = left; next = next } }
    {
        self.rows.remove_owner(owner);
        self.next = next;
    }

    /// Ends installation: no interface comes or goes by `install` and `uninstall` any more.
    pub fn freeze(&mut self)
        ensures { self.new ≡ record self.old { frozen = true } }
    {
        self.frozen = true;
    }

    /// How many interfaces there are.
    pub fn rows(&self) -> usize
        ensures value { result ≡ length self.now.rows }
        ensures apart { AreApart self.now.rows }
        ensures most { (owner : ℕ) → length (owned_by owner self.now.rows) ≤ 16 }
    {
        self.rows.len()
    }

    /// The handle that the next new one is. Each that there is lies below it.
    pub fn next(&self) -> u64
        ensures value { result ≡ self.now.next }
        ensures below { All (λ row. row.handle < self.now.next) self.now.rows }
    {
        self.next
    }

    /// Whether installation is over.
    pub fn frozen(&self) -> bool
        ensures { result ≡ self.now.frozen }
    {
        self.frozen
    }

    /// Whether this is a handle without an interface, and not 0.
    fn lacks(&self, handle: u64) -> bool
        ensures { result ≡ is_unknown handle self.now.rows }
    {
        handle != 0 && !is_handle(self.rows.as_slice(), handle)
    }

    /// Whether this is a handle, and not 0, that has an interface for the GUID.
    fn holds(&self, handle: u64, guid: Guid) -> bool
        ensures { result ≡ is_duplicate handle guid self.now.rows }
    {
        handle != 0 && self.rows.find(handle, guid).is_some()
    }

    /// The row of a handle and a GUID, where it has this interface.
    fn find_interface(&self, handle: u64, guid: Guid, interface: u64) -> Option<Row>
        ensures { result ≡ row_with handle guid interface self.now.rows }
    {
        let row = self.rows.find(handle, guid)?;
        if row.interface == interface {
            Some(row)
        } else {
            None
        }
    }

    /// Whether an image has as many interfaces as it may have, or no handle is left where a new one is asked for.
    fn is_full(&self, handle: u64, owner: u32) -> bool
        ensures { result ≡ is_at_limit handle owner self.now }
    {
        owned_count(self.rows.as_slice(), owner) >= MOST_OF_OWNER
            || (handle == 0 && self.next == u64::MAX)
    }
}

/// The handle that is installed on, where this one is asked for and `next` is the next new one.
fn handle_taken(handle: u64, next: u64) -> u64
    ensures { result ≡ handle_for handle next }
{
    if handle == 0 { next } else { handle }
}

/// The next new handle after that.
fn next_handle(handle: u64, next: u64) -> u64
    requires { handle ≡ 0 → next < 2 ^ 64 - 1 }
    ensures { result ≡ next_after handle next }
{
    if handle == 0 { next + 1 } else { next }
}
