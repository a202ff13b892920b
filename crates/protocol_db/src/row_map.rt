//! Rows in order of installation, each found by its handle and GUID in the same time however many there are.
ghost use Rattle.std.specs.Prelude.{◌≡◌, ◌==◌, not, None, [], ◌∷◌, ◌++◌, length, OnOk, OnErr};
ghost use Rattle.std.specs.List.{list_any};
ghost use Rattle.protocol_db.specs.Rows.{AreApart, is_of_guid, row_at, without_owner, without_row};
ghost use Rattle.protocol_db.specs.KeysInside.{key_of};

use crate::Row;
use crate::counts::Counts;
use indexmap::IndexMap;
use mm_base::{Guid, NoMemory};
use std::alloc::Global;
use std::marker::Model;

/// What a row is looked up by.
#[derive(Clone, Copy, Debug, PartialEq, Eq, Hash)]
struct Key {
    handle: u64,
    guid: Guid,
}

impl Key {
    /// The key of a row.
    fn of(row: &Row) -> Key
        ensures { result ≡ key_of row.now }
    {
        Key {
            handle: row.handle,
            guid: row.guid,
        }
    }
}

/// The rows, and how many each GUID has. Contracts see them as a list.
#[derive(Debug, Drop)]
pub struct RowMap {
    rows: IndexMap<Key, Row>,
    guids: Counts,
}

impl Model for RowMap {
    ghost use Rattle.std.specs.Prelude.{List};
    ghost use Rattle.indexmap.specs.IndexMap.{values};
    ghost use Rattle.protocol_db.specs.declared.protocol_row.Row.{Row};
    ghost use Rattle.protocol_db.specs.KeysInside.{AreRows};

    ghost Value = { List Row };

    ghost view = { λ m. values m.rows };

    ghost invariant = { λ m. AreRows m.rows.entries m.guids };
}

impl RowMap {
    /// No rows. It takes no memory.
    pub fn new(alloc: Global) -> RowMap
        ensures { result ≡ [] }
    {
        RowMap {
            rows: IndexMap::new(alloc),
            guids: Counts::new(alloc),
        }
    }

    /// How many rows there are.
    pub fn len(&self) -> usize
        ensures { result ≡ length self.now }
    {
        self.rows.len()
    }

    /// The rows, in order.
    pub fn as_slice(&self) -> &[Row]
        ensures { result.now ≡ self.now }
    {
        self.rows.values().as_slice()
    }

    /// The row of a handle and a GUID. It costs the same however many rows there are.
    pub fn find(&self, handle: u64, guid: Guid) -> Option<Row>
        ensures { result ≡ row_at handle guid self.now }
    {
        self.rows.get(&Key { handle, guid }).copied()
    }

    /// Whether a row is of a GUID. It costs the same however many rows there are.
    pub fn has(&self, guid: Guid) -> bool
        ensures { result ≡ list_any (is_of_guid guid) self.now }
    {
        self.guids.has(guid)
    }

    /// Puts a row at the end. All memory is taken before a row or a count changes.
    pub fn push(&mut self, row: Row) -> Result<(), NoMemory>
        requires { row_at row.handle row.guid self.old ≡ None }
        ensures ok { OnOk result (self.new ≡ self.old ++ row ∷ []) }
        ensures err { OnErr result (self.new ≡ self.old) }
    {
        // No GUID has more rows than there are, so its count may rise.
        let fewer = self.rows.len() < usize::MAX;
        prove!(fewer);
        self.rows.reserve(1)?;
        self.guids.add(row.guid)?;
        self.rows.insert(Key::of(&row), row)?;
        Ok(())
    }

    /// Removes the row of a handle and a GUID. The memory stays, and so does the order of the others.
    pub fn remove(&mut self, handle: u64, guid: Guid)
        requires { AreApart self.old }
        ensures { self.new ≡ without_row handle guid self.old }
    {
        if self.rows.shift_remove(&Key { handle, guid }).is_some() {
            self.guids.take(guid);
        }
    }

    /// Removes the rows of an image. The memory stays, and so does the order of the others.
    pub fn remove_owner(&mut self, owner: u32)
        ensures { self.new ≡ without_owner owner self.old }
    {
        self.guids.take_owned(self.rows.values().as_slice(), owner);
        self.rows.retain(
            |_key: &Key, row: &mut Row| -> bool
                ensures { (result ≡ not (row.old.owner == owner)) × (row.new ≡ row.old) }
            { row.owner != owner },
        );
    }
}
