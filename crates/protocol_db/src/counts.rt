//! How many times each GUID stands in a collection, told in the same time however many there are.
ghost use Rattle.std.specs.Prelude.{◌≡◌, ℕ, ◌+◌, ◌-◌, ◌^◌, ◌<◌, if◌then◌else◌, nat_lt, [], length, OnOk, OnErr};
ghost use Rattle.mm_base.specs.Guid.{same_guid};
ghost use Rattle.mm_base.specs.declared.guid.Guid.{Guid as GuidValue};
ghost use Rattle.protocol_db.specs.CountsInside.{count_in};
ghost use Rattle.protocol_db.specs.Rows.{owned_by, rows_of};

use crate::Row;
use indexmap::IndexMap;
use mm_base::{Guid, NoMemory};
use std::alloc::Global;
use std::marker::Model;

/// Counts of GUIDs. One that was never counted, or taken back as often, has no entry.
#[derive(Debug, Drop)]
pub struct Counts {
    counts: IndexMap<Guid, usize>,
}

impl Model for Counts {
    ghost use Rattle.std.specs.Prelude.{ℕ, List};
    ghost use Rattle.mm_base.specs.declared.guid.Guid.{Guid as GuidValue};
    ghost use Rattle.protocol_db.specs.CountsInside.{AreAboveZero};

    ghost Value = { List (GuidValue × ℕ) };

    ghost view = { λ c. c.counts.entries };

    ghost invariant = { λ c. AreAboveZero c.counts.entries };
}

impl Counts {
    /// Nothing is counted. It takes no memory.
    pub fn new(alloc: Global) -> Counts
        ensures { result ≡ [] }
    {
        Counts {
            counts: IndexMap::new(alloc),
        }
    }

    /// Whether a GUID has a count.
    pub fn has(&self, guid: Guid) -> bool
        ensures { result ≡ nat_lt 0 (count_in guid self.now) }
    {
        self.counts.contains_key(&guid)
    }

    /// How often a GUID is counted.
    fn count(&self, guid: Guid) -> usize
        ensures { result ≡ count_in guid self.now }
    {
        self.counts.get(&guid).copied().unwrap_or(0)
    }

    /// Counts a GUID once more.
    pub fn add(&mut self, guid: Guid) -> Result<(), NoMemory>
        requires { count_in guid self.old < 2 ^ 64 - 1 }
        ensures ok { OnOk result ((other : GuidValue) →
            count_in other self.new ≡ count_in other self.old + (if same_guid other guid then 1 else 0)) }
        ensures err { OnErr result (self.new ≡ self.old) }
    {
        let count = self.count(guid);
        self.counts.insert(guid, count + 1)?;
        Ok(())
    }

    /// Counts a GUID once less, where it is counted.
    pub fn take(&mut self, guid: Guid)
        ensures { (other : GuidValue) →
            count_in other self.new ≡ count_in other self.old - (if same_guid other guid then 1 else 0) }
    {
        match self.counts.get_mut(&guid) {
            Some(count) if *count > 1 => *count -= 1,
            Some(_) => {
                self.counts.swap_remove(&guid);
            }
            None => {}
        }
    }

    /// Counts the GUID of each row of an image once less.
    pub fn take_owned(&mut self, rows: &[Row], owner: u32)
        ensures { (other : GuidValue) → count_in other self.new
            ≡ count_in other self.old - length (rows_of other (owned_by owner rows.now)) }
    {
        for row in rows {
            if row.owner == owner {
                self.take(row.guid);
            }
        }
    }
}
