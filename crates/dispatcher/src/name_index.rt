//! An ordered index from names to members.
ghost use Rattle.std.specs.Prelude.{◌≡◌, [], ◌∷◌, ◌++◌, IfOk, OnOk};
ghost use Rattle.mm_base.specs.declared.guid.Guid.{Guid as GuidValue};
ghost use Rattle.dispatcher.specs.IndexInside.{listed, with_member};

use crate::driver::Member;
use mm_base::{Guid, NoMemory};
use std::alloc::Global;
use std::collections::BTreeMap;

/// Lists of members by name, in the order in which they were added.
#[derive(Drop)]
pub(crate) struct NameIndex {
    lists: BTreeMap<[u8; 16], Vec<Member>>,
}

impl NameIndex {
    /// The index of no members.
    pub(crate) fn new(alloc: Global) -> NameIndex
        ensures { (name : GuidValue) → listed result name ≡ [] }
    {
        NameIndex {
            lists: BTreeMap::new(alloc),
        }
    }

    /// Adds a member to the list of a name, at its end; in the logarithm of the names.
    pub(crate) fn add(&mut self, alloc: Global, name: Guid, member: Member) -> Result<(), NoMemory>
        ensures { (other : GuidValue) → OnOk result (listed self.new other ≡ with_member name member other (listed self.old other)) }
    {
        let mut list = match self.lists.remove(&name.0) {
            Some(list) => list,
            None => Vec::new(alloc),
        };
        list.push(member)?;
        self.lists.insert(name.0, list)?;
        Ok(())
    }

    /// The list of a name; in the logarithm of the names.
    pub(crate) fn of(&self, name: Guid) -> &[Member]
        ensures { result.now ≡ listed self.now name }
    {
        match self.lists.get(&name.0) {
            Some(list) => list.as_slice(),
            None => &[],
        }
    }
}
