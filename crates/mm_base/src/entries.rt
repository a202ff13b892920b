//! Entries in recorded order, which grow without taking memory.
ghost use Rattle.std.specs.Prelude.{◌≡◌, ◌<◌, ◌^◌, ◌++◌, ◌∷◌, [], length, map, slice_get, IfOk};
ghost use Rattle.std.specs.Option.{option_copied};
ghost use Rattle.mm_base.specs.Chain.{entries_of};
ghost use Rattle.mm_base.specs.declared.entries.Chain.TheVariants.{End};

use crate::{Entry, NoMemory};
use std::alloc::Global;
use std::marker::Model;
use std::mem;

/// Entries, the newest first, each in a box of the newer one.
#[derive(Debug)]
pub enum Chain {
    End,
    Link(Entry, Box<Chain>),
}

impl Drop for Chain {
    fn drop(mut self) {
        loop {
            match self {
                Chain::End => return,
                Chain::Link(_, older) => self = Box::into_inner(older),
            }
        }
    }
}

impl Chain {
    /// This chain's one entry, in front of these older ones; its box carries them.
    fn onto(self, older: Chain) -> Chain
        requires { length (entries_of self) ≡ 1 }
        ensures { entries_of result ≡ entries_of older ++ entries_of self }
    {
        match self {
            Chain::End => older,
            Chain::Link(entry, mut rest) => {
                *rest = older;
                Chain::Link(entry, rest)
            }
        }
    }
}

/// The entries of a run. Contracts see the list of them, the oldest first.
#[derive(Debug, Drop)]
pub struct Entries {
    newest: Chain,
    count: u64,
}

impl Model for Entries {
    ghost use Rattle.std.specs.Prelude.{◌≡◌, List, length};
    ghost use Rattle.mm_base.specs.declared.entry.Entry.{Entry};

    ghost Value = { List Entry };

    ghost use Rattle.mm_base.specs.Chain.{entries_of};

    ghost view = { λ e. entries_of e.newest };

    ghost invariant = { λ e. e.count ≡ length (entries_of e.newest) };
}

impl Entries {
    /// No entries. It takes no memory.
    pub fn new() -> Entries
        ensures { result ≡ [] }
    {
        Entries {
            newest: Chain::End,
            count: 0,
        }
    }

    /// How many entries there are.
    pub fn len(&self) -> u64
        ensures { result ≡ length self.now }
    {
        self.count
    }

    /// The entry at place `k`, counted from the oldest; None past the last. It goes back from the newest, so that
    /// it costs as many steps as there are entries after that place.
    pub fn get(&self, k: u64) -> Option<&Entry>
        ensures { option_copied result ≡ slice_get self.now k }
    {
        if k >= self.count {
            return None;
        }
        let mut chain = &self.newest;
        let mut place = self.count;
        while let Chain::Link(entry, older) = chain {
            place -= 1;
            if place == k {
                return Some(entry);
            }
            chain = older;
        }
        None
    }

    /// All entries in recorded order. It costs one step and one reference an entry.
    pub fn in_order(&self, alloc: Global) -> Result<Vec<&Entry>, NoMemory>
        ensures { IfOk result (λ order. map (λ entry. entry.now) order.items ≡ self.now) }
    {
        let mut order = Vec::new(alloc);
        let mut chain = &self.newest;
        while let Chain::Link(entry, older) = chain {
            order.push(entry)?;
            chain = older;
        }
        order.reverse();
        Ok(order)
    }

    /// Puts the one entry of `one` at the end. It takes no memory.
    pub fn join(&mut self, one: Entries)
        requires one { length one ≡ 1 }
        requires room { length self.old < 2 ^ 63 }
        ensures { self.new ≡ self.old ++ one }
    {
        let older = mem::replace(&mut self.newest, Chain::End);
        let Entries { newest, count: _ } = one;
        self.newest = newest.onto(older);
        self.count += 1;
    }

    /// The one entry, in a box that will carry it. It takes no memory.
    pub fn of_one(entry: Entry, mut link: Box<Chain>) -> Entries
        ensures { result ≡ entry ∷ [] }
    {
        *link = Chain::End;
        Entries {
            newest: Chain::Link(entry, link),
            count: 1,
        }
    }
}
