//! A machine that keeps what it served.
ghost use Rattle.std.specs.Prelude.{◌≡◌, ◌<◌, ◌^◌, [], ◌∷◌, ◌++◌, length};
ghost use Rattle.mm_base.specs.Prepared.{Suffices};
ghost use Rattle.mm_base.specs.Receipt.{receipt_of};
ghost use Rattle.mm_history.specs.History.{IsReplay};

use mm_base::{Entries, Machine, Prepared, Receipt};
use std::marker::Model;

/// A machine, and the entries of all requests that it served since it was given over, in recorded order.
#[derive(Drop)]
pub struct Kept<M> {
    machine: M,
    entries: Entries,
}

impl<M> Model for Kept<M> {
    ghost use Rattle.mm_history.specs.History.{KeptState};

    ghost Value = { KeptState M };

    ghost view = { λ kept. record { machine = kept.machine; entries = kept.entries } };
}

impl<M: Machine> Kept<M> {
    /// The machine, before its first request. It takes no memory.
    pub fn begin(machine: M) -> Kept<M>
        ensures begins { result ≡ record { machine = machine; entries = [] } }
        ensures stands { IsReplay M.stepped machine result }
    {
        Kept {
            machine,
            entries: Entries::new(),
        }
    }

    /// The machine, as it is after all its entries.
    pub fn machine(&self) -> &M
        ensures { result.now ≡ self.now.machine }
    {
        &self.machine
    }

    /// The entries, in recorded order.
    pub fn entries(&self) -> &Entries
        ensures { result.now ≡ self.now.entries }
    {
        &self.entries
    }

    /// The machine answers the prepared request, and its entry is put at the end. It takes no memory.
    pub fn serve(&mut self, mut prepared: Prepared) -> Receipt
        requires rooms { Suffices (M.most_calls self.old.machine) prepared }
        requires place { length self.old.entries < 2 ^ 63 }
        ensures machine { self.new.machine ≡ (M.stepped self.old.machine prepared.entry.request).1 }
        ensures entries { self.new.entries ≡ self.old.entries ++ record {
          request = prepared.entry.request;
          outcome = (M.stepped self.old.machine prepared.entry.request).0;
        } ∷ [] }
        ensures receipt { result ≡
            receipt_of (length self.old.entries) (M.stepped self.old.machine prepared.entry.request).0 }
        ensures stands { (start : M) → IsReplay M.stepped start self.old → IsReplay M.stepped start self.new }
    {
        let position = self.entries.len();
        self.machine.step(&mut prepared);
        let receipt = prepared.receipt(position);
        self.entries.join(prepared.into_entry());
        receipt
    }
}
