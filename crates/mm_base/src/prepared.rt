//! The memory of one entry, which is taken before the entry's first load, so that nothing after it can refuse.
ghost use Rattle.std.specs.Prelude.{◌≡◌, ◌+◌, ◌≤◌, ◌<◌, [], ◌∷◌, ◌++◌, length, take, vec_len, IfOk};
ghost use Rattle.mm_base.specs.Entry.{blank_entry};
ghost use Rattle.mm_base.specs.Receipt.{receipt_of};

use crate::entries::Chain;
use crate::{
    Entries, Entry, Invocation, NoMemory, Outcome, Receipt, Records, Request, Room, Saved,
};
use std::alloc::Global;
use std::marker::Model;

/// The most bytes that a request may have.
pub const MOST_BYTES: u32 = 4096;

/// An entry that is being made, with room for a request, a reply, a second copy of the reply, and records.
#[derive(Drop)]
pub struct Prepared {
    alloc: Global,
    entry: Entry,
    captured: Room<u8>,
    reply: Room<u8>,
    second: Room<u8>,
    chain: Room<Invocation>,
    root: Room<Invocation>,
    blanks: Vec<Records>,
    link: Box<Chain>,
}

/// The rooms of an outcome, while a machine fills them.
#[derive(Drop)]
pub struct OutcomeRooms {
    pub reply: Room<u8>,
    pub chain: Room<Invocation>,
    pub root: Room<Invocation>,
    pub blanks: Vec<Records>,
}

impl Model for Prepared {
    ghost use Rattle.std.specs.Prelude.{◌≡◌, ◌≤◌, [], length, vec_len};
    ghost use Rattle.mm_base.specs.Room.{room_code};
    ghost use Rattle.mm_base.specs.Prepared.{PreparedState};

    ghost Value = { PreparedState };

    ghost view = { λ p. record {
      entry = p.entry;
      captured = p.captured;
      reply = p.reply.room;
      calls = vec_len p.blanks;
      second = p.second.room;
    } };

    ghost invariant = { λ p. record {
      request : length p.entry.request.bytes ≤ 4096;
      captured : p.captured.room ≤ 4096;
      reply : p.reply.items ≡ [];
      second : p.second.items ≡ [];
      chain : p.chain ≡ record { items = []; room = vec_len p.blanks };
      root : p.root ≡ record { items = []; room = vec_len p.blanks };
    } };
}

impl Prepared {
    /// Room for a request and a reply of `bytes` bytes, and for `calls` invocations with all their records. It costs one
    /// step an invocation.
    pub fn new(alloc: Global, bytes: u32, calls: u32) -> Result<Prepared, NoMemory>
        requires { bytes ≤ 4096 }
        ensures { IfOk result (λ p. p ≡ record {
          entry = blank_entry;
          captured = record { items = []; room = bytes };
          reply = bytes;
          calls = calls;
          second = bytes;
        }) }
    {
        let most = bytes as usize;
        let blanks = blank_records(alloc, calls)?;
        let invocations = calls as usize;
        Ok(Prepared {
            alloc,
            entry: Entry::blank(alloc),
            captured: Room::new(alloc, most)?,
            reply: Room::new(alloc, most)?,
            second: Room::new(alloc, most)?,
            chain: Room::new(alloc, invocations)?,
            root: Room::new(alloc, invocations)?,
            blanks,
            link: Box::new(alloc, Chain::End)?,
        })
    }

    /// The entry so far. Its request has at most 4,096 bytes.
    pub fn entry(&self) -> &Entry
        ensures value { result.now ≡ self.now.entry }
        ensures few { length self.now.entry.request.bytes ≤ 4096 }
    {
        &self.entry
    }

    /// How many bytes of the request were captured.
    pub fn captured(&self) -> usize
        ensures { result ≡ length self.now.captured.items }
    {
        self.captured.len()
    }

    /// Captures these bytes of the request.
    pub fn capture(&mut self, bytes: &[u8])
        requires { length self.old.captured.items + length bytes.now ≤ self.old.captured.room }
        ensures { self.new ≡ record self.old {
          captured = record { items = self.old.captured.items ++ bytes.now; room = self.old.captured.room };
        } }
    {
        self.captured.extend(bytes);
    }

    /// Makes the request of the first `keep` captured bytes.
    pub fn seal(&mut self, lane: u32, length: u64, keep: usize, saved: Saved)
        ensures { self.new ≡ record self.old {
          entry = record {
            request = record { lane = lane; length = length; bytes = take keep self.old.captured.items; saved = saved };
            outcome = self.old.entry.outcome;
          };
          captured = record { items = []; room = 0 };
        } }
    {
        let mut captured = self.captured.take(self.alloc);
        captured.truncate(keep);
        self.entry.request = Request {
            lane,
            length,
            bytes: captured.into_list(),
            saved,
        };
    }

    /// Takes out the rooms of the outcome.
    pub fn rooms(&mut self) -> OutcomeRooms
        ensures reply { result.reply ≡ record { items = []; room = self.old.reply } }
        ensures chain { result.chain ≡ record { items = []; room = self.old.calls } }
        ensures root { result.root ≡ record { items = []; room = self.old.calls } }
        ensures blanks { vec_len result.blanks ≡ self.old.calls }
        ensures left { self.new ≡ record self.old { reply = 0; calls = 0 } }
    {
        let alloc = self.alloc;
        OutcomeRooms {
            reply: self.reply.take(alloc),
            chain: self.chain.take(alloc),
            root: self.root.take(alloc),
            blanks: std::mem::replace(&mut self.blanks, Vec::new(alloc)),
        }
    }

    /// Records what came of the request.
    pub fn finish(&mut self, outcome: Outcome)
        ensures { self.new ≡ record self.old {
          entry = record { request = self.old.entry.request; outcome = outcome };
        } }
    {
        self.entry.outcome = outcome;
    }

    /// What the outcome tells at this position, with the reply copied into the second buffer.
    pub fn receipt(&mut self, position: u64) -> Receipt
        requires { length self.old.entry.outcome.reply ≤ self.old.second }
        ensures told { result ≡ receipt_of position self.old.entry.outcome }
        ensures left { self.new ≡ record self.old { second = 0 } }
    {
        let second = self.second.take(self.alloc);
        Receipt::new(position, &self.entry.outcome, second)
    }

    /// Takes the entry out. It takes no memory.
    pub fn into_entry(self) -> Entries
        ensures { result ≡ self.entry ∷ [] }
    {
        let Prepared {
            alloc: _,
            entry,
            captured: _,
            reply: _,
            second: _,
            chain: _,
            root: _,
            blanks: _,
            link,
        } = self;
        Entries::of_one(entry, link)
    }
}

/// `calls` blank records.
fn blank_records(alloc: Global, calls: u32) -> Result<Vec<Records>, NoMemory>
    ensures { IfOk result (λ blanks. vec_len blanks ≡ calls) }
{
    let mut blanks = Vec::with_capacity(alloc, calls as usize)?;
    for _ in 0..calls {
        blanks.push(Records::new(alloc)?)?;
    }
    Ok(blanks)
}
