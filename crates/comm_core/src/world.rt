//! A world: a machine, lanes that others can rewrite at any moment, and the processors that serve them.
ghost use Rattle.std.specs.Prelude.{◌≡◌, ◌≤◌, ◌<◌, ◌+◌, ◌^◌, [], ◌∷◌, ◌++◌, List, length, slice_index, slice_get, Some, IfOk, OnOk, OnErr, IsOk, ◌↔◌, false};
ghost use Rattle.comm_core.specs.Capture.{longest};
ghost use Rattle.comm_core.specs.Processor.{next_action, IsSound};
ghost use Rattle.comm_core.specs.WorldState.{LaneState};
ghost use Rattle.comm_core.specs.WorldPast.{StandsForEvents};
ghost use Rattle.comm_core.specs.WorldReadiness.{IsOfWorld, entries_asked, rings_in, is_resting_at, takes_memory};
ghost use Rattle.comm_core.specs.TransitionsInside.{new_lanes, lane_at, loads_word, stores_word, turns, acts_once, acts_times, pokes, rung_at, prepared_for};

use crate::lane::{Lane, records_to_come};
use crate::{Action, Event, Trace};
use mm_base::{Entries, Machine, NoMemory, Prepared, Room, Saved, WORD_BYTES};
use mm_history::Kept;
use std::alloc::Global;
use std::marker::Model;

/// A machine, and lanes with the processors that capture requests from them and store answers to them.
#[derive(Drop)]
pub struct World<M: Machine> {
    alloc: Global,
    words: u32,
    lanes: Vec<Lane>,
    kept: Kept<M>,
    trace: Room<Trace>,
}

impl<M: Machine> Model for World<M> {
    ghost use Rattle.std.specs.Prelude.{length};
    ghost use Rattle.comm_core.specs.WorldState.{WorldState};
    ghost use Rattle.comm_core.specs.WorldReadiness.{IsReady};

    ghost Value = { WorldState M };

    ghost view = { λ w. record {
      words = w.words;
      lanes = w.lanes.items;
      machine = w.kept.machine;
      entries = w.kept.entries;
      trace = w.trace.items;
    } };

    ghost invariant = { λ w.
        IsReady w.words w.lanes.items (M.most_calls w.kept.machine) (length w.kept.entries) w.trace };
}

impl<M: Machine + Drop> World<M> {
    /// A world of `lanes` lanes of `words` data words each, with all their words 0, whose processors rest. It costs a
    /// step for each word.
    pub fn new(alloc: Global, machine: M, lanes: u32, words: u32) -> Result<World<M>, NoMemory>
        requires some { 1 ≤ lanes }
        requires few { lanes ≤ 16 }
        requires low { 3 ≤ words }
        requires high { words ≤ 512 }
        ensures stands { IfOk result (λ world. StandsForEvents M.stepped machine [] world) }
        ensures words { IfOk result (λ world. world.words ≡ words) }
        ensures lanes { IfOk result (λ world. length world.lanes ≡ lanes) }
        ensures entries { IfOk result (λ world. entries_asked world ≡ 0) }
    {
        let lanes = make_lanes(alloc, lanes, words)?;
        Ok(World {
            alloc,
            words,
            lanes,
            kept: Kept::begin(machine),
            trace: Room::none(alloc),
        })
    }
}

impl<M: Machine> World<M> {
    /// The entries, in recorded order.
    pub fn entries(&self) -> &Entries
        ensures { result.now ≡ self.now.entries }
    {
        self.kept.entries()
    }

    /// How many lanes there are.
    pub fn lanes(&self) -> u32
        ensures { result ≡ length self.now.lanes }
    {
        self.lanes.len() as u32
    }

    /// The value of a word of a lane.
    pub fn word(&self, lane: u32, word: u32) -> u64
        requires lane { lane < length self.now.lanes }
        requires word { word < self.now.words + 2 }
        ensures { (seen : LaneState) → slice_get self.now.lanes lane ≡ Some seen →
            result ≡ slice_index seen.values word }
    {
        self.lane(lane)[word as usize]
    }

    /// All words of a lane: the length, the status, and the data words.
    pub fn lane(&self, lane: u32) -> &[u64]
        requires { lane < length self.now.lanes }
        ensures value { (seen : LaneState) → slice_get self.now.lanes lane ≡ Some seen → result.now ≡ seen.values }
        ensures len { length result.now ≡ self.now.words + 2 }
    {
        self.lanes[lane as usize].values()
    }

    /// All records, the oldest first.
    pub fn trace(&self) -> &[Trace]
        ensures { result.now ≡ self.now.trace }
    {
        self.trace.as_slice()
    }

    /// One event. What it makes happen is made, or nothing where it is out of memory. Only a poke and a ring at rest
    /// take memory, and they cost a step for each lane; the others cost a step for each action of the processor.
    pub fn event(&mut self, event: &Event) -> Result<(), NoMemory>
        requires there { IsOfWorld (length self.old.lanes) self.old.words event.now }
        requires room { length self.old.entries < 2 ^ 32 }
        ensures stands { OnOk result ((machine : M) (events : List Event) →
            StandsForEvents M.stepped machine events self.old →
            StandsForEvents M.stepped machine (events ++ event.now ∷ []) self.new) }
        ensures ok { takes_memory self.old.lanes event.now ≡ false → IsOk result }
        ensures err { OnErr result (self.new ≡ self.old) }
        ensures words { self.new.words ≡ self.old.words }
        ensures lanes { length self.new.lanes ≡ length self.old.lanes }
        ensures entries { entries_asked self.new ≤ entries_asked self.old + rings_in event.now }
    {
        let run = most_actions(self.words);
        match *event {
            Event::Ring { lane, saved } => self.ring(lane, saved),
            Event::Poke { lane, word, value } => self.poke(lane, word, value),
            Event::Steps { lane, count } => {
                self.steps(lane, count);
                Ok(())
            }
            Event::Run { lane } => {
                self.steps(lane, run);
                Ok(())
            }
        }
    }

    /// The processor of a lane is rung. At rest it is given the memory of an entry, and the trace the room of its
    /// records, beside those of the other rings under way.
    fn ring(&mut self, lane: u32, saved: Saved) -> Result<(), NoMemory>
        requires lane { lane < length self.old.lanes }
        requires room { length self.old.entries < 2 ^ 32 }
        ensures ok { OnOk result (self.new ≡
            rung_at self.old lane (lane_at self.old lane)
            (prepared_for self.old.words (M.most_calls self.old.machine)) saved) }
        ensures away { is_resting_at lane self.old.lanes ≡ false → IsOk result }
        ensures err { OnErr result (self.new ≡ self.old) }
    {
        if !self.lanes[lane as usize].is_resting() {
            return Ok(());
        }
        let prepared = Prepared::new(
            self.alloc,
            WORD_BYTES as u32 * self.words,
            self.kept.machine().calls(),
        )?;
        let records = records_to_come(self.lanes.as_slice()) + most_actions(self.words);
        self.trace.reserve(records as usize)?;
        self.lanes[lane as usize].ring(prepared, saved);
        Ok(())
    }

    /// Somebody else stores a value to a word of a lane.
    fn poke(&mut self, lane: u32, word: u32, value: u64) -> Result<(), NoMemory>
        requires lane { lane < length self.old.lanes }
        requires word { word < self.old.words + 2 }
        ensures ok { OnOk result (self.new ≡ pokes self.old lane (lane_at self.old lane) word value) }
        ensures err { OnErr result (self.new ≡ self.old) }
    {
        let records = records_to_come(self.lanes.as_slice()) + 1;
        self.trace.reserve(records as usize)?;
        self.trace.push(Trace::Poked(lane, word, value));
        self.lanes[lane as usize].poke(word, value);
        Ok(())
    }

    /// The processor of a lane makes `count` actions, or fewer where it comes to rest before.
    fn steps(&mut self, lane: u32, count: u32)
        requires { lane < length self.old.lanes }
        ensures { self.new ≡ acts_times M.stepped lane count self.old }
    {
        for _ in 0..count {
            if !self.act(lane) {
                return;
            }
        }
    }

    /// The processor of a lane makes its next action; false where it rests.
    fn act(&mut self, lane: u32) -> bool
        requires { lane < length self.old.lanes }
        ensures acts { self.new ≡ acts_once M.stepped lane self.old }
        ensures rests { (result ≡ false)
            ↔ (next_action self.old.words (lane_at self.old lane).processor.stage ≡ Action.Rest) }
    {
        match self.lanes[lane as usize].next() {
            Action::Rest => return false,
            Action::Load(word) => self.load(lane, word),
            Action::Turn => self.turn(lane),
            Action::Store(word, value) => self.store(lane, word, value),
        }
        true
    }

    /// The processor of a lane loads a word.
    fn load(&mut self, lane: u32, word: u32)
        requires lane { lane < length self.old.lanes }
        requires next { next_action self.old.words (lane_at self.old lane).processor.stage ≡ Action.Load word }
        ensures { self.new ≡ loads_word self.old lane (lane_at self.old lane) word }
    {
        let value = self.lanes[lane as usize].load(word);
        self.trace.push(Trace::Loaded(lane, word, value));
    }

    /// The machine answers the request of a lane's processor.
    fn turn(&mut self, lane: u32)
        requires lane { lane < length self.old.lanes }
        requires next { next_action self.old.words (lane_at self.old lane).processor.stage ≡ Action.Turn }
        ensures { self.new ≡ turns M.stepped self.old lane (lane_at self.old lane) }
    {
        let asking = &mut self.lanes[lane as usize];
        let prepared = asking.take_request();
        let receipt = self.kept.serve(prepared);
        self.trace.push(Trace::Turned(lane, receipt.position));
        asking.answer(receipt);
    }

    /// The processor of a lane stores a value to a word.
    fn store(&mut self, lane: u32, word: u32, value: u64)
        requires lane { lane < length self.old.lanes }
        requires next { next_action self.old.words (lane_at self.old lane).processor.stage ≡ Action.Store word value }
        requires sound { IsSound self.old.words (lane_at self.old lane).processor.stage }
        ensures { self.new ≡ stores_word self.old lane (lane_at self.old lane) word value }
    {
        self.lanes[lane as usize].store(word, value);
        self.trace.push(Trace::Stored(lane, word, value));
    }
}

/// Lanes 0 to `lanes` - 1 of `words` data words each, with all their words 0, whose processors rest.
fn make_lanes(alloc: Global, lanes: u32, words: u32) -> Result<Vec<Lane>, NoMemory>
    requires low { 3 ≤ words }
    requires high { words ≤ 512 }
    ensures { IfOk result (λ made. made.items ≡ new_lanes words lanes) }
{
    let mut made = Vec::new(alloc);
    for lane in 0..lanes {
        made.push(Lane::new(alloc, lane, words)?)?;
    }
    Ok(made)
}

/// The most actions that a ring takes: the length, each data word, the turn, each data word, the length and the status.
fn most_actions(words: u32) -> u32
    requires { words ≤ 512 }
    ensures { result ≡ longest words }
{
    2 * words + 4
}
