//! A lane: words that others can rewrite at any moment, and the processor that serves it.
ghost use Rattle.std.specs.Prelude.{◌≡◌, ◌≤◌, ◌<◌, ◌+◌, ◌*◌, length, slice_index, IfOk};
ghost use Rattle.comm_core.specs.Processor.{next_action, is_resting, to_come, sealed, IsSound, MayRing, MayLoad, MayAnswer, MayStore, MayTake};
ghost use Rattle.comm_core.specs.TransitionsInside.{new_lane, lane_rung, lane_loaded, lane_taken, lane_answered, lane_stored, lane_poked, records_left};

use crate::action::FIRST_DATA_WORD;
use crate::{Action, Fed, Processor};
use mm_base::{NoMemory, Prepared, Receipt, Saved};
use std::alloc::Global;
use std::marker::Model;

/// The words of a lane, and the processor that captures requests from them and stores answers to them.
#[derive(Drop)]
pub struct Lane {
    values: Vec<u64>,
    processor: Processor,
}

impl Model for Lane {
    ghost use Rattle.comm_core.specs.WorldState.{LaneState};

    ghost Value = { LaneState };

    ghost view = { λ l. record { values = l.values.items; processor = l.processor } };
}

impl Lane {
    /// The lane of this number with `words` data words and all words 0, whose processor rests.
    pub fn new(alloc: Global, lane: u32, words: u32) -> Result<Lane, NoMemory>
        requires low { 3 ≤ words }
        requires high { words ≤ 512 }
        ensures { IfOk result (λ made. made ≡ new_lane words lane) }
    {
        let values = vec![in alloc; 0; (words + FIRST_DATA_WORD) as usize]?;
        Ok(Lane {
            values,
            processor: Processor::new(lane, words),
        })
    }

    /// What its processor does next.
    pub fn next(&self) -> Action
        ensures next { result ≡ next_action self.now.processor.words self.now.processor.stage }
        ensures sound { IsSound self.now.processor.words self.now.processor.stage }
    {
        self.processor.next()
    }

    /// Whether its processor rests.
    pub fn is_resting(&self) -> bool
        ensures { result ≡ is_resting self.now.processor.stage }
    {
        self.processor.is_resting()
    }

    /// How many records a ring under way may still make.
    pub fn records_to_come(&self) -> u32
        ensures value { result ≡ to_come self.now.processor.words self.now.processor.stage }
        ensures within { result ≤ 1028 }
    {
        self.processor.records_to_come()
    }

    /// The values of all its words.
    pub fn values(&self) -> &[u64]
        ensures { result.now ≡ self.now.values }
    {
        self.values.as_slice()
    }

    /// Somebody else stores a value to a word.
    pub fn poke(&mut self, word: u32, value: u64)
        requires { word < length self.old.values }
        ensures { self.new ≡ lane_poked self.old word value }
    {
        self.values[word as usize] = value;
    }

    /// Its processor is rung, with memory for the entry.
    pub fn ring(&mut self, prepared: Prepared, saved: Saved)
        requires { MayRing self.old.processor.words self.old.processor.stage prepared }
        ensures { self.new ≡ lane_rung self.old prepared saved }
    {
        self.processor.feed(Fed::Ring(prepared, saved));
    }

    /// Its processor loads a word. The value that it finds.
    pub fn load(&mut self, word: u32) -> u64
        requires there { word < length self.old.values }
        requires may { MayLoad self.old.processor.words self.old.processor.stage }
        ensures value { result ≡ slice_index self.old.values word }
        ensures lane { self.new ≡ lane_loaded self.old word }
    {
        let value = self.values[word as usize];
        self.processor.loaded(value);
        value
    }

    /// Hands out the memory that its ring brought, with the request that was captured in it.
    pub fn take_request(&mut self) -> Prepared
        requires { MayTake self.old.processor.words self.old.processor.stage }
        ensures taken { result ≡ sealed self.old.processor.lane self.old.processor.stage result }
        ensures fits { length result.entry.request.bytes ≤ 8 * self.old.processor.words }
        ensures stage { (bytes : _)
            × (self.new ≡ lane_taken self.old bytes)
            × (bytes ≡ length result.entry.request.bytes) }
    {
        self.processor.take_request()
    }

    /// The core answered its request.
    pub fn answer(&mut self, receipt: Receipt)
        requires { MayAnswer self.old.processor.stage receipt }
        ensures { self.new ≡ lane_answered self.old receipt }
    {
        self.processor.feed(Fed::Answered(receipt));
    }

    /// Its processor stores a value to a word.
    pub fn store(&mut self, word: u32, value: u64)
        requires there { word < length self.old.values }
        requires may { MayStore self.old.processor.stage }
        ensures { self.new ≡ lane_stored self.old word value }
    {
        self.values[word as usize] = value;
        self.processor.stored();
    }
}

/// How many records the rings under way in these lanes may still make. It costs a step for each lane.
pub fn records_to_come(lanes: &[Lane]) -> u32
    requires { length lanes.now ≤ 16 }
    ensures value { result ≡ records_left lanes.now }
    ensures within { result ≤ 1028 * length lanes.now }
{
    let mut records = 0;
    for lane in lanes {
        records += lane.records_to_come();
    }
    records
}
