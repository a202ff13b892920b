//! The processor of a lane: it captures a request word by word, and stores the answer word by word.
ghost use Rattle.std.specs.Prelude.{◌≡◌, ◌≤◌, ◌<◌, ◌+◌, ◌*◌, nat_lt, if◌then◌else◌, length};
ghost use Rattle.comm_core.specs.Piece.{needed};
ghost use Rattle.comm_core.specs.Processor.{next_action, is_resting, to_come, after_fed, length_loaded, after_load, after_store, sealed, IsSound, MayFeed, MayFeedSoundly, MayLoad, MayLoadSoundly, MayStore, MayStoreSoundly, MayTake};

use crate::Action;
use crate::action::{FIRST_DATA_WORD, LENGTH_WORD};
use crate::answer::{answer_at, answer_length};
use mm_base::{HEADER_BYTES, Prepared, Receipt, Saved, WORD_BYTES};
use std::marker::Model;
use std::mem;

/// The fewest data words that a lane may have.
pub const LEAST_WORDS: u32 = 3;

/// The most data words that a lane may have.
pub const MOST_WORDS: u32 = 512;

/// What a processor is fed, in answer to its next action.
#[derive(Drop)]
pub enum Fed {
    /// It was rung, with memory for the entry and the saved registers.
    Ring(Prepared, Saved),
    /// The word that it loads has this value.
    Loaded(u64),
    /// The core answered its request.
    Answered(Receipt),
    /// The word that it stores is stored.
    Stored,
}

/// Where a processor stands.
#[derive(Drop)]
enum Stage {
    Resting,
    Rung(Prepared, Saved),
    /// The length was loaded, and this number of data words.
    Loading(Prepared, Saved, u64, u32),
    /// The request was taken, with this number of bytes.
    Turning(usize),
    /// This number of the answer's words was stored.
    Storing(Receipt, u32),
}

/// The processor of one lane.
#[derive(Drop)]
pub struct Processor {
    lane: u32,
    words: u32,
    stage: Stage,
}

impl Model for Processor {
    ghost use Rattle.std.specs.Prelude.{◌≤◌};
    ghost use Rattle.comm_core.specs.Processor.{ProcessorState, IsSound};

    ghost Value = { ProcessorState };

    ghost view = { λ p. record { lane = p.lane; words = p.words; stage = p.stage } };

    ghost invariant = { λ p. (3 ≤ p.words) × (p.words ≤ 512) × IsSound p.words p.stage };
}

impl Processor {
    /// A processor at rest, for this lane of `words` data words.
    pub fn new(lane: u32, words: u32) -> Processor
        requires low { 3 ≤ words }
        requires high { words ≤ 512 }
        ensures { result ≡ record { lane = lane; words = words; stage = Stage.Resting } }
    {
        Processor {
            lane,
            words,
            stage: Stage::Resting,
        }
    }

    /// What it does next.
    pub fn next(&self) -> Action
        ensures next { result ≡ next_action self.now.words self.now.stage }
        ensures sound { IsSound self.now.words self.now.stage }
    {
        match &self.stage {
            Stage::Resting => Action::Rest,
            Stage::Rung(_, _) => Action::Load(LENGTH_WORD),
            Stage::Loading(_, _, length, loaded) => next_load(self.words, *length, *loaded),
            Stage::Turning(_) => Action::Turn,
            Stage::Storing(receipt, stored) => answer_at(receipt, *stored),
        }
    }

    /// Whether it rests.
    pub fn is_resting(&self) -> bool
        ensures { result ≡ is_resting self.now.stage }
    {
        matches!(self.stage, Stage::Resting)
    }

    /// How many records its ring may still make.
    pub fn records_to_come(&self) -> u32
        ensures value { result ≡ to_come self.now.words self.now.stage }
        ensures within { result ≤ 1028 }
    {
        let words = self.words;
        match &self.stage {
            Stage::Resting => 0,
            Stage::Rung(_, _) => 2 * words + 4,
            Stage::Loading(_, _, _, loaded) => words - *loaded + words + 3,
            Stage::Turning(_) => words + 2,
            Stage::Storing(receipt, stored) => answer_length(receipt) - *stored,
        }
    }

    /// Goes on by what it is fed, in answer to its next action. It takes no memory.
    pub fn feed(&mut self, fed: Fed)
        requires { MayFeed self.old.words self.old.stage fed }
        ensures { self.new ≡ record self.old { stage = after_fed self.old.stage fed } }
    {
        self.stage.go_on(fed);
    }

    /// Goes on by a load of this value: as `feed` does, without building a `Fed`.
    pub(crate) fn loaded(&mut self, value: u64)
        requires { MayLoad self.old.words self.old.stage }
        ensures { self.new ≡ record self.old { stage = after_load self.old.stage value } }
    {
        self.stage.load(value);
    }

    /// Goes on by a store: as `feed` does, without building a `Fed`.
    pub(crate) fn stored(&mut self)
        requires { MayStore self.old.stage }
        ensures { self.new ≡ record self.old { stage = after_store self.old.stage } }
    {
        self.stage.store();
    }

    /// Hands out the memory that the ring fed, with the request that was captured in it.
    pub fn take_request(&mut self) -> Prepared
        requires { MayTake self.old.words self.old.stage }
        ensures taken { result ≡ sealed self.old.lane self.old.stage result }
        ensures fits { length result.entry.request.bytes ≤ 8 * self.old.words }
        ensures stage { (bytes : _)
            × (self.new ≡ record self.old { stage = Stage.Turning bytes })
            × (bytes ≡ length result.entry.request.bytes) }
    {
        match mem::replace(&mut self.stage, Stage::Resting) {
            Stage::Loading(mut prepared, saved, length, _) => {
                prepared.seal(self.lane, length, length as usize, saved);
                let bytes = prepared.entry().request.bytes.len();
                put(&mut self.stage, Stage::Turning(bytes));
                prepared
            }
            _ => unreachable!(),
        }
    }
}

/// Puts a stage in place of another one.
fn put(place: &mut Stage, stage: Stage)
    ensures { place.new ≡ stage }
{
    *place = stage;
}

impl Stage {
    /// Goes on by what is fed. Loads and stores change what they count in its place.
    fn go_on(&mut self, fed: Fed)
        requires { MayFeedSoundly self.old fed }
        ensures { self.new ≡ after_fed self.old fed }
    {
        match fed {
            Fed::Ring(prepared, saved) => put(self, Stage::Rung(prepared, saved)),
            Fed::Loaded(value) => self.load(value),
            Fed::Answered(receipt) => put(self, Stage::Storing(receipt, 0)),
            Fed::Stored => self.store(),
        }
    }

    /// Goes on by a load of this value.
    fn load(&mut self, value: u64)
        requires { MayLoadSoundly self.old }
        ensures { self.new ≡ after_load self.old value }
    {
        match self {
            Stage::Loading(prepared, _, _, loaded) => {
                prepared.capture(&value.to_le_bytes());
                *loaded += 1;
            }
            Stage::Rung(_, _) => self.load_length(value),
            _ => (),
        }
    }

    /// Goes on by the load of the length.
    fn load_length(&mut self, value: u64)
        ensures { self.new ≡ length_loaded self.old value }
    {
        match mem::replace(self, Stage::Resting) {
            Stage::Rung(prepared, saved) => put(self, Stage::Loading(prepared, saved, value, 0)),
            other => put(self, other),
        }
    }

    /// Goes on by a store.
    fn store(&mut self)
        requires { MayStoreSoundly self.old }
        ensures { self.new ≡ after_store self.old }
    {
        if let Stage::Storing(receipt, stored) = self {
            *stored += 1;
            if *stored == answer_length(receipt) {
                put(self, Stage::Resting);
            }
        }
    }
}

/// What a capture has next: a load, or its turn.
fn next_load(words: u32, length: u64, loaded: u32) -> Action
    requires high { words ≤ 512 }
    requires within { loaded ≤ needed words length }
    ensures { result ≡ (if nat_lt loaded (needed words length) then Action.Load (2 + loaded) else Action.Turn) }
{
    if loaded < words_needed(words, length) {
        Action::Load(FIRST_DATA_WORD + loaded)
    } else {
        Action::Turn
    }
}

/// How many data words a request of this length has, in a lane of `words` data words.
fn words_needed(words: u32, length: u64) -> u32
    requires { words ≤ 512 }
    ensures value { result ≡ needed words length }
    ensures within { result ≤ words }
{
    let word_bytes = WORD_BYTES as u64;
    if HEADER_BYTES <= length && length <= word_bytes * u64::from(words) {
        length.div_ceil(word_bytes) as u32
    } else {
        0
    }
}
