//! The script of a text as it grows, line by line.
ghost use Rattle.std.specs.Prelude.{◌≡◌, ◌+◌, ◌*◌, ◌^◌, ◌<◌, ◌≤◌, true, nat_lt, [], ◌∷◌, ◌++◌, length, OnOk};
ghost use Rattle.mm_base.specs.Cells.{may_hold};
ghost use Rattle.mm_base.specs.Numbers.{words_of_bytes};
ghost use Rattle.mm_text.specs.ScriptText.{pokes_from, kind_of, place_of};
ghost use Rattle.mm_text.specs.ScriptReaderInside.{IsSmall, StandsFor, accepts, behind, built, happened, is_empty as has_no_line, stands_in};
ghost use Rattle.mm_text.specs.declared.line.Line.{Line};

use crate::line::{CellKind, Keyword, Line, Named};
use crate::registers::{are_registers, saved_registers};
use comm_core::{Event, Script};
use mm_base::{
    CellWrite, DEVICE_WINDOW, Guid, Handler, HandlerBody, Kind, List, NoMemory, Opening, is_cell,
    word_at,
};
use std::alloc::Global;

/// The most lanes of a script.
const MOST_LANES: u64 = 16;

/// The fewest and the most data words of a lane.
const FEWEST_WORDS: u64 = 3;

const MOST_WORDS: u64 = 512;

/// The most stub handlers of a script.
const MOST_HANDLERS: usize = 64;

/// The most rings of a script.
const MOST_RINGS: u32 = 8192;

/// The most actions that one line steps.
const MOST_STEPS: u64 = 2048;

/// How far the lines of a text have come.
#[derive(Clone, Copy, Debug, PartialEq, Eq)]
enum Phase {
    /// There is no line yet.
    Empty,
    /// No line says yet that something happens.
    Opening,
    /// A line says that something happens.
    Happening,
}

/// What is kept of the lines of a text so far.
#[derive(Debug, Drop)]
pub struct ScriptBuilder {
    phase: Phase,
    lanes: u32,
    words: u32,
    rings: u32,
    cells: List<CellWrite>,
    handlers: List<Handler>,
    events: List<Event>,
}

impl ScriptBuilder {
    /// What is kept of no line.
    pub fn new(alloc: Global) -> ScriptBuilder
        ensures stands { StandsFor [] result }
        ensures small { IsSmall result }
    {
        ScriptBuilder {
            phase: Phase::Empty,
            lanes: 0,
            words: 0,
            rings: 0,
            cells: List::new(alloc),
            handlers: List::new(alloc),
            events: List::new(alloc),
        }
    }

    /// Whether there is no line yet.
    pub fn is_empty(&self) -> bool
        ensures { result ≡ has_no_line self.now.phase }
    {
        matches!(self.phase, Phase::Empty)
    }

    /// Whether a line of this keyword may stand behind these lines.
    pub fn may_stand(&self, keyword: Keyword) -> bool
        ensures { result ≡ stands_in self.now.phase keyword }
    {
        match keyword {
            Keyword::Lanes => matches!(self.phase, Phase::Empty),
            Keyword::Cell | Keyword::Handler => matches!(self.phase, Phase::Opening),
            _ => !matches!(self.phase, Phase::Empty),
        }
    }

    /// Whether the numbers of a line are in range; the cost is linear in the registers that it names.
    pub fn accepts(&self, line: &Line) -> bool
        ensures { result ≡ accepts self.now line.now }
    {
        match line {
            Line::Lanes { lanes, words } => {
                1 <= *lanes
                    && *lanes <= MOST_LANES
                    && FEWEST_WORDS <= *words
                    && *words <= MOST_WORDS
            }
            Line::Cell { kind, at, value } => is_cell_in_range(*kind, *at, *value),
            Line::Handler { .. } => self.handlers.len() < MOST_HANDLERS,
            Line::Poke { lane, word, .. } => {
                self.has_lane(*lane) && *word < u64::from(self.words) + 2
            }
            Line::Fill { lane, bytes } => {
                self.has_lane(*lane) && 1 <= bytes.len() && bytes.len() <= 8 * self.words as usize
            }
            Line::Ring { lane, registers } => {
                self.has_lane(*lane)
                    && are_registers(registers.as_slice())
                    && self.rings < MOST_RINGS
            }
            Line::Steps { lane, count } => {
                self.has_lane(*lane) && 1 <= *count && *count <= MOST_STEPS
            }
            Line::Step { lane } | Line::Run { lane } => self.has_lane(*lane),
        }
    }

    fn has_lane(&self, lane: u64) -> bool
        ensures { result ≡ nat_lt lane self.now.lanes }
    {
        lane < u64::from(self.lanes)
    }

    /// Takes in a line that is in range; the cost is linear in what it says.
    pub fn take(&mut self, line: &Line) -> Result<(), NoMemory>
        requires accepted { accepts self.old line.now ≡ true }
        requires small { IsSmall self.old }
        ensures behind { OnOk result (self.new ≡ behind self.old line.now) }
        ensures small { OnOk result (IsSmall self.new) }
    {
        match line {
            Line::Lanes { lanes, words } => {
                self.phase = Phase::Opening;
                self.lanes = *lanes as u32;
                self.words = *words as u32;
                Ok(())
            }
            Line::Cell { kind, at, value } => self.take_cell(*kind, *at, *value),
            Line::Handler { guid, status } => self.take_handler(*guid, *status),
            Line::Poke { lane, word, value } => self.take_event(Event::Poke {
                lane: *lane as u32,
                word: *word as u32,
                value: *value,
            }),
            Line::Fill { lane, bytes } => self.take_fill(*lane as u32, bytes.as_slice()),
            Line::Ring { lane, registers } => self.take_ring(*lane as u32, registers.as_slice()),
            Line::Step { lane } => self.take_event(Event::Steps {
                lane: *lane as u32,
                count: 1,
            }),
            Line::Steps { lane, count } => self.take_event(Event::Steps {
                lane: *lane as u32,
                count: *count as u32,
            }),
            Line::Run { lane } => self.take_event(Event::Run { lane: *lane as u32 }),
        }
    }

    fn take_cell(&mut self, kind: CellKind, at: u64, value: u64) -> Result<(), NoMemory>
        requires { accepts self.old (Line.Cell kind at value) ≡ true }
        ensures { OnOk result (self.new ≡ behind self.old (Line.Cell kind at value)) }
    {
        self.cells.push(CellWrite {
            kind: kind_of_cell(kind),
            at: place_of_cell(kind, at),
            n: 1,
            value,
        })
    }

    fn take_handler(&mut self, guid: Option<Guid>, status: u64) -> Result<(), NoMemory>
        requires { length self.old.handlers < 64 }
        ensures { OnOk result (self.new ≡ behind self.old (Line.Handler guid status)) }
    {
        let number = self.handlers.len() as u32 + 1;
        self.handlers.push(Handler {
            number,
            guid,
            body: HandlerBody::Stub(status),
        })
    }

    fn take_event(&mut self, event: Event) -> Result<(), NoMemory>
        ensures { OnOk result (self.new ≡ happened self.old (event ∷ [])) }
    {
        self.phase = Phase::Happening;
        self.events.push(event)
    }

    fn take_ring(&mut self, lane: u32, registers: &[Named]) -> Result<(), NoMemory>
        requires { self.old.rings < 8192 }
        ensures { OnOk result (self.new ≡ behind self.old (Line.Ring lane registers.now)) }
    {
        self.rings += 1;
        self.take_event(Event::Ring {
            lane,
            saved: saved_registers(registers),
        })
    }

    fn take_fill(&mut self, lane: u32, bytes: &[u8]) -> Result<(), NoMemory>
        requires { length bytes.now ≤ 4096 }
        ensures { OnOk result (self.new ≡ behind self.old (Line.Fill lane bytes.now)) }
    {
        self.phase = Phase::Happening;
        put_words(&mut self.events, lane, bytes)?;
        self.events.push(Event::Poke {
            lane,
            word: 0,
            value: bytes.len() as u64,
        })
    }

    /// The script of these lines.
    pub fn finish(self) -> Script
        ensures { result ≡ built self }
    {
        let ScriptBuilder {
            lanes,
            words,
            cells,
            handlers,
            events,
            ..
        } = self;
        Script {
            lanes,
            words,
            opening: Opening { cells },
            handlers,
            events,
        }
    }
}

/// Puts a poke of each word that the bytes fill.
fn put_words(events: &mut List<Event>, lane: u32, bytes: &[u8]) -> Result<(), NoMemory>
    requires { length bytes.now ≤ 4096 }
    ensures { OnOk result (events.new ≡ events.old ++ pokes_from lane 2 (words_of_bytes bytes.now)) }
{
    let words = (bytes.len() + 7) / 8;
    for j in 0..words {
        events.push(Event::Poke {
            lane,
            word: 2 + j as u32,
            value: word_at(bytes, j),
        })?;
    }
    Ok(())
}

/// Whether the platform has the cell of a `cell` line, and it may hold this value.
fn is_cell_in_range(kind: CellKind, at: u64, value: u64) -> bool
    ensures { result ≡ may_hold (kind_of kind) (place_of kind at) value }
{
    match kind {
        CellKind::Io => is_cell(Kind::Io, at, value),
        CellKind::Msr => is_cell(Kind::Msr, at, value),
        CellKind::Device => {
            at < DEVICE_WINDOW.length && is_cell(Kind::Memory, DEVICE_WINDOW.base + at, value)
        }
    }
}

fn kind_of_cell(kind: CellKind) -> Kind
    ensures { result ≡ kind_of kind }
{
    match kind {
        CellKind::Io => Kind::Io,
        CellKind::Msr => Kind::Msr,
        CellKind::Device => Kind::Memory,
    }
}

/// Where the cell of a `cell` line stands.
fn place_of_cell(kind: CellKind, at: u64) -> u64
    requires { place_of kind at < 2 ^ 64 }
    ensures { result ≡ place_of kind at }
{
    match kind {
        CellKind::Io | CellKind::Msr => at,
        CellKind::Device => DEVICE_WINDOW.base + at,
    }
}
