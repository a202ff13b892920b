//! How a line is read from its words: first its form, then its numbers.
ghost use Rattle.std.specs.Prelude.{◌≡◌, [], ◌∷◌, map, is_some, Err, IfOk};
ghost use Rattle.std.specs.List.{list_all};
ghost use Rattle.mm_text.specs.Fields.{letters_of, keyword_of, Spells, HasForm};
ghost use Rattle.mm_text.specs.LineReaderInside.{has_equals as has_equals_in, cells_in, pairs_in, lanes_in, cell_in, handler_in, poke_in, fill_in, ring_in, step_in, run_in, line_behind, form_behind, or_unreadable, judged, Gives};
ghost use Rattle.mm_text.specs.Refusal.{first_of};
ghost use Rattle.mm_text.specs.declared.line.Keyword.TheVariants as keywords;
ghost use Rattle.mm_text.specs.declared.line.Line.{Line};
ghost use Rattle.mm_text.specs.declared.line_end.LineEnd.TheVariants.{Words, Number};

use crate::fields::{
    has_equals, read_bytes, read_cells, read_decimal, read_hexadecimal, read_owner, read_pair,
};
use crate::line::{Keyword, Line, Named};
use crate::line_end::LineEnd;
use mm_base::List;
use std::alloc::Global;

/// Reads a line from all its words, the first of which is its keyword; the cost is linear in their bytes.
pub fn read_line(alloc: Global, keyword: Keyword, words: &[&[u8]]) -> Result<Line, LineEnd>
    requires { first_of (map (λ word. word.now) words.now) ≡ letters_of keyword }
    ensures ok { IfOk result (λ line. (keyword_of line ≡ keyword) × Spells line (map (λ word. word.now) words.now)) }
    ensures words { result ≡ Err Words → (line : Line) → HasForm line (map (λ word. word.now) words.now) → ⊥ }
    ensures form { result ≡ Err Number → (line : Line) × (keyword_of line ≡ keyword) × HasForm line (map (λ word. word.now) words.now) }
    ensures number { result ≡ Err Number → (line : Line) → Spells line (map (λ word. word.now) words.now) → ⊥ }
{
    let [_, behind @ ..] = words else {
        unreachable!();
    };
    read_behind(alloc, keyword, behind)
}

/// Reads the words behind a keyword.
fn read_behind(alloc: Global, keyword: Keyword, words: &[&[u8]]) -> Result<Line, LineEnd>
    ensures { Gives (judged (form_behind keyword (map (λ word. word.now) words.now)) (line_behind keyword (map (λ word. word.now) words.now))) result }
{
    match keyword {
        Keyword::Lanes => read_lanes(words),
        Keyword::Cell => read_cell(words),
        Keyword::Handler => read_handler(words),
        Keyword::Poke => read_poke(words),
        Keyword::Fill => read_fill(alloc, words),
        Keyword::Ring => read_ring(alloc, words),
        Keyword::Step => read_step(words),
        Keyword::Run => read_run(words),
    }
}

/// Reads the words behind `lanes`.
fn read_lanes(words: &[&[u8]]) -> Result<Line, LineEnd>
    ensures { result ≡ judged (form_behind keywords.Lanes (map (λ word. word.now) words.now)) (lanes_in (map (λ word. word.now) words.now)) }
{
    match words {
        [lanes, words] => lanes_line(lanes, words),
        _ => Err(LineEnd::Words),
    }
}

/// A `lanes` line by its number of lanes and their number of data words.
#[tactic(auto, unfolding(crate::specs::LineReaderInside::lanes_in))]
fn lanes_line(lanes: &[u8], words: &[u8]) -> Result<Line, LineEnd>
    ensures { result ≡ or_unreadable (lanes_in (lanes.now ∷ words.now ∷ [])) }
{
    let lanes = read_decimal(lanes)?;
    let words = read_decimal(words)?;
    Ok(Line::Lanes { lanes, words })
}

/// Reads the words behind `cell`.
fn read_cell(words: &[&[u8]]) -> Result<Line, LineEnd>
    ensures { result ≡ judged (form_behind keywords.Cell (map (λ word. word.now) words.now)) (cell_in (map (λ word. word.now) words.now)) }
{
    match words {
        [kind, at, value] => cell_line(kind, at, value),
        _ => Err(LineEnd::Words),
    }
}

/// A `cell` line by its kind of cells, its place and its value; the kind belongs to the form.
#[tactic(auto, unfolding(crate::specs::LineReaderInside::cell_in))]
fn cell_line(kind: &[u8], at: &[u8], value: &[u8]) -> Result<Line, LineEnd>
    ensures { result ≡ judged (is_some (cells_in kind.now)) (cell_in (kind.now ∷ at.now ∷ value.now ∷ [])) }
{
    let Some(kind) = read_cells(kind) else {
        return Err(LineEnd::Words);
    };
    let at = read_hexadecimal(at)?;
    let value = read_hexadecimal(value)?;
    Ok(Line::Cell { kind, at, value })
}

/// Reads the words behind `handler`.
fn read_handler(words: &[&[u8]]) -> Result<Line, LineEnd>
    ensures { result ≡ judged (form_behind keywords.Handler (map (λ word. word.now) words.now)) (handler_in (map (λ word. word.now) words.now)) }
{
    match words {
        [owner, status] => handler_line(owner, status),
        _ => Err(LineEnd::Words),
    }
}

/// A `handler` line by its owner and its status.
#[tactic(auto, unfolding(crate::specs::LineReaderInside::handler_in))]
fn handler_line(owner: &[u8], status: &[u8]) -> Result<Line, LineEnd>
    ensures { result ≡ or_unreadable (handler_in (owner.now ∷ status.now ∷ [])) }
{
    let guid = read_owner(owner)?;
    let status = read_hexadecimal(status)?;
    Ok(Line::Handler { guid, status })
}

/// Reads the words behind `poke`.
fn read_poke(words: &[&[u8]]) -> Result<Line, LineEnd>
    ensures { result ≡ judged (form_behind keywords.Poke (map (λ word. word.now) words.now)) (poke_in (map (λ word. word.now) words.now)) }
{
    match words {
        [lane, word, value] => poke_line(lane, word, value),
        _ => Err(LineEnd::Words),
    }
}

/// A `poke` line by its lane, its word and its value.
#[tactic(auto, unfolding(crate::specs::LineReaderInside::poke_in))]
fn poke_line(lane: &[u8], word: &[u8], value: &[u8]) -> Result<Line, LineEnd>
    ensures { result ≡ or_unreadable (poke_in (lane.now ∷ word.now ∷ value.now ∷ [])) }
{
    let lane = read_decimal(lane)?;
    let word = read_decimal(word)?;
    let value = read_hexadecimal(value)?;
    Ok(Line::Poke { lane, word, value })
}

/// Reads the words behind `fill`.
fn read_fill(alloc: Global, words: &[&[u8]]) -> Result<Line, LineEnd>
    ensures { Gives (judged (form_behind keywords.Fill (map (λ word. word.now) words.now)) (fill_in (map (λ word. word.now) words.now))) result }
{
    match words {
        [lane, digits] => fill_line(alloc, lane, digits),
        _ => Err(LineEnd::Words),
    }
}

/// A `fill` line by its lane and its digits.
#[tactic(auto, unfolding(crate::specs::LineReaderInside::fill_in))]
fn fill_line(alloc: Global, lane: &[u8], digits: &[u8]) -> Result<Line, LineEnd>
    ensures { Gives (or_unreadable (fill_in (lane.now ∷ digits.now ∷ []))) result }
{
    let lane = read_decimal(lane)?;
    let bytes = read_bytes(alloc, digits)?;
    Ok(Line::Fill { lane, bytes })
}

/// Reads the words behind `ring`.
fn read_ring(alloc: Global, words: &[&[u8]]) -> Result<Line, LineEnd>
    ensures { Gives (judged (form_behind keywords.Ring (map (λ word. word.now) words.now)) (ring_in (map (λ word. word.now) words.now))) result }
{
    match words {
        [lane, pairs @ ..] => ring_line(alloc, lane, pairs),
        _ => Err(LineEnd::Words),
    }
}

/// A `ring` line by its lane and its pairs; that each pair has a `=` belongs to the form.
#[tactic(auto, unfolding(crate::specs::LineReaderInside::ring_in))]
fn ring_line(alloc: Global, lane: &[u8], pairs: &[&[u8]]) -> Result<Line, LineEnd>
    ensures { Gives (judged (list_all has_equals_in (map (λ word. word.now) pairs.now)) (ring_in (lane.now ∷ map (λ word. word.now) pairs.now))) result }
{
    if !are_pairs(pairs) {
        return Err(LineEnd::Words);
    }
    let lane = read_decimal(lane)?;
    let registers = read_pairs(alloc, pairs)?;
    Ok(Line::Ring { lane, registers })
}

/// Whether each word has a `=`.
fn are_pairs(words: &[&[u8]]) -> bool
    ensures { result ≡ list_all has_equals_in (map (λ word. word.now) words.now) }
{
    for word in words {
        if !has_equals(word) {
            return false;
        }
    }
    true
}

/// A register's number and its value for each word.
fn read_pairs(alloc: Global, words: &[&[u8]]) -> Result<List<Named>, LineEnd>
    ensures { Gives (or_unreadable (pairs_in (map (λ word. word.now) words.now))) result }
{
    let mut pairs = List::new(alloc);
    for word in words {
        let Some(pair) = read_pair(word) else {
            return Err(LineEnd::Number);
        };
        pairs.push(pair)?;
    }
    Ok(pairs)
}

/// Reads the words behind `step`.
fn read_step(words: &[&[u8]]) -> Result<Line, LineEnd>
    ensures { result ≡ judged (form_behind keywords.Step (map (λ word. word.now) words.now)) (step_in (map (λ word. word.now) words.now)) }
{
    match words {
        [lane] => step_line(lane),
        [lane, count] => steps_line(lane, count),
        _ => Err(LineEnd::Words),
    }
}

/// A `step` line by its lane.
#[tactic(auto, unfolding(crate::specs::LineReaderInside::step_in))]
fn step_line(lane: &[u8]) -> Result<Line, LineEnd>
    ensures { result ≡ or_unreadable (step_in (lane.now ∷ [])) }
{
    let lane = read_decimal(lane)?;
    Ok(Line::Step { lane })
}

/// A `step` line by its lane and its count.
#[tactic(auto, unfolding(crate::specs::LineReaderInside::step_in))]
fn steps_line(lane: &[u8], count: &[u8]) -> Result<Line, LineEnd>
    ensures { result ≡ or_unreadable (step_in (lane.now ∷ count.now ∷ [])) }
{
    let lane = read_decimal(lane)?;
    let count = read_decimal(count)?;
    Ok(Line::Steps { lane, count })
}

/// Reads the words behind `run`.
fn read_run(words: &[&[u8]]) -> Result<Line, LineEnd>
    ensures { result ≡ judged (form_behind keywords.Run (map (λ word. word.now) words.now)) (run_in (map (λ word. word.now) words.now)) }
{
    match words {
        [lane] => run_line(lane),
        _ => Err(LineEnd::Words),
    }
}

/// A `run` line by its lane.
#[tactic(auto, unfolding(crate::specs::LineReaderInside::run_in))]
fn run_line(lane: &[u8]) -> Result<Line, LineEnd>
    ensures { result ≡ or_unreadable (run_in (lane.now ∷ [])) }
{
    let lane = read_decimal(lane)?;
    Ok(Line::Run { lane })
}
