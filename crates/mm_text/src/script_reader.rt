//! How the text of a script is read: in one pass, line by line.
ghost use Rattle.std.specs.Prelude.{◌≡◌, ◌+◌, ◌≤◌, ◌⊎◌, true, false, length, map, List, slice_get, option_copied, IfOk, IfErr, OnOk};
ghost use Rattle.mm_base.specs.End.{EndsBy, out_of_memory};
ghost use Rattle.mm_text.specs.Limits.{IsWithinLimits};
ghost use Rattle.mm_text.specs.Refusal.{IsFault, IsRefusedLine, first_of};
ghost use Rattle.mm_text.specs.ScriptReaderInside.{GoesOn, HasRead, IsSmall, SaysRefused, StandsFor, ended_at};
ghost use Rattle.mm_text.specs.ScriptText.{IsScript, is_comment, is_passed, lines_of, words_of as words_said};
ghost use Rattle.mm_text.specs.declared.line.Line.{Line};
ghost use Rattle.comm_core.specs.declared.script.Script.{Script};
ghost use Rattle.mm_text.specs.declared.text_end.TextFault.{TextFault};

use crate::keyword::keyword_in;
use crate::line_end::LineEnd;
use crate::line_reader::read_line;
use crate::script_builder::ScriptBuilder;
use crate::text_end::{TextEnd, TextFault};
use comm_core::Script;
use mm_base::{End, NoMemory, TextKind};
use std::alloc::Global;

const LINE_FEED: u8 = 10;

const SPACE: u8 = 32;

/// The first byte of a comment.
const HASH: u8 = 35;

/// Why a line was not taken in.
#[derive(Clone, Copy, Debug, PartialEq, Eq)]
enum LineFault {
    /// It is refused.
    Refused(TextKind),
    /// A growth was refused.
    NoMemory(NoMemory),
}

impl LineFault {
    /// The end of a text at this line.
    fn at(self, line: u32) -> TextEnd
        ensures { result ≡ ended_at line self }
    {
        match self {
            LineFault::Refused(kind) => End::Fault(TextFault { line, kind }),
            LineFault::NoMemory(refused) => End::NoMemory(refused),
        }
    }
}

impl From<NoMemory> for LineFault {
    ghost use Rattle.mm_text.specs.declared.script_reader.LineFault.TheVariants.{NoMemory as OutOfMemory};

    ghost from_gives = { λ refused fault. fault ≡ OutOfMemory refused };

    fn from(refused: NoMemory) -> Self {
        LineFault::NoMemory(refused)
    }
}

impl From<LineEnd> for LineFault {
    ghost use Rattle.mm_text.specs.ScriptReaderInside.{fault_of};

    ghost from_gives = { λ end fault. fault ≡ fault_of end };

    fn from(end: LineEnd) -> Self {
        match end {
            LineEnd::Words => LineFault::Refused(TextKind::Words),
            LineEnd::Number => LineFault::Refused(TextKind::Number),
            LineEnd::NoMemory(refused) => LineFault::NoMemory(refused),
        }
    }
}

/// Reads the text of a script, in which handler lines may stand or not; the cost is linear in its bytes.
pub fn read_script(alloc: Global, bytes: &[u8], handlers: bool) -> Result<Script, TextEnd>
    requires { length bytes.now ≤ 16777216 }
    ensures script { IfOk result (IsScript handlers bytes.now) }
    ensures fault { IfErr result (EndsBy (IsFault handlers bytes.now)) }
    ensures found { (script : Script) → IsScript handlers bytes.now script →
        (result ≡ Ok script) ⊎ (result ≡ Err (End.NoMemory out_of_memory)) }
    ensures first { (fault : TextFault) → IsFault handlers bytes.now fault →
        (result ≡ Err (End.Fault fault)) ⊎ (result ≡ Err (End.NoMemory out_of_memory)) }
    ensures within { IfOk result IsWithinLimits }
{
    script_in(alloc, bytes, handlers)
}

/// Reads all lines, and answers the script that they make.
fn script_in(alloc: Global, bytes: &[u8], handlers: bool) -> Result<Script, TextEnd>
    requires { length bytes.now ≤ 16777216 }
    ensures script { IfOk result (IsScript handlers bytes.now) }
    ensures fault { IfErr result (EndsBy (IsFault handlers bytes.now)) }
{
    let builder = read_lines(alloc, bytes, handlers)?;
    if builder.is_empty() {
        return Err(End::Fault(TextFault {
            line: 1,
            kind: TextKind::Missing,
        }));
    }
    Ok(builder.finish())
}

fn read_lines(alloc: Global, bytes: &[u8], handlers: bool) -> Result<ScriptBuilder, TextEnd>
    requires { length bytes.now ≤ 16777216 }
    ensures told { IfOk result (HasRead handlers (lines_of bytes.now)) }
    ensures stopped { IfErr result (EndsBy (IsRefusedLine handlers (lines_of bytes.now))) }
{
    let mut builder = ScriptBuilder::new(alloc);
    let mut number = 0;
    for line in bytes.split(|byte| *byte == LINE_FEED) {
        number += 1;
        if let Err(fault) = take_line(alloc, &mut builder, line, handlers) {
            return Err(fault.at(number));
        }
    }
    Ok(builder)
}

/// Takes in one more line of a text; the cost is linear in its bytes.
fn take_line(
    alloc: Global,
    builder: &mut ScriptBuilder,
    line: &[u8],
    handlers: bool,
) -> Result<(), LineFault>
    requires small { IsSmall builder.old }
    ensures on { OnOk result ((before : List Line) → StandsFor before builder.old → GoesOn handlers before (words_said line.now) builder.new) }
    ensures small { OnOk result (IsSmall builder.new) }
    ensures refused { IfErr result (λ fault. (before : List Line) → StandsFor before builder.old → SaysRefused handlers before (words_said line.now) fault) }
{
    let Some(first) = first_word(line) else {
        return Ok(());
    };
    if begins_comment(first) {
        return Ok(());
    }
    let Some(keyword) = keyword_in(first, handlers) else {
        return Err(LineFault::Refused(TextKind::Unknown));
    };
    if !builder.may_stand(keyword) {
        return Err(LineFault::Refused(TextKind::Order));
    }
    let words = words_of(alloc, line)?;
    let said = read_line(alloc, keyword, words.as_slice())?;
    if !builder.accepts(&said) {
        return Err(LineFault::Refused(TextKind::Range));
    }
    builder.take(&said)?;
    Ok(())
}

/// The first word of a line.
fn first_word(line: &[u8]) -> Option<&[u8]>
    ensures { option_copied result ≡ slice_get (words_said line.now) 0 }
{
    line.split(|byte| *byte == SPACE)
        .find(|word| !word.is_empty())
}

/// The words of a line.
fn words_of(alloc: Global, line: &[u8]) -> Result<Vec<&[u8]>, NoMemory>
    ensures { IfOk result (λ words. map (λ word. word.now) words.items ≡ words_said line.now) }
{
    let words = line
        .split(|byte| *byte == SPACE)
        .filter(|word| !word.is_empty())
        .collect(alloc)?;
    Ok(words)
}

fn begins_comment(word: &[u8]) -> bool
    ensures { result ≡ is_comment word.now }
{
    match word.first() {
        Some(byte) => *byte == HASH,
        None => false,
    }
}
