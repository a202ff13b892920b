//! The lines of an invocation: how it ended, what it was denied, and what it wrote.
ghost use Rattle.std.specs.Prelude.{◌≡◌, ◌++◌, OnOk};
ghost use Rattle.std.specs.List.{flat_map};
ghost use Rattle.mm_text.specs.AddsInside.{Adds};
ghost use Rattle.mm_text.specs.RecordLines.{x16, kind_word, right_word, fault_word, why_words, end_words, denial_line, write_line, record_lines, end_line, invocation_lines};

use crate::page::Page;
use mm_base::{CellWrite, Denial, Ended, FaultKind, Invocation, Kind, NoMemory, Right, Why};

/// The lines of invocations, each with this word in front.
pub fn put_invocations(
    page: &mut Page,
    word: &[u8],
    invocations: &[Invocation],
) -> Result<(), NoMemory>
    ensures { OnOk result (Adds page.old (flat_map (invocation_lines word.now) invocations.now) page.new) }
{
    for invocation in invocations {
        put_invocation(page, word, invocation)?;
    }
    Ok(())
}

fn put_invocation(page: &mut Page, word: &[u8], invocation: &Invocation) -> Result<(), NoMemory>
    ensures { OnOk result (Adds page.old (invocation_lines word.now invocation.now) page.new) }
{
    put_end_line(page, word, invocation)?;
    put_records(
        page,
        b"    ",
        invocation.denials.as_slice(),
        invocation.writes.as_slice(),
    )?;
    Ok(())
}

fn put_end_line(page: &mut Page, word: &[u8], invocation: &Invocation) -> Result<(), NoMemory>
    ensures { OnOk result (Adds page.old (end_line word.now invocation.now) page.new) }
{
    page.put(b"  ")?;
    page.put(word)?;
    page.put(b" ")?;
    page.put_decimal(u64::from(invocation.handler))?;
    page.put(b" ")?;
    put_end(page, invocation.ended)?;
    page.put(b"\n")?;
    Ok(())
}

/// The lines of records, each with these spaces in front: all denials, and then all cell writes.
pub fn put_records(
    page: &mut Page,
    spaces: &[u8],
    denials: &[Denial],
    writes: &[CellWrite],
) -> Result<(), NoMemory>
    ensures { OnOk result (Adds page.old (record_lines spaces.now denials.now writes.now) page.new) }
{
    put_denials(page, spaces, denials)?;
    put_writes(page, spaces, writes)?;
    Ok(())
}

fn put_denials(page: &mut Page, spaces: &[u8], denials: &[Denial]) -> Result<(), NoMemory>
    ensures { OnOk result (Adds page.old (flat_map (denial_line spaces.now) denials.now) page.new) }
{
    for denial in denials {
        put_denial(page, spaces, denial)?;
    }
    Ok(())
}

fn put_denial(page: &mut Page, spaces: &[u8], denial: &Denial) -> Result<(), NoMemory>
    ensures { OnOk result (Adds page.old (denial_line spaces.now denial.now) page.new) }
{
    page.put(spaces)?;
    page.put(b"deny ")?;
    page.put_text(word_of_kind(denial.kind))?;
    page.put(b" ")?;
    page.put_text(word_of_right(denial.right))?;
    page.put(b" ")?;
    page.put_x16(denial.at)?;
    page.put(b" ")?;
    page.put_decimal(u64::from(denial.n))?;
    page.put(b" ")?;
    put_why(page, denial.why)?;
    page.put(b"\n")?;
    Ok(())
}

fn put_writes(page: &mut Page, spaces: &[u8], writes: &[CellWrite]) -> Result<(), NoMemory>
    ensures { OnOk result (Adds page.old (flat_map (write_line spaces.now) writes.now) page.new) }
{
    for write in writes {
        put_write(page, spaces, write)?;
    }
    Ok(())
}

fn put_write(page: &mut Page, spaces: &[u8], write: &CellWrite) -> Result<(), NoMemory>
    ensures { OnOk result (Adds page.old (write_line spaces.now write.now) page.new) }
{
    page.put(spaces)?;
    page.put(b"write ")?;
    page.put_text(word_of_kind(write.kind))?;
    page.put(b" ")?;
    page.put_x16(write.at)?;
    page.put(b" ")?;
    page.put_decimal(u64::from(write.n))?;
    page.put(b" ")?;
    page.put_x16(write.value)?;
    page.put(b"\n")?;
    Ok(())
}

/// The words for how an invocation ended.
pub fn put_end(page: &mut Page, ended: Ended) -> Result<(), NoMemory>
    ensures { OnOk result (Adds page.old (end_words ended) page.new) }
{
    match ended {
        Ended::Returned(status) => put_at(page, b"returned ", status),
        Ended::Denied(why, at) => put_denied(page, why, at),
        Ended::Fuel(at) => put_at(page, b"fuel at ", at),
        Ended::Fault(kind, at) => put_fault(page, kind, at),
        Ended::NoMemory(_) => page.put(b"nomemory"),
    }
}

/// A text with a word of sixteen digits behind it.
fn put_at(page: &mut Page, text: &[u8], at: u64) -> Result<(), NoMemory>
    ensures { OnOk result (Adds page.old (text.now ++ x16 at) page.new) }
{
    page.put(text)?;
    page.put_x16(at)?;
    Ok(())
}

fn put_denied(page: &mut Page, why: Why, at: u64) -> Result<(), NoMemory>
    ensures { OnOk result (Adds page.old (end_words (Ended.Denied why at)) page.new) }
{
    page.put(b"denied ")?;
    put_why(page, why)?;
    page.put(b" at ")?;
    page.put_x16(at)?;
    Ok(())
}

fn put_fault(page: &mut Page, kind: FaultKind, at: u64) -> Result<(), NoMemory>
    ensures { OnOk result (Adds page.old (end_words (Ended.Fault kind at)) page.new) }
{
    page.put(b"fault ")?;
    page.put_text(word_of_fault(kind))?;
    page.put(b" at ")?;
    page.put_x16(at)?;
    Ok(())
}

fn put_why(page: &mut Page, why: Why) -> Result<(), NoMemory>
    ensures { OnOk result (Adds page.old (why_words why) page.new) }
{
    match why {
        Why::Home => page.put(b"home"),
        Why::Range => page.put(b"range"),
        Why::Mmram => page.put(b"mmram"),
        Why::Buffer => page.put(b"buffer"),
        Why::Rule(k) => put_rule(page, k),
        Why::NoRule => page.put(b"norule"),
        Why::Quota => page.put(b"quota"),
    }
}

fn put_rule(page: &mut Page, k: u32) -> Result<(), NoMemory>
    ensures { OnOk result (Adds page.old (why_words (Why.Rule k)) page.new) }
{
    page.put(b"rule ")?;
    page.put_decimal(u64::from(k))?;
    Ok(())
}

fn word_of_kind(kind: Kind) -> &'static str
    ensures { result.now ≡ kind_word kind }
{
    match kind {
        Kind::Memory => "mem",
        Kind::Io => "io",
        Kind::Msr => "msr",
        Kind::Saved => "save",
    }
}

fn word_of_right(right: Right) -> &'static str
    ensures { result.now ≡ right_word right }
{
    match right {
        Right::Read => "read",
        Right::Write => "write",
        Right::Execute => "exec",
    }
}

fn word_of_fault(kind: FaultKind) -> &'static str
    ensures { result.now ≡ fault_word kind }
{
    match kind {
        FaultKind::Encoding => "encoding",
        FaultKind::Divide => "divide",
        FaultKind::Alignment => "alignment",
        FaultKind::Break => "break",
        FaultKind::NativeCall => "nativecall",
    }
}
