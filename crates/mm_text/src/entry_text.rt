//! The lines of an entry: what was asked, and what was answered.
ghost use Rattle.std.specs.Prelude.{◌≡◌, [], ◌∷◌, ◌++◌, OnOk, codes, ◌==◌};
ghost use Rattle.std.specs.List.{list_all};
ghost use Rattle.mm_base.specs.Guid.{guid_text};
ghost use Rattle.mm_text.specs.AddsInside.{Adds};
ghost use Rattle.mm_text.specs.Report.{register_words, register_line, shape_line, load_count, entry_line, request_line, reply_line, outcome_lines, entry_lines};

use crate::page::Page;
use crate::record_text::put_invocations;
use mm_base::{Entry, Guid, HEADER_BYTES, NoMemory, Outcome, Request, Saved, Shape, WORD_BYTES};

/// All lines of entry k.
pub fn put_entry(page: &mut Page, k: u64, entry: &Entry) -> Result<(), NoMemory>
    ensures { OnOk result (Adds page.old (entry_lines k entry.now) page.new) }
{
    put_entry_line(page, k, entry)?;
    put_request(page, &entry.request)?;
    put_registers(page, &entry.request.saved)?;
    put_outcome(page, &entry.outcome)?;
    Ok(())
}

fn put_entry_line(page: &mut Page, k: u64, entry: &Entry) -> Result<(), NoMemory>
    ensures { OnOk result (Adds page.old (entry_line k entry.now) page.new) }
{
    page.put(b"entry ")?;
    page.put_decimal(k)?;
    page.put(b" lane ")?;
    page.put_decimal(u64::from(entry.request.lane))?;
    page.put(b" loads ")?;
    page.put_decimal(loads(&entry.request))?;
    page.put(b" status ")?;
    page.put_x16(entry.outcome.status)?;
    page.put(b"\n")?;
    Ok(())
}

/// How many words of its lane were loaded for a request.
fn loads(request: &Request) -> u64
    ensures { result ≡ load_count request.now }
{
    let length = request.length;
    if length >= HEADER_BYTES && request.bytes.len() as u64 == length {
        1 + length.div_ceil(WORD_BYTES as u64)
    } else {
        1
    }
}

fn put_request(page: &mut Page, request: &Request) -> Result<(), NoMemory>
    ensures { OnOk result (Adds page.old (request_line request.now) page.new) }
{
    page.put(b"  request ")?;
    page.put_x16(request.length)?;
    page.put(b" ")?;
    page.put_bytes(request.bytes.as_slice())?;
    page.put(b"\n")?;
    Ok(())
}

fn put_registers(page: &mut Page, saved: &Saved) -> Result<(), NoMemory>
    ensures { OnOk result (Adds page.old (register_line saved.now) page.new) }
{
    if are_zero(&saved.0) {
        return Ok(());
    }
    page.put(b"  regs")?;
    put_register_words(page, &saved.0)?;
    page.put(b"\n")?;
    Ok(())
}

fn are_zero(values: &[u64]) -> bool
    ensures { result ≡ list_all (λ value. value == 0) values.now }
{
    values.iter().all(|&value| value == 0)
}

fn put_register_words(page: &mut Page, values: &[u64]) -> Result<(), NoMemory>
    ensures { OnOk result (Adds page.old (register_words 0 values.now) page.new) }
{
    for (r, value) in values.iter().enumerate() {
        put_register(page, r as u64, *value)?;
    }
    Ok(())
}

fn put_register(page: &mut Page, r: u64, value: u64) -> Result<(), NoMemory>
    ensures { OnOk result (Adds page.old (register_words r (value ∷ [])) page.new) }
{
    if value == 0 {
        return Ok(());
    }
    page.put(b" ")?;
    page.put_decimal(r)?;
    page.put(b"=")?;
    page.put_x16(value)?;
    Ok(())
}

fn put_outcome(page: &mut Page, outcome: &Outcome) -> Result<(), NoMemory>
    ensures { OnOk result (Adds page.old (outcome_lines outcome.now) page.new) }
{
    put_shape(page, outcome.shape)?;
    put_invocations(page, b"handler", outcome.chain.as_slice())?;
    put_reply(page, outcome.reply.as_slice())?;
    put_invocations(page, b"root", outcome.root.as_slice())?;
    Ok(())
}

fn put_shape(page: &mut Page, shape: Shape) -> Result<(), NoMemory>
    ensures { OnOk result (Adds page.old (shape_line shape) page.new) }
{
    match shape {
        Shape::BadLength => page.put(b"  refused length\n"),
        Shape::BadHeader => page.put(b"  refused header\n"),
        Shape::NoHandler(guid) => put_guid_line(page, b"  nohandler ", guid),
        Shape::Dispatched(guid) => put_guid_line(page, b"  dispatched ", guid),
    }
}

/// A line of a text and a GUID.
fn put_guid_line(page: &mut Page, text: &[u8], guid: Guid) -> Result<(), NoMemory>
    ensures { OnOk result (Adds page.old (text.now ++ guid_text guid ++ codes "\n") page.new) }
{
    page.put(text)?;
    page.put(&guid.text())?;
    page.put(b"\n")?;
    Ok(())
}

fn put_reply(page: &mut Page, reply: &[u8]) -> Result<(), NoMemory>
    ensures { OnOk result (Adds page.old (reply_line reply.now) page.new) }
{
    page.put(b"  reply ")?;
    page.put_bytes(reply)?;
    page.put(b"\n")?;
    Ok(())
}
