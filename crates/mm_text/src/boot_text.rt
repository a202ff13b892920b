//! The lines of a boot: its policy, its starts, the drivers that wait, what is there at lock, and the images.
ghost use Rattle.std.specs.Prelude.{◌≡◌, length, Some, OnOk};
ghost use Rattle.std.specs.List.{flat_map};
ghost use Rattle.std.specs.Option.{option_copied};
ghost use Rattle.mm_text.specs.AddsInside.{Adds};
ghost use Rattle.mm_text.specs.BootLines.{policy_words, policy_line, start_words, start_line, start_lines, waiting_line, waiting_lines, locked_line, group_word, image_line, images_lines};

use crate::page::Page;
use crate::parts::Locked;
use crate::record_text::{put_end, put_records};
use driver_start::{StartEnd, StartRecord};
use mm_base::{Guid, NoMemory, Policy};

/// The line of a policy, or of a boot that has none.
pub fn put_policy(page: &mut Page, policy: Option<&Policy>) -> Result<(), NoMemory>
    ensures { OnOk result (Adds page.old (policy_line (option_copied policy.entry)) page.new) }
{
    page.put(b"policy ")?;
    put_policy_words(page, policy)?;
    page.put(b"\n")?;
    Ok(())
}

fn put_policy_words(page: &mut Page, policy: Option<&Policy>) -> Result<(), NoMemory>
    ensures { OnOk result (Adds page.old (policy_words (option_copied policy.entry)) page.new) }
{
    match policy {
        None => page.put(b"none fuel 65536"),
        Some(policy) => put_rules(page, policy),
    }
}

fn put_rules(page: &mut Page, policy: &Policy) -> Result<(), NoMemory>
    ensures { OnOk result (Adds page.old (policy_words (Some policy.now)) page.new) }
{
    page.put(b"rules ")?;
    page.put_decimal(policy.rules.len() as u64)?;
    page.put(b" fuel ")?;
    page.put_decimal(u64::from(policy.fuel))?;
    Ok(())
}

/// The lines of starts, each with its records.
pub fn put_starts(page: &mut Page, starts: &[StartRecord]) -> Result<(), NoMemory>
    ensures { OnOk result (Adds page.old (flat_map start_lines starts.now) page.new) }
{
    for start in starts {
        put_start(page, start)?;
    }
    Ok(())
}

fn put_start(page: &mut Page, start: &StartRecord) -> Result<(), NoMemory>
    ensures { OnOk result (Adds page.old (start_lines start.now) page.new) }
{
    put_start_line(page, start)?;
    put_records(
        page,
        b"  ",
        start.denials.as_slice(),
        start.writes.as_slice(),
    )?;
    Ok(())
}

fn put_start_line(page: &mut Page, start: &StartRecord) -> Result<(), NoMemory>
    ensures { OnOk result (Adds page.old (start_line start.now) page.new) }
{
    page.put(b"start ")?;
    page.put(&start.name.text())?;
    page.put(b" round ")?;
    page.put_decimal(u64::from(start.round))?;
    page.put(b" ")?;
    put_start_end(page, start.ended)?;
    page.put(b"\n")?;
    Ok(())
}

fn put_start_end(page: &mut Page, ended: StartEnd) -> Result<(), NoMemory>
    ensures { OnOk result (Adds page.old (start_words ended) page.new) }
{
    match ended {
        StartEnd::Ran(ended) => put_end(page, ended),
        StartEnd::NoPages => page.put(b"nopages"),
        StartEnd::TooMany => page.put(b"toomany"),
    }
}

/// The lines of drivers that wait.
pub fn put_waiting(page: &mut Page, names: &[Guid]) -> Result<(), NoMemory>
    ensures { OnOk result (Adds page.old (waiting_lines names.now) page.new) }
{
    for name in names {
        put_waiting_line(page, *name)?;
    }
    Ok(())
}

fn put_waiting_line(page: &mut Page, name: Guid) -> Result<(), NoMemory>
    ensures { OnOk result (Adds page.old (waiting_line name) page.new) }
{
    page.put(b"waiting ")?;
    page.put(&name.text())?;
    page.put(b"\n")?;
    Ok(())
}

/// The line of what is there at lock.
pub fn put_locked(page: &mut Page, locked: &Locked) -> Result<(), NoMemory>
    ensures { OnOk result (Adds page.old (locked_line locked.now) page.new) }
{
    page.put(b"locked images ")?;
    page.put_decimal(locked.names.len() as u64)?;
    page.put(b" handlers ")?;
    page.put_decimal(u64::from(locked.handlers))?;
    page.put(b" protocols ")?;
    page.put_decimal(u64::from(locked.protocols))?;
    page.put(b"\n")?;
    Ok(())
}

/// The lines of images, each name with whether the group of that image alone is closed.
pub fn put_images(page: &mut Page, names: &[Guid], closed: &[bool]) -> Result<(), NoMemory>
    requires { length closed.now ≡ length names.now }
    ensures { OnOk result (Adds page.old (images_lines 0 names.now closed.now) page.new) }
{
    for (k, name) in names.iter().enumerate() {
        put_image(page, k as u64, *name, closed[k])?;
    }
    Ok(())
}

fn put_image(page: &mut Page, k: u64, name: Guid, closed: bool) -> Result<(), NoMemory>
    ensures { OnOk result (Adds page.old (image_line k name closed) page.new) }
{
    page.put(b"image ")?;
    page.put_decimal(k)?;
    page.put(b" ")?;
    page.put(&name.text())?;
    page.put(b" ")?;
    page.put_text(word_of_group(closed))?;
    page.put(b"\n")?;
    Ok(())
}

fn word_of_group(closed: bool) -> &'static str
    ensures { result.now ≡ group_word closed }
{
    if closed { "closed" } else { "open" }
}
