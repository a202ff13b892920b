//! The report of a command.
ghost use Rattle.std.specs.Prelude.{◌≡◌, ◌≤◌, length, map, All, IfOk, OnOk};
ghost use Rattle.std.specs.List.{flat_map};
ghost use Rattle.std.specs.Option.{option_copied};
ghost use Rattle.hex.specs.Hex.{encode_lower};
ghost use Rattle.mm_base.specs.Numbers.{bytes_of_word, bytes_of_words};
ghost use Rattle.mm_text.specs.AddsInside.{Adds};
ghost use Rattle.mm_text.specs.BootLines.{waiting_lines, locked_line, images_lines};
ghost use Rattle.mm_text.specs.Report.{bytes_text, boot_lines, entries_lines, lane_line, lanes_lines, part_lines, files_of, names_of, report_of, reported, HaveFrontWords, StandBeside};
ghost use Rattle.mm_text.specs.VolumeLines.{volume_line, files_lines};

use crate::boot_text::{put_images, put_locked, put_policy, put_starts, put_waiting};
use crate::entry_text::put_entry;
use crate::page::Page;
use crate::parts::{Locked, Parts};
use crate::volume_text::{put_files, put_volume};
use driver_start::StartRecord;
use mm_base::{Bytes, Entries, Entry, Guid, List, NoMemory, Policy, Volume};
use mm_core::FileWord;
use std::alloc::Global;

/// The report of these parts. It costs as many steps as the text has bytes, and a reference an entry.
pub fn report(alloc: Global, parts: &Parts) -> Result<Bytes, NoMemory>
    requires words { StandBeside (files_of (option_copied parts.now.volume)) (option_copied parts.now.words) }
    requires closed { StandBeside (names_of (option_copied parts.now.locked)) (option_copied parts.now.closed) }
    requires lanes { HaveFrontWords (option_copied parts.now.lanes) }
    ensures { IfOk result (λ bytes. bytes ≡ report_of (reported parts.now)) }
{
    let mut page = Page::new(alloc);
    put_volume_part(&mut page, parts.volume)?;
    put_files_part(&mut page, parts.volume, parts.words)?;
    put_boot_part(&mut page, parts.policy, parts.starts)?;
    put_waiting_part(&mut page, parts.waiting)?;
    put_locked_part(&mut page, parts.locked)?;
    put_images_part(&mut page, parts.locked, parts.closed)?;
    put_entries_part(&mut page, alloc, parts.entries)?;
    put_lanes_part(&mut page, parts.lanes)?;
    Ok(page.into_bytes())
}

fn put_volume_part(page: &mut Page, volume: Option<&Volume>) -> Result<(), NoMemory>
    ensures { OnOk result (Adds page.old (part_lines volume_line (option_copied volume.entry)) page.new) }
{
    match volume {
        None => page.put(b""),
        Some(volume) => put_volume(page, volume),
    }
}

fn put_files_part(
    page: &mut Page,
    volume: Option<&Volume>,
    words: Option<&List<FileWord>>,
) -> Result<(), NoMemory>
    requires { StandBeside (files_of (option_copied volume)) (option_copied words) }
    ensures { OnOk result (Adds page.old (part_lines (files_lines (files_of (option_copied volume.entry))) (option_copied words.entry)) page.new) }
{
    match words {
        None => page.put(b""),
        Some(words) => put_files_of(page, volume, words.as_slice()),
    }
}

fn put_files_of(
    page: &mut Page,
    volume: Option<&Volume>,
    words: &[FileWord],
) -> Result<(), NoMemory>
    requires { length words.now ≡ length (files_of (option_copied volume)) }
    ensures { OnOk result (Adds page.old (files_lines (files_of (option_copied volume.entry)) words.now) page.new) }
{
    match volume {
        None => page.put(b""),
        Some(volume) => put_files(page, volume.files.as_slice(), words),
    }
}

fn put_boot_part(
    page: &mut Page,
    policy: Option<&Policy>,
    starts: Option<&List<StartRecord>>,
) -> Result<(), NoMemory>
    ensures { OnOk result (Adds page.old
        (part_lines (boot_lines (option_copied policy.entry)) (option_copied starts.entry)) page.new) }
{
    match starts {
        None => page.put(b""),
        Some(starts) => put_boot(page, policy, starts.as_slice()),
    }
}

fn put_boot(
    page: &mut Page,
    policy: Option<&Policy>,
    starts: &[StartRecord],
) -> Result<(), NoMemory>
    ensures { OnOk result (Adds page.old (boot_lines (option_copied policy.entry) starts.now) page.new) }
{
    put_policy(page, policy)?;
    put_starts(page, starts)?;
    Ok(())
}

fn put_waiting_part(page: &mut Page, waiting: Option<&List<Guid>>) -> Result<(), NoMemory>
    ensures { OnOk result (Adds page.old (part_lines waiting_lines (option_copied waiting.entry)) page.new) }
{
    match waiting {
        None => page.put(b""),
        Some(names) => put_waiting(page, names.as_slice()),
    }
}

fn put_locked_part(page: &mut Page, locked: Option<&Locked>) -> Result<(), NoMemory>
    ensures { OnOk result (Adds page.old (part_lines locked_line (option_copied locked.entry)) page.new) }
{
    match locked {
        None => page.put(b""),
        Some(locked) => put_locked(page, locked),
    }
}

fn put_images_part(
    page: &mut Page,
    locked: Option<&Locked>,
    closed: Option<&List<bool>>,
) -> Result<(), NoMemory>
    requires { StandBeside (names_of (option_copied locked)) (option_copied closed) }
    ensures { OnOk result (Adds page.old
        (part_lines (images_lines 0 (names_of (option_copied locked.entry))) (option_copied closed.entry)) page.new) }
{
    match closed {
        None => page.put(b""),
        Some(closed) => put_images_of(page, locked, closed.as_slice()),
    }
}

fn put_images_of(page: &mut Page, locked: Option<&Locked>, closed: &[bool]) -> Result<(), NoMemory>
    requires { length closed.now ≡ length (names_of (option_copied locked)) }
    ensures { OnOk result (Adds page.old (images_lines 0 (names_of (option_copied locked.entry)) closed.now) page.new) }
{
    match locked {
        None => page.put(b""),
        Some(locked) => put_images(page, locked.names.as_slice(), closed),
    }
}

fn put_entries_part(
    page: &mut Page,
    alloc: Global,
    entries: Option<&Entries>,
) -> Result<(), NoMemory>
    ensures { OnOk result (Adds page.old (part_lines (entries_lines 0) (option_copied entries.entry)) page.new) }
{
    match entries {
        None => page.put(b""),
        Some(entries) => put_all_entries(page, alloc, entries),
    }
}

fn put_all_entries(page: &mut Page, alloc: Global, entries: &Entries) -> Result<(), NoMemory>
    ensures { OnOk result (Adds page.old (entries_lines 0 entries.now) page.new) }
{
    let order = entries.in_order(alloc)?;
    put_entries(page, order.as_slice())?;
    Ok(())
}

fn put_entries(page: &mut Page, entries: &[&Entry]) -> Result<(), NoMemory>
    ensures { OnOk result (Adds page.old (entries_lines 0 (map (λ entry. entry.now) entries.now)) page.new) }
{
    for (k, entry) in entries.iter().enumerate() {
        put_entry(page, k as u64, entry)?;
    }
    Ok(())
}

fn put_lanes_part(page: &mut Page, lanes: Option<&List<List<u64>>>) -> Result<(), NoMemory>
    requires { HaveFrontWords (option_copied lanes) }
    ensures { OnOk result (Adds page.old (part_lines (lanes_lines 0) (option_copied lanes.entry)) page.new) }
{
    match lanes {
        None => page.put(b""),
        Some(lanes) => put_lanes(page, lanes.as_slice()),
    }
}

fn put_lanes(page: &mut Page, lanes: &[List<u64>]) -> Result<(), NoMemory>
    requires { All (λ lane. 2 ≤ length lane) lanes.now }
    ensures { OnOk result (Adds page.old (lanes_lines 0 lanes.now) page.new) }
{
    for (l, lane) in lanes.iter().enumerate() {
        put_lane(page, l as u64, lane.as_slice())?;
    }
    Ok(())
}

fn put_lane(page: &mut Page, l: u64, lane: &[u64]) -> Result<(), NoMemory>
    requires { 2 ≤ length lane.now }
    ensures { OnOk result (Adds page.old (lane_line l lane.now) page.new) }
{
    page.put(b"lane ")?;
    page.put_decimal(l)?;
    page.put(b" length ")?;
    page.put_x16(lane[0])?;
    page.put(b" status ")?;
    page.put_x16(lane[1])?;
    page.put(b" data ")?;
    let (_, words) = lane.split_at(2);
    put_words(page, words)?;
    page.put(b"\n")?;
    Ok(())
}

/// The bytes of words, or a dash where there are none.
fn put_words(page: &mut Page, words: &[u64]) -> Result<(), NoMemory>
    ensures { OnOk result (Adds page.old (bytes_text (bytes_of_words words.now)) page.new) }
{
    if words.is_empty() {
        page.put(b"-")
    } else {
        put_each_word(page, words)
    }
}

fn put_each_word(page: &mut Page, words: &[u64]) -> Result<(), NoMemory>
    ensures { OnOk result (Adds page.old (flat_map (λ word. encode_lower (bytes_of_word word)) words.now) page.new) }
{
    for word in words {
        page.put_word(*word)?;
    }
    Ok(())
}
