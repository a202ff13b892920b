//! The drivers of a volume.
ghost use Rattle.std.specs.Prelude.{◌≡◌, ℕ, ◌+◌, ◌≤◌, ◌<◌, ◌^◌, List, [], ◌∷◌, ◌++◌, true, length, All, IfSome, IfOk, OnOk};
ghost use Rattle.file_words.specs.Catalog.{AreWords};
ghost use Rattle.file_words.specs.CatalogLaws.{is_started_word, started_of};
ghost use Rattle.file_words.specs.Parts.{HasExpression, HasParts, IsExpressionIn};
ghost use Rattle.file_words.specs.declared.driver_parts.DriverParts.{DriverParts as PartsValue};
ghost use Rattle.mm_base.specs.declared.volume.File.{File as FileValue};
ghost use Rattle.volume_boot.specs.BootsInside.{IsKept, more_if};

use depex::{Depex, parse};
use dispatcher::Driver as ScheduledDriver;
use driver_start::Driver;
use file_words::{DriverParts, FileWord, data, parts_of};
use mm_base::{End, File, List, NoMemory};
use std::alloc::Global;

/// The drivers of a volume, in volume order: by what rounds know of each, and by what is loaded of it.
#[derive(Drop)]
pub(crate) struct VolumeDrivers<'a> {
    pub(crate) scheduled: List<ScheduledDriver>,
    pub(crate) loaded: Vec<Driver<'a>>,
}

/// The dependency expression of a driver, if it has one.
fn expression_of(
    alloc: Global,
    bytes: &[u8],
    parts: &DriverParts,
) -> Result<Option<Depex>, NoMemory>
    requires within { IfSome parts.now.depex (λ section. section.at + section.length ≤ length bytes.now) }
    requires expression { HasExpression bytes.now parts.now.depex }
    requires few { length bytes.now ≤ 16777216 }
    ensures { IfOk result (IsExpressionIn bytes.now parts.now.depex) }
{
    let Some(section) = parts.depex else {
        return Ok(None);
    };
    match parse(alloc, data(bytes, &section)) {
        Ok(depex) => Ok(Some(depex)),
        Err(End::NoMemory(refused)) => Err(refused),
        Err(End::Fault(_)) => unreachable!(),
    }
}

/// Whether a boot starts a file of this word.
fn is_started(word: FileWord) -> bool
    ensures { result ≡ is_started_word word }
{
    match word {
        FileWord::Driver => true,
        _ => false,
    }
}

impl<'a> VolumeDrivers<'a> {
    /// No drivers.
    fn none(alloc: Global) -> VolumeDrivers<'a>
        ensures { (bytes : List ℕ) → IsKept bytes [] result.scheduled result.loaded.items }
    {
        VolumeDrivers {
            scheduled: List::new(alloc),
            loaded: Vec::new(alloc),
        }
    }

    /// Adds the driver of a file, which has its parts. It costs what `parts_of` says, and one pass over the expression.
    fn add(&mut self, alloc: Global, bytes: &'a [u8], file: &File) -> Result<(), NoMemory>
        requires driver { (parts : PartsValue) × HasParts bytes.now file.now parts }
        requires within { file.now.body_at + file.now.body ≤ length bytes.now }
        requires few_bytes { length bytes.now ≤ 16777216 }
        requires few { length self.old.scheduled < 2 ^ 32 }
        ensures { (files : List FileValue) → IsKept bytes.now files self.old.scheduled self.old.loaded.items →
            OnOk result (IsKept bytes.now (files ++ file.now ∷ []) self.new.scheduled self.new.loaded.items) }
    {
        let parts = match parts_of(bytes, file) {
            Ok(parts) => parts,
            Err(_) => unreachable!(),
        };
        let depex = expression_of(alloc, bytes, &parts)?;
        let index = self.scheduled.len() as u32;
        let name = file.name;
        self.scheduled.push(ScheduledDriver { index, name, depex })?;
        self.loaded.push(Driver {
            name,
            bytes: data(bytes, &parts.section),
            image: parts.image,
        })?;
        Ok(())
    }
}

impl<'a> VolumeDrivers<'a> {
    /// Adds the driver of a file, if its word is that of a driver that a boot starts.
    fn look_at(
        &mut self,
        alloc: Global,
        bytes: &'a [u8],
        file: &File,
        word: FileWord,
    ) -> Result<(), NoMemory>
        requires driver { is_started_word word ≡ true → (parts : PartsValue) × HasParts bytes.now file.now parts }
        requires within { file.now.body_at + file.now.body ≤ length bytes.now }
        requires few_bytes { length bytes.now ≤ 16777216 }
        requires few { length self.old.scheduled < 2 ^ 32 }
        ensures { (files : List FileValue) → IsKept bytes.now files self.old.scheduled self.old.loaded.items →
            OnOk result (IsKept bytes.now (files ++ more_if file.now word) self.new.scheduled self.new.loaded.items) }
    {
        if is_started(word) {
            self.add(alloc, bytes, file)
        } else {
            Ok(())
        }
    }
}

/// The drivers of a volume with these words: the files that are drivers in EFI Byte Code. It costs what `parts_of` says for each, and one
/// pass over its expression, and takes memory for the expressions and for the list.
pub(crate) fn find_drivers<'a>(
    alloc: Global,
    bytes: &'a [u8],
    files: &[File],
    words: &[FileWord],
) -> Result<VolumeDrivers<'a>, NoMemory>
    requires words { AreWords bytes.now files.now words.now }
    requires one_each { length words.now ≡ length files.now }
    requires within { All (λ file. file.body_at + file.body ≤ length bytes.now) files.now }
    requires few_bytes { length bytes.now ≤ 16777216 }
    requires few { length files.now < 2 ^ 32 }
    ensures { IfOk result (λ drivers. IsKept bytes.now (started_of files.now words.now) drivers.scheduled drivers.loaded.items) }
{
    let mut drivers = VolumeDrivers::none(alloc);
    for place in 0..files.len() {
        drivers.look_at(alloc, bytes, &files[place], words[place])?;
    }
    Ok(drivers)
}
