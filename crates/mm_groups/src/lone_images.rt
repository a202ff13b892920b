//! Of each image whether the group of that image alone is closed.
ghost use Rattle.std.specs.Prelude.{◌≡◌, ◌<◌, length, IfOk, get_or, false, not, ◌&&◌, ◌==◌};
ghost use Rattle.std.specs.List.{list_all, list_any, range_with_len};
ghost use Rattle.image_groups.specs.ClosedInside.{are_alike, are_same, is_alike_with, is_apart, is_apart_at, is_closed_by};
ghost use Rattle.image_groups.specs.Groups.{alone, is_handler_of};
ghost use Rattle.mm_groups.specs.Closed.{AreAloneClosed};
ghost use Rattle.mm_groups.specs.FlagsInside.{Lowered, writers_of};

use crate::{handlers, touching};
use mm_base::{Handler, Kind, List, NoMemory, Right};
use mm_core::Core;
use std::alloc::Global;

/// A flag for each image, by its number: whether the group of that image alone is closed. It takes two flags an image of memory. The units
/// that are looked at are two for each rule and each home range, and 13 more; finding one costs two steps a rule and one an image, and at each
/// three accesses of each image are decided, and each two images compared. Each two handlers are compared, and for those of one GUID each
/// image is.
pub fn each_alone_closed(alloc: Global, core: &Core) -> Result<List<bool>, NoMemory>
    ensures { IfOk result (λ flags. AreAloneClosed core.now.site flags) }
{
    let images = core.images() as usize;
    let mut flags = vec![in alloc; true; images]?;
    let mut writers = vec![in alloc; false; images]?;
    lower_open(core, writers.as_mut_slice(), flags.as_mut_slice());
    Ok(List::from_vec(flags))
}

/// Lowers the flag of each image that isn't a closed group alone. What stands in `writers` isn't read.
fn lower_open(core: &Core, writers: &mut [bool], flags: &mut [bool])
    requires room { length writers.old ≡ length core.now.site.supervised.images }
    requires count { length flags.old ≡ length core.now.site.supervised.images }
    ensures { Lowered (λ image. is_closed_by (alone image) core.now.site.supervised core.now.site.handlers) flags.old flags.new }
{
    lower_by_handlers(core, flags);
    lower_by_units(core, Kind::Memory, writers, flags);
    lower_by_units(core, Kind::Io, writers, flags);
    lower_by_units(core, Kind::Msr, writers, flags);
}

/// Lowers the flag of each image that shares a GUID with a handler that isn't its code.
fn lower_by_handlers(core: &Core, flags: &mut [bool])
    ensures { Lowered (λ image. are_alike (alone image) core.now.site.handlers) flags.old flags.new }
{
    for k in 0..core.handlers() {
        let Some(handler) = core.handler(k) else {
            unreachable!()
        };
        lower_by_handler(core, &handler, flags);
    }
}

/// Lowers the flag of each image of which this handler is code and one of the same GUID isn't, or the other way round.
fn lower_by_handler(core: &Core, handler: &Handler, flags: &mut [bool])
    ensures { Lowered (λ image. list_all (is_alike_with (alone image) handler.now) core.now.site.handlers) flags.old flags.new }
{
    for k in 0..core.handlers() {
        let Some(other) = core.handler(k) else {
            unreachable!()
        };
        lower_by_pair(handler, &other, flags);
    }
}

/// The same for two handlers.
fn lower_by_pair(handler: &Handler, other: &Handler, flags: &mut [bool])
    ensures { Lowered (λ image. is_alike_with (alone image) handler.now other.now) flags.old flags.new }
{
    if handlers::have_one_guid(handler, other) {
        lower_owner_of_one(handler, other, flags);
    }
}

/// Lowers the flag of each image of which one of two handlers is code and the other isn't.
fn lower_owner_of_one(handler: &Handler, other: &Handler, flags: &mut [bool])
    ensures { Lowered (λ image. are_same (is_handler_of (alone image) handler.now) (is_handler_of (alone image) other.now))
        flags.old flags.new }
{
    for image in 0..flags.len() {
        if handlers::is_of_image(image, handler) != handlers::is_of_image(image, other) {
            flags[image] = false;
        }
    }
}

/// Lowers the flag of each image that may touch a unit of a kind which another image may write.
fn lower_by_units(core: &Core, kind: Kind, writers: &mut [bool], flags: &mut [bool])
    requires room { length writers.old ≡ length core.now.site.supervised.images }
    requires count { length flags.old ≡ length core.now.site.supervised.images }
    ensures room { length writers.new ≡ length core.now.site.supervised.images }
    ensures after { Lowered (λ image. is_apart (alone image) core.now.site.supervised kind) flags.old flags.new }
{
    let mut k = 0;
    while let Some(unit) = core.end(kind, k) {
        find_writers(core, kind, unit, writers);
        lower_by_unit(core, kind, unit, writers, flags);
        k += 1;
    }
}

/// Finds which images may write a unit.
fn find_writers(core: &Core, kind: Kind, unit: u64, writers: &mut [bool])
    requires { length writers.old ≡ length core.now.site.supervised.images }
    ensures { writers.new ≡ writers_of core.now.site.supervised kind unit }
{
    for image in 0..core.images() {
        writers[image as usize] = core.reaches(image, kind, unit, Right::Write);
    }
}

/// Lowers the flag of each image that may touch a unit which another image may write.
fn lower_by_unit(core: &Core, kind: Kind, unit: u64, writers: &[bool], flags: &mut [bool])
    requires writers { writers.now ≡ writers_of core.now.site.supervised kind unit }
    requires count { length flags.old ≡ length core.now.site.supervised.images }
    ensures { Lowered (λ image. is_apart_at (alone image) core.now.site.supervised kind unit) flags.old flags.new }
{
    for image in 0..core.images() {
        if !is_apart_alone(core, image, kind, unit, writers) {
            flags[image as usize] = false;
        }
    }
}

/// Whether no other image may write a unit, or this image may not touch it.
fn is_apart_alone(core: &Core, image: u32, kind: Kind, unit: u64, writers: &[bool]) -> bool
    requires there { image < length core.now.site.supervised.images }
    requires writers { writers.now ≡ writers_of core.now.site.supervised kind unit }
    ensures { result ≡ is_apart_at (alone image) core.now.site.supervised kind unit }
{
    if !is_written_beside(image, writers) {
        return true;
    }
    let written = writers[image as usize];
    !touching::is_touched(core, image, kind, unit, written)
}

/// Whether an image other than this one is among the writers.
fn is_written_beside(number: u32, writers: &[bool]) -> bool
    ensures { result ≡ list_any (λ image. not (number == image) && get_or writers.now image false)
        (range_with_len 0 (length writers.now)) }
{
    for image in 0..writers.len() {
        if is_another_writer(number, image, writers) {
            return true;
        }
    }
    false
}

/// Whether an image is another than this one, and among the writers.
fn is_another_writer(number: u32, image: usize, writers: &[bool]) -> bool
    requires { image < length writers.now }
    ensures { result ≡ (not (number == image) && get_or writers.now image false) }
{
    number as usize != image && writers[image]
}
