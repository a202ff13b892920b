//! Whether a group of images is closed.
ghost use Rattle.std.specs.Prelude.{◌≡◌, ◌↔◌, ◌<◌, length, All, IsTrue, not, ◌&&◌};
ghost use Rattle.std.specs.List.{list_all};
ghost use Rattle.image_groups.specs.ClosedInside.{are_alike, is_alike_with, is_apart, is_apart_at, is_closed_by, is_written_outside};
ghost use Rattle.image_groups.specs.Groups.{granted, group_of};
ghost use Rattle.image_groups.specs.Reach.{is_touched, reach};
ghost use Rattle.mm_base.specs.declared.access.Right.TheVariants.{Write};
ghost use Rattle.mm_groups.specs.Closed.{IsClosedIn};

use crate::{handlers, touching};
use mm_base::{Handler, Kind, Right};
use mm_core::Core;

/// Whether the group of the images with these numbers is closed: no GUID is shared with a handler that isn't code of the group, and nothing
/// that an image outside may write is granted to it. It takes no memory. The units that are looked at are two for each rule and each home
/// range, and 13 more; finding one costs two steps a rule and one an image, and at each three accesses of each image are decided at most.
/// Each two handlers are compared. Each of these steps goes over the numbers once.
pub fn is_closed(core: &Core, group: &[u32]) -> bool
    requires { All (λ image. image < length core.now.site.supervised.images) group.now }
    ensures { IsTrue result ↔ IsClosedIn (group_of group.now) core.now.site }
{
    passes(core, group)
}

/// Whether the group passes the tests of handlers and of units.
fn passes(core: &Core, group: &[u32]) -> bool
    ensures { result ≡ is_closed_by (group_of group.now) core.now.site.supervised core.now.site.handlers }
{
    are_handlers_alike(core, group)
        && is_apart(core, group, Kind::Memory)
        && is_apart(core, group, Kind::Io)
        && is_apart(core, group, Kind::Msr)
}

/// Whether each GUID's handlers are all code of the group's images, or none is.
fn are_handlers_alike(core: &Core, group: &[u32]) -> bool
    ensures { result ≡ are_alike (group_of group.now) core.now.site.handlers }
{
    for k in 0..core.handlers() {
        let Some(handler) = core.handler(k) else {
            unreachable!()
        };
        if !is_alike_with_all(core, group, &handler) {
            return false;
        }
    }
    true
}

/// Whether a handler and each handler of its GUID are all code of the group's images, or none is.
fn is_alike_with_all(core: &Core, group: &[u32], handler: &Handler) -> bool
    ensures { result ≡ list_all (is_alike_with (group_of group.now) handler.now) core.now.site.handlers }
{
    for k in 0..core.handlers() {
        let Some(other) = core.handler(k) else {
            unreachable!()
        };
        if !handlers::are_alike(group, handler, &other) {
            return false;
        }
    }
    true
}

/// Whether nothing of a kind that an image outside may write is granted to the group. What images may reach changes at the ends of ranges
/// alone, so only those units are looked at.
fn is_apart(core: &Core, group: &[u32], kind: Kind) -> bool
    ensures { result ≡ is_apart (group_of group.now) core.now.site.supervised kind }
{
    let mut k = 0;
    while let Some(unit) = core.end(kind, k) {
        if !is_apart_at(core, group, kind, unit) {
            return false;
        }
        k += 1;
    }
    true
}

/// Whether a unit isn't both written outside and granted to the group.
fn is_apart_at(core: &Core, group: &[u32], kind: Kind, unit: u64) -> bool
    ensures { result ≡ is_apart_at (group_of group.now) core.now.site.supervised kind unit }
{
    !(is_written_outside(core, group, kind, unit) && is_granted(core, group, kind, unit))
}

/// Whether some image outside the group may write a unit.
fn is_written_outside(core: &Core, group: &[u32], kind: Kind, unit: u64) -> bool
    ensures { result ≡ is_written_outside (group_of group.now) core.now.site.supervised kind unit }
{
    for image in 0..core.images() {
        if writes_outside(core, group, image, kind, unit) {
            return true;
        }
    }
    false
}

/// Whether an image is outside the group and may write a unit.
fn writes_outside(core: &Core, group: &[u32], image: u32, kind: Kind, unit: u64) -> bool
    requires { image < length core.now.site.supervised.images }
    ensures { result ≡ (not (group_of group.now image) && reach core.now.site.supervised image kind unit Write) }
{
    !group.contains(&image) && core.reaches(image, kind, unit, Right::Write)
}

/// Whether some image of the group may touch a unit.
fn is_granted(core: &Core, group: &[u32], kind: Kind, unit: u64) -> bool
    ensures { result ≡ granted (group_of group.now) core.now.site.supervised kind unit }
{
    for image in 0..core.images() {
        if touches_inside(core, group, image, kind, unit) {
            return true;
        }
    }
    false
}

/// Whether an image is in the group and may touch a unit.
fn touches_inside(core: &Core, group: &[u32], image: u32, kind: Kind, unit: u64) -> bool
    requires { image < length core.now.site.supervised.images }
    ensures { result ≡ (group_of group.now image && is_touched core.now.site.supervised image kind unit) }
{
    if !group.contains(&image) {
        return false;
    }
    let written = core.reaches(image, kind, unit, Right::Write);
    touching::is_touched(core, image, kind, unit, written)
}
