//! Handlers that were registered for one GUID, and of which images they are code.
ghost use Rattle.std.specs.Prelude.{◌≡◌};
ghost use Rattle.image_groups.specs.ClosedInside.{have_one_guid, is_alike_with};
ghost use Rattle.image_groups.specs.Groups.{alone, group_of, is_handler_of};

use mm_base::{Handler, HandlerBody};

/// Whether two handlers were registered for one GUID. A root handler has none.
pub fn have_one_guid(handler: &Handler, other: &Handler) -> bool
    ensures { result ≡ have_one_guid handler.now.guid other.now.guid }
{
    match (handler.guid, other.guid) {
        (Some(guid), Some(other)) => guid == other,
        _ => false,
    }
}

/// Whether two handlers are both code of the group's images or both not, where they were registered for one GUID.
pub fn are_alike(group: &[u32], handler: &Handler, other: &Handler) -> bool
    ensures { result ≡ is_alike_with (group_of group.now) handler.now other.now }
{
    !have_one_guid(handler, other) || is_of_group(group, handler) == is_of_group(group, other)
}

/// Whether a handler is code of an image of a group. One that is built into the core is of none.
pub fn is_of_group(group: &[u32], handler: &Handler) -> bool
    ensures { result ≡ is_handler_of (group_of group.now) handler.now }
{
    match handler.body {
        HandlerBody::Version | HandlerBody::Stub(_) => false,
        HandlerBody::Code { image, .. } => group.contains(&image),
    }
}

/// Whether a handler is code of this image.
pub fn is_of_image(number: usize, handler: &Handler) -> bool
    ensures { result ≡ is_handler_of (alone number) handler.now }
{
    match handler.body {
        HandlerBody::Version | HandlerBody::Stub(_) => false,
        HandlerBody::Code { image, .. } => number == image as usize,
    }
}
