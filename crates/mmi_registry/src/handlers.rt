//! Handlers in order of registration: what is looked up in them, and how some are removed.
ghost use Rattle.std.specs.Prelude.{◌≡◌, length, slice_get, vec_capacity};
ghost use Rattle.mmi_registry.specs.Handlers.{is_code_of, owned_by, chain_of, handler_at, without_number};
ghost use Rattle.mmi_registry.specs.Handlers.{without_image};

use mm_base::{Guid, Handler, HandlerBody};

/// Whether a body is byte code of this image.
pub fn is_owned(body: HandlerBody, image: u32) -> bool
    ensures { result ≡ is_code_of image body }
{
    match body {
        HandlerBody::Code { image: owner, .. } => owner == image,
        HandlerBody::Version | HandlerBody::Stub(_) => false,
    }
}

/// How many of the handlers an image has.
pub fn owned_count(handlers: &[Handler], image: u32) -> usize
    ensures { result ≡ length (owned_by image handlers.now) }
{
    handlers
        .iter()
        .filter(|handler| is_owned(handler.body, image))
        .count()
}

/// The handler of this number; None where there is none.
pub fn find_number(handlers: &[Handler], number: u32) -> Option<Handler>
    ensures { result ≡ handler_at number handlers.now }
{
    handlers
        .iter()
        .find(|handler| handler.number == number)
        .copied()
}

/// The handler at place `k` of a GUID's chain, or of the root chain; None past the last.
pub fn nth_of(handlers: &[Handler], guid: Option<Guid>, k: u32) -> Option<Handler>
    ensures { result ≡ slice_get (chain_of guid handlers.now) k }
{
    handlers
        .iter()
        .filter(|handler| handler.guid == guid)
        .nth(k as usize)
        .copied()
}

/// Removes the handler of this number. The memory stays.
pub fn remove_number(handlers: &mut Vec<Handler>, number: u32)
    ensures items { handlers.new.items ≡ without_number number handlers.old.items }
    ensures room { vec_capacity handlers.new ≡ vec_capacity handlers.old }
{
    handlers.retain(|handler| handler.number != number);
}

/// Removes the handlers of this image. The memory stays.
pub fn remove_image(handlers: &mut Vec<Handler>, image: u32)
    ensures items { handlers.new.items ≡ without_image image handlers.old.items }
    ensures room { vec_capacity handlers.new ≡ vec_capacity handlers.old }
{
    handlers.retain(|handler| !is_owned(handler.body, image));
}
