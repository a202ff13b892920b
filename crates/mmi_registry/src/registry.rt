//! The registry of handlers. All its memory is taken when it is made.
ghost use Rattle.std.specs.Prelude.{◌≡◌, ◌↔◌, ◌+◌, ◌<◌, ◌≤◌, false, true, Some, None, [], length, slice_get, All};
ghost use Rattle.std.specs.Prelude.{IsTrue, IsNone, IsSomeAnd, IfOk, OnOk, OnErr};
ghost use Rattle.std.specs.Bool.{IsFalse};
ghost use Rattle.mmi_registry.specs.Handlers.{is_of, is_built_in, built_ins, chain_of, handler_at, without_number};
ghost use Rattle.mmi_registry.specs.Handlers.{without_image};
ghost use Rattle.mmi_registry.specs.Registry.{IsNumbered, IsWithinRoom, IsAdmissible, is_quota_used, is_at_limit};
ghost use Rattle.mmi_registry.specs.Registry.{with_handler};

use crate::handlers::{find_number, is_owned, nth_of, owned_count, remove_image, remove_number};
use mm_base::{Guid, Handler, HandlerBody, NoMemory};
use std::alloc::Global;
use std::marker::Model;

/// How many images may have handlers.
pub const MOST_IMAGES: usize = 32;

/// How many handlers an image may have at a time.
pub const MOST_OF_IMAGE: usize = 8;

/// How many handlers may be built in.
pub const MOST_BUILT_IN: usize = 65;

/// How many handlers there may be in all.
pub const MOST_HANDLERS: usize = MOST_IMAGES * MOST_OF_IMAGE + MOST_BUILT_IN;

/// Why a handler was not registered.
#[derive(Clone, Copy, Debug, PartialEq, Eq)]
pub enum RegisterEnd {
    /// Registration is over.
    Frozen,
    /// The image has as many handlers as it may have, or no number is left.
    Quota,
}

/// Why a handler was not removed.
#[derive(Clone, Copy, Debug, PartialEq, Eq)]
pub enum UnregisterEnd {
    /// Registration is over.
    Frozen,
    /// No handler has this number.
    NotFound,
    /// The handler is built in, or another image's.
    NotMine,
}

/// The handlers of interrupts in order of registration. Their numbers rise from 0, and none is used again unless the
/// count is set back by `forget`.
#[derive(Debug, Drop)]
pub struct Registry {
    handlers: Vec<Handler>,
    next: u32,
    frozen: bool,
}

impl Model for Registry {
    ghost use Rattle.std.specs.Prelude.{vec_capacity};
    ghost use Rattle.mmi_registry.specs.Registry.{RegistryState, IsRegistry};

    ghost Value = { RegistryState };

    ghost view = { λ r. record { handlers = r.handlers.items; next = r.next; frozen = r.frozen } };

    ghost invariant = { λ r. IsRegistry r.handlers.items r.next (vec_capacity r.handlers) };
}

impl Registry {
    /// A registry without handlers. It takes the memory for all that may come, so that no other call takes any.
    pub fn new(alloc: Global) -> Result<Registry, NoMemory>
        ensures { IfOk result (λ r. r ≡ record { handlers = []; next = 0; frozen = false }) }
    {
        let handlers = Vec::with_capacity(alloc, MOST_HANDLERS)?;
        Ok(Registry {
            handlers,
            next: 0,
            frozen: false,
        })
    }

    /// Registers a handler for a GUID, or for the root chain where there is none, and answers its number. It costs one
    /// step a handler.
    pub fn register(&mut self, guid: Option<Guid>, body: HandlerBody) -> Result<u32, RegisterEnd>
        requires admissible { IsAdmissible body }
        requires room { IsTrue (is_built_in body) → length (built_ins self.old.handlers) < 65 }

        ensures number { IfOk result (λ number. number ≡ self.old.next) }
        ensures joins { OnOk result (self.new ≡ with_handler guid body self.old) }

        // The answers in their order: each comes exactly where those above it don't, by its own cause.
        ensures frozen { (result ≡ Err RegisterEnd.Frozen) ↔ IsTrue self.old.frozen }
        ensures quota { (result ≡ Err RegisterEnd.Quota)
            ↔ (IsFalse self.old.frozen × IsTrue (is_at_limit body self.old)) }
        ensures err { OnErr result (self.new ≡ self.old) }
    {
        if self.frozen {
            return Err(RegisterEnd::Frozen);
        }
        if has_used_quota(&self.handlers, body) || self.next == u32::MAX {
            return Err(RegisterEnd::Quota);
        }
        let number = self.next;
        self.handlers.push_reserved(Handler { number, guid, body });
        self.next = number + 1;
        Ok(number)
    }

    /// Removes the handler of this number. Only its own image may. It costs one step a handler.
    pub fn unregister(&mut self, number: u32, image: u32) -> Result<(), UnregisterEnd>
        ensures removes { let left = without_number number self.old.handlers in
            OnOk result (self.new ≡ record self.old { handlers = left }) }
        ensures alone { OnOk result (length self.old.handlers ≡ length self.new.handlers + 1) }
        ensures others { let others = without_image image in
            OnOk result (others self.new.handlers ≡ others self.old.handlers) }

        // The answers in their order: each comes exactly where those above it don't, by its own cause.
        ensures frozen { (result ≡ Err UnregisterEnd.Frozen) ↔ IsTrue self.old.frozen }
        ensures not_found { (result ≡ Err UnregisterEnd.NotFound)
            ↔ (IsFalse self.old.frozen × IsNone (handler_at number self.old.handlers)) }
        ensures not_mine { let found = handler_at number self.old.handlers in
            (result ≡ Err UnregisterEnd.NotMine)
            ↔ (IsFalse self.old.frozen × IsSomeAnd found (λ handler. IsFalse (is_of image handler))) }
        ensures err { OnErr result (self.new ≡ self.old) }
    {
        if self.frozen {
            return Err(UnregisterEnd::Frozen);
        }
        match find_number(&self.handlers, number) {
            None => Err(UnregisterEnd::NotFound),
            Some(handler) if is_owned(handler.body, image) => {
                remove_number(&mut self.handlers, number);
                Ok(())
            }
            Some(_) => Err(UnregisterEnd::NotMine),
        }
    }

    /// The handler at place `k` of a GUID's chain, in order of registration; None past the last. It costs one step a
    /// handler.
    pub fn chain(&self, guid: Guid, k: u32) -> Option<Handler>
        ensures { result ≡ slice_get (chain_of (Some guid) self.now.handlers) k }
    {
        nth_of(&self.handlers, Some(guid), k)
    }

    /// The handler at place `k` of the root chain, in order of registration; None past the last. It costs one step a
    /// handler.
    pub fn root(&self, k: u32) -> Option<Handler>
        ensures { result ≡ slice_get (chain_of None self.now.handlers) k }
    {
        nth_of(&self.handlers, None, k)
    }

    /// The handler at place `k` of all, in order of registration; None past the last. It costs one step.
    pub fn all(&self, k: u32) -> Option<Handler>
        ensures { result ≡ slice_get self.now.handlers k }
    {
        self.handlers.get(k as usize).copied()
    }

    /// How many handlers there are: 321 at most.
    pub fn len(&self) -> usize
        ensures value { result ≡ length self.now.handlers }
        ensures within { IsWithinRoom self.now.handlers }
        ensures most { length self.now.handlers ≤ 321 }
    {
        self.handlers.len()
    }

    /// The number that the next handler gets.
    pub fn next_number(&self) -> u32
        ensures value { result ≡ self.now.next }
        ensures numbered { IsNumbered self.now.handlers self.now.next }
    {
        self.next
    }

    /// Whether registration is over.
    pub fn is_frozen(&self) -> bool
        ensures { result ≡ self.now.frozen }
    {
        self.frozen
    }

    /// Removes all handlers of an image, and sets back the number that the next handler gets, to one above the numbers
    /// that are left. It costs one step a handler.
    pub fn forget(&mut self, image: u32, next: u32)
        requires back { next ≤ self.old.next }
        requires over { All (λ handler. handler.number < next) (without_image image self.old.handlers) }
        ensures { let left = without_image image self.old.handlers in
            self.new ≡ record self.old { handlers = left; next = next } }
    {
        remove_image(&mut self.handlers, image);
        self.next = next;
    }

    /// Ends registration: no handler comes or goes by `register` and `unregister` any more.
    pub fn freeze(&mut self)
        ensures { self.new ≡ record self.old { frozen = true } }
    {
        self.frozen = true;
    }
}

/// Whether the image of this body has as many handlers as it may have. A body that is built in has no image.
fn has_used_quota(handlers: &[Handler], body: HandlerBody) -> bool
    ensures { result ≡ is_quota_used body handlers.now }
{
    match body {
        HandlerBody::Code { image, .. } => owned_count(handlers, image) >= MOST_OF_IMAGE,
        HandlerBody::Version | HandlerBody::Stub(_) => false,
    }
}
