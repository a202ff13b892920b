//! Chains of handlers, called one after another.
ghost use Rattle.std.specs.Prelude.{◌≡◌, ◌≤◌, ◌+◌, ◌++◌, length, vec_len};
ghost use Rattle.mm_base.specs.Statuses.{not_found};
ghost use Rattle.mmi_registry.specs.ChainLaws.{result_from};
ghost use Rattle.mmi_registry.specs.Handlers.{chain_of};
ghost use Rattle.mm_core.specs.ChainInside.{is_root, IsGiven, managed};
ghost use Rattle.mm_core.specs.HandlerChain.{invocations_of, statuses_of, message_after, live_after};

use crate::buffer::Buffer;
use crate::invoke::invoke;
use crate::machine_core::Core;
use mm_base::status::NOT_FOUND;
use mm_base::{Guid, Invocation, Records, Room, Saved};
use mmi_registry::combine;

/// Calls the handlers of a GUID, or the root handlers where there is none, in order of registration, and answers what
/// the chain comes to. It costs one step for each handler of the core, and what those of the chain do.
pub(crate) fn manage(
    core: &mut Core,
    guid: Option<Guid>,
    saved: Saved,
    buffer: &mut Buffer,
    invocations: &mut Room<Invocation>,
    blanks: &mut Vec<Records>,
) -> u64
    requires given { IsGiven (is_root guid) buffer.old.message }
    requires room { let chain = chain_of guid core.old.site.handlers in
        length invocations.old.items + length chain ≤ invocations.old.room }
    requires blanks { length (chain_of guid core.old.site.handlers) ≤ vec_len blanks.old }
    ensures result { let runs = managed core.old guid saved buffer.old.message in
        result ≡ result_from (is_root guid) not_found (statuses_of runs) }
    ensures message { let runs = managed core.old guid saved buffer.old.message in
        buffer.new ≡ record buffer.old { message = message_after buffer.old.message runs } }
    ensures invocations { let runs = managed core.old guid saved buffer.old.message in
        invocations.new ≡ record {
          items = invocations.old.items ++ invocations_of runs;
          room = invocations.old.room;
        } }
    ensures core { let runs = managed core.old guid saved buffer.old.message in
        core.new ≡ record core.old { live = live_after core.old.live runs } }
    ensures blanks { let runs = managed core.old guid saved buffer.old.message in
        vec_len blanks.new + length runs ≡ vec_len blanks.old }
{
    let root = guid.is_none();
    let mut result = NOT_FOUND;
    for k in 0..core.handlers() {
        let handler = core.handler(k).unwrap();
        if handler.guid == guid {
            let status = invoke(core, &handler, saved, buffer, invocations, blanks);
            let (after, stopped) = combine(root, result, status);
            result = after;
            if stopped {
                return result;
            }
        }
    }
    result
}
