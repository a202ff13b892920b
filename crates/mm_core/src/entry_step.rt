//! The entry step: what a core makes of one captured request.
ghost use Rattle.std.specs.Prelude.{◌≡◌, ◌≤◌, ◌+◌, ◌==◌, if◌then◌else◌, [], length, vec_len};
ghost use Rattle.mm_base.specs.Statuses.{success, not_found};
ghost use Rattle.mm_base.specs.declared.entry.Shape.TheVariants.{Dispatched};
ghost use Rattle.mm_core.specs.EntryStep.{shape_of, entry_step};
ghost use Rattle.mm_core.specs.HandlerChain.{invocations_of};
ghost use Rattle.mm_core.specs.Message.{no_message};
ghost use Rattle.mm_core.specs.Laws.{IsAddressed};
ghost use Rattle.mm_core.specs.StepInside.{after_chain, chain_in, status_in, reply_in};

use crate::buffer::Buffer;
use crate::chain::manage;
use crate::header::{read_header, split_request};
use crate::machine_core::Core;
use mm_base::status::{INVALID_PARAMETER, NOT_FOUND, SUCCESS};
use mm_base::{
    Guid, HEADER_BYTES, Invocation, Outcome, OutcomeRooms, Records, Request, Room, Shape,
};

/// What a request is taken for. It costs one step a handler.
fn classify(core: &Core, request: &Request) -> Shape
    ensures { result ≡ shape_of core.now.site request.now }
{
    let bytes = request.bytes.as_slice();
    if request.length < HEADER_BYTES || bytes.len() as u64 != request.length {
        return Shape::BadLength;
    }
    let header = read_header(request);
    if !header.fits {
        return Shape::BadHeader;
    }
    if core.has_handler(header.guid) {
        Shape::Dispatched(header.guid)
    } else {
        Shape::NoHandler(header.guid)
    }
}

/// The outcome of a request, in these rooms. It takes no memory, and costs one step for each handler of the core and
/// each byte of the request, and what the handlers do.
pub(crate) fn outcome_of(core: &mut Core, request: &Request, rooms: OutcomeRooms) -> Outcome
    requires reply { rooms.reply.items ≡ [] }
    requires chain { rooms.chain.items ≡ [] }
    requires root { rooms.root.items ≡ [] }
    requires reply_room { length request.now.bytes ≤ rooms.reply.room }
    requires chain_room { length core.old.site.handlers ≤ rooms.chain.room }
    requires root_room { length core.old.site.handlers ≤ rooms.root.room }
    requires blanks { length core.old.site.handlers ≤ vec_len rooms.blanks }
    ensures outcome { result ≡ (entry_step core.old.site core.old.live request.now).0 }
    ensures core { core.new ≡ record core.old { live = (entry_step core.old.site core.old.live request.now).1 } }
{
    let OutcomeRooms {
        reply,
        mut chain,
        mut root,
        mut blanks,
    } = rooms;
    let mut buffer = Buffer::new(reply);
    let shape = classify(core, request);
    let status = answer(core, request, shape, &mut buffer, &mut chain, &mut blanks);
    let _ = manage(
        core,
        None,
        request.saved,
        &mut buffer,
        &mut root,
        &mut blanks,
    );
    Outcome {
        shape,
        status,
        reply: buffer.into_reply(),
        chain: chain.into_list(),
        root: root.into_list(),
    }
}

/// Answers a request by what it is taken for, and returns the status of the entry.
fn answer(
    core: &mut Core,
    request: &Request,
    shape: Shape,
    buffer: &mut Buffer,
    chain: &mut Room<Invocation>,
    blanks: &mut Vec<Records>,
) -> u64
    requires shape { shape_of core.old.site request.now ≡ shape }
    requires buffer { buffer.old ≡ record { front = []; message = no_message; room = buffer.old.room } }
    requires reply_room { length request.now.bytes ≤ buffer.old.room }
    requires chain { chain.old.items ≡ [] }
    requires chain_room { length core.old.site.handlers ≤ chain.old.room }
    requires blanks { length core.old.site.handlers ≤ vec_len blanks.old }
    ensures status { result ≡ status_in core.old request.now shape }
    ensures reply { buffer.new ≡ record buffer.old { front = reply_in core.old request.now shape } }
    ensures chain { chain.new.items ≡ invocations_of (chain_in core.old request.now shape) }
    ensures core { core.new ≡ after_chain core.old request.now shape }
    ensures blanks { vec_len blanks.new + length (chain_in core.old request.now shape) ≡ vec_len blanks.old }
{
    match shape {
        Shape::BadLength | Shape::BadHeader => INVALID_PARAMETER,
        Shape::NoHandler(_) => NOT_FOUND,
        Shape::Dispatched(guid) => dispatch(core, request, guid, buffer, chain, blanks),
    }
}

/// Answers a request by the handlers of its GUID, and returns the status of the entry.
fn dispatch(
    core: &mut Core,
    request: &Request,
    guid: Guid,
    buffer: &mut Buffer,
    chain: &mut Room<Invocation>,
    blanks: &mut Vec<Records>,
) -> u64
    requires addressed { IsAddressed core.old.site request.now guid }
    requires buffer { buffer.old ≡ record { front = []; message = no_message; room = buffer.old.room } }
    requires reply_room { length request.now.bytes ≤ buffer.old.room }
    requires chain { chain.old.items ≡ [] }
    requires chain_room { length core.old.site.handlers ≤ chain.old.room }
    requires blanks { length core.old.site.handlers ≤ vec_len blanks.old }
    ensures status { result ≡ status_in core.old request.now (Dispatched guid) }
    ensures reply { buffer.new ≡ record buffer.old { front = reply_in core.old request.now (Dispatched guid) } }
    ensures chain { chain.new.items ≡ invocations_of (chain_in core.old request.now (Dispatched guid)) }
    ensures core { core.new ≡ after_chain core.old request.now (Dispatched guid) }
    ensures blanks { let runs = chain_in core.old request.now (Dispatched guid) in
        vec_len blanks.new + length runs ≡ vec_len blanks.old }
{
    let (header, message) = split_request(request);
    buffer.open(header, message);
    let result = manage(core, Some(guid), request.saved, buffer, chain, blanks);
    buffer.close(message.len());
    entry_status(result)
}

/// The status of an entry whose chain comes to this.
fn entry_status(comes_to: u64) -> u64
    ensures { result ≡ (if comes_to == success then success else not_found) }
{
    if comes_to == SUCCESS {
        SUCCESS
    } else {
        NOT_FOUND
    }
}
