//! Invoking one handler. How it runs depends on its body alone.
ghost use Rattle.std.specs.Prelude.{◌≡◌, ◌<◌, ◌+◌, ◌++◌, ◌∷◌, [], length, vec_len};
ghost use Rattle.mm_core.specs.CodeInside.{IsInvoked};
ghost use Rattle.mm_core.specs.Invoked.{invoked};
ghost use Rattle.mm_core.specs.Message.{status_of};

use crate::buffer::Buffer;
use crate::code::Code;
use crate::machine_core::Core;
use crate::version::answer_version;
use mm_base::status::{ABORTED, ACCESS_DENIED, OUT_OF_RESOURCES, TIMEOUT, UNSUPPORTED};
use mm_base::{Ended, Handler, HandlerBody, Invocation, Records, Room, Saved};

/// Invokes a handler with the message, records its invocation, and answers the status that it counts as.
pub(crate) fn invoke(
    core: &mut Core,
    handler: &Handler,
    saved: Saved,
    buffer: &mut Buffer,
    invocations: &mut Room<Invocation>,
    blanks: &mut Vec<Records>,
) -> u64
    requires room { length invocations.old.items < invocations.old.room }
    requires blanks { 0 < vec_len blanks.old }
    ensures status { let run = invoked core.old.site saved handler.now buffer.old.message core.old.live in
        result ≡ status_of run.invocation.ended }
    ensures message { let run = invoked core.old.site saved handler.now buffer.old.message core.old.live in
        buffer.new ≡ record buffer.old { message = run.message } }
    ensures invocation { let run = invoked core.old.site saved handler.now buffer.old.message core.old.live in
        let items = invocations.old.items ++ run.invocation ∷ [] in
        invocations.new ≡ record { items = items; room = invocations.old.room } }
    ensures core { let run = invoked core.old.site saved handler.now buffer.old.message core.old.live in
        core.new ≡ record core.old { live = run.live } }
    ensures blanks { vec_len blanks.new + 1 ≡ vec_len blanks.old }
{
    let mut records = blanks.pop().unwrap();
    records.clear();
    let (records, ended) = run(core, handler, saved, buffer, records);
    invocations.push(records.ended(handler.number, ended));
    counted(ended)
}

/// Runs a handler by its body, and answers how it ended, with its records. A built-in one makes none.
fn run(
    core: &mut Core,
    handler: &Handler,
    saved: Saved,
    buffer: &mut Buffer,
    records: Records,
) -> (Records, Ended)
    requires { records ≡ record { denials = []; writes = [] } }
    ensures { IsInvoked core.old handler.now.number (invoked core.old.site saved handler.now buffer.old.message core.old.live)
        buffer.old result core.new buffer.new }
{
    match handler.body {
        HandlerBody::Version => (records, Ended::Returned(answer_version(buffer))),
        HandlerBody::Stub(status) => (records, Ended::Returned(status)),
        HandlerBody::Code { image, address } => {
            if image < core.images() {
                return core.invoke_code(handler, Code { image, address }, saved, buffer, records);
            }
            (records, Ended::Returned(UNSUPPORTED))
        }
    }
}

/// The status that an invocation counts as.
fn counted(ended: Ended) -> u64
    ensures { result ≡ status_of ended }
{
    match ended {
        Ended::Returned(status) => status,
        Ended::Denied(..) => ACCESS_DENIED,
        Ended::Fuel(_) => TIMEOUT,
        Ended::Fault(..) => ABORTED,
        Ended::NoMemory(_) => OUT_OF_RESOURCES,
    }
}
