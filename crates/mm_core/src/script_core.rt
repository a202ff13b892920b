//! The core of a script: the version handler, the script's stubs, and its opening cells.
ghost use Rattle.std.specs.Prelude.{◌≡◌, ◌≤◌, ◌<◌, true, false, length, IfOk};
ghost use Rattle.mm_base.specs.Cells.{IsOpening};
ghost use Rattle.mmi_registry.specs.Handlers.{is_built_in};
ghost use Rattle.mmi_registry.specs.Registry.{with_handler};
ghost use Rattle.mm_core.specs.Scripted.{AreStubs, core_of_script};

use crate::machine_core::Core;
use crate::version::VERSION_GUID;
use mm_base::{Guid, Handler, HandlerBody, List, NoMemory, Opening};
use mmi_registry::Registry;
use platform_model::Platform;
use std::alloc::Global;

/// The core of a script with these opening cells and stubs, whose numbers aren't read. It takes memory for all cells of
/// the platform, 256 KiB, and costs one step a stub, an opening cell and a cell of the platform.
pub fn scripted(
    alloc: Global,
    opening: &Opening,
    handlers: &List<Handler>,
) -> Result<Core, NoMemory>
    requires cells { IsOpening opening.now.cells }
    requires few { length handlers.now ≤ 64 }
    requires stubs { AreStubs handlers.now }
    ensures { IfOk result (λ core. core ≡ core_of_script opening.now.cells handlers.now) }
{
    let mut registry = Registry::new(alloc)?;
    add_built_in(&mut registry, Some(VERSION_GUID), HandlerBody::Version);
    for handler in handlers.as_slice() {
        add_built_in(&mut registry, handler.guid, handler.body);
    }
    registry.freeze();
    let platform = Platform::new(alloc, opening)?;
    Ok(Core::of_script(registry, platform))
}

/// Registers a handler of the core's own, where there is place for it.
fn add_built_in(registry: &mut Registry, guid: Option<Guid>, body: HandlerBody)
    requires built_in { is_built_in body ≡ true }
    requires open { registry.old.frozen ≡ false }
    requires few { length registry.old.handlers < 65 }
    requires numbers { registry.old.next < 65 }
    ensures { registry.new ≡ with_handler guid body registry.old }
{
    if let Err(_) = registry.register(guid, body) {
        unreachable!()
    }
}
