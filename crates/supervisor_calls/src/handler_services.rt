//! Services that register handlers and remove them.
ghost use Rattle.std.specs.Prelude.{◌≡◌, false};
ghost use Rattle.mm_base.specs.Bus.{Answers};
ghost use Rattle.supervisor_calls.specs.ListingsInside.{root_or_seen};
ghost use Rattle.supervisor_calls.specs.Services.{code_registration, registration, unregistration};
ghost use Rattle.supervisor_calls.specs.ServicesInside.{Does};

use crate::domain::Domain;
use crate::listings::RemovalEnd;
use mm_base::status::{ACCESS_DENIED, INVALID_PARAMETER, NOT_FOUND, OUT_OF_RESOURCES, SUCCESS};
use mm_base::{Frames, Guid, Served};

impl<F: Frames> Domain<F> {
    /// Registers code of the image as a handler for the GUID at a pointer, or as a root handler where that is 0.
    pub(crate) fn register_handler(
        &mut self,
        address: u64,
        pointer: u64,
        out: u64,
    ) -> Result<u64, Served>
        requires { self.old.tables.locked ≡ false }
        ensures { Does (registration self.old.image address pointer out) self.old result self.new }
    {
        if address == 0 || address % 2 != 0 {
            return Ok(INVALID_PARAMETER);
        }
        let guid = self.guid_or_root(pointer)?;
        self.register_code(guid, address, out)
    }

    /// Registers code of the image as a handler for a GUID, or as a root handler, and gives its handle.
    fn register_code(&mut self, guid: Option<Guid>, address: u64, out: u64) -> Result<u64, Served>
        requires { self.old.tables.locked ≡ false }
        ensures { Does (code_registration self.old.image address out guid) self.old result self.new }
    {
        self.ask_out(out)?;
        match self.tables.register(guid, self.image, address) {
            Some(number) => Ok(self.give(out, number as u64 + 1)),
            None => Ok(OUT_OF_RESOURCES),
        }
    }

    /// The GUID at a pointer; none where that is 0.
    fn guid_or_root(&mut self, pointer: u64) -> Result<Option<Guid>, Served>
        ensures { Answers (root_or_seen pointer self.old) result self.new }
    {
        if pointer == 0 {
            return Ok(None);
        }
        let guid = self.read_guid(pointer)?;
        Ok(Some(guid))
    }

    /// Removes the handler with this handle, which is its number + 1. The next number is above all that there are.
    pub(crate) fn unregister_handler(&mut self, handle: u64) -> Result<u64, Served>
        requires { self.old.tables.locked ≡ false }
        ensures { Does (unregistration self.old.image handle) self.old result self.new }
    {
        if handle == 0 {
            return Ok(NOT_FOUND);
        }
        if handle > self.tables.next_number() as u64 {
            return Ok(NOT_FOUND);
        }
        match self.tables.unregister((handle - 1) as u32, self.image) {
            Ok(()) => Ok(SUCCESS),
            Err(RemovalEnd::NotFound) => Ok(NOT_FOUND),
            Err(RemovalEnd::NotMine) => Ok(ACCESS_DENIED),
        }
    }
}
