//! Services of protocols: handles, their interfaces, and what is found by a GUID.
ghost use Rattle.std.specs.Prelude.{◌≡◌, false, true, Ok, OnOk};
ghost use Rattle.mm_base.specs.Bus.{Answers, IsOutOfMemory};
ghost use Rattle.mm_base.specs.Statuses.{not_found};
ghost use Rattle.mm_base.specs.declared.access.Kind.TheVariants as kinds;
ghost use Rattle.secure_policy.specs.Laws.{passes};
ghost use Rattle.supervisor_calls.specs.Deeds.{guid_seen};
ghost use Rattle.supervisor_calls.specs.Domains.{write_verdict};
ghost use Rattle.supervisor_calls.specs.Services.{installation, removal, gives_found};
ghost use Rattle.supervisor_calls.specs.Services.{first_interface, handle_of_index, interface_of_handle};
ghost use Rattle.supervisor_calls.specs.ServicesInside.{Does, DoesOrRefuses, spoken};

use crate::domain::Domain;
use crate::listings::{ListingEnd, RemovalEnd};
use mm_base::status::{
    ACCESS_DENIED, INVALID_PARAMETER, NOT_FOUND, OUT_OF_RESOURCES, SUCCESS, UNSUPPORTED,
};
use mm_base::{Frames, GUID_BYTES, Guid, Kind, Served};
use protocol_db::FindEnd;

impl<F: Frames> Domain<F> {
    /// The GUID in the 16 bytes at a pointer.
    pub(crate) fn read_guid(&mut self, pointer: u64) -> Result<Guid, Served>
        ensures answer { Answers (guid_seen pointer self.old) result self.new }
        ensures same { OnOk result (self.new ≡ self.old) }
    {
        self.pass_read(Kind::Memory, pointer, GUID_BYTES as u8)?;
        Ok(Guid(self.tables.sixteen(self.image, pointer, self.trapped())))
    }

    /// Installs an interface of the image on a handle for the GUID at a pointer, and gives the handle.
    pub(crate) fn install_protocol(
        &mut self,
        handle: u64,
        pointer: u64,
        interface: u64,
        out: u64,
    ) -> Result<u64, Served>
        requires { self.old.tables.locked ≡ false }
        ensures answer { DoesOrRefuses (installation self.old.image handle pointer interface out) self.old result self.new }
        ensures unchanged { IsOutOfMemory (spoken result) → self.new ≡ self.old }
    {
        let guid = self.read_guid(pointer)?;
        self.ask_out(out)?;
        match self.tables.install(handle, guid, interface, self.image) {
            Ok(taken) => Ok(self.give(out, taken)),
            Err(ListingEnd::Invalid) => Ok(INVALID_PARAMETER),
            Err(ListingEnd::Full) => Ok(OUT_OF_RESOURCES),
            Err(ListingEnd::NoMemory(refused)) => Err(Served::NoMemory(refused)),
        }
    }

    /// Removes an interface of a handle for the GUID at a pointer.
    pub(crate) fn uninstall_protocol(
        &mut self,
        handle: u64,
        pointer: u64,
        interface: u64,
    ) -> Result<u64, Served>
        requires { self.old.tables.locked ≡ false }
        ensures { Does (removal self.old.image handle pointer interface) self.old result self.new }
    {
        let guid = self.read_guid(pointer)?;
        match self.tables.uninstall(handle, guid, interface, self.image) {
            Ok(()) => Ok(SUCCESS),
            Err(RemovalEnd::NotFound) => Ok(NOT_FOUND),
            Err(RemovalEnd::NotMine) => Ok(ACCESS_DENIED),
        }
    }

    /// Gives the interface of a handle for the GUID at a pointer.
    pub(crate) fn handle_protocol(
        &mut self,
        handle: u64,
        pointer: u64,
        out: u64,
    ) -> Result<u64, Served>
        ensures { Does (interface_of_handle handle pointer out) self.old result self.new }
    {
        let guid = self.read_guid(pointer)?;
        self.ask_out(out)?;
        match self.tables.interface(handle, guid) {
            Ok(interface) => Ok(self.give(out, interface)),
            Err(FindEnd::NoHandle) => Ok(INVALID_PARAMETER),
            Err(FindEnd::NoProtocol) => Ok(UNSUPPORTED),
        }
    }

    /// Gives the handle at a place of those that have an interface for the GUID at a pointer.
    pub(crate) fn locate_handle(
        &mut self,
        pointer: u64,
        index: u64,
        out: u64,
    ) -> Result<u64, Served>
        ensures { Does (handle_of_index pointer index out) self.old result self.new }
    {
        let guid = self.read_guid(pointer)?;
        self.ask_out(out)?;
        let found = self.tables.protocols.locate_handle(guid, index);
        Ok(self.give_found(out, found))
    }

    /// Gives the interface that was installed first for the GUID at a pointer.
    pub(crate) fn locate_protocol(&mut self, pointer: u64, out: u64) -> Result<u64, Served>
        ensures { Does (first_interface pointer out) self.old result self.new }
    {
        let guid = self.read_guid(pointer)?;
        self.ask_out(out)?;
        let found = self.tables.protocols.locate_protocol(guid);
        Ok(self.give_found(out, found))
    }

    /// Gives what was found, at an out pointer that was asked for.
    fn give_found(&mut self, out: u64, found: Option<u64>) -> u64
        requires { passes (write_verdict self.old kinds.Memory out 8) ≡ true }
        ensures { Does (gives_found out not_found found) self.old (Ok result) self.new }
    {
        match found {
            Some(value) => self.give(out, value),
            None => NOT_FOUND,
        }
    }
}
