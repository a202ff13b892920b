//! The handlers and the interfaces of all images, until the lock.
ghost use Rattle.std.specs.Prelude.{◌≡◌, ◌<◌, false, length, All};
ghost use Rattle.mm_base.specs.declared.handler.HandlerBody.TheVariants.{Code};
ghost use Rattle.supervisor_calls.specs.ListingsInside.{Installs, interface_at, registered, uninstalled, unregistered};

use crate::tables::Tables;
use mm_base::{Frames, Guid, HandlerBody, NoMemory};
use mmi_registry::{RegisterEnd, UnregisterEnd};
use protocol_db::{FindEnd, InstallEnd, UninstallEnd};

/// Why a handler or an interface was not removed.
#[derive(Clone, Copy, Debug, PartialEq, Eq)]
pub(crate) enum RemovalEnd {
    /// It isn't there.
    NotFound,
    /// It is another image's, or built in.
    NotMine,
}

/// Why an interface was not installed.
#[derive(Clone, Copy, Debug, PartialEq, Eq)]
pub(crate) enum ListingEnd {
    /// The handle isn't there, or has an interface for the GUID.
    Invalid,
    /// It is one too many.
    Full,
    /// A growth was refused.
    NoMemory(NoMemory),
}

impl<F: Frames> Tables<F> {
    /// Registers code of an image as a handler, and answers its number; None where it is one too many.
    pub(crate) fn register(&mut self, guid: Option<Guid>, image: u32, address: u64) -> Option<u32>
        requires open { self.old.locked ≡ false }
        requires admitted { image < length self.old.site.images }
        ensures value { result ≡ (registered guid (Code image address) self.old.registry).0 }
        ensures after { let told = registered guid (Code image address) self.old.registry in
            self.new ≡ record self.old { registry = told.1 } }
    {
        self.keeps();
        let body = HandlerBody::Code { image, address };
        match self.registry.register(guid, body) {
            Ok(number) => Some(number),
            Err(RegisterEnd::Quota) => None,
            Err(RegisterEnd::Frozen) => unreachable!(),
        }
    }

    /// Removes a handler of an image.
    pub(crate) fn unregister(&mut self, number: u32, image: u32) -> Result<(), RemovalEnd>
        requires { self.old.locked ≡ false }
        ensures value { result ≡ (unregistered number image self.old.registry).0 }
        ensures after { self.new ≡ record self.old { registry = (unregistered number image self.old.registry).1 } }
    {
        match self.registry.unregister(number, image) {
            Ok(()) => Ok(()),
            Err(UnregisterEnd::NotFound) => Err(RemovalEnd::NotFound),
            Err(UnregisterEnd::NotMine) => Err(RemovalEnd::NotMine),
            Err(UnregisterEnd::Frozen) => unreachable!(),
        }
    }

    /// Installs an interface of an image, and answers its handle. It is the one that takes memory.
    pub(crate) fn install(
        &mut self,
        handle: u64,
        guid: Guid,
        interface: u64,
        image: u32,
    ) -> Result<u64, ListingEnd>
        requires { self.old.locked ≡ false }
        ensures { Installs handle guid interface image self.old result self.new }
    {
        match self.protocols.install(handle, guid, interface, image) {
            Ok(taken) => Ok(taken),
            Err(InstallEnd::NoHandle | InstallEnd::Duplicate) => Err(ListingEnd::Invalid),
            Err(InstallEnd::Quota) => Err(ListingEnd::Full),
            Err(InstallEnd::NoMemory(refused)) => Err(ListingEnd::NoMemory(refused)),
            Err(InstallEnd::Frozen) => unreachable!(),
        }
    }

    /// Removes an interface of an image.
    pub(crate) fn uninstall(
        &mut self,
        handle: u64,
        guid: Guid,
        interface: u64,
        image: u32,
    ) -> Result<(), RemovalEnd>
        requires { self.old.locked ≡ false }
        ensures value { result ≡ (uninstalled handle guid interface image self.old.protocols).0 }
        ensures after { let told = uninstalled handle guid interface image self.old.protocols in
            self.new ≡ record self.old { protocols = told.1 } }
    {
        match self.protocols.uninstall(handle, guid, interface, image) {
            Ok(()) => Ok(()),
            Err(UninstallEnd::NoProtocol) => Err(RemovalEnd::NotFound),
            Err(UninstallEnd::NotMine) => Err(RemovalEnd::NotMine),
            Err(UninstallEnd::Frozen) => unreachable!(),
        }
    }

    /// The interface of a handle for a GUID.
    pub(crate) fn interface(&self, handle: u64, guid: Guid) -> Result<u64, FindEnd>
        ensures { result ≡ interface_at handle guid self.now.protocols.rows }
    {
        self.protocols.handle_protocol(handle, guid)
    }
}
