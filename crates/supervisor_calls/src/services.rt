//! The services that an image may call.
ghost use Rattle.std.specs.Prelude.{◌≡◌, ◌≢◌, ◌⊎◌, ◌<◌, ◌&&◌, false};
ghost use Rattle.mm_base.specs.Bus.{Answers, IsOutOfMemory};
ghost use Rattle.supervisor_calls.specs.Deeds.{done};
ghost use Rattle.supervisor_calls.specs.Services.{deed_of, ends_at_lock, region_in, served, served_by_number};
ghost use Rattle.supervisor_calls.specs.ServicesInside.{Does, DoesOrRefuses, spoken};
ghost use Rattle.mm_base.specs.declared.service.Service.TheVariants as services;

use crate::arguments::{Arguments, count_of};
use crate::domain::Domain;
use mm_base::status::{ACCESS_DENIED, UNSUPPORTED};
use mm_base::{Frames, Served, Service};

/// Whether a service changes the handlers or the interfaces.
fn is_closed_by_lock(service: Service) -> bool
    ensures { result ≡ ends_at_lock service }
{
    match service {
        Service::InstallProtocol
        | Service::UninstallProtocol
        | Service::RegisterHandler
        | Service::UnregisterHandler => true,
        _ => false,
    }
}

impl<F: Frames> Domain<F> {
    /// Makes the service with this number, whose arguments stand on the stack from an address on. After lock the services that change
    /// handlers or interfaces are answered ACCESS_DENIED and read nothing. Otherwise the arguments are read, and then the causes to refuse
    /// the service are tried in their order; where one answers, nothing changes but the records. `Stop` comes exactly where an argument's read
    /// is denied, or a denial is the 8th or a later one. Only the installation of an interface takes memory, before lock; where that is
    /// refused, nothing changes.
    pub fn call(&mut self, number: u8, stack: u64) -> Served
        requires { number < 20 }
        ensures answer { IsOutOfMemory result ⊎ Answers (served_by_number number stack self.old) result self.new }
        ensures memory { IsOutOfMemory result → (number ≡ 4) × (self.old.tables.locked ≡ false) }
        ensures unchanged { IsOutOfMemory result → self.new ≡ self.old }
    {
        match Service::of_number(number) {
            Some(service) => self.serve(service, stack),
            None => Served::Status(UNSUPPORTED),
        }
    }

    /// Makes a service.
    fn serve(&mut self, service: Service, stack: u64) -> Served
        ensures answer { IsOutOfMemory result ⊎ Answers (served service stack self.old) result self.new }
        ensures memory { IsOutOfMemory result → (service ≡ services.InstallProtocol) × (self.old.tables.locked ≡ false) }
        ensures unchanged { IsOutOfMemory result → self.new ≡ self.old }
    {
        if self.tables.is_locked() && is_closed_by_lock(service) {
            return Served::Status(ACCESS_DENIED);
        }
        match self.arguments(count_of(service), stack) {
            Ok(arguments) => self.make(service, &arguments),
            Err(served) => served,
        }
    }

    /// Makes a service with these arguments.
    fn make(&mut self, service: Service, arguments: &Arguments) -> Served
        requires { (self.old.tables.locked && ends_at_lock service) ≡ false }
        ensures answer { IsOutOfMemory result
            ⊎ Answers (done (deed_of self.old.image (region_in self.old) service arguments.now) self.old) result self.new }
        ensures memory { IsOutOfMemory result → service ≡ services.InstallProtocol }
        ensures unchanged { IsOutOfMemory result → self.new ≡ self.old }
    {
        match self.answer(service, arguments) {
            Ok(status) => Served::Status(status),
            Err(served) => served,
        }
    }

    /// The status that a service is answered with, or how else it is answered.
    fn answer(&mut self, service: Service, arguments: &Arguments) -> Result<u64, Served>
        requires { (self.old.tables.locked && ends_at_lock service) ≡ false }
        ensures answer { DoesOrRefuses (deed_of self.old.image (region_in self.old) service arguments.now) self.old result self.new }
        ensures memory { IsOutOfMemory (spoken result) → service ≡ services.InstallProtocol }
        ensures unchanged { IsOutOfMemory (spoken result) → self.new ≡ self.old }
    {
        if let Service::InstallProtocol = service {
            return self.install_protocol(
                arguments.first,
                arguments.second,
                arguments.third,
                arguments.fourth,
            );
        }
        self.answer_in_place(service, arguments)
    }

    /// The same for a service that takes no memory.
    fn answer_in_place(&mut self, service: Service, arguments: &Arguments) -> Result<u64, Served>
        requires open { (self.old.tables.locked && ends_at_lock service) ≡ false }
        requires other { service ≢ services.InstallProtocol }
        ensures { Does (deed_of self.old.image (region_in self.old) service arguments.now) self.old result self.new }
    {
        let Arguments {
            first,
            second,
            third,
            ..
        } = *arguments;
        match service {
            Service::AllocatePool => self.allocate_pool(first, second),
            Service::FreePool => self.free_pool(first),
            Service::AllocatePages => self.allocate_pages(first, second),
            Service::FreePages => self.free_pages(first, second),
            Service::InstallProtocol => unreachable!(),
            Service::UninstallProtocol => self.uninstall_protocol(first, second, third),
            Service::HandleProtocol => self.handle_protocol(first, second, third),
            Service::LocateHandle => self.locate_handle(first, second, third),
            Service::LocateProtocol => self.locate_protocol(first, second),
            Service::RegisterHandler => self.register_handler(first, second, third),
            Service::UnregisterHandler => self.unregister_handler(first),
            Service::ReadSaveState => self.read_save_state(first, second),
            Service::IoRead => self.io_read(first, second, third),
            Service::IoWrite => self.io_write(first, second, third),
            Service::ReadMsr => self.give_msr(first, second),
            Service::WriteMsr => self.set_msr(first, second),
            Service::RegisterProtocolNotify
            | Service::InstallConfigurationTable
            | Service::StartupThisProcessor
            | Service::Manage => Ok(UNSUPPORTED),
        }
    }
}
