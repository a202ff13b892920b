//! The services that an image may call.
ghost use Rattle.std.specs.Prelude.{◌≡◌, ◌<◌, ◌≤◌, ◌+◌, ◌^◌, ◌↔◌, IsSome, IfSome};
ghost use Rattle.mm_base.specs.Services.{number_of, slot_of, entry_of};

/// How many services there are.
pub const SERVICES: u8 = 20;

/// How many bytes an address takes on the service page.
const SLOT_BYTES: u32 = 8;

/// Where the entries of the services begin on their page, and how many bytes each has.
const FIRST_ENTRY: u64 = 256;

const ENTRY_BYTES: u64 = 16;

/// A service, in the order of their numbers from 0 on.
#[derive(Clone, Copy, Debug, PartialEq, Eq)]
pub enum Service {
    AllocatePool,
    FreePool,
    AllocatePages,
    FreePages,
    InstallProtocol,
    UninstallProtocol,
    HandleProtocol,
    LocateHandle,
    LocateProtocol,
    RegisterHandler,
    UnregisterHandler,
    ReadSaveState,
    IoRead,
    IoWrite,
    ReadMsr,
    WriteMsr,
    RegisterProtocolNotify,
    InstallConfigurationTable,
    StartupThisProcessor,
    Manage,
}

impl Service {
    /// The service with this number; None from 20 on.
    pub fn of_number(number: u8) -> Option<Service>
        ensures found { IsSome result ↔ (number < 20) }
        ensures value { IfSome result (λ service. number_of service ≡ number) }
    {
        match number {
            0 => Some(Service::AllocatePool),
            1 => Some(Service::FreePool),
            2 => Some(Service::AllocatePages),
            3 => Some(Service::FreePages),
            4 => Some(Service::InstallProtocol),
            5 => Some(Service::UninstallProtocol),
            6 => Some(Service::HandleProtocol),
            7 => Some(Service::LocateHandle),
            8 => Some(Service::LocateProtocol),
            9 => Some(Service::RegisterHandler),
            10 => Some(Service::UnregisterHandler),
            11 => Some(Service::ReadSaveState),
            12 => Some(Service::IoRead),
            13 => Some(Service::IoWrite),
            14 => Some(Service::ReadMsr),
            15 => Some(Service::WriteMsr),
            16 => Some(Service::RegisterProtocolNotify),
            17 => Some(Service::InstallConfigurationTable),
            18 => Some(Service::StartupThisProcessor),
            19 => Some(Service::Manage),
            _ => None,
        }
    }
}

/// The place on the service page where the address of a service stands.
pub fn service_slot(number: u8) -> u32
    ensures { result ≡ slot_of number }
{
    SLOT_BYTES * number as u32
}

/// The address of a service, where the service page has this address.
pub fn service_entry(page: u64, number: u8) -> u64
    requires number { number < 20 }
    requires page { page + 4096 ≤ 2 ^ 64 }
    ensures { result ≡ entry_of page number }
{
    page + FIRST_ENTRY + ENTRY_BYTES * number as u64
}
