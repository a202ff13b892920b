//! The arguments of a service, which stand on the stack of the image that calls it.
ghost use Rattle.std.specs.Prelude.{◌≡◌, OnOk};
ghost use Rattle.mm_base.specs.Bus.{Answers};
ghost use Rattle.supervisor_calls.specs.Services.{argument, arguments_at, argument_count};

use crate::domain::Domain;
use mm_base::{Bus, Frames, Served, Service};

/// How many bytes an argument has.
const ARGUMENT_BYTES: u8 = 8;

/// The arguments of a service: four at most. One that a service doesn't have is 0.
#[derive(Clone, Copy, Debug, PartialEq, Eq)]
pub(crate) struct Arguments {
    pub(crate) first: u64,
    pub(crate) second: u64,
    pub(crate) third: u64,
    pub(crate) fourth: u64,
}

/// How many arguments a service has.
pub(crate) fn count_of(service: Service) -> u8
    ensures { result ≡ argument_count service }
{
    match service {
        Service::InstallProtocol => 4,
        Service::UninstallProtocol
        | Service::HandleProtocol
        | Service::LocateHandle
        | Service::RegisterHandler
        | Service::IoRead
        | Service::IoWrite => 3,
        Service::AllocatePool
        | Service::AllocatePages
        | Service::FreePages
        | Service::LocateProtocol
        | Service::ReadSaveState
        | Service::ReadMsr
        | Service::WriteMsr => 2,
        Service::FreePool | Service::UnregisterHandler => 1,
        Service::RegisterProtocolNotify
        | Service::InstallConfigurationTable
        | Service::StartupThisProcessor
        | Service::Manage => 0,
    }
}

impl<F: Frames> Domain<F> {
    /// Argument `k` of `count`, from 0 on: the number in 8 bytes of the stack. A denied read stops the invocation.
    fn argument(&mut self, count: u8, stack: u64, k: u8) -> Result<u64, Served>
        ensures answer { Answers (argument count stack k self.old) result self.new }
        ensures same { OnOk result (self.new ≡ self.old) }
    {
        if k >= count {
            return Ok(0);
        }
        let at = stack.wrapping_add(ARGUMENT_BYTES as u64 * k as u64);
        match self.read(at, ARGUMENT_BYTES) {
            Ok(value) => Ok(value),
            Err(denial) => Err(Served::Stop(denial)),
        }
    }

    /// The `count` arguments from an address on, read one after another up to the first that is denied.
    pub(crate) fn arguments(&mut self, count: u8, stack: u64) -> Result<Arguments, Served>
        ensures answer { Answers (arguments_at count stack self.old) result self.new }
        ensures same { OnOk result (self.new ≡ self.old) }
    {
        let first = self.argument(count, stack, 0)?;
        let second = self.argument(count, stack, 1)?;
        let third = self.argument(count, stack, 2)?;
        let fourth = self.argument(count, stack, 3)?;
        Ok(Arguments {
            first,
            second,
            third,
            fourth,
        })
    }
}
