//! What starts the drivers of a volume.
ghost use Rattle.std.specs.Prelude.{◌≡◌, [], Some, None, All};
ghost use Rattle.volume_boot.specs.Boots.{BootState};
ghost use Rattle.volume_boot.specs.BootsInside.{IsSound};

use depex::Installed;
use dispatcher::Starter;
use driver_start::{Driver, Host, StartRecord, start};
use mm_base::{Guid, List, NoMemory};
use mm_memory::PlainFrames;
use std::alloc::Global;
use std::marker::Model;

/// The drivers of a volume, the host that they are started on, and the records of their starts. The host is gone once memory was refused.
#[derive(Drop)]
pub(crate) struct VolumeStarter<'a> {
    alloc: Global,
    drivers: &'a [Driver<'a>],
    host: Option<Host<PlainFrames>>,
    starts: List<StartRecord>,
}

impl<'a> Model for VolumeStarter<'a> {
    ghost use Rattle.std.specs.Prelude.{All};
    ghost use Rattle.volume_boot.specs.BootsInside.{StarterState, boot_with, IsSound};

    ghost Value = { StarterState };

    ghost view = { λ s. record { drivers = s.drivers.now; boot = boot_with s.host s.starts } };

    ghost invariant = { λ s. All IsSound s.drivers.now };
}

impl<'a> VolumeStarter<'a> {
    /// Nothing is started yet.
    pub(crate) fn new(
        alloc: Global,
        drivers: &'a [Driver<'a>],
        host: Host<PlainFrames>,
    ) -> VolumeStarter<'a>
        requires { All IsSound drivers.now }
        ensures { let boot : BootState = record { host = host; starts = [] } in
            result ≡ record { drivers = drivers.now; boot = Some boot } }
    {
        VolumeStarter {
            alloc,
            drivers,
            host: Some(host),
            starts: List::new(alloc),
        }
    }

    /// The host and the records, which are there.
    pub(crate) fn into_parts(self) -> (Host<PlainFrames>, List<StartRecord>)
        requires { self.boot ≡ None → ⊥ }
        ensures { let boot : BootState = record { host = result.0; starts = result.1 } in
            self.entry.boot ≡ Some boot }
    {
        let VolumeStarter { host, starts, .. } = self;
        match host {
            Some(host) => (host, starts),
            None => unreachable!(),
        }
    }
}

impl<'a> Installed for VolumeStarter<'a> {
    ghost use Rattle.volume_boot.specs.BootsInside.{is_known};

    ghost installed = { is_known };

    fn has(&self, guid: Guid) -> bool {
        match &self.host {
            Some(host) => host.tables().has_interface(guid),
            None => false,
        }
    }
}

impl<'a> Starter for VolumeStarter<'a> {
    ghost use Rattle.std.specs.Prelude.{refl};
    ghost use Rattle.volume_boot.specs.BootsInside.{StarterState, is_known, after_start};

    ghost State = { StarterState };

    ghost state = { λ state. state };

    ghost installed_in = { is_known };

    ghost started = { after_start };

    fn start(&mut self, index: u32, round: u32) -> Result<(), NoMemory> {
        let Some(driver) = self.drivers.get(index as usize) else {
            return Ok(());
        };
        let Some(host) = self.host.take() else {
            return Ok(());
        };
        let (host, ended, records) = start(self.alloc, host, driver)?;
        self.host = Some(host);
        self.starts
            .push(StartRecord::new(driver.name, round, ended, records))
    }

    ghost agrees = { λ _ _. refl };
}
