//! The boot of a volume.
ghost use Rattle.std.specs.Prelude.{◌≡◌, ◌⊎◌, ◌+◌, ◌≤◌, ◌<◌, ◌-◌, ◌^◌, length, map, All, IfOk, IfErr, Ok, Err};
ghost use Rattle.dispatcher.specs.Drivers.{NamesDiffer};
ghost use Rattle.driver_start.specs.Forms.{loadable_of};
ghost use Rattle.mm_base.specs.Cells.{IsOpening};
ghost use Rattle.mm_base.specs.End.{EndsBy, out_of_memory};
ghost use Rattle.mm_base.specs.declared.end.End.TheVariants.{Fault as FaultOf, NoMemory as OutOfMemory};
ghost use Rattle.mm_base.specs.declared.policy.PolicyFault.{PolicyFault as PolicyFaultValue};
ghost use Rattle.volume_boot.specs.Boots.{boot_from, locked, AreBooted, IsBootOf, policy_or_default as policy_or_default_of};
ghost use Rattle.volume_boot.specs.BootsInside.{AreNumbered, IsSound};
ghost use Rattle.volume_policy.specs.PolicyFiles.{HasVolumePolicyFault};
ghost use Rattle.volume_reader.specs.VolumeGrammar.{IsVolume};

use crate::drivers::{VolumeDrivers, find_drivers};
use crate::starter::VolumeStarter;
use crate::waiting::waiting_names;
use dispatcher::dispatch;
use driver_start::{Host, StartRecord};
use file_words::catalog;
use mm_base::{Guid, List, NoMemory, Opening, Policy, Volume};
use mm_memory::PlainFrames;
use std::alloc::Global;
use std::marker::Model;
use supervisor_calls::Tables;
use volume_policy::{BootEnd, policy_of};

/// How much fuel an invocation has where a volume has no policy.
const DEFAULT_FUEL: u32 = 65_536;

/// What the boot of a volume leaves.
#[derive(Drop)]
pub struct VolumeBoot {
    /// The tables, which are locked.
    pub tables: Tables<PlainFrames>,
    /// The starts, in order.
    pub starts: List<StartRecord>,
    /// The names of the drivers that were never scheduled, in volume order.
    pub waiting: List<Guid>,
}

impl Model for VolumeBoot {
    ghost use Rattle.volume_boot.specs.Boots.{BootOutcome};

    ghost Value = { BootOutcome };

    ghost view = { λ boot. record { tables = boot.tables; starts = boot.starts; waiting = boot.waiting } };
}

/// The policy of a volume, or its default.
fn policy_or_default(alloc: Global, policy: Option<Policy>) -> Policy
    ensures { result ≡ policy_or_default_of policy }
{
    match policy {
        Some(policy) => policy,
        None => Policy {
            rules: List::new(alloc),
            fuel: DEFAULT_FUEL,
        },
    }
}

/// The tables of a host, locked.
fn lock_tables(host: Host<PlainFrames>) -> Tables<PlainFrames>
    ensures value { result ≡ locked host.tables }
    ensures booted { AreBooted result }
{
    host.keeps();
    let mut tables = host.into_tables();
    tables.lock();
    tables.keeps();
    tables.keeps_order();
    let _ = tables.interfaces();
    tables
}

/// Starts drivers in their rounds, and locks the tables then.
fn run_rounds(
    alloc: Global,
    drivers: &VolumeDrivers,
    host: Host<PlainFrames>,
) -> Result<VolumeBoot, NoMemory>
    requires names { NamesDiffer drivers.now.scheduled }
    requires numbers { AreNumbered drivers.now.scheduled }
    requires few { length drivers.now.scheduled < 2 ^ 32 - 1 }
    requires sound { All IsSound drivers.now.loaded.items }
    ensures value { IfOk result (λ boot. boot ≡ boot_from drivers.now.scheduled (map loadable_of drivers.now.loaded.items) host) }
    ensures tables { IfOk result (λ boot. AreBooted boot.tables) }
{
    let mut starter = VolumeStarter::new(alloc, drivers.loaded.as_slice(), host);
    let started = dispatch(alloc, &drivers.scheduled, &mut starter)?;
    let waiting = waiting_names(alloc, drivers.scheduled.as_slice(), started.as_slice())?;
    let (host, starts) = starter.into_parts();
    let tables = lock_tables(host);
    Ok(VolumeBoot {
        tables,
        starts,
        waiting,
    })
}

/// Boots a volume, which is what `read_volume` tells of these bytes, with these opening cells: its drivers are started in their rounds, from
/// memory of zeros on, and then handlers and interfaces are frozen. The fault is the first one of the volume's policy. It takes memory for
/// all of management-mode memory and all cells, and for what is kept of drivers. It costs what `catalog` says twice, what the
/// instructions of the entries cost, and what `dispatch` says. Where memory is refused, nothing is handed out.
pub fn boot_volume(
    alloc: Global,
    bytes: &[u8],
    volume: &Volume,
    opening: &Opening,
) -> Result<VolumeBoot, BootEnd>
    requires volume { IsVolume bytes.now volume.now }
    requires few { length bytes.now ≤ 16777216 }
    requires cells { IsOpening opening.now.cells }
    ensures boot { IfOk result (IsBootOf bytes.now volume.now.files opening.now.cells) }
    ensures tables { IfOk result (λ boot. AreBooted boot.tables) }
    ensures fault { IfErr result (EndsBy (HasVolumePolicyFault bytes.now volume.now.files)) }
    ensures first { (fault : PolicyFaultValue) → HasVolumePolicyFault bytes.now volume.now.files fault →
        (result ≡ Err (FaultOf fault)) ⊎ (result ≡ Err (OutOfMemory out_of_memory)) }
{
    let policy = policy_of(alloc, bytes, volume)?;
    let words = catalog(alloc, bytes, volume)?;
    let drivers = find_drivers(alloc, bytes, volume.files.as_slice(), words.as_slice())?;
    let host = Host::opening(alloc, policy_or_default(alloc, policy), opening)?;
    let boot = run_rounds(alloc, &drivers, host)?;
    Ok(boot)
}
