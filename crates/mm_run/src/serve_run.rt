//! What a run makes of a volume that it boots, and of a script that it drives from there.
ghost use Rattle.std.specs.Prelude.{◌≡◌, ◌≤◌, All, IfOk, IfErr, length};
ghost use Rattle.std.specs.Option.{option_copied};
ghost use Rattle.mm_base.specs.Cells.{IsOpening};
ghost use Rattle.mm_base.specs.End.{out_of_memory};
ghost use Rattle.mm_run.specs.ServeInside.{IsBootedFor, IsDrivenFrom, IsServedBy, parts_report};
ghost use Rattle.mm_text.specs.Limits.{IsWithinLimits};
ghost use Rattle.volume_policy.specs.PolicyFiles.{IsVolumePolicy};
ghost use Rattle.volume_reader.specs.VolumeGrammar.{IsVolume};

use crate::boot_run::locked_now;
use crate::lanes::words_of_lanes;
use crate::made::Made;
use crate::script_run::world_from;
use crate::status::Status;
use comm_core::Script;
use mm_base::{Bytes, Entries, Guid, List, NoMemory, Policy, Volume};
use mm_core::{Boot, Core, FileWord, StartRecord, boot, catalog};
use mm_groups::each_alone_closed;
use mm_text::{Locked, Parts, report};
use std::alloc::Global;

/// What is told of a boot beside the volume and its policy.
#[derive(Drop)]
pub(crate) struct BootParts {
    pub(crate) words: List<FileWord>,
    pub(crate) starts: List<StartRecord>,
    pub(crate) waiting: List<Guid>,
    pub(crate) locked: Locked,
    pub(crate) closed: List<bool>,
}

/// The report of a volume, whose policy is known, and of the world that the script drives from the core which the volume's boot leaves,
/// with the script's opening cells. It costs what `catalog` and `boot` of `mm_core` say, and a step for each action of the processor.
pub(crate) fn serve_script(
    alloc: Global,
    bytes: &[u8],
    volume: &Volume,
    policy: Option<&Policy>,
    script: &Script,
) -> Result<Made, Status>
    requires volume { IsVolume bytes.now volume.now }
    requires few { length bytes.now ≤ 16777216 }
    requires policy { IsVolumePolicy bytes.now volume.now.files (option_copied policy) }
    requires limits { IsWithinLimits script.now }
    ensures ok { IfOk result (IsServedBy bytes.now script.now) }
    ensures err { IfErr result (λ status. status ≡ Status.NoMemory out_of_memory) }
{
    let (core, parts) = booted(alloc, bytes, volume, policy, script)?;
    Ok(driven_from(alloc, volume, policy, &parts, core, script)?)
}

/// The core that the boot of a volume leaves, with the script's opening cells, and what is told of the boot.
fn booted(
    alloc: Global,
    bytes: &[u8],
    volume: &Volume,
    policy: Option<&Policy>,
    script: &Script,
) -> Result<(Core, BootParts), Status>
    requires volume { IsVolume bytes.now volume.now }
    requires few { length bytes.now ≤ 16777216 }
    requires policy { IsVolumePolicy bytes.now volume.now.files (option_copied policy) }
    requires cells { IsOpening script.now.opening.cells }
    ensures ok { IfOk result (λ told. IsBootedFor bytes.now volume.now (option_copied policy.entry) script.now told.0 told.1) }
    ensures err { IfErr result (λ status. status ≡ Status.NoMemory out_of_memory) }
{
    let words = catalog(alloc, bytes, volume)?;
    let Boot {
        core,
        starts,
        waiting,
    } = boot(alloc, bytes, volume, &script.opening)?;
    let locked = locked_now(alloc, &core)?;
    let closed = each_alone_closed(alloc, &core)?;
    Ok((
        core,
        BootParts {
            words,
            starts,
            waiting,
            locked,
            closed,
        },
    ))
}

/// The world that the script drives from a core, and its report, with what is told of the boot.
fn driven_from(
    alloc: Global,
    volume: &Volume,
    policy: Option<&Policy>,
    parts: &BootParts,
    core: Core,
    script: &Script,
) -> Result<Made, NoMemory>
    requires words { length parts.now.words ≡ length volume.now.files }
    requires closed { length parts.now.closed ≡ length parts.now.locked.names }
    requires limits { IsWithinLimits script.now }
    ensures { IfOk result (IsDrivenFrom core script.now volume.now (option_copied policy.entry) parts.now) }
{
    let world = world_from(alloc, core, script)?;
    let lanes = words_of_lanes(alloc, &world)?;
    let text = told(alloc, volume, policy, parts, world.entries(), &lanes)?;
    Ok(Made {
        world: Some(world),
        text,
    })
}

/// The report of a boot, and of entries and lanes.
fn told<'a>(
    alloc: Global,
    volume: &'a Volume,
    policy: Option<&'a Policy>,
    parts: &'a BootParts,
    entries: &'a Entries,
    lanes: &'a List<List<u64>>,
) -> Result<Bytes, NoMemory>
    requires words { length parts.now.words ≡ length volume.now.files }
    requires closed { length parts.now.closed ≡ length parts.now.locked.names }
    requires lanes { All (λ lane. 2 ≤ length lane) lanes.now }
    ensures { IfOk result (λ text. text ≡ parts_report volume.now (option_copied policy.entry) parts.now entries.now lanes.now) }
{
    let all = Parts {
        volume: Some(volume),
        words: Some(&parts.words),
        policy,
        starts: Some(&parts.starts),
        waiting: Some(&parts.waiting),
        locked: Some(&parts.locked),
        closed: Some(&parts.closed),
        entries: Some(entries),
        lanes: Some(lanes),
    };
    report(alloc, &all)
}
