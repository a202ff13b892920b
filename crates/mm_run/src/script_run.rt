//! What a run makes of a script.
ghost use Rattle.std.specs.Prelude.{◌≡◌, ◌≤◌, Some, true, All, IfOk, IfErr, length};
ghost use Rattle.mm_core.specs.EntryStep.{core_step};
ghost use Rattle.mm_text.specs.Limits.{IsWithinLimits};
ghost use Rattle.mm_text.specs.ScriptText.{IsScript};
ghost use Rattle.comm_core.specs.WorldPast.{StandsForEvents};
ghost use Rattle.mm_run.specs.ScriptRun.{core_of, run_report};
ghost use Rattle.mm_run.specs.RunInside.{IsDriven, IsDrivenBy, IsMadeOfScript, RefusesBytes};
ghost use Rattle.mm_run.specs.declared.source_kind.SourceKind.TheVariants.{ScriptText};

use crate::drive::drive;
use crate::lanes::words_of_lanes;
use crate::made::Made;
use crate::status::Status;
use comm_core::{Script, World};
use mm_base::{Bytes, Entries, List, NoMemory};
use mm_core::{Core, scripted};
use mm_text::{Parts, read_script, report};
use std::alloc::Global;

/// The world that the script in these bytes drives, and its report.
pub(crate) fn run_script(alloc: Global, bytes: &[u8]) -> Result<Made, Status>
    requires { length bytes.now ≤ 4194304 }
    ensures ok { IfOk result (IsMadeOfScript bytes.now) }
    ensures err { IfErr result (RefusesBytes ScriptText bytes.now) }
{
    let script = read_script(alloc, bytes, true)?;
    Ok(driven(alloc, &script)?)
}

/// The world that the script drives, and its report.
fn driven(alloc: Global, script: &Script) -> Result<Made, NoMemory>
    requires { IsWithinLimits script.now }
    ensures { IfOk result (IsDrivenBy script.now) }
{
    let world = driven_world(alloc, script)?;
    let lanes = words_of_lanes(alloc, &world)?;
    let text = told(alloc, world.entries(), &lanes)?;
    Ok(Made {
        world: Some(world),
        text,
    })
}

/// The report of entries and lanes.
fn told<'a>(
    alloc: Global,
    entries: &'a Entries,
    lanes: &'a List<List<u64>>,
) -> Result<Bytes, NoMemory>
    requires { All (λ lane. 2 ≤ length lane) lanes.now }
    ensures { IfOk result (λ text. text ≡ run_report entries.now lanes.now) }
{
    let parts = Parts {
        entries: Some(entries),
        lanes: Some(lanes),
        ..Parts::none()
    };
    report(alloc, &parts)
}

/// The world that the script drives.
fn driven_world(alloc: Global, script: &Script) -> Result<World<Core>, NoMemory>
    requires { IsWithinLimits script.now }
    ensures stands { IfOk result (StandsForEvents core_step (core_of script.now) script.now.events) }
    ensures words { IfOk result (λ world. world.words ≡ script.now.words) }
    ensures lanes { IfOk result (λ world. length world.lanes ≡ script.now.lanes) }
{
    let core = scripted(alloc, &script.opening, &script.handlers)?;
    world_from(alloc, core, script)
}

/// The world that the script drives from this core.
pub(crate) fn world_from(
    alloc: Global,
    core: Core,
    script: &Script,
) -> Result<World<Core>, NoMemory>
    requires { IsWithinLimits script.now }
    ensures stands { IfOk result (StandsForEvents core_step core script.now.events) }
    ensures words { IfOk result (λ world. world.words ≡ script.now.words) }
    ensures lanes { IfOk result (λ world. length world.lanes ≡ script.now.lanes) }
{
    let mut world = World::new(alloc, core, script.lanes, script.words)?;
    drive(&mut world, script.events.as_slice())?;
    Ok(world)
}
