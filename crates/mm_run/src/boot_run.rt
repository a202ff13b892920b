//! What a run makes of a volume that it boots.
ghost use Rattle.std.specs.Prelude.{◌≡◌, ◌≤◌, map, IfOk, IfErr, length};
ghost use Rattle.std.specs.Option.{option_copied};
ghost use Rattle.mm_base.specs.End.{out_of_memory};
ghost use Rattle.mm_run.specs.BootRun.{boot_report, locked_in, IsVolumeBootReport};
ghost use Rattle.mm_run.specs.RunInside.{IsBootText, IsMadeOfBoot, RefusesBytes};
ghost use Rattle.mm_run.specs.declared.source_kind.SourceKind.TheVariants.{VolumeBytes};
ghost use Rattle.volume_policy.specs.PolicyFiles.{IsVolumePolicy};
ghost use Rattle.volume_reader.specs.VolumeGrammar.{IsVolume};

use crate::made::Made;
use crate::status::Status;
use mm_base::{Bytes, Guid, List, NoMemory, Opening, Policy, Volume};
use mm_core::{Boot, Core, FileWord, boot, catalog, policy_of};
use mm_groups::each_alone_closed;
use mm_text::{Locked, Parts, report};
use std::alloc::Global;
use volume_reader::read_volume;

/// The report of the boot of the volume that these bytes are. The volume's fault comes before that of its policy. It costs what `catalog`
/// and `boot` of `mm_core` say.
pub(crate) fn boot_bytes(alloc: Global, bytes: &[u8]) -> Result<Made, Status>
    requires { length bytes.now ≤ 16777216 }
    ensures ok { IfOk result (IsMadeOfBoot bytes.now) }
    ensures err { IfErr result (RefusesBytes VolumeBytes bytes.now) }
{
    let (volume, policy) = good_volume(alloc, bytes)?;
    let text = boot_known(alloc, bytes, &volume, policy.as_ref())?;
    Ok(Made { world: None, text })
}

/// The volume that these bytes are, and its policy. The volume's fault comes before that of its policy.
pub(crate) fn good_volume(alloc: Global, bytes: &[u8]) -> Result<(Volume, Option<Policy>), Status>
    requires { length bytes.now ≤ 16777216 }
    ensures volume { IfOk result (λ told. IsVolume bytes.now told.0) }
    ensures policy { IfOk result (λ told. IsVolumePolicy bytes.now told.0.files told.1) }
    ensures err { IfErr result (RefusesBytes VolumeBytes bytes.now) }
{
    let volume = read_volume(alloc, bytes)?;
    let policy = policy_of(alloc, bytes, &volume)?;
    Ok((volume, policy))
}

/// The report of the boot of a volume, whose policy is known.
fn boot_known(
    alloc: Global,
    bytes: &[u8],
    volume: &Volume,
    policy: Option<&Policy>,
) -> Result<Bytes, Status>
    requires volume { IsVolume bytes.now volume.now }
    requires few { length bytes.now ≤ 16777216 }
    requires policy { IsVolumePolicy bytes.now volume.now.files (option_copied policy) }
    ensures ok { IfOk result (IsVolumeBootReport bytes.now volume.now) }
    ensures err { IfErr result (λ status. status ≡ Status.NoMemory out_of_memory) }
{
    let words = catalog(alloc, bytes, volume)?;
    let opening = Opening {
        cells: List::new(alloc),
    };
    let boot = boot(alloc, bytes, volume, &opening)?;
    Ok(boot_text(alloc, volume, &words, policy, boot)?)
}

/// The report of a boot, which is given up.
fn boot_text(
    alloc: Global,
    volume: &Volume,
    words: &List<FileWord>,
    policy: Option<&Policy>,
    boot: Boot,
) -> Result<Bytes, NoMemory>
    requires { length words.now ≡ length volume.now.files }
    ensures { IfOk result (IsBootText volume.now words.now (option_copied policy.entry) boot) }
{
    boot_listed(alloc, volume, words, policy, &boot)
}

/// The report of a boot.
fn boot_listed(
    alloc: Global,
    volume: &Volume,
    words: &List<FileWord>,
    policy: Option<&Policy>,
    boot: &Boot,
) -> Result<Bytes, NoMemory>
    requires { length words.now ≡ length volume.now.files }
    ensures { IfOk result (IsBootText volume.now words.now (option_copied policy.entry) boot.now) }
{
    let locked = locked_now(alloc, &boot.core)?;
    let closed = each_alone_closed(alloc, &boot.core)?;
    boot_told(alloc, volume, words, policy, boot, &locked, &closed)
}

/// The report of a boot, whose core has this at lock, and whose images alone are closed so.
fn boot_told<'a>(
    alloc: Global,
    volume: &'a Volume,
    words: &'a List<FileWord>,
    policy: Option<&'a Policy>,
    boot: &'a Boot,
    locked: &'a Locked,
    closed: &'a List<bool>,
) -> Result<Bytes, NoMemory>
    requires words { length words.now ≡ length volume.now.files }
    requires locked { locked.now ≡ locked_in boot.now.core }
    requires flags { length closed.now ≡ length locked.now.names }
    ensures { IfOk result (λ text. text ≡ boot_report volume.now words.now (option_copied policy.entry) boot.now closed.now) }
{
    let parts = Parts {
        volume: Some(volume),
        words: Some(words),
        policy,
        starts: Some(&boot.starts),
        waiting: Some(&boot.waiting),
        locked: Some(locked),
        closed: Some(closed),
        ..Parts::none()
    };
    report(alloc, &parts)
}

/// What a core has at lock.
pub(crate) fn locked_now(alloc: Global, core: &Core) -> Result<Locked, NoMemory>
    ensures { IfOk result (λ locked. locked ≡ locked_in core.now) }
{
    let names = image_names(alloc, core)?;
    Ok(Locked {
        names,
        handlers: core.handlers(),
        protocols: core.protocols(),
    })
}

/// The names of the images of a core, in order.
fn image_names(alloc: Global, core: &Core) -> Result<List<Guid>, NoMemory>
    ensures { IfOk result (λ names. names ≡ map (λ image. image.name) core.now.site.supervised.images) }
{
    let mut names = List::new(alloc);
    for image in 0..core.images() {
        names.push(core.name(image))?;
    }
    Ok(names)
}
