//! What a run makes of a volume.
ghost use Rattle.std.specs.Prelude.{◌≡◌, ◌≤◌, IfOk, IfErr, length};
ghost use Rattle.mm_run.specs.CheckRun.{volume_report};
ghost use Rattle.mm_run.specs.RunInside.{IsMadeOfVolume, RefusesBytes};
ghost use Rattle.mm_run.specs.declared.source_kind.SourceKind.TheVariants.{VolumeBytes};

use crate::made::Made;
use crate::status::Status;
use mm_base::{Bytes, List, NoMemory, Volume};
use mm_core::{FileWord, catalog, policy_of};
use mm_text::{Parts, report};
use std::alloc::Global;
use volume_reader::read_volume;

/// The report of the volume that these bytes are. The volume's fault comes before that of its policy. Each byte is read a
/// bounded number of times, but for the entries of the section table of an image that isn't in the order of their places:
/// those at most twice for each 65,536 places that a section or the relocation directory reaches, and three times more.
pub(crate) fn check_volume(alloc: Global, bytes: &[u8]) -> Result<Made, Status>
    requires { length bytes.now ≤ 16777216 }
    ensures ok { IfOk result (IsMadeOfVolume bytes.now) }
    ensures err { IfErr result (RefusesBytes VolumeBytes bytes.now) }
{
    let volume = read_volume(alloc, bytes)?;
    policy_of(alloc, bytes, &volume)?;
    let words = catalog(alloc, bytes, &volume)?;
    let text = listed(alloc, &volume, &words)?;
    Ok(Made { world: None, text })
}

/// The report of a volume and the words of its files.
fn listed<'a>(
    alloc: Global,
    volume: &'a Volume,
    words: &'a List<FileWord>,
) -> Result<Bytes, NoMemory>
    requires { length words.now ≡ length volume.now.files }
    ensures { IfOk result (λ text. text ≡ volume_report volume.now words.now) }
{
    let parts = Parts {
        volume: Some(volume),
        words: Some(words),
        ..Parts::none()
    };
    report(alloc, &parts)
}
