//! The boot of a volume.
ghost use Rattle.std.specs.Prelude.{◌≡◌, ◌⊎◌, ◌≤◌, length, IfOk, IfErr, Err};
ghost use Rattle.mm_base.specs.Cells.{IsOpening};
ghost use Rattle.mm_base.specs.End.{EndsBy, out_of_memory};
ghost use Rattle.mm_base.specs.declared.end.End.TheVariants.{Fault as FaultOf, NoMemory as OutOfMemory};
ghost use Rattle.mm_base.specs.declared.policy.PolicyFault.{PolicyFault as PolicyFaultValue};
ghost use Rattle.mm_core.specs.Boots.{IsBoot};
ghost use Rattle.volume_policy.specs.PolicyFiles.{HasVolumePolicyFault};
ghost use Rattle.volume_reader.specs.VolumeGrammar.{IsVolume};

use crate::booted::Boot;
use crate::machine_core::Core;
use mm_base::{Opening, Volume};
use std::alloc::Global;
use volume_boot::{VolumeBoot, boot_volume};
use volume_policy::BootEnd;

/// Boots a volume, which is what `read_volume` answers on these bytes, with these opening cells: its drivers are started in their rounds,
/// from memory of zeros on, and then registration and installation are over. The fault is the first one of the volume's policy. It takes
/// 32 MiB for management-mode memory and 256 KiB for the cells, and the memory of the tables and of what is kept of drivers. It costs what
/// `catalog` says twice, what the instructions of the entries cost, and what `dispatch` says. Where memory is refused, nothing is handed
/// out.
pub fn boot(
    alloc: Global,
    bytes: &[u8],
    volume: &Volume,
    opening: &Opening,
) -> Result<Boot, BootEnd>
    requires volume { IsVolume bytes.now volume.now }
    requires few { length bytes.now ≤ 16777216 }
    requires cells { IsOpening opening.now.cells }
    ensures boot { IfOk result (IsBoot bytes.now volume.now.files opening.now.cells) }
    ensures fault { IfErr result (EndsBy (HasVolumePolicyFault bytes.now volume.now.files)) }
    ensures first { (fault : PolicyFaultValue) → HasVolumePolicyFault bytes.now volume.now.files fault →
        (result ≡ Err (FaultOf fault)) ⊎ (result ≡ Err (OutOfMemory out_of_memory)) }
{
    let VolumeBoot {
        tables,
        starts,
        waiting,
    } = boot_volume(alloc, bytes, volume, opening)?;
    tables.keeps_cells();
    Ok(Boot {
        core: Core::of_tables(tables),
        starts,
        waiting,
    })
}
