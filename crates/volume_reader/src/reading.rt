//! How a volume is read.
ghost use Rattle.std.specs.Prelude.{◌≡◌, ◌⊎◌, ◌+◌, ◌≤◌, length, Ok, Err, IfOk, IfErr};
ghost use Rattle.mm_base.specs.declared.volume.Volume.{Volume as VolumeValue};
ghost use Rattle.mm_base.specs.End.{EndsBy, out_of_memory};
ghost use Rattle.mm_base.specs.declared.end.End.TheVariants.{Fault as FaultOf, NoMemory as OutOfMemory};
ghost use Rattle.volume_reader.specs.declared.volume_fault.VolumeFault.{VolumeFault as VolumeFaultValue};
ghost use Rattle.volume_reader.specs.VolumeGrammar.{IsVolume, HasFault};
ghost use Rattle.volume_reader.specs.FindingInside.{AreFiles, HasFaultFrom};

use crate::area::{Area, Found};
use crate::header::{check_header, erase_polarity, first_place, is_ffs3, volume_length};
use crate::volume_fault::{VolumeEnd, VolumeFault};
use mm_base::{End, File, List, Volume};
use std::alloc::Global;

/// The files from a place on, up to where files end; linear in the bytes behind it.
fn read_files(alloc: Global, area: &Area, first: usize) -> Result<List<File>, VolumeEnd>
    requires few { length area.now.bytes ≤ 16777216 }
    requires within { first ≤ length area.now.bytes + 7 }
    ensures files { IfOk result (AreFiles area.now first) }
    ensures fault { IfErr result (EndsBy (HasFaultFrom area.now first)) }
{
    let mut files = List::new(alloc);
    let mut at = first;
    loop {
        match area.find(at) {
            Found::End => return Ok(files),
            Found::Refused(kind) => {
                return Err(End::Fault(VolumeFault {
                    at: at as u32,
                    kind,
                }));
            }
            Found::Behind(next, file) => {
                if let Some(file) = file {
                    files.push(file)?;
                }
                at = next;
            }
        }
    }
}

/// The volume that stands at the front of bytes, with its files in order, or the first fault; bytes past its end are not
/// read. Each byte is read a bounded number of times, and the list of files is all the memory that is taken.
pub fn read_volume(alloc: Global, bytes: &[u8]) -> Result<Volume, VolumeEnd>
    requires { length bytes.now ≤ 16777216 }
    ensures volume { IfOk result (IsVolume bytes.now) }
    ensures fault { IfErr result (EndsBy (HasFault bytes.now)) }
    ensures found { (volume : VolumeValue) → IsVolume bytes.now volume
        → (result ≡ Ok volume) ⊎ (result ≡ Err (OutOfMemory out_of_memory)) }
    ensures first { (fault : VolumeFaultValue) → HasFault bytes.now fault
        → (result ≡ Err (FaultOf fault)) ⊎ (result ≡ Err (OutOfMemory out_of_memory)) }
{
    check_header(bytes)?;
    let (inside, _) = bytes.split_at(volume_length(bytes));
    let area = Area {
        bytes: inside,
        ffs3: is_ffs3(bytes),
        erase_polarity: erase_polarity(bytes),
    };
    let files = read_files(alloc, &area, first_place(bytes))?;
    Ok(Volume {
        length: inside.len() as u32,
        ffs3: area.ffs3,
        files,
    })
}
