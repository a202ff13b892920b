//! How the policy of a volume is found and read.
ghost use Rattle.std.specs.Prelude.{◌≡◌, ◌⊎◌, ◌+◌, ◌≤◌, length, All, Option, Ok, Err, IfOk, IfErr};
ghost use Rattle.std.specs.Option.{option_copied};
ghost use Rattle.mm_base.specs.End.{EndsBy, out_of_memory};
ghost use Rattle.mm_base.specs.declared.end.End.TheVariants.{Fault as FaultOf, NoMemory as OutOfMemory};
ghost use Rattle.mm_base.specs.declared.policy.Policy.{Policy as PolicyValue};
ghost use Rattle.mm_base.specs.declared.policy.PolicyFault.{PolicyFault as PolicyFaultValue};
ghost use Rattle.mm_base.specs.declared.policy.PolicyKind.TheVariants as kinds;
ghost use Rattle.volume_policy.specs.PolicyFiles.{policy_file, HasPolicyBytes, HasNoPolicyBytes, IsPolicyInFile, HasFaultInFile, IsVolumePolicy, HasVolumePolicyFault};

use file_words::{data, is_policy};
use mm_base::{End, File, Policy, PolicyFault, PolicyKind, Volume};
use policy_blob::{PolicyEnd, read_policy};
use std::alloc::Global;
use volume_reader::first_of;

/// EFI_SECTION_RAW: the type of the section that the policy stands in.
const RAW: u8 = 0x19;

/// The fault of a policy file that has no bytes of a policy.
const NO_BYTES: PolicyFault = PolicyFault {
    at: 0,
    kind: PolicyKind::File,
};

/// Why a boot hands nothing out: the first fault of the policy, or out of memory.
pub type BootEnd = End<PolicyFault>;

/// The bytes of the policy in the policy file; linear in its sections.
fn policy_bytes_of<'a>(bytes: &'a [u8], file: &File) -> Result<&'a [u8], PolicyFault>
    requires within { file.now.body_at + file.now.body ≤ length bytes.now }
    requires few { length bytes.now ≤ 16777216 }
    ensures bytes { IfOk result (λ blob. HasPolicyBytes bytes.now file.now blob.now) }
    ensures within { IfOk result (λ blob. length blob.now ≤ length bytes.now) }
    ensures fault { IfErr result (λ fault. HasNoPolicyBytes bytes.now file.now × (fault ≡ record { at = 0; kind = kinds.File })) }
{
    if !file.sound {
        return Err(NO_BYTES);
    }
    match first_of(bytes, file, RAW) {
        Ok(Some(section)) => Ok(data(bytes, &section)),
        Ok(None) => Err(NO_BYTES),
        Err(_) => Err(NO_BYTES),
    }
}

/// The policy in the policy file.
fn policy_in(alloc: Global, bytes: &[u8], file: &File) -> Result<Policy, PolicyEnd>
    requires within { file.now.body_at + file.now.body ≤ length bytes.now }
    requires few { length bytes.now ≤ 16777216 }
    ensures policy { IfOk result (IsPolicyInFile bytes.now file.now) }
    ensures fault { IfErr result (EndsBy (HasFaultInFile bytes.now file.now)) }
{
    match policy_bytes_of(bytes, file) {
        Ok(blob) => read_policy(alloc, blob),
        Err(fault) => Err(End::Fault(fault)),
    }
}

/// The policy file among files; linear in their number.
fn policy_file_of(files: &[File]) -> Option<&File>
    ensures { option_copied result ≡ policy_file files.now }
{
    files.iter().find(|file| is_policy(file))
}

/// The policy of a volume, step by step.
fn read_policy_of(alloc: Global, bytes: &[u8], volume: &Volume) -> Result<Option<Policy>, BootEnd>
    requires within { All (λ file. file.body_at + file.body ≤ length bytes.now) volume.now.files }
    requires few { length bytes.now ≤ 16777216 }
    ensures policy { IfOk result (IsVolumePolicy bytes.now volume.now.files) }
    ensures fault { IfErr result (EndsBy (HasVolumePolicyFault bytes.now volume.now.files)) }
{
    match policy_file_of(volume.files.as_slice()) {
        Some(file) => Ok(Some(policy_in(alloc, bytes, file)?)),
        None => Ok(None),
    }
}

/// The policy of a volume: None exactly where it has no policy file, else the policy in the first of them, or its first fault, whose
/// place counts in the policy's bytes. Of the volume no more is asked than that the bodies of its files lie in the bytes. One pass over
/// the files, over the sections of the policy file and over the policy; the list of rules is all the memory that is taken.
pub fn policy_of(alloc: Global, bytes: &[u8], volume: &Volume) -> Result<Option<Policy>, BootEnd>
    requires within { All (λ file. file.body_at + file.body ≤ length bytes.now) volume.now.files }
    requires few { length bytes.now ≤ 16777216 }
    ensures policy { IfOk result (IsVolumePolicy bytes.now volume.now.files) }
    ensures fault { IfErr result (EndsBy (HasVolumePolicyFault bytes.now volume.now.files)) }
    ensures found { (policy : Option PolicyValue) → IsVolumePolicy bytes.now volume.now.files policy
        → (result ≡ Ok policy) ⊎ (result ≡ Err (OutOfMemory out_of_memory)) }
    ensures first { (fault : PolicyFaultValue) → HasVolumePolicyFault bytes.now volume.now.files fault
        → (result ≡ Err (FaultOf fault)) ⊎ (result ≡ Err (OutOfMemory out_of_memory)) }
{
    read_policy_of(alloc, bytes, volume)
}
