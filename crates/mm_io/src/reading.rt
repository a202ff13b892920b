//! Reading a source to its end.
ghost use Rattle.std.specs.Prelude.{◌≡◌, ◌≤◌, length, vec_len, IfOk, OnOk, IsErrOf};
ghost use Rattle.mm_io.specs.declared.reading.ReadEnd.TheVariants.{Failed as ReadFailed, NoMemory as OutOfMemory};
ghost use Rattle.mm_io.specs.Causes.{Rose};
ghost use Rattle.mm_io.specs.Streams.{GivesAll, GivesSome, GivesAtMost, GivesMoreThan, HasMoreThan};

use crate::{Failed, Source};
use mm_base::{Bytes, List, NoMemory};
use std::alloc::Global;

// The most bytes that one read asks for.
const BLOCK: usize = 4_096;

/// Why not all was read.
#[derive(Clone, Copy, Debug, PartialEq, Eq)]
pub enum ReadEnd {
    /// A read met a fault.
    Failed,
    /// More bytes came than the limit.
    TooLong,
    /// A growth was refused.
    NoMemory(NoMemory),
}

impl From<Failed> for ReadEnd {
    ghost from_gives = { λ _ e. e ≡ ReadFailed };

    fn from(_: Failed) -> Self {
        ReadEnd::Failed
    }
}

impl From<NoMemory> for ReadEnd {
    ghost from_gives = { λ refused e. e ≡ OutOfMemory refused };

    fn from(refused: NoMemory) -> Self {
        ReadEnd::NoMemory(refused)
    }
}

/// All bytes that the source has left, at most `limit` of them. It reads until a read gives nothing.
/// `Failed` is answered only where a read failed, and `TooLong` as soon as more than `limit` bytes came.
/// It takes a block of 4,096 bytes and the memory of the answer; the work is linear in the bytes.
pub fn read_all<S: Source>(alloc: Global, source: &mut S, limit: u32) -> Result<Bytes, ReadEnd>
    ensures ok { IfOk result (GivesAll (S.left source.old) (S.left source.new) limit) }
    ensures failed { IsErrOf result ReadEnd.Failed → Rose (S.fault_count source.old) (S.fault_count source.new) }
    ensures too_long { IsErrOf result ReadEnd.TooLong → GivesMoreThan limit (S.left source.old) (S.left source.new) }
    ensures at_most { (IsErrOf result ReadEnd.TooLong → ⊥) → GivesAtMost limit (S.left source.old) (S.left source.new) }
    ensures over { HasMoreThan limit (S.left source.old) → OnOk result ⊥ }
    ensures given { GivesSome (S.left source.old) (S.left source.new) }
    ensures later { S.fault_count source.old ≤ S.fault_count source.new }
{
    let mut memory = new_block(alloc)?;
    let block = memory.as_mut_slice();
    let mut bytes = List::new(alloc);
    let most = limit as usize;
    loop {
        let count = source.read(block)?;
        if count == 0 {
            return Ok(bytes);
        }
        if count > most - bytes.len() {
            return Err(ReadEnd::TooLong);
        }
        let (came, _) = block.split_at(count);
        bytes.extend(came)?;
    }
}

/// The memory that each read is given.
fn new_block(alloc: Global) -> Result<Vec<u8>, NoMemory>
    ensures { IfOk result (λ block. vec_len block ≡ 4096) }
{
    Ok(vec![in alloc; 0u8; BLOCK]?)
}
