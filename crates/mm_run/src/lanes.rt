//! The words of a world's lanes, as a report has them.
ghost use Rattle.std.specs.Prelude.{◌≡◌, ◌+◌, length, map, All, IfOk};

use comm_core::World;
use mm_base::{List, Machine, NoMemory};
use std::alloc::Global;

/// All words of each lane: the length, the status, and then the data. It costs a step a word.
pub fn words_of_lanes<M: Machine>(
    alloc: Global,
    world: &World<M>,
) -> Result<List<List<u64>>, NoMemory>
    ensures values { IfOk result (λ lanes. lanes ≡ map (λ seen. seen.values) world.now.lanes) }
    ensures sizes { IfOk result (λ lanes. All (λ lane. length lane ≡ world.now.words + 2) lanes) }
{
    let mut lanes = List::new(alloc);
    for lane in 0..world.lanes() {
        lanes.push(List::from_slice(alloc, world.lane(lane))?)?;
    }
    Ok(lanes)
}
