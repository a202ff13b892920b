//! Driving a world through events.
ghost use Rattle.std.specs.Prelude.{◌≡◌, ◌+◌, ◌≤◌, ◌++◌, List, All, OnOk, length, sum_by};
ghost use Rattle.comm_core.specs.WorldPast.{StandsForEvents};
ghost use Rattle.comm_core.specs.WorldReadiness.{IsOfWorld, entries_asked, rings_in};
ghost use Rattle.comm_core.specs.declared.event.Event.{Event as Happening};

use comm_core::{Event, World};
use mm_base::{Machine, NoMemory};

/// Makes these events happen, in order. It costs a step for each action of the processor.
pub fn drive<M: Machine>(world: &mut World<M>, events: &[Event]) -> Result<(), NoMemory>
    requires there { All (IsOfWorld (length world.old.lanes) world.old.words) events.now }
    requires few { entries_asked world.old + sum_by rings_in events.now ≤ 8192 }
    ensures words { OnOk result (world.new.words ≡ world.old.words) }
    ensures lanes { OnOk result (length world.new.lanes ≡ length world.old.lanes) }
    ensures stands { OnOk result ((machine : M) (so_far : List Happening) →
        StandsForEvents M.stepped machine so_far world.old →
        StandsForEvents M.stepped machine (so_far ++ events.now) world.new) }
{
    for event in events {
        world.event(event)?;
    }
    Ok(())
}
