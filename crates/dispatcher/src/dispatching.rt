//! The rounds in which drivers are started.
ghost use Rattle.std.specs.Prelude.{◌≡◌, ◌+◌, ◌-◌, ◌^◌, ◌<◌, ◌++◌, length, map, IfOk, OnOk};
ghost use Rattle.dispatcher.specs.Drivers.{NamesDiffer};
ghost use Rattle.dispatcher.specs.Rounds.{after_starts, all_starts};
ghost use Rattle.dispatcher.specs.RoundsInside.{started_in};

use crate::driver::{Driver, Member, Started};
use crate::families::Families;
use crate::starter::Starter;
use mm_base::{List, NoMemory};
use std::alloc::Global;

/// Starts the members of a round, in order.
fn start_all<S: Starter>(
    members: &[Member],
    round: u32,
    starter: &mut S,
    starts: &mut List<Started>,
) -> Result<(), NoMemory>
    ensures items { OnOk result (starts.new ≡ starts.old ++ started_in round members.now) }
    ensures after { OnOk result (S.state starter.new ≡ after_starts S.started (started_in round members.now) (S.state starter.old)) }
{
    for member in members {
        starter.start(member.index, round)?;
        starts.push(Started {
            index: member.index,
            round,
        })?;
    }
    Ok(())
}

/// Starts drivers in rounds, and answers the starts that were made, in order. A round takes the drivers that weren't scheduled
/// yet and whose condition holds on what is installed as it opens, each with its BEFORE drivers in front and its AFTER drivers
/// behind, whether or not a start fails; the first round without any ends it. A driver without an expression is never scheduled.
///
/// Where memory is refused, here or by the starter, the starts that were made so far stay, and nothing tells them.
///
/// Each round costs the drivers with a condition that still wait and the sizes of their expressions; each driver that is
/// scheduled costs the logarithm of all.
pub fn dispatch<S: Starter>(
    alloc: Global,
    drivers: &List<Driver>,
    starter: &mut S,
) -> Result<List<Started>, NoMemory>
    requires names { NamesDiffer drivers.now }
    requires few { length drivers.now < 2 ^ 32 - 1 }
    ensures value { IfOk result (λ starts. starts ≡ all_starts S.installed_in S.started drivers.now (S.state starter.old)) }
    ensures after { IfOk result (λ starts. S.state starter.new ≡ after_starts S.started starts (S.state starter.old)) }
{
    let families = Families::of(alloc, drivers.as_slice())?;
    let mut waiting = families.conditions(alloc)?;
    let mut starts = List::new(alloc);
    for round in 0..drivers.len() as u32 {
        let members = families.take_round(alloc, &mut waiting, starter)?;
        if members.is_empty() {
            return Ok(starts);
        }
        start_all(members.as_slice(), round + 1, starter, &mut starts)?;
    }
    Ok(starts)
}
