//! Drivers with those that are scheduled with them.
ghost use Rattle.std.specs.Prelude.{◌≡◌, ◌∷◌, ◌++◌, [], map, reverse, length, filter, not, All, OnOk, IfOk};
ghost use Rattle.std.specs.List.{flat_map};
ghost use Rattle.depex.specs.Meaning.{named_before, named_after};
ghost use Rattle.dispatcher.specs.Drivers.{NamesDiffer, is_true, member_of, naming};
ghost use Rattle.dispatcher.specs.FamiliesInside.{AddsIf, Fits, HasConditionAt, Tells, families_at, has_condition, listed_for, opened, picked};
ghost use Rattle.dispatcher.specs.Rounds.{family, family_of};
ghost use Rattle.dispatcher.specs.declared.families.Step.TheVariants.{Family};

use crate::driver::{Driver, Member};
use crate::name_index::NameIndex;
use depex::{Installed, holds};
use mm_base::NoMemory;
use std::alloc::Global;

/// What is still to be scheduled.
#[derive(Clone, Copy)]
pub(crate) enum Step {
    /// A member with all that go with it.
    Family(Member),
    /// A member alone.
    Alone(Member),
}

/// Drivers, and by each name those that go before and after the driver of that name.
#[derive(Drop)]
pub(crate) struct Families<'a> {
    drivers: &'a [Driver],
    before: NameIndex,
    after: NameIndex,
    ghost before_tells: { Tells named_before drivers.now before },
    ghost after_tells: { Tells named_after drivers.now after },
}

/// Puts families in front of the steps, the first of which stands at the end.
fn put_families(members: &[Member], steps: &mut Vec<Step>) -> Result<(), NoMemory>
    ensures { OnOk result (reverse steps.new.items ≡ map Family members.now ++ reverse steps.old.items) }
{
    for member in members.iter().rev() {
        steps.push(Step::Family(*member))?;
    }
    Ok(())
}

/// Whether a driver's condition holds, in the size of its expression.
fn condition_holds<I: Installed>(driver: &Driver, installed: &I) -> bool
    ensures { result ≡ is_true (I.installed installed.now) driver.now }
{
    match &driver.depex {
        Some(depex) => holds(depex, installed),
        None => false,
    }
}

/// Whether a driver has a condition.
fn is_conditional(driver: &Driver) -> bool
    ensures { result ≡ has_condition driver.now }
{
    let Some(depex) = &driver.depex else {
        return false;
    };
    depex.before().is_none() && depex.after().is_none()
}

/// Adds a driver that goes before or after another to the list of that other's name.
fn index_driver(
    alloc: Global,
    driver: &Driver,
    before: &mut NameIndex,
    after: &mut NameIndex,
) -> Result<(), NoMemory>
    ensures by_before { OnOk result (AddsIf named_before driver.now before.old before.new) }
    ensures by_after { OnOk result (AddsIf named_after driver.now after.old after.new) }
{
    if let Some(depex) = &driver.depex {
        if let Some(name) = depex.before() {
            before.add(alloc, name, driver.member())?;
        }
        if let Some(name) = depex.after() {
            after.add(alloc, name, driver.member())?;
        }
    }
    Ok(())
}

impl<'a> Families<'a> {
    /// The families of drivers; n log n in them.
    pub(crate) fn of(alloc: Global, drivers: &'a [Driver]) -> Result<Families<'a>, NoMemory>
        ensures { IfOk result (λ families. families.drivers.now ≡ drivers.now) }
    {
        let mut before = NameIndex::new(alloc);
        let mut after = NameIndex::new(alloc);
        for driver in drivers {
            index_driver(alloc, driver, &mut before, &mut after)?;
        }
        Ok(Families {
            drivers,
            before,
            after,
        })
    }

    /// The places of the drivers that have a condition.
    pub(crate) fn conditions(&self, alloc: Global) -> Result<Vec<usize>, NoMemory>
        ensures items { IfOk result (λ places. picked self.now.drivers.now places.items ≡ filter has_condition self.now.drivers.now) }
        ensures each { IfOk result (λ places. All (HasConditionAt self.now.drivers.now) places.items) }
    {
        let mut places = Vec::new(alloc);
        for (place, driver) in self.drivers.iter().enumerate() {
            if is_conditional(driver) {
                places.push(place)?;
            }
        }
        Ok(places)
    }

    /// Puts the steps of a family in front of the others.
    fn open(&self, member: Member, steps: &mut Vec<Step>) -> Result<(), NoMemory>
        ensures { OnOk result (reverse steps.new.items ≡ opened self.now.before self.now.after member (reverse steps.old.items)) }
    {
        put_families(self.after.of(member.name), steps)?;
        steps.push(Step::Alone(member))?;
        put_families(self.before.of(member.name), steps)
    }

    /// Schedules a member with all that go with it. A list of steps stands for a recursion, since chains may be long.
    fn schedule(
        &self,
        alloc: Global,
        member: Member,
        scheduled: &mut Vec<Member>,
    ) -> Result<(), NoMemory>
        requires { Fits (listed_for self.now.before) (listed_for self.now.after) (length self.now.drivers.now) member }
        ensures { OnOk result (scheduled.new.items
            ≡ scheduled.old.items ++ family (listed_for self.now.before) (listed_for self.now.after) (length self.now.drivers.now) member) }
    {
        let mut steps = Vec::new(alloc);
        steps.push(Step::Family(member))?;
        while let Some(step) = steps.pop() {
            match step {
                Step::Family(member) => {
                    self.open(member, &mut steps)?;
                }
                Step::Alone(member) => {
                    scheduled.push(member)?;
                }
            }
        }
        Ok(())
    }

    /// Schedules the drivers at these places whose conditions hold, and leaves the places of the others. It costs the sizes of the
    /// waiting drivers' expressions, and a logarithm of all drivers for each that is scheduled.
    pub(crate) fn take_round<I: Installed>(
        &self,
        alloc: Global,
        waiting: &mut Vec<usize>,
        installed: &I,
    ) -> Result<Vec<Member>, NoMemory>
        requires names { NamesDiffer self.now.drivers.now }
        requires each { All (HasConditionAt self.now.drivers.now) waiting.old.items }

        ensures items { IfOk result (λ members. members.items
            ≡ map member_of (families_at (I.installed installed.now) self.now.drivers.now (picked self.now.drivers.now waiting.old.items))) }
        ensures left { OnOk result (picked self.now.drivers.now waiting.new.items
            ≡ filter (λ driver. not (is_true (I.installed installed.now) driver)) (picked self.now.drivers.now waiting.old.items)) }
        ensures each { OnOk result (All (HasConditionAt self.now.drivers.now) waiting.new.items) }
    {
        let mut scheduled = Vec::new(alloc);
        let mut still = Vec::new(alloc);
        for place in waiting.as_slice() {
            let driver = &self.drivers[*place];
            if condition_holds(driver, installed) {
                self.schedule(alloc, driver.member(), &mut scheduled)?;
            } else {
                still.push(*place)?;
            }
        }
        *waiting = still;
        Ok(scheduled)
    }
}
