//! The drivers that wait.
ghost use Rattle.std.specs.Prelude.{◌≡◌, ℕ, ◌<◌, ◌==◌, ◌||◌, length, All, false, get_or, IfOk};
ghost use Rattle.volume_boot.specs.Boots.{waiting_of, was_started};

use dispatcher::{Driver, Started};
use mm_base::{Guid, List, NoMemory};
use std::alloc::Global;

/// Sets the flag of a number, if there is one.
fn set_flag(flags: &mut Vec<bool>, number: usize)
    ensures length { length flags.new.items ≡ length flags.old.items }
    ensures each { (other : ℕ) → other < length flags.old.items →
        get_or flags.new.items other false ≡ ((number == other) || get_or flags.old.items other false) }
{
    if number < flags.len() {
        flags[number] = true;
    }
}

/// Which of `count` drivers were started, by their numbers; one step a start.
fn started_flags(alloc: Global, starts: &[Started], count: usize) -> Result<Vec<bool>, NoMemory>
    ensures length { IfOk result (λ flags. length flags.items ≡ count) }
    ensures each { IfOk result (λ flags. (number : ℕ) → number < count →
        get_or flags.items number false ≡ was_started starts.now number) }
{
    let mut flags = vec![in alloc; false; count]?;
    for start in starts {
        set_flag(&mut flags, start.index as usize);
    }
    Ok(flags)
}

/// The names of the drivers that weren't started, in order. It takes memory for a flag a driver and for the names, and costs one step a
/// driver and one a start.
pub(crate) fn waiting_names(
    alloc: Global,
    drivers: &[Driver],
    starts: &[Started],
) -> Result<List<Guid>, NoMemory>
    requires { All (λ driver. driver.index < length drivers.now) drivers.now }
    ensures { IfOk result (λ names. names ≡ waiting_of starts.now drivers.now) }
{
    let flags = started_flags(alloc, starts, drivers.len())?;
    let mut names = List::new(alloc);
    for driver in drivers {
        if !flags[driver.index as usize] {
            names.push(driver.name)?;
        }
    }
    Ok(names)
}
