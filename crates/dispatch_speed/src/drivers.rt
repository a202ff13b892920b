//! Drivers that are numbered from 0 on. The GUID of a number names a driver, and is the protocol that it installs.
ghost use Rattle.std.specs.Prelude.{◌≡◌, length, IfOk};
ghost use Rattle.dispatch_speed.specs.Numbered.{number_of};
ghost use Rattle.dispatcher.specs.Drivers.{NamesDiffer};

use depex::{Depex, parse};
use dispatcher::Driver;
use mm_base::{Guid, List, NoMemory};
use std::alloc::Global;

/// What drivers need.
#[derive(Clone, Copy, PartialEq, Eq)]
pub enum Shape {
    /// Each but the last needs what the next one installs.
    Chain,
    /// None needs any.
    Wide,
}

/// The opcodes of an expression.
const PUSH: u8 = 2;

const TRUE: u8 = 6;

const END: u8 = 8;

/// The GUID of a number, which stands in its first two bytes.
fn guid(number: u16) -> Guid
    ensures { number_of result ≡ number }
{
    let low = (number % 256) as u8;
    let high = (number / 256) as u8;
    Guid([low, high, 0, 0, 0, 0, 0, 0, 0, 0, 0, 0, 0, 0, 0, 0])
}

/// The expression that is true.
fn always(alloc: Global) -> Option<Depex> {
    parse(alloc, &[TRUE, END]).ok()
}

/// The expression that is true where the protocol of a number is installed.
fn needs(alloc: Global, number: u16) -> Option<Depex> {
    let mut bytes = [0; 18];
    bytes[0] = PUSH;
    bytes[1..17].copy_from_slice(&guid(number).0);
    bytes[17] = END;
    parse(alloc, &bytes).ok()
}

/// So many drivers, with the numbers from 0 on.
pub fn numbered(alloc: Global, count: u16, shape: Shape) -> Result<List<Driver>, NoMemory>
    ensures names { IfOk result NamesDiffer }
    ensures count { IfOk result (λ drivers. length drivers ≡ count) }
{
    let mut drivers = List::new(alloc);
    for number in 0..count {
        let depex = if shape == Shape::Chain && number < count - 1 {
            needs(alloc, number + 1)
        } else {
            always(alloc)
        };
        drivers.push(Driver {
            index: u32::from(number),
            name: guid(number),
            depex,
        })?;
    }
    Ok(drivers)
}
