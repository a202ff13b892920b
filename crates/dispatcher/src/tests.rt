//! Drivers in their rounds. What is expected was worked out by hand from the rules of rounds.
ghost use Rattle.std.specs.Prelude.{◌≡◌, ◌≤◌, ◌%◌, length, All, IfOk, OnOk, true, false};
ghost use Rattle.mm_base.specs.Guid.{same_guid};
ghost use Rattle.dispatcher.specs.Drivers.{NamesDiffer};
ghost use Rattle.dispatcher.specs.TestStarter.{guid_of, is_told, told_after};

use crate::{Driver, Started, Starter, dispatch};
use depex::{Depex, Installed, parse};
use mm_base::{Guid, List, NoMemory};
use std::alloc::Global;
use std::marker::Model;
use std::test::Fail;

/// The GUID of a number: the name of the driver with that number, and the protocol that it installs.
fn guid(number: u8) -> Guid
    ensures { result ≡ guid_of number }
{
    Guid([number; 16])
}

/// A starter that keeps the starts. Each driver but one installs the protocol of its number.
#[derive(Drop)]
struct Recorder {
    installed: Vec<Guid>,
    starts: Vec<Started>,
    failing: u32,
}

impl Model for Recorder {
    ghost use Rattle.dispatcher.specs.TestStarter.{Told};

    ghost Value = { Told };

    ghost view = { λ r. record { installed = r.installed.items; starts = r.starts.items; failing = r.failing } };
}

impl Installed for Recorder {
    ghost installed = { is_told };

    fn has(&self, guid: Guid) -> bool {
        self.installed.as_slice().contains(&guid)
    }
}

impl Starter for Recorder {
    ghost use Rattle.std.specs.Prelude.{refl};
    ghost use Rattle.dispatcher.specs.TestStarter.{Told};

    ghost State = { Told };

    ghost state = { λ told. told };

    ghost installed_in = { is_told };

    ghost started = { told_after };

    fn start(&mut self, index: u32, round: u32) -> Result<(), NoMemory> {
        if index != self.failing {
            self.installed.push(guid((index % 256) as u8))?;
        }
        self.starts.push(Started { index, round })?;
        Ok(())
    }

    ghost agrees = { λ _ _. refl };
}

/// What a driver's expression says.
#[derive(Clone, Copy)]
enum Says {
    Nothing,
    True,
    False,
    Needs(u8),
    Lacks(u8),
    NeedsBoth(u8, u8),
    Before(u8),
    After(u8),
}

/// Puts an opcode with the GUID of a number at the end.
fn put_named(bytes: &mut Vec<u8>, opcode: u8, number: u8) -> Result<(), NoMemory> {
    bytes.push(opcode)?;
    bytes.extend_from_slice(&[number; 16])?;
    Ok(())
}

/// The bytes of what an expression says.
fn spelled(alloc: Global, says: Says) -> Result<Vec<u8>, NoMemory> {
    let mut bytes = Vec::new(alloc);
    match says {
        Says::Nothing => {}
        Says::True => bytes.push(6)?,
        Says::False => bytes.push(7)?,
        Says::Needs(number) => put_named(&mut bytes, 2, number)?,
        Says::Lacks(number) => {
            put_named(&mut bytes, 2, number)?;
            bytes.push(5)?;
        }
        Says::NeedsBoth(one, other) => {
            put_named(&mut bytes, 2, one)?;
            put_named(&mut bytes, 2, other)?;
            bytes.push(3)?;
        }
        Says::Before(number) => put_named(&mut bytes, 0, number)?,
        Says::After(number) => put_named(&mut bytes, 1, number)?,
    }
    bytes.push(8)?;
    Ok(bytes)
}

/// The expression that says so; None for a driver without one.
fn expression(alloc: Global, says: Says) -> Result<Option<Depex>, NoMemory> {
    let bytes = spelled(alloc, says)?;
    if bytes.len() > 64 {
        return Ok(None);
    }
    match parse(alloc, bytes.as_slice()) {
        Ok(depex) => Ok(Some(depex)),
        Err(_) => Ok(None),
    }
}

/// Whether no driver has this name.
fn is_new(drivers: &[Driver], name: Guid) -> bool
    ensures { result ≡ true → All (λ driver. same_guid driver.name name ≡ false) drivers.now }
{
    for driver in drivers {
        if driver.name == name {
            return false;
        }
    }
    true
}

/// Puts a driver at the end; false where its name isn't new.
fn add(drivers: &mut List<Driver>, driver: Driver) -> Result<bool, NoMemory>
    requires { NamesDiffer drivers.old }
    ensures { NamesDiffer drivers.new }
{
    if !is_new(drivers.as_slice(), driver.name) {
        return Ok(false);
    }
    drivers.push(driver)?;
    Ok(true)
}

/// Drivers with the numbers from 0 on, that say so.
fn numbered(alloc: Global, says: &[Says]) -> Result<List<Driver>, NoMemory>
    ensures { IfOk result (λ drivers. NamesDiffer drivers) }
{
    let mut drivers = List::new(alloc);
    let mut number = 0u8;
    for one in says {
        let driver = Driver {
            index: u32::from(number),
            name: guid(number),
            depex: expression(alloc, *one)?,
        };
        add(&mut drivers, driver)?;
        number = number.wrapping_add(1);
    }
    Ok(drivers)
}

/// The starts of drivers that say so, where one driver's start fails; None where the starter had others.
fn started(alloc: Global, says: &[Says], failing: u32) -> Result<Option<List<Started>>, NoMemory> {
    let drivers = numbered(alloc, says)?;
    let mut recorder = Recorder {
        installed: Vec::new(alloc),
        starts: Vec::new(alloc),
        failing,
    };
    if drivers.len() > 1000 {
        return Ok(None);
    }
    let starts = dispatch(alloc, &drivers, &mut recorder)?;
    if starts.as_slice() == recorder.starts.as_slice() {
        Ok(Some(starts))
    } else {
        Ok(None)
    }
}

struct Case {
    name: &'static str,
    says: &'static [Says],
    failing: u32,
    starts: &'static [(u32, u32)],
}

/// Whether starts are these, by number and round.
fn are(starts: &[Started], expected: &[(u32, u32)]) -> bool {
    if starts.len() != expected.len() {
        return false;
    }
    for (start, (index, round)) in starts.iter().zip(expected.iter()) {
        if start.index != *index || start.round != *round {
            return false;
        }
    }
    true
}

fn is_right(alloc: Global, case: &Case) -> bool {
    match started(alloc, case.says, case.failing) {
        Ok(Some(starts)) => are(starts.as_slice(), case.starts),
        _ => false,
    }
}

/// No driver's start fails.
const NONE: u32 = 1000;

const CASES: &[Case] = &[
    Case {
        name: "a driver waits for what another installs, with its AFTER driver, and one has no expression",
        says: &[Says::Needs(1), Says::True, Says::After(0), Says::Nothing],
        failing: NONE,
        starts: &[(1, 1), (0, 2), (2, 2)],
    },
    Case {
        name: "no driver",
        says: &[],
        failing: NONE,
        starts: &[],
    },
    Case {
        name: "a chain of BEFORE, the first in front",
        says: &[
            Says::Before(1),
            Says::Before(2),
            Says::Before(3),
            Says::True,
        ],
        failing: NONE,
        starts: &[(0, 1), (1, 1), (2, 1), (3, 1)],
    },
    Case {
        name: "a chain of BEFORE, the last in front",
        says: &[
            Says::True,
            Says::Before(0),
            Says::Before(1),
            Says::Before(2),
        ],
        failing: NONE,
        starts: &[(3, 1), (2, 1), (1, 1), (0, 1)],
    },
    Case {
        name: "a chain of AFTER, the last in front",
        says: &[Says::After(1), Says::After(2), Says::After(3), Says::True],
        failing: NONE,
        starts: &[(3, 1), (2, 1), (1, 1), (0, 1)],
    },
    Case {
        name: "a chain of AFTER, the first in front",
        says: &[Says::True, Says::After(0), Says::After(1), Says::After(2)],
        failing: NONE,
        starts: &[(0, 1), (1, 1), (2, 1), (3, 1)],
    },
    Case {
        name: "two AFTER drivers of one, each with its own",
        says: &[
            Says::True,
            Says::After(0),
            Says::After(0),
            Says::After(1),
            Says::Before(2),
        ],
        failing: NONE,
        starts: &[(0, 1), (1, 1), (3, 1), (4, 1), (2, 1)],
    },
    Case {
        name: "two BEFORE drivers of one, around an AFTER driver",
        says: &[Says::Before(3), Says::After(3), Says::Before(3), Says::True],
        failing: NONE,
        starts: &[(0, 1), (2, 1), (3, 1), (1, 1)],
    },
    Case {
        name: "BEFORE of an unknown driver, and AFTER of one",
        says: &[Says::Before(9), Says::True, Says::After(9)],
        failing: NONE,
        starts: &[(1, 1)],
    },
    Case {
        name: "BEFORE and AFTER of a driver without an expression",
        says: &[Says::Nothing, Says::Before(0), Says::After(0)],
        failing: NONE,
        starts: &[],
    },
    Case {
        name: "BEFORE and AFTER of a driver that waits",
        says: &[Says::Needs(9), Says::Before(0), Says::After(0), Says::False],
        failing: NONE,
        starts: &[],
    },
    Case {
        name: "drivers that name one another, and one that names itself",
        says: &[Says::Before(1), Says::After(0), Says::After(2), Says::True],
        failing: NONE,
        starts: &[(3, 1)],
    },
    Case {
        name: "true in round 3",
        says: &[
            Says::Needs(1),
            Says::Needs(2),
            Says::True,
            Says::NeedsBoth(1, 2),
        ],
        failing: NONE,
        starts: &[(2, 1), (1, 2), (0, 3), (3, 3)],
    },
    Case {
        name: "what a BEFORE driver installs isn't there in its own round",
        says: &[Says::Before(1), Says::True, Says::Needs(0)],
        failing: NONE,
        starts: &[(0, 1), (1, 1), (2, 2)],
    },
    Case {
        name: "a round doesn't end at a driver that waits",
        says: &[Says::True, Says::Nothing, Says::Needs(9), Says::True],
        failing: NONE,
        starts: &[(0, 1), (3, 1)],
    },
    Case {
        name: "what isn't installed as the round opens",
        says: &[Says::True, Says::Lacks(0), Says::Needs(0)],
        failing: NONE,
        starts: &[(0, 1), (1, 1), (2, 2)],
    },
    Case {
        name: "a start that fails: its BEFORE and AFTER drivers start, and who needs it waits",
        says: &[
            Says::True,
            Says::After(0),
            Says::Needs(0),
            Says::Before(0),
            Says::Needs(1),
        ],
        failing: 0,
        starts: &[(3, 1), (0, 1), (1, 1), (4, 2)],
    },
];

#[test]
fn drivers_start_in_their_rounds(rt: HostRuntime) {
    let alloc = rt.alloc();
    let wrong = CASES
        .iter()
        .find(|case| !is_right(alloc, case))
        .map(|case| case.name);
    assert_eq!(rt; wrong, None);
}

/// A hundred drivers, each of which needs the next, or the one before it.
fn chain(alloc: Global, forward: bool) -> Result<Vec<Says>, NoMemory> {
    let mut says = Vec::new(alloc);
    for number in 0..100u8 {
        if forward {
            says.push(if number == 99 {
                Says::True
            } else {
                Says::Needs(number + 1)
            })?;
        } else {
            says.push(if number == 0 {
                Says::True
            } else {
                Says::Needs(number - 1)
            })?;
        }
    }
    Ok(says)
}

/// Whether each of a hundred rounds starts one driver of a chain.
fn chain_is_right(alloc: Global, forward: bool) -> bool {
    let Ok(says) = chain(alloc, forward) else {
        return false;
    };
    let Ok(Some(starts)) = started(alloc, says.as_slice(), NONE) else {
        return false;
    };
    if starts.len() != 100 {
        return false;
    }
    for (place, start) in starts.as_slice().iter().enumerate() {
        let index = if forward { 99 - place } else { place };
        if start.index as usize != index || start.round as usize != place + 1 {
            return false;
        }
    }
    true
}

#[test]
fn each_waits_for_the_next(rt: HostRuntime) {
    let right = chain_is_right(rt.alloc(), true);
    assert!(rt; right);
}

#[test]
fn each_waits_for_the_one_before(rt: HostRuntime) {
    let right = chain_is_right(rt.alloc(), false);
    assert!(rt; right);
}
