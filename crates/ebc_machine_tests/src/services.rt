//! Native calls of services.
use ebc_machine::{FlatBus, Turn, enter, invoke, step};
use mm_base::{Bus, Denial, Ended, FaultKind, Kind, List, NoMemory, Right, Served, Target, Why};
use std::alloc::Global;
use std::marker::Model;
use std::test::Fail;

/// The entry of a service whose status is the address of its arguments.
const ANSWERS: u64 = 0x8000;

/// The entry of a service that is denied a port.
const STOPS: u64 = 0x8010;

/// The port that is denied.
const PORT: Denial = Denial {
    kind: Kind::Io,
    right: Right::Read,
    at: 0x70,
    n: 1,
    why: Why::NoRule,
};

/// Flat memory with two services.
#[derive(Debug, Drop)]
struct ServingBus {
    flat: FlatBus,
}

impl Model for ServingBus {
    ghost use Rattle.ebc_machine.specs.Flat.{FlatState};

    ghost Value = { FlatState };

    ghost view = { λ b. b.flat };
}

impl Bus for ServingBus {
    ghost use Rattle.std.specs.Prelude.{false};
    ghost use Rattle.ebc_machine_tests.specs.Serving.{serving_meaning};

    ghost meaning = { serving_meaning };

    ghost may_refuse = { false };

    fn fetch(&mut self, at: u64, n: u8) -> Result<[u8; 18], Denial> {
        self.flat.fetch(at, n)
    }

    fn read(&mut self, at: u64, n: u8) -> Result<u64, Denial> {
        self.flat.read(at, n)
    }

    fn write(&mut self, at: u64, n: u8, value: u64) -> Result<(), Denial> {
        self.flat.write(at, n, value)
    }

    fn target(&self, at: u64) -> Target {
        if at == ANSWERS {
            Target::Service(3)
        } else if at == STOPS {
            Target::Service(19)
        } else {
            self.flat.target(at)
        }
    }

    fn service(&mut self, number: u8, stack: u64) -> Served {
        if number == 3 {
            Served::Status(stack)
        } else {
            Served::Stop(PORT)
        }
    }
}

/// A code in 0x100 bytes of memory from 0x1000 on.
fn bus_with(alloc: Global, code: &[u8]) -> Result<ServingBus, NoMemory> {
    let mut bytes = vec![in alloc; 0xeeu8; 0x100]?;
    for (byte, value) in bytes.iter_mut().zip(code) {
        *byte = *value;
    }
    Ok(ServingBus {
        flat: FlatBus::new(0x1000, List::from_vec(bytes)),
    })
}

/// Code, fuel, how its invocation ends, and then ip and R7.
type Run = (&'static [u8], u32, Ended, u64, u64);

/// The stack ends at 0x1100, so the frame begins at 0x10d0. Nothing but the frame's words, here all 0, is written.
fn is_run(alloc: Global, run: &Run) -> Result<bool, NoMemory> {
    let (code, fuel, end, ip, result) = *run;
    let mut bus = bus_with(alloc, code)?;
    let Ok(mut regs) = enter(&mut bus, 0x1100, 0x1000, [0; 4]) else {
        return Ok(false);
    };
    let before = bus_with(alloc, code)?;
    let ended = invoke(&mut regs, &mut bus, fuel);
    let is_kept = bus
        .flat
        .bytes()
        .iter()
        .take(0xd0)
        .eq(before.flat.bytes().iter().take(0xd0));
    let is_frame = bus.flat.bytes().iter().skip(0xd0).all(|byte| *byte == 0);
    Ok(
        ended == end
            && regs.ip == ip
            && regs.r[7] == result
            && regs.r[0] == 0x10d0
            && is_kept
            && is_frame,
    )
}

fn first_wrong(alloc: Global, runs: &[Run]) -> Result<Option<usize>, NoMemory> {
    for (place, run) in runs.iter().enumerate() {
        if !is_run(alloc, run)? {
            return Ok(Some(place));
        }
    }
    Ok(None)
}

/// A call of the service that answers, and back.
const CALLS: &[u8] = &[
    0xc3, 0x20, 0x00, 0x80, 0, 0, 0, 0, 0, 0, // 1000: the service
    0x04, 0x00, // 100a: back
];

/// The same by a register, where R7 was 5.
const CALLS_BY_REGISTER: &[u8] = &[
    0x77, 0x37, 0x05, 0x00, // 1000: R7 = 5
    0xb7, 0x31, 0x00, 0x80, 0x00, 0x00, // 1004: R1 = 8000
    0x03, 0x21, // 100a: the service at R1
    0x04, 0x00, // 100c: back
];

/// A call of the service that stops.
const STOPPED: &[u8] = &[
    0xc3, 0x20, 0x10, 0x80, 0, 0, 0, 0, 0, 0, // 1000: the service
    0x04, 0x00, // 100a: back
];

/// An entry and 2: neither a service nor code.
const BESIDE: &[u8] = &[0xc3, 0x20, 0x02, 0x80, 0, 0, 0, 0, 0, 0];

const RUNS: &[Run] = &[
    (CALLS, 0, Ended::Fuel(0x1000), 0x1000, 0),
    (CALLS, 1, Ended::Fuel(0x1000), 0x1000, 0),
    (CALLS, 2, Ended::Fuel(0x100a), 0x100a, 0x10d0),
    (CALLS, 3, Ended::Returned(0x10d0), 0x100a, 0x10d0),
    (CALLS_BY_REGISTER, 3, Ended::Fuel(0x100a), 0x100a, 5),
    (CALLS_BY_REGISTER, 4, Ended::Fuel(0x100c), 0x100c, 0x10d0),
    (
        CALLS_BY_REGISTER,
        5,
        Ended::Returned(0x10d0),
        0x100c,
        0x10d0,
    ),
    (STOPPED, 1, Ended::Fuel(0x1000), 0x1000, 0),
    (STOPPED, 2, Ended::Denied(Why::NoRule, 0x70), 0x1000, 0),
    (
        BESIDE,
        1,
        Ended::Fault(FaultKind::NativeCall, 0x1000),
        0x1000,
        0,
    ),
];

/// Whether a turn tells the service and changes no register.
fn is_told(alloc: Global, code: &[u8], number: u8) -> Result<bool, NoMemory> {
    let mut bus = bus_with(alloc, code)?;
    let Ok(mut regs) = enter(&mut bus, 0x1100, 0x1000, [0; 4]) else {
        return Ok(false);
    };
    let before = regs;
    let turn = step(&mut regs, &mut bus);
    Ok(turn == Turn::Service(number) && regs == before)
}

#[test]
fn services(rt: HostRuntime) -> Result<(), Fail> {
    assert_eq!(rt; first_wrong(rt.alloc(), RUNS)?, None);
    assert!(rt; is_told(rt.alloc(), CALLS, 3)? && is_told(rt.alloc(), STOPPED, 19)?);
    Ok(())
}
