//! BREAK, LOADSP and STORESP.
ghost use Rattle.std.specs.Prelude.{◌≡◌, ◌<◌};
ghost use Rattle.ebc_machine.specs.Instructions.{breaks, goes_on, loads_flags, special_value, stores_special};
ghost use Rattle.ebc_machine.specs.Told.{Does};

use crate::arithmetic::set_flags;
use crate::jumps::is_odd;
use crate::regs::{RESULT, Regs};
use crate::turn::Progress;
use ebc_alu::immediate_value;
use ebc_decode::{BreakCode, Special};
use mm_base::{Bus, FaultKind};

/// The version of the virtual machine, 1.0, as BREAK 1 tells it.
const VERSION: u64 = 0x1_0000;

/// Goes on to the next instruction.
#[inline(always)]
fn go_on<B: Bus>(regs: &mut Regs, bus: &mut B, next: u64) -> Progress
    ensures { Does B.meaning (goes_on next regs.old) regs.old bus.old result regs.new bus.new }
{
    regs.ip = next;
    Progress::Next
}

/// BREAK.
#[inline(always)]
pub(crate) fn break_off<B: Bus>(
    regs: &mut Regs,
    bus: &mut B,
    next: u64,
    code: BreakCode,
) -> Progress
    ensures { Does B.meaning (breaks code next regs.old) regs.old bus.old result regs.new bus.new }
{
    match code {
        BreakCode::Runaway => Progress::Fault(FaultKind::Break),
        BreakCode::Version => {
            regs.put(RESULT, VERSION);
            regs.ip = next;
            Progress::Next
        }
        BreakCode::Thunk => make_thunk(regs, bus, next),
        BreakCode::Breakpoint | BreakCode::SystemCall | BreakCode::CompilerVersion => {
            go_on(regs, bus, next)
        }
    }
}

/// BREAK 5.
#[inline(always)]
fn make_thunk<B: Bus>(regs: &mut Regs, bus: &mut B, next: u64) -> Progress
    ensures { Does B.meaning (breaks BreakCode.Thunk next regs.old) regs.old bus.old result regs.new bus.new }
{
    let place = regs.get(RESULT);
    let value = match bus.read(place, 4) {
        Ok(value) => value,
        Err(denial) => return Progress::Denied(denial),
    };
    let target = place
        .wrapping_add(4)
        .wrapping_add(immediate_value(value, 4));
    match bus.write(place, 8, target) {
        Ok(()) => go_on(regs, bus, next),
        Err(denial) => Progress::Denied(denial),
    }
}

/// LOADSP.
#[inline(always)]
pub(crate) fn load_flags<B: Bus>(regs: &mut Regs, bus: &mut B, next: u64, register: u8) -> Progress
    requires { register < 8 }
    ensures { Does B.meaning (loads_flags register next regs.old) regs.old bus.old result regs.new bus.new }
{
    let carry = is_odd(regs.get(register));
    set_flags(regs, bus, next, carry)
}

/// What STORESP stores.
#[inline(always)]
fn value_of(regs: &Regs, next: u64, from: Special) -> u64
    ensures { result ≡ special_value from next regs.now }
{
    match from {
        Special::Flags => regs.carry as u64,
        Special::NextAddress => next,
    }
}

/// STORESP.
#[inline(always)]
pub(crate) fn store_special<B: Bus>(
    regs: &mut Regs,
    bus: &mut B,
    next: u64,
    register: u8,
    from: Special,
) -> Progress
    requires { register < 8 }
    ensures { Does B.meaning (stores_special register from next regs.old) regs.old bus.old result regs.new bus.new }
{
    let value = value_of(regs, next, from);
    regs.put(register, value);
    regs.ip = next;
    Progress::Next
}
