//! Jumps, calls and returns.
ghost use Rattle.std.specs.Prelude.{◌≡◌, ◌%◌, ◌<◌};
ghost use Rattle.ebc_decode.specs.Lawful.{IsOperand, IsJumpTarget};
ghost use Rattle.ebc_machine.specs.Operands.{is_odd as odd, jump_base, jump_operand, by_jump};
ghost use Rattle.ebc_machine.specs.Instructions.{is_taken as taken, jump_target, lands, jumps, short_jumps, enters, enters_code, calls, returns};
ghost use Rattle.ebc_machine.specs.Told.{Does};

use crate::place::{Source, immediate, index, take};
use crate::regs::{RESULT, Regs, STACK};
use crate::turn::Progress;
use ebc_alu::immediate_value;
use ebc_decode::{Condition, Operand, Target};
use mm_base::{Bus, FaultKind, Target as Found};

/// How many bytes a call takes of the stack.
const FRAME: u64 = 16;

/// How many bytes a return address has.
const ADDRESS: u8 = 8;

/// Whether no code stands at an address.
#[inline(always)]
pub(crate) fn is_odd(at: u64) -> bool
    ensures { result ≡ odd at }
{
    at % 2 == 1
}

/// Whether a jump is taken.
#[inline(always)]
fn is_taken(when: Condition, carry: bool) -> bool
    ensures { result ≡ taken when carry }
{
    match when {
        Condition::Always => true,
        Condition::CarryClear => !carry,
        Condition::CarrySet => carry,
    }
}

/// The register of a jump, where R0 counts as 0.
#[inline(always)]
fn base_of(regs: &Regs, register: u8) -> u64
    requires { register < 8 }
    ensures { result ≡ jump_base register regs.now }
{
    if register == STACK {
        0
    } else {
        regs.get(register)
    }
}

/// Where the value of a jump's operand comes from.
#[inline(always)]
fn source_of_operand(regs: &Regs, operand: Operand) -> Source
    requires { IsOperand 4 operand }
    ensures { result ≡ jump_operand operand regs.now }
{
    let base = base_of(regs, operand.place.register);
    if operand.place.indirect {
        Source::At(base.wrapping_add(index(operand.field, 4)))
    } else {
        Source::Held(base.wrapping_add(immediate(operand.field, 4)))
    }
}

/// Where the value of a jump comes from.
#[inline(always)]
fn source_of(regs: &Regs, target: Target) -> Source
    requires { IsJumpTarget target }
    ensures { result ≡ by_jump target regs.now }
{
    match target {
        Target::Immediate(raw) => Source::Held(raw),
        Target::Operand(operand) => source_of_operand(regs, operand),
    }
}

/// Where a jump goes.
#[inline(always)]
fn target_of(relative: bool, next: u64, value: u64) -> u64
    ensures { result ≡ jump_target relative next value }
{
    if relative {
        value.wrapping_add(next)
    } else {
        value
    }
}

/// Goes to an address, where code may stand there.
#[inline(always)]
fn land<B: Bus>(regs: &mut Regs, bus: &mut B, at: u64) -> Progress
    ensures { Does B.meaning (lands at regs.old) regs.old bus.old result regs.new bus.new }
{
    if is_odd(at) {
        return Progress::Fault(FaultKind::Alignment);
    }
    regs.ip = at;
    Progress::Next
}

/// JMP.
#[inline(always)]
pub(crate) fn jump<B: Bus>(
    regs: &mut Regs,
    bus: &mut B,
    next: u64,
    when: Condition,
    relative: bool,
    target: Target,
) -> Progress
    requires { IsJumpTarget target }
    ensures { Does B.meaning (jumps when relative target next regs.old) regs.old bus.old result regs.new bus.new }
{
    if !is_taken(when, regs.carry) {
        regs.ip = next;
        return Progress::Next;
    }
    let from = source_of(regs, target);
    match take(bus, from, ADDRESS) {
        Ok(value) => land(regs, bus, target_of(relative, next, value)),
        Err(denial) => Progress::Denied(denial),
    }
}

/// JMP8.
#[inline(always)]
pub(crate) fn short_jump<B: Bus>(
    regs: &mut Regs,
    bus: &mut B,
    next: u64,
    when: Condition,
    distance: u8,
) -> Progress
    ensures { Does B.meaning (short_jumps when distance next regs.old) regs.old bus.old result regs.new bus.new }
{
    if !is_taken(when, regs.carry) {
        regs.ip = next;
        return Progress::Next;
    }
    let bytes = immediate_value(distance as u64, 1).wrapping_mul(2);
    land(regs, bus, next.wrapping_add(bytes))
}

/// Writes the return address and goes to an address.
#[inline(always)]
fn enter_at<B: Bus>(regs: &mut Regs, bus: &mut B, next: u64, at: u64) -> Progress
    ensures { Does B.meaning (enters at next regs.old) regs.old bus.old result regs.new bus.new }
{
    let top = regs.get(STACK).wrapping_sub(FRAME);
    match bus.write(top, ADDRESS, next) {
        Ok(()) => {
            regs.put(STACK, top);
            regs.ip = at;
            Progress::Next
        }
        Err(denial) => Progress::Denied(denial),
    }
}

/// Calls code, where code may stand at the address.
#[inline(always)]
fn call_code<B: Bus>(regs: &mut Regs, bus: &mut B, next: u64, at: u64, fault: FaultKind) -> Progress
    ensures { Does B.meaning (enters_code fault at next regs.old) regs.old bus.old result regs.new bus.new }
{
    if is_odd(at) {
        return Progress::Fault(fault);
    }
    enter_at(regs, bus, next, at)
}

/// CALL.
#[inline(always)]
pub(crate) fn call<B: Bus>(
    regs: &mut Regs,
    bus: &mut B,
    next: u64,
    native: bool,
    relative: bool,
    target: Target,
) -> Progress
    requires { IsJumpTarget target }
    ensures { Does B.meaning (calls native relative target next regs.old) regs.old bus.old result regs.new bus.new }
{
    let from = source_of(regs, target);
    let at = match take(bus, from, ADDRESS) {
        Ok(value) => target_of(relative, next, value),
        Err(denial) => return Progress::Denied(denial),
    };
    if !native {
        return call_code(regs, bus, next, at, FaultKind::Alignment);
    }
    match bus.target(at) {
        Found::Service(number) => Progress::Service { number, next },
        Found::Code => call_code(regs, bus, next, at, FaultKind::NativeCall),
        Found::Other => Progress::Fault(FaultKind::NativeCall),
    }
}

/// RET.
#[inline(always)]
pub(crate) fn return_back<B: Bus>(regs: &mut Regs, bus: &mut B) -> Progress
    ensures { Does B.meaning (returns regs.old) regs.old bus.old result regs.new bus.new }
{
    let top = regs.get(STACK);
    match bus.read(top, ADDRESS) {
        Ok(at) => {
            if at == 0 {
                return Progress::Returned(regs.get(RESULT));
            }
            if is_odd(at) {
                return Progress::Fault(FaultKind::Alignment);
            }
            regs.put(STACK, top.wrapping_add(FRAME));
            regs.ip = at;
            Progress::Next
        }
        Err(denial) => Progress::Denied(denial),
    }
}
