//! PUSH and POP.
ghost use Rattle.std.specs.Prelude.{◌≡◌, ◌<◌};
ghost use Rattle.ebc_decode.specs.Lawful.{IsOperand};
ghost use Rattle.ebc_machine.specs.Operands.{register_in, with_register, IsStackWidth};
ghost use Rattle.ebc_machine.specs.Instructions.{pushes, pops, stacks};
ghost use Rattle.ebc_machine.specs.Told.{Does};

use crate::place::{immediate, index, low_part, source_by_immediate, take};
use crate::regs::{Regs, STACK};
use crate::turn::Progress;
use ebc_alu::immediate_value;
use ebc_decode::{Operand, StackOp};
use mm_base::Bus;

/// PUSH of `n` bytes.
#[inline(always)]
fn push<B: Bus>(regs: &mut Regs, bus: &mut B, next: u64, n: u8, operand: Operand) -> Progress
    requires width { IsStackWidth n }
    requires operand { IsOperand 2 operand }
    ensures { Does B.meaning (pushes n operand next regs.old) regs.old bus.old result regs.new bus.new }
{
    let from = source_by_immediate(regs, operand, 2);
    let value = match take(bus, from, n) {
        Ok(value) => value,
        Err(denial) => return Progress::Denied(denial),
    };
    let top = regs.get(STACK).wrapping_sub(n as u64);
    match bus.write(top, n, low_part(value, n)) {
        Ok(()) => {
            regs.put(STACK, top);
            regs.ip = next;
            Progress::Next
        }
        Err(denial) => Progress::Denied(denial),
    }
}

/// What a register holds once the stack pointer is `top`.
#[inline(always)]
fn with_top(regs: &Regs, top: u64, register: u8) -> u64
    requires { register < 8 }
    ensures { result ≡ register_in register (with_register 0 top regs.now) }
{
    if register == STACK {
        top
    } else {
        regs.get(register)
    }
}

/// POP of `n` bytes.
#[inline(always)]
fn pop<B: Bus>(regs: &mut Regs, bus: &mut B, next: u64, n: u8, operand: Operand) -> Progress
    requires width { IsStackWidth n }
    requires operand { IsOperand 2 operand }
    ensures { Does B.meaning (pops n operand next regs.old) regs.old bus.old result regs.new bus.new }
{
    let bottom = regs.get(STACK);
    let value = match bus.read(bottom, n) {
        Ok(value) => value,
        Err(denial) => return Progress::Denied(denial),
    };
    let top = bottom.wrapping_add(n as u64);
    let register = operand.place.register;
    if !operand.place.indirect {
        let result = immediate_value(value, n).wrapping_add(immediate(operand.field, 2));
        regs.put(STACK, top);
        regs.put(register, result);
        regs.ip = next;
        return Progress::Next;
    }
    let place = with_top(regs, top, register).wrapping_add(index(operand.field, 2));
    match bus.write(place, n, low_part(value, n)) {
        Ok(()) => {
            regs.put(STACK, top);
            regs.ip = next;
            Progress::Next
        }
        Err(denial) => Progress::Denied(denial),
    }
}

/// PUSH, POP, PUSHN and POPN.
#[inline(always)]
pub(crate) fn use_stack<B: Bus>(
    regs: &mut Regs,
    bus: &mut B,
    next: u64,
    op: StackOp,
    n: u8,
    operand: Operand,
) -> Progress
    requires width { IsStackWidth n }
    requires operand { IsOperand 2 operand }
    ensures { Does B.meaning (stacks op n operand next regs.old) regs.old bus.old result regs.new bus.new }
{
    match op {
        StackOp::Push => push(regs, bus, next, n, operand),
        StackOp::Pop => pop(regs, bus, next, n, operand),
    }
}
