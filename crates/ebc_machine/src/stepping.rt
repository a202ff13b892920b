//! One instruction.
ghost use Rattle.std.specs.Prelude.{◌≡◌, ◌<◌, ℕ};
ghost use Rattle.ebc_decode.specs.Lawful.{IsLawful};
ghost use Rattle.ebc_machine.specs.Instructions.{row_of};
ghost use Rattle.ebc_machine.specs.Stepping.{stepped};
ghost use Rattle.ebc_machine.specs.Told.{Does, Tells, left_of, answer_of};

use crate::arithmetic::{bytes_of, compare_immediate, compare_with, compute};
use crate::jumps::{call, jump, return_back, short_jump};
use crate::moves::{
    move_bytes, move_immediate, move_index, move_natural, move_relative, move_signed,
};
use crate::regs::Regs;
use crate::special::{break_off, load_flags, store_special};
use crate::stack::use_stack;
use crate::turn::{Progress, Turn};
use ebc_decode::{Ins, decode_fetched, length};
use mm_base::{Bus, FaultKind};

/// What an instruction does.
#[inline(always)]
#[tactic(auto, unfolding(crate::specs::Instructions::row_of))]
fn perform<B: Bus>(regs: &mut Regs, bus: &mut B, next: u64, ins: Ins) -> Progress
    requires { IsLawful ins }
    ensures { Does B.meaning (row_of ins next regs.old) regs.old bus.old result regs.new bus.new }
{
    match ins {
        Ins::Break(code) => break_off(regs, bus, next, code),
        Ins::Jump {
            when,
            relative,
            target,
        } => jump(regs, bus, next, when, relative, target),
        Ins::ShortJump { when, distance } => short_jump(regs, bus, next, when, distance),
        Ins::Call {
            native,
            relative,
            target,
        } => call(regs, bus, next, native, relative, target),
        Ins::Return => return_back(regs, bus),
        Ins::Compare {
            op,
            wide,
            first,
            second,
        } => compare_with(regs, bus, next, op, wide, first, second),
        Ins::Compute {
            op,
            wide,
            first,
            second,
        } => compute(regs, bus, next, op, wide, first, second),
        Ins::Move {
            moved,
            index,
            first,
            second,
        } => move_bytes(regs, bus, next, moved, index, first, second),
        Ins::MoveSigned {
            index,
            first,
            second,
        } => move_signed(regs, bus, next, index, first, second),
        Ins::MoveNatural {
            index,
            first,
            second,
        } => move_natural(regs, bus, next, index, first, second),
        Ins::LoadFlags { register } => load_flags(regs, bus, next, register),
        Ins::StoreSpecial { register, from } => store_special(regs, bus, next, register, from),
        Ins::Stack { op, wide, operand } => use_stack(regs, bus, next, op, bytes_of(wide), operand),
        Ins::StackNatural { op, operand } => use_stack(regs, bus, next, op, 8, operand),
        Ins::CompareImmediate {
            op,
            wide,
            first,
            immediate,
        } => compare_immediate(regs, bus, next, op, wide, first, immediate),
        Ins::MoveImmediate {
            moved,
            first,
            immediate,
        } => move_immediate(regs, bus, next, moved, first, immediate),
        Ins::MoveIndex { first, index } => move_index(regs, bus, next, first, index),
        Ins::MoveRelative { first, immediate } => move_relative(regs, bus, next, first, immediate),
    }
}

/// The instruction at ip, of which two bytes are fetched, and then all.
#[inline(always)]
pub(crate) fn turn<B: Bus>(regs: &mut Regs, bus: &mut B) -> Progress
    ensures { Tells (stepped B.meaning regs.old bus.old) regs.old result regs.new bus.new }
{
    let two = match bus.fetch(regs.ip, 2) {
        Ok(two) => two,
        Err(denial) => return Progress::Denied(denial),
    };
    let n = match length(two[0], two[1]) {
        Ok(n) => n,
        Err(_) => return Progress::Fault(FaultKind::Encoding),
    };
    let bytes = match bus.fetch(regs.ip, n) {
        Ok(bytes) => bytes,
        Err(denial) => return Progress::Denied(denial),
    };
    match decode_fetched(&bytes, n) {
        Ok((ins, size)) => {
            let next = regs.ip.wrapping_add(size as u64);
            perform(regs, bus, next, ins)
        }
        Err(_) => Progress::Fault(FaultKind::Encoding),
    }
}

/// Makes one instruction of EFI Byte Code (UEFI 2.10, chapter 22, in this project's profile) over a bus: the one at ip. Registers change
/// only where it answers `Next`. At `Service` the service isn't made, and ip is still the call's. It takes no memory, and costs a bounded number of
/// steps and at most two fetches, two reads and a write of the bus.
pub fn step<B: Bus>(regs: &mut Regs, bus: &mut B) -> Turn
    ensures answer { result ≡ answer_of (stepped B.meaning regs.old bus.old).0 regs.old.ip }
    ensures registers { regs.new ≡ left_of (stepped B.meaning regs.old bus.old).0 regs.old }
    ensures bus { bus.new ≡ (stepped B.meaning regs.old bus.old).1 }
    ensures numbered { (number : ℕ) → result ≡ Turn.Service number → number < 20 }
{
    let at = regs.ip;
    turn(regs, bus).turn(at)
}
