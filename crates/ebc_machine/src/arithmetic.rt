//! Comparisons and arithmetic.
ghost use Rattle.std.specs.Prelude.{◌≡◌, ◌<◌};
ghost use Rattle.ebc_decode.specs.Lawful.{IsOperand};
ghost use Rattle.ebc_machine.specs.Operands.{by_place, place_destination};
ghost use Rattle.ebc_machine.specs.Instructions.{data_bytes, flags, compares, compares_immediate, takes_second_alone, puts_result, computes};
ghost use Rattle.ebc_machine.specs.Told.{Does};

use crate::place::{Destination, Source, put, source_by_immediate, source_by_index, take};
use crate::regs::Regs;
use crate::turn::Progress;
use ebc_alu::{alu, compare, immediate_value};
use ebc_decode::{Field, Operand, Place};
use mm_base::{AluOp, Bus, CmpOp, FaultKind};

/// How many bytes an operand has.
#[inline(always)]
pub(crate) fn bytes_of(wide: bool) -> u8
    ensures { result ≡ data_bytes wide }
{
    if wide { 8 } else { 4 }
}

/// Sets C and goes on.
#[inline(always)]
pub(crate) fn set_flags<B: Bus>(regs: &mut Regs, bus: &mut B, next: u64, carry: bool) -> Progress
    ensures { Does B.meaning (flags carry next regs.old) regs.old bus.old result regs.new bus.new }
{
    regs.carry = carry;
    regs.ip = next;
    Progress::Next
}

/// CMP.
#[inline(always)]
pub(crate) fn compare_with<B: Bus>(
    regs: &mut Regs,
    bus: &mut B,
    next: u64,
    op: CmpOp,
    wide: bool,
    first: u8,
    second: Operand,
) -> Progress
    requires first { first < 8 }
    requires second { IsOperand 2 second }
    ensures { Does B.meaning (compares op wide first second next regs.old) regs.old bus.old result regs.new bus.new }
{
    let from = source_by_immediate(regs, second, 2);
    match take(bus, from, bytes_of(wide)) {
        Ok(value) => {
            let carry = compare(op, wide, regs.get(first), value);
            set_flags(regs, bus, next, carry)
        }
        Err(denial) => Progress::Denied(denial),
    }
}

/// CMPI.
#[inline(always)]
pub(crate) fn compare_immediate<B: Bus>(
    regs: &mut Regs,
    bus: &mut B,
    next: u64,
    op: CmpOp,
    wide: bool,
    first: Operand,
    immediate: Field,
) -> Progress
    requires first { IsOperand 2 first }
    ensures { Does B.meaning (compares_immediate op wide first immediate next regs.old) regs.old bus.old result regs.new bus.new }
{
    let from = source_by_index(regs, first, 2);
    match take(bus, from, bytes_of(wide)) {
        Ok(value) => {
            let wanted = immediate_value(immediate.raw, immediate.width.bytes());
            let carry = compare(op, wide, value, wanted);
            set_flags(regs, bus, next, carry)
        }
        Err(denial) => Progress::Denied(denial),
    }
}

/// Whether an operation takes operand 2 alone.
#[inline(always)]
fn takes_one(op: AluOp) -> bool
    ensures { result ≡ takes_second_alone op }
{
    matches!(
        op,
        AluOp::Not | AluOp::Neg | AluOp::ExtendByte | AluOp::ExtendWord | AluOp::ExtendDouble
    )
}

/// Where the value of a place comes from.
#[inline(always)]
fn source_of(regs: &Regs, place: Place) -> Source
    requires { place.register < 8 }
    ensures { result ≡ by_place place regs.now }
{
    let value = regs.get(place.register);
    if place.indirect {
        Source::At(value)
    } else {
        Source::Held(value)
    }
}

/// Where a result goes.
#[inline(always)]
fn destination_of(regs: &Regs, place: Place) -> Destination
    requires { place.register < 8 }
    ensures { result ≡ place_destination place regs.now }
{
    if place.indirect {
        Destination::Memory(regs.get(place.register))
    } else {
        Destination::Register(place.register)
    }
}

/// Puts the result of two operands where it goes.
#[inline(always)]
fn put_result<B: Bus>(
    regs: &mut Regs,
    bus: &mut B,
    next: u64,
    op: AluOp,
    wide: bool,
    place: Place,
    first: u64,
    second: u64,
) -> Progress
    requires { place.register < 8 }
    ensures { Does B.meaning (puts_result op wide place first second next regs.old) regs.old bus.old result regs.new bus.new }
{
    match alu(op, wide, first, second) {
        Ok(value) => {
            let to = destination_of(regs, place);
            put(regs, bus, next, to, bytes_of(wide), value)
        }
        Err(_) => Progress::Fault(FaultKind::Divide),
    }
}

/// NOT to EXTNDD.
#[inline(always)]
pub(crate) fn compute<B: Bus>(
    regs: &mut Regs,
    bus: &mut B,
    next: u64,
    op: AluOp,
    wide: bool,
    first: Place,
    second: Operand,
) -> Progress
    requires first { first.register < 8 }
    requires second { IsOperand 2 second }
    ensures { Does B.meaning (computes op wide first second next regs.old) regs.old bus.old result regs.new bus.new }
{
    let from = source_by_immediate(regs, second, 2);
    let other = match take(bus, from, bytes_of(wide)) {
        Ok(value) => value,
        Err(denial) => return Progress::Denied(denial),
    };
    if takes_one(op) {
        return put_result(regs, bus, next, op, wide, first, 0, other);
    }
    let from = source_of(regs, first);
    match take(bus, from, bytes_of(wide)) {
        Ok(one) => put_result(regs, bus, next, op, wide, first, one, other),
        Err(denial) => Progress::Denied(denial),
    }
}
