//! Moves.
ghost use Rattle.ebc_decode.specs.Lawful.{IsOperand, IsField};
ghost use Rattle.ebc_decode.specs.Spelling.{bytes_in};
ghost use Rattle.ebc_machine.specs.Instructions.{moves, moves_signed, moves_natural, moves_immediate, moves_index, moves_relative};
ghost use Rattle.ebc_machine.specs.Told.{Does};

use crate::place::{destination_of, put, source_by_immediate, source_by_index, take};
use crate::regs::Regs;
use crate::turn::Progress;
use ebc_alu::{immediate_value, index_value};
use ebc_decode::{Field, FieldWidth, Operand, Width};
use mm_base::Bus;

/// How many bytes a natural number has.
const NATURAL: u8 = 8;

/// MOV.
#[inline(always)]
pub(crate) fn move_bytes<B: Bus>(
    regs: &mut Regs,
    bus: &mut B,
    next: u64,
    moved: Width,
    index: FieldWidth,
    first: Operand,
    second: Operand,
) -> Progress
    requires first { IsOperand (bytes_in index) first }
    requires second { IsOperand (bytes_in index) second }
    ensures { Does B.meaning (moves moved index first second next regs.old) regs.old bus.old result regs.new bus.new }
{
    let from = source_by_index(regs, second, index.bytes());
    match take(bus, from, moved.bytes()) {
        Ok(value) => {
            let to = destination_of(regs, first, index.bytes());
            put(regs, bus, next, to, moved.bytes(), value)
        }
        Err(denial) => Progress::Denied(denial),
    }
}

/// MOVSN.
#[inline(always)]
pub(crate) fn move_signed<B: Bus>(
    regs: &mut Regs,
    bus: &mut B,
    next: u64,
    index: FieldWidth,
    first: Operand,
    second: Operand,
) -> Progress
    requires first { IsOperand (bytes_in index) first }
    requires second { IsOperand (bytes_in index) second }
    ensures { Does B.meaning (moves_signed index first second next regs.old) regs.old bus.old result regs.new bus.new }
{
    let from = source_by_immediate(regs, second, index.bytes());
    match take(bus, from, NATURAL) {
        Ok(value) => {
            let to = destination_of(regs, first, index.bytes());
            put(regs, bus, next, to, NATURAL, value)
        }
        Err(denial) => Progress::Denied(denial),
    }
}

/// MOVN.
#[inline(always)]
pub(crate) fn move_natural<B: Bus>(
    regs: &mut Regs,
    bus: &mut B,
    next: u64,
    index: FieldWidth,
    first: Operand,
    second: Operand,
) -> Progress
    requires first { IsOperand (bytes_in index) first }
    requires second { IsOperand (bytes_in index) second }
    ensures { Does B.meaning (moves_natural index first second next regs.old) regs.old bus.old result regs.new bus.new }
{
    let from = source_by_index(regs, second, index.bytes());
    match take(bus, from, NATURAL) {
        Ok(value) => {
            let to = destination_of(regs, first, index.bytes());
            put(regs, bus, next, to, NATURAL, value)
        }
        Err(denial) => Progress::Denied(denial),
    }
}

/// MOVI.
#[inline(always)]
pub(crate) fn move_immediate<B: Bus>(
    regs: &mut Regs,
    bus: &mut B,
    next: u64,
    moved: Width,
    first: Operand,
    immediate: Field,
) -> Progress
    requires first { IsOperand 2 first }
    ensures { Does B.meaning (moves_immediate moved first immediate next regs.old) regs.old bus.old result regs.new bus.new }
{
    let value = immediate_value(immediate.raw, immediate.width.bytes());
    let to = destination_of(regs, first, 2);
    put(regs, bus, next, to, moved.bytes(), value)
}

/// MOVIN.
#[inline(always)]
pub(crate) fn move_index<B: Bus>(
    regs: &mut Regs,
    bus: &mut B,
    next: u64,
    first: Operand,
    index: Field,
) -> Progress
    requires first { IsOperand 2 first }
    requires index { IsField index }
    ensures { Does B.meaning (moves_index first index next regs.old) regs.old bus.old result regs.new bus.new }
{
    let value = index_value(index.raw, index.width.bytes());
    let to = destination_of(regs, first, 2);
    put(regs, bus, next, to, NATURAL, value)
}

/// MOVREL.
#[inline(always)]
pub(crate) fn move_relative<B: Bus>(
    regs: &mut Regs,
    bus: &mut B,
    next: u64,
    first: Operand,
    immediate: Field,
) -> Progress
    requires first { IsOperand 2 first }
    ensures { Does B.meaning (moves_relative first immediate next regs.old) regs.old bus.old result regs.new bus.new }
{
    let value = next.wrapping_add(immediate_value(immediate.raw, immediate.width.bytes()));
    let to = destination_of(regs, first, 2);
    put(regs, bus, next, to, NATURAL, value)
}
