//! Where an operand's value comes from, and where a result goes.
ghost use Rattle.std.specs.Prelude.{◌≡◌, ◌<◌};
ghost use Rattle.mm_base.specs.Bus.{Answers, IsAccessWidth};
ghost use Rattle.ebc_decode.specs.Lawful.{FitsIn, IsOperand};
ghost use Rattle.ebc_machine.specs.Operands.{index_in, immediate_in, by_immediate, by_index, destination, IsFieldWidth, IsDestination};
ghost use Rattle.ebc_machine.specs.Rows.{taken, puts, low};
ghost use Rattle.ebc_machine.specs.Told.{Does};

use crate::regs::Regs;
use crate::turn::Progress;
use ebc_alu::{immediate_value, index_value};
use ebc_decode::Operand;
use mm_base::{Bus, Denial};

/// Where a value comes from.
#[derive(Clone, Copy, Debug, PartialEq, Eq)]
pub(crate) enum Source {
    /// It is at hand.
    Held(u64),
    /// It stands at this address.
    At(u64),
}

/// Where a result goes.
#[derive(Clone, Copy, Debug, PartialEq, Eq)]
pub(crate) enum Destination {
    Register(u8),
    Memory(u64),
}

/// What an index in a field adds, or 0 where there is no field.
#[inline(always)]
pub(crate) fn index(field: Option<u64>, bytes: u8) -> u64
    requires width { IsFieldWidth bytes }
    requires fits { FitsIn bytes field }
    ensures { result ≡ index_in bytes field }
{
    match field {
        Some(raw) => index_value(raw, bytes),
        None => 0,
    }
}

/// What an immediate in a field adds, or 0 where there is no field.
#[inline(always)]
pub(crate) fn immediate(field: Option<u64>, bytes: u8) -> u64
    requires { IsFieldWidth bytes }
    ensures { result ≡ immediate_in bytes field }
{
    match field {
        Some(raw) => immediate_value(raw, bytes),
        None => 0,
    }
}

/// An operand whose field is an index where it is indirect, and an immediate where it is direct.
#[inline(always)]
pub(crate) fn source_by_immediate(regs: &Regs, operand: Operand, bytes: u8) -> Source
    requires width { IsFieldWidth bytes }
    requires operand { IsOperand bytes operand }
    ensures { result ≡ by_immediate bytes operand regs.now }
{
    let base = regs.get(operand.place.register);
    if operand.place.indirect {
        Source::At(base.wrapping_add(index(operand.field, bytes)))
    } else {
        Source::Held(base.wrapping_add(immediate(operand.field, bytes)))
    }
}

/// An operand whose field is an index.
#[inline(always)]
pub(crate) fn source_by_index(regs: &Regs, operand: Operand, bytes: u8) -> Source
    requires width { IsFieldWidth bytes }
    requires operand { IsOperand bytes operand }
    ensures { result ≡ by_index bytes operand regs.now }
{
    let base = regs.get(operand.place.register);
    let place = base.wrapping_add(index(operand.field, bytes));
    if operand.place.indirect {
        Source::At(place)
    } else {
        Source::Held(place)
    }
}

/// Where the result goes whose operand has an index.
#[inline(always)]
pub(crate) fn destination_of(regs: &Regs, operand: Operand, bytes: u8) -> Destination
    requires width { IsFieldWidth bytes }
    requires operand { IsOperand bytes operand }
    ensures { result ≡ destination bytes operand regs.now }
{
    if operand.place.indirect {
        let base = regs.get(operand.place.register);
        Destination::Memory(base.wrapping_add(index(operand.field, bytes)))
    } else {
        Destination::Register(operand.place.register)
    }
}

/// The value of a source of `n` bytes.
#[inline(always)]
pub(crate) fn take<B: Bus>(bus: &mut B, from: Source, n: u8) -> Result<u64, Denial>
    requires { IsAccessWidth n }
    ensures { Answers (taken B.meaning bus.old from n) result bus.new }
{
    match from {
        Source::Held(value) => Ok(value),
        Source::At(place) => bus.read(place, n),
    }
}

/// The low `n` bytes of a value.
#[inline(always)]
pub(crate) fn low_part(value: u64, n: u8) -> u64
    requires { IsAccessWidth n }
    ensures { result ≡ low n value }
{
    match n {
        1 => value % 0x100,
        2 => value % 0x1_0000,
        4 => value % 0x1_0000_0000,
        _ => value,
    }
}

/// Puts the low `n` bytes of a value where a result goes. The registers go on to the next instruction with it.
#[inline(always)]
pub(crate) fn put<B: Bus>(
    regs: &mut Regs,
    bus: &mut B,
    next: u64,
    to: Destination,
    n: u8,
    value: u64,
) -> Progress
    requires width { IsAccessWidth n }
    requires there { IsDestination to }
    ensures { Does B.meaning (puts to n value next regs.old) regs.old bus.old result regs.new bus.new }
{
    let part = low_part(value, n);
    match to {
        Destination::Register(register) => {
            regs.put(register, part);
            regs.ip = next;
            Progress::Next
        }
        Destination::Memory(place) => match bus.write(place, n, part) {
            Ok(()) => {
                regs.ip = next;
                Progress::Next
            }
            Err(denial) => Progress::Denied(denial),
        },
    }
}
