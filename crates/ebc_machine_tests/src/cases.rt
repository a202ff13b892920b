//! What the tables of turns are made of. A turn begins in the opening state, with some changes. What it leaves is told by changes too, so
//! that whatever no change names has to stay as it was: each register, C, and each byte of memory.
use ebc_machine::{FlatBus, Regs, Turn, step};
use mm_base::{Denial, FaultKind, Kind, List, NoMemory, Right, Why};
use std::alloc::Global;

/// Where memory begins, and the code of a case in it.
pub const BASE: u64 = 0x1000;

/// How many bytes of memory there are: the last stands at 0x11ff.
const SIZE: usize = 0x200;

/// The registers of the opening state. The stack pointer, R1, R2 and R7 point into memory; R3 and R4 don't.
const OPENING: [u64; 8] = [
    0x11c0,
    0x1110,
    0x1140,
    0x8877_6655_4433_2211,
    0x0123_4567_89ab_cdef,
    5,
    0xffff_ffff_ffff_fffe,
    0x1180,
];

/// A change of the state.
#[derive(Clone, Copy, Debug)]
pub enum Set {
    /// A register holds this value.
    R(usize, u64),
    /// C is this.
    Carry(bool),
    /// This is the address of the next instruction.
    Ip(u64),
    /// So many bytes at an address hold this number.
    Memory(u64, usize, u64),
}

/// What a turn comes to that isn't done.
#[derive(Clone, Copy, Debug)]
pub enum Halt {
    /// A fault of the instruction.
    Fault(FaultKind),
    /// A denied access to memory: the right, the address and the width.
    Denied(Right, u64, u8),
    /// The invocation returns this status.
    Returned(u64),
}

/// Code, changes of the opening state, and what the turn changes. ip goes on behind the code, where no change says otherwise.
pub type Done = (&'static [u8], &'static [Set], &'static [Set]);

/// Code, changes of the opening state, and what the turn comes to, which changes nothing.
pub type Halted = (&'static [u8], &'static [Set], Halt);

/// Registers and memory.
#[derive(Drop)]
struct State {
    regs: Regs,
    bytes: Vec<u8>,
}

/// Bytes of memory before a code is put there: at each address the low byte of the address and 0x80.
fn filled(alloc: Global) -> Result<Vec<u8>, NoMemory> {
    let mut bytes = vec![in alloc; 0u8; SIZE]?;
    let mut next = 0x80u8;
    for byte in bytes.iter_mut() {
        *byte = next;
        next = next.wrapping_add(1);
    }
    Ok(bytes)
}

/// Puts bytes at an address.
fn write(bytes: &mut [u8], at: u64, written: &[u8]) {
    let place = at.wrapping_sub(BASE) as usize;
    for (byte, value) in bytes.iter_mut().skip(place).zip(written) {
        *byte = *value;
    }
}

/// Puts a number into so many bytes at an address.
fn write_number(bytes: &mut [u8], at: u64, n: usize, value: u64) {
    let place = at.wrapping_sub(BASE) as usize;
    let all = value.to_le_bytes();
    for (byte, value) in bytes.iter_mut().skip(place).take(n).zip(&all) {
        *byte = *value;
    }
}

/// Makes a change.
fn change(state: &mut State, set: &Set) {
    match set {
        Set::R(register, value) => {
            if let Some(slot) = state.regs.r.get_mut(*register) {
                *slot = *value;
            }
        }
        Set::Carry(carry) => state.regs.carry = *carry,
        Set::Ip(ip) => state.regs.ip = *ip,
        Set::Memory(at, n, value) => write_number(state.bytes.as_mut_slice(), *at, *n, *value),
    }
}

/// The opening state with this code and these changes.
fn opened(alloc: Global, code: &[u8], opening: &[Set]) -> Result<State, NoMemory> {
    let mut bytes = filled(alloc)?;
    write(bytes.as_mut_slice(), BASE, code);
    let regs = Regs {
        r: OPENING,
        carry: false,
        ip: BASE,
    };
    let mut state = State { regs, bytes };
    for set in opening {
        change(&mut state, set);
    }
    Ok(state)
}

/// Whether a turn from one state comes to this and leaves the other.
fn comes_to(begin: State, turn: Turn, end: &State) -> bool {
    let State { mut regs, bytes } = begin;
    let mut bus = FlatBus::new(BASE, List::from_vec(bytes));
    let answer = step(&mut regs, &mut bus);
    answer == turn && regs == end.regs && bus.bytes() == end.bytes.as_slice()
}

/// Whether a turn is done and changes just this.
pub fn is_done(
    alloc: Global,
    code: &[u8],
    opening: &[Set],
    after: &[Set],
) -> Result<bool, NoMemory> {
    let begin = opened(alloc, code, opening)?;
    let mut end = opened(alloc, code, opening)?;
    end.regs.ip = end.regs.ip.wrapping_add(code.len() as u64);
    for set in after {
        change(&mut end, set);
    }
    Ok(comes_to(begin, Turn::Next, &end))
}

/// What an instruction at this address comes to.
fn turn_at(halt: Halt, ip: u64) -> Turn {
    match halt {
        Halt::Fault(kind) => Turn::Fault(kind, ip),
        Halt::Denied(right, at, n) => Turn::Denied(Denial {
            kind: Kind::Memory,
            right,
            at,
            n,
            why: Why::Range,
        }),
        Halt::Returned(status) => Turn::Returned(status),
    }
}

/// Whether a turn comes to this and changes nothing.
pub fn is_halted(
    alloc: Global,
    code: &[u8],
    opening: &[Set],
    halt: Halt,
) -> Result<bool, NoMemory> {
    let begin = opened(alloc, code, opening)?;
    let end = opened(alloc, code, opening)?;
    let turn = turn_at(halt, end.regs.ip);
    Ok(comes_to(begin, turn, &end))
}

/// The place of the first case that comes out otherwise.
pub fn first_wrong(alloc: Global, cases: &[Done]) -> Result<Option<usize>, NoMemory> {
    for (place, (code, opening, after)) in cases.iter().enumerate() {
        if !is_done(alloc, code, opening, after)? {
            return Ok(Some(place));
        }
    }
    Ok(None)
}

/// The place of the first case that doesn't stop so.
pub fn first_unhalted(alloc: Global, cases: &[Halted]) -> Result<Option<usize>, NoMemory> {
    for (place, (code, opening, halt)) in cases.iter().enumerate() {
        if !is_halted(alloc, code, opening, *halt)? {
            return Ok(Some(place));
        }
    }
    Ok(None)
}
