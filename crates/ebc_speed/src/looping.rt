//! The loop that is measured.
use ebc_machine::{REGISTERS, Regs, invoke};
use mm_base::{Bus, Ended};

/// Eight units a turn of the loop: two moves, two sums, two jumps, a call and its return.
pub static LOOP: [u8; 20] = [
    0x20, 0xa1, // MOVqw R1, @R2
    0x4c, 0x13, // ADD64 R3, R1
    0x02, 0x00, // JMP8 to the next instruction
    0x83, 0x10, 0x06, 0x00, 0x00, 0x00, // CALL the RET
    0x20, 0x3a, // MOVqw @R2, R3
    0x4d, 0x54, // SUB64 R4, R5
    0x02, 0xf7, // JMP8 to the begin
    0x04, 0x00, // RET
];

/// Runs the loop, which stands at `code`, for so many units, with a word at `data` and a stack that ends at `stack`. It answers how it
/// ended, and R4, which counts its turns down from 0.
pub fn loop_over<B: Bus>(
    bus: &mut B,
    code: u64,
    data: u64,
    stack: u64,
    units: u32,
) -> (Ended, u64) {
    let mut r = [0; REGISTERS];
    r[0] = stack;
    r[2] = data;
    r[5] = 1;
    let mut regs = Regs {
        r,
        carry: false,
        ip: code,
    };
    let ended = invoke(&mut regs, bus, units);
    (ended, regs.r[4])
}
