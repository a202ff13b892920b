//! Bytes that begin no instruction. Each is a fault at its address and changes nothing.
use crate::cases::Halt::{Denied, Fault};
use crate::cases::Set::{Ip, Memory};
use crate::cases::{Halted, first_unhalted, is_halted};
use mm_base::FaultKind::{Alignment, Break, Encoding};
use mm_base::NoMemory;
use mm_base::Right::Execute;
use std::alloc::Global;
use std::test::Fail;

/// Codes with bits that their rows don't use or don't allow. What follows them is 0 up to ten bytes.
const REFUSED: &[&[u8]] = &[
    // no opcode
    &[0x27, 0x00],
    &[0x34, 0x00],
    &[0x3a, 0x00],
    &[0x3b, 0x00],
    &[0x3c, 0x00],
    &[0x3d, 0x00],
    &[0x3e, 0x00],
    &[0x3f, 0x00],
    // BREAK
    &[0x40, 0x01],
    &[0x80, 0x01],
    // JMP: 64 bits without their flag; a register beside them; the wanted C without a condition; bit 5
    &[0x41, 0x00],
    &[0xc1, 0x01],
    &[0xc1, 0x08],
    &[0x01, 0x41],
    &[0x01, 0x21],
    // JMP8: the wanted C without a condition
    &[0x42, 0x10],
    // CALL
    &[0x43, 0x00],
    &[0xc3, 0x01],
    &[0xc3, 0x08],
    &[0x03, 0x81],
    &[0x03, 0x41],
    // RET
    &[0x04, 0x01],
    &[0x44, 0x00],
    &[0x84, 0x00],
    // CMP with an indirect operand 1; CMPI with an index on a direct one, and bits 5 to 7
    &[0x05, 0x29],
    &[0x89, 0x29],
    &[0x2d, 0x11],
    &[0xf1, 0x15],
    &[0x2d, 0x21],
    &[0x2d, 0x41],
    &[0x2d, 0x81],
    // moves with an index on a direct operand 1
    &[0x9d, 0x21],
    &[0xa4, 0x21],
    &[0xa5, 0x21],
    &[0xe6, 0x21],
    &[0xa8, 0x21],
    &[0xb2, 0x21],
    &[0xb3, 0x21],
    &[0x77, 0x71],
    &[0x78, 0x41],
    &[0x79, 0x41],
    // MOVI, MOVIN and MOVREL: no width; bit 7; of the latter two bits 4 and 5
    &[0x37, 0x31],
    &[0x38, 0x01],
    &[0x39, 0x01],
    &[0x77, 0xb1],
    &[0x78, 0x81],
    &[0x78, 0x11],
    &[0x78, 0x21],
    &[0x79, 0x11],
    &[0x79, 0x21],
    // LOADSP to another than FLAGS; STORESP of another than FLAGS and the next address; bits that neither uses
    &[0x29, 0x51],
    &[0x29, 0x58],
    &[0x29, 0xd0],
    &[0x69, 0x50],
    &[0xa9, 0x50],
    &[0x2a, 0x23],
    &[0x2a, 0x0b],
    &[0x2a, 0x83],
    &[0x6a, 0x03],
    &[0xaa, 0x03],
    // PUSH, POP, PUSHN and POPN: bits of operand 2; of the latter two bit 6 of byte 0
    &[0x2b, 0x14],
    &[0x6c, 0x83],
    &[0x35, 0x84],
    &[0x36, 0x13],
    &[0x75, 0x04],
    &[0x76, 0x03],
];

fn first_not_refused(alloc: Global, codes: &[&[u8]]) -> Result<Option<usize>, NoMemory> {
    for (place, code) in codes.iter().enumerate() {
        let opening = [Memory(0x1002, 8, 0)];
        if !is_halted(alloc, code, &opening, Fault(Encoding))? {
            return Ok(Some(place));
        }
    }
    Ok(None)
}

/// The last two bytes of memory are an instruction, or no instruction, or begin one that is longer.
const FETCHES: &[Halted] = &[
    (&[0x00, 0x00], &[], Fault(Break)),
    (&[0x9d, 0x21, 0x00, 0x00], &[], Fault(Encoding)),
    (&[0x81, 0x00, 0x01, 0x00, 0x00, 0x00], &[], Fault(Alignment)),
    (&[], &[Ip(0x11fe), Memory(0x11fe, 2, 0)], Fault(Break)),
    (
        &[],
        &[Ip(0x11fe), Memory(0x11fe, 2, 0x01c1)],
        Fault(Encoding),
    ),
    (
        &[],
        &[Ip(0x11fe), Memory(0x11fe, 2, 0x0181)],
        Denied(Execute, 0x11fe, 6),
    ),
    (
        &[],
        &[Ip(0x11fe), Memory(0x11fe, 2, 0x00c1)],
        Denied(Execute, 0x11fe, 10),
    ),
    (
        &[],
        &[Ip(0x11ef), Memory(0x11ef, 2, 0xa9e8)],
        Denied(Execute, 0x11ef, 18),
    ),
    (
        &[],
        &[Ip(0x11fd), Memory(0x11fd, 2, 0x0177)],
        Denied(Execute, 0x11fd, 4),
    ),
    (&[], &[Ip(0x11ff)], Denied(Execute, 0x11ff, 2)),
    (&[], &[Ip(0x1200)], Denied(Execute, 0x1200, 2)),
    (&[], &[Ip(0xffe)], Denied(Execute, 0xffe, 2)),
    (
        &[],
        &[Ip(0xffff_ffff_ffff_fffe)],
        Denied(Execute, 0xffff_ffff_ffff_fffe, 2),
    ),
];

#[test]
fn encodings(rt: HostRuntime) -> Result<(), Fail> {
    assert_eq!(rt; first_not_refused(rt.alloc(), REFUSED)?, None);
    assert_eq!(rt; first_unhalted(rt.alloc(), FETCHES)?, None);
    Ok(())
}
