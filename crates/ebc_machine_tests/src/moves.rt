//! Moves.
use crate::cases::Set::{Memory, R};
use crate::cases::{Done, Set, first_wrong, is_done};
use mm_base::NoMemory;
use std::alloc::Global;
use std::test::Fail;

/// A move: its code, how many bytes it moves, all bits of those, and its indexes of 16 and of -16.
type Move = (u8, usize, u64, &'static [u8], &'static [u8]);

/// 8 + 8 * 1, and its negative, in 16, 32 and 64 bits.
const PLUS_16: &[u8] = &[0x21, 0x10];

const MINUS_16: &[u8] = &[0x21, 0x90];

const PLUS_32: &[u8] = &[0x81, 0x00, 0x00, 0x10];

const MINUS_32: &[u8] = &[0x81, 0x00, 0x00, 0x90];

const PLUS_64: &[u8] = &[0x01, 0x08, 0, 0, 0, 0, 0, 0x10];

const MINUS_64: &[u8] = &[0x01, 0x08, 0, 0, 0, 0, 0, 0x90];

const ALL: u64 = 0xffff_ffff_ffff_ffff;

/// MOV of each width and index, and MOVN.
const MOVES: &[Move] = &[
    (0x1d, 1, 0xff, PLUS_16, MINUS_16),
    (0x1e, 2, 0xffff, PLUS_16, MINUS_16),
    (0x1f, 4, 0xffff_ffff, PLUS_16, MINUS_16),
    (0x20, 8, ALL, PLUS_16, MINUS_16),
    (0x21, 1, 0xff, PLUS_32, MINUS_32),
    (0x22, 2, 0xffff, PLUS_32, MINUS_32),
    (0x23, 4, 0xffff_ffff, PLUS_32, MINUS_32),
    (0x24, 8, ALL, PLUS_32, MINUS_32),
    (0x28, 8, ALL, PLUS_64, MINUS_64),
    (0x32, 8, ALL, PLUS_16, MINUS_16),
    (0x33, 8, ALL, PLUS_32, MINUS_32),
];

/// MOVSN.
const SIGNED_MOVES: &[Move] = &[
    (0x25, 8, ALL, PLUS_16, MINUS_16),
    (0x26, 8, ALL, PLUS_32, MINUS_32),
];

/// The index that an operand has.
#[derive(Clone, Copy, Debug)]
enum Index {
    Without,
    Plus,
    Minus,
}

/// A form of a move: the bits of byte 0 that tell its indexes, byte 1, the indexes of both operands, the value that it takes, and where
/// that goes: to an address, or to R1.
type Form = (u8, u8, Index, Index, u64, Option<u64>);

/// From R4, and from the bytes at R2, to R1, and to the bytes at R1.
const FORMS: &[Form] = &[
    (
        0,
        0x41,
        Index::Without,
        Index::Without,
        0x0123_4567_89ab_cdef,
        None,
    ),
    (
        0,
        0xa1,
        Index::Without,
        Index::Without,
        0xc7c6_c5c4_c3c2_c1c0,
        None,
    ),
    (
        0x40,
        0xa1,
        Index::Without,
        Index::Plus,
        0xd7d6_d5d4_d3d2_d1d0,
        None,
    ),
    (
        0x40,
        0xa1,
        Index::Without,
        Index::Minus,
        0xb7b6_b5b4_b3b2_b1b0,
        None,
    ),
    (
        0,
        0x49,
        Index::Without,
        Index::Without,
        0x0123_4567_89ab_cdef,
        Some(0x1110),
    ),
    (
        0x80,
        0x49,
        Index::Plus,
        Index::Without,
        0x0123_4567_89ab_cdef,
        Some(0x1120),
    ),
    (
        0x80,
        0x49,
        Index::Minus,
        Index::Without,
        0x0123_4567_89ab_cdef,
        Some(0x1100),
    ),
    (
        0,
        0xa9,
        Index::Without,
        Index::Without,
        0xc7c6_c5c4_c3c2_c1c0,
        Some(0x1110),
    ),
    (
        0x80,
        0xa9,
        Index::Minus,
        Index::Without,
        0xc7c6_c5c4_c3c2_c1c0,
        Some(0x1100),
    ),
    (
        0x40,
        0xa9,
        Index::Without,
        Index::Plus,
        0xd7d6_d5d4_d3d2_d1d0,
        Some(0x1110),
    ),
    (
        0xc0,
        0xa9,
        Index::Plus,
        Index::Minus,
        0xb7b6_b5b4_b3b2_b1b0,
        Some(0x1120),
    ),
];

/// From R4 and an index.
const INDEXED_FORMS: &[Form] = &[
    (
        0x40,
        0x41,
        Index::Without,
        Index::Plus,
        0x0123_4567_89ab_cdff,
        None,
    ),
    (
        0x40,
        0x41,
        Index::Without,
        Index::Minus,
        0x0123_4567_89ab_cddf,
        None,
    ),
    (
        0x40,
        0x49,
        Index::Without,
        Index::Plus,
        0x0123_4567_89ab_cdff,
        Some(0x1110),
    ),
    (
        0xc0,
        0x49,
        Index::Minus,
        Index::Plus,
        0x0123_4567_89ab_cdff,
        Some(0x1100),
    ),
];

/// The bytes of an index in a move.
fn bytes_of(index: Index, moved: &Move) -> &'static [u8] {
    match index {
        Index::Without => &[],
        Index::Plus => moved.3,
        Index::Minus => moved.4,
    }
}

/// The code of a move in a form.
fn code_of(alloc: Global, moved: &Move, form: &Form) -> Result<Vec<u8>, NoMemory> {
    let mut code = Vec::new(alloc);
    code.push(moved.0 | form.0)?;
    code.push(form.1)?;
    for byte in bytes_of(form.2, moved) {
        code.push(*byte)?;
    }
    for byte in bytes_of(form.3, moved) {
        code.push(*byte)?;
    }
    Ok(code)
}

/// What a move in a form changes.
fn changes(moved: &Move, form: &Form) -> Set {
    let value = form.4 & moved.2;
    match form.5 {
        Some(at) => Memory(at, moved.1, value),
        None => R(1, value),
    }
}

/// The places of the first move and form that come out otherwise.
fn first_wrong_move(
    alloc: Global,
    moves: &[Move],
    forms: &[Form],
) -> Result<Option<(usize, usize)>, NoMemory> {
    for (place, moved) in moves.iter().enumerate() {
        for (number, form) in forms.iter().enumerate() {
            let code = code_of(alloc, moved, form)?;
            if !is_done(alloc, code.as_slice(), &[], &[changes(moved, form)])? {
                return Ok(Some((place, number)));
            }
        }
    }
    Ok(None)
}

/// A direct operand 2 of MOVSN has an immediate.
const SIGNED: &[Done] = &[
    (
        &[0x65, 0x41, 0xfe, 0xff],
        &[],
        &[R(1, 0x0123_4567_89ab_cded)],
    ),
    (
        &[0x65, 0x41, 0x21, 0x10],
        &[],
        &[R(1, 0x0123_4567_89ab_de10)],
    ),
    (
        &[0x66, 0x41, 0x00, 0x00, 0x00, 0x80],
        &[],
        &[R(1, 0x0123_4567_09ab_cdef)],
    ),
    (
        &[0xe6, 0x49, 0x81, 0x00, 0x00, 0x10, 0x11, 0x00, 0x00, 0x00],
        &[],
        &[Memory(0x1120, 8, 0x0123_4567_89ab_ce00)],
    ),
    (&[0x65, 0x61, 0x03, 0x00], &[], &[R(1, 1)]),
];

#[test]
fn moves(rt: HostRuntime) -> Result<(), Fail> {
    assert_eq!(rt; first_wrong_move(rt.alloc(), MOVES, FORMS)?, None);
    assert_eq!(rt; first_wrong_move(rt.alloc(), MOVES, INDEXED_FORMS)?, None);
    assert_eq!(rt; first_wrong_move(rt.alloc(), SIGNED_MOVES, FORMS)?, None);
    assert_eq!(rt; first_wrong(rt.alloc(), SIGNED)?, None);
    Ok(())
}

/// MOVI: -2 in 16 bits, numbers in 32 and 64 bits; of 1, 2, 4 and 8 bytes.
const IMMEDIATES: &[Done] = &[
    (&[0x77, 0x01, 0xfe, 0xff], &[], &[R(1, 0xfe)]),
    (&[0x77, 0x11, 0xfe, 0xff], &[], &[R(1, 0xfffe)]),
    (&[0x77, 0x21, 0xfe, 0xff], &[], &[R(1, 0xffff_fffe)]),
    (
        &[0x77, 0x31, 0xfe, 0xff],
        &[],
        &[R(1, 0xffff_ffff_ffff_fffe)],
    ),
    (&[0xb7, 0x01, 0x78, 0x56, 0x34, 0x92], &[], &[R(1, 0x78)]),
    (&[0xb7, 0x11, 0x78, 0x56, 0x34, 0x92], &[], &[R(1, 0x5678)]),
    (
        &[0xb7, 0x21, 0x78, 0x56, 0x34, 0x92],
        &[],
        &[R(1, 0x9234_5678)],
    ),
    (
        &[0xb7, 0x31, 0x78, 0x56, 0x34, 0x92],
        &[],
        &[R(1, 0xffff_ffff_9234_5678)],
    ),
    (&[0xf7, 0x01, 1, 2, 3, 4, 5, 6, 7, 0x88], &[], &[R(1, 0x01)]),
    (
        &[0xf7, 0x11, 1, 2, 3, 4, 5, 6, 7, 0x88],
        &[],
        &[R(1, 0x0201)],
    ),
    (
        &[0xf7, 0x21, 1, 2, 3, 4, 5, 6, 7, 0x88],
        &[],
        &[R(1, 0x0403_0201)],
    ),
    (
        &[0xf7, 0x31, 1, 2, 3, 4, 5, 6, 7, 0x88],
        &[],
        &[R(1, 0x8807_0605_0403_0201)],
    ),
    (&[0x77, 0x09, 0xfe, 0xff], &[], &[Memory(0x1110, 1, 0xfe)]),
    (&[0x77, 0x19, 0xfe, 0xff], &[], &[Memory(0x1110, 2, 0xfffe)]),
    (
        &[0x77, 0x29, 0xfe, 0xff],
        &[],
        &[Memory(0x1110, 4, 0xffff_fffe)],
    ),
    (
        &[0x77, 0x39, 0xfe, 0xff],
        &[],
        &[Memory(0x1110, 8, 0xffff_ffff_ffff_fffe)],
    ),
    // at 0x1110 + 16, and at 0x1110 - 16
    (
        &[0x77, 0x49, 0x21, 0x10, 0xfe, 0xff],
        &[],
        &[Memory(0x1120, 1, 0xfe)],
    ),
    (
        &[0xb7, 0x79, 0x21, 0x90, 0x00, 0x00, 0x00, 0x80],
        &[],
        &[Memory(0x1100, 8, 0xffff_ffff_8000_0000)],
    ),
    (
        &[0xf7, 0x69, 0x21, 0x10, 1, 2, 3, 4, 5, 6, 7, 8],
        &[],
        &[Memory(0x1120, 4, 0x0403_0201)],
    ),
];

/// MOVIN: indexes of 16 and -16.
const INDEXES: &[Done] = &[
    (&[0x78, 0x01, 0x21, 0x10], &[], &[R(1, 16)]),
    (
        &[0x78, 0x01, 0x21, 0x90],
        &[],
        &[R(1, 0xffff_ffff_ffff_fff0)],
    ),
    (&[0xb8, 0x01, 0x81, 0x00, 0x00, 0x10], &[], &[R(1, 16)]),
    (
        &[0xb8, 0x01, 0x81, 0x00, 0x00, 0x90],
        &[],
        &[R(1, 0xffff_ffff_ffff_fff0)],
    ),
    (
        &[0xf8, 0x01, 0x01, 0x08, 0, 0, 0, 0, 0, 0x10],
        &[],
        &[R(1, 16)],
    ),
    (
        &[0xf8, 0x01, 0x01, 0x08, 0, 0, 0, 0, 0, 0x90],
        &[],
        &[R(1, 0xffff_ffff_ffff_fff0)],
    ),
    (&[0x78, 0x09, 0x21, 0x10], &[], &[Memory(0x1110, 8, 16)]),
    (
        &[0x78, 0x49, 0x21, 0x90, 0x21, 0x10],
        &[],
        &[Memory(0x1100, 8, 16)],
    ),
    (
        &[0xf8, 0x49, 0x21, 0x10, 0x01, 0x08, 0, 0, 0, 0, 0, 0x90],
        &[],
        &[Memory(0x1120, 8, 0xffff_ffff_ffff_fff0)],
    ),
];

/// MOVREL: from the next address.
const RELATIVE: &[Done] = &[
    (&[0x79, 0x01, 0x10, 0x00], &[], &[R(1, 0x1014)]),
    (&[0x79, 0x01, 0xfc, 0xff], &[], &[R(1, 0x1000)]),
    (&[0xb9, 0x01, 0xfa, 0xff, 0xff, 0xff], &[], &[R(1, 0x1000)]),
    (
        &[0xf9, 0x01, 0, 0, 0, 0, 0, 0, 0, 0x80],
        &[],
        &[R(1, 0x8000_0000_0000_100a)],
    ),
    (&[0x79, 0x09, 0x11, 0x00], &[], &[Memory(0x1110, 8, 0x1015)]),
    (
        &[0x79, 0x49, 0x21, 0x10, 0x10, 0x00],
        &[],
        &[Memory(0x1120, 8, 0x1016)],
    ),
    (
        &[0xb9, 0x49, 0x21, 0x90, 0xfa, 0xff, 0xff, 0xff],
        &[],
        &[Memory(0x1100, 8, 0x1002)],
    ),
];

#[test]
fn moves_of_immediates(rt: HostRuntime) -> Result<(), Fail> {
    assert_eq!(rt; first_wrong(rt.alloc(), IMMEDIATES)?, None);
    assert_eq!(rt; first_wrong(rt.alloc(), INDEXES)?, None);
    assert_eq!(rt; first_wrong(rt.alloc(), RELATIVE)?, None);
    Ok(())
}
