//! Cells at the ends of their windows. Expected values are worked out by hand; numbers of cells are hexadecimal.
ghost use Rattle.std.specs.Prelude.{◌≡◌, All, IsTrue};
ghost use Rattle.mm_base.specs.Cells.{IsOpeningCell};

use crate::{Platform, saved};
use mm_base::{CellWrite, Kind, List, NoMemory, Opening, Saved, is_cell};
use std::alloc::Global;
use std::test::Fail;

/// A line of an opening: kind, cell and value.
type Line = (Kind, u64, u64);

/// Whether a line is one cell of the map.
fn is_lawful(cell: &CellWrite) -> bool
    ensures { IsTrue result → IsOpeningCell cell.now }
{
    cell.n == 1 && is_cell(cell.kind, cell.at, cell.value)
}

/// Whether all of them are.
fn are_lawful(cells: &[CellWrite]) -> bool
    ensures { IsTrue result → All IsOpeningCell cells.now }
{
    cells.iter().all(is_lawful)
}

/// The cells as these lines open them; None where a line is no cell.
fn opened(alloc: Global, lines: &[Line]) -> Result<Option<Platform>, NoMemory> {
    let mut cells = List::new(alloc);
    for (kind, at, value) in lines.iter().copied() {
        cells.push(CellWrite {
            kind,
            at,
            n: 1,
            value,
        })?;
    }
    if !are_lawful(cells.as_slice()) {
        return Ok(None);
    }
    let opening = Opening { cells };
    let platform = Platform::new(alloc, &opening)?;
    Ok(Some(platform))
}

/// Reads a number where it may be read; None elsewhere.
fn get(platform: &Platform, kind: Kind, at: u64, n: u8) -> Option<u64> {
    match kind {
        Kind::Memory => {
            if 1 <= n && n <= 8 && 0xfe00_0000 <= at && at <= 0xfe01_0000 - n as u64 {
                Some(platform.dev_read(at, n))
            } else {
                None
            }
        }
        Kind::Io => {
            if (n == 1 || n == 2 || n == 4) && at <= 0x1_0000 - n as u64 {
                Some(platform.io_read(at, n))
            } else {
                None
            }
        }
        Kind::Msr => {
            if at < 0x2000 || (0xc000_0000 <= at && at < 0xc000_2000) {
                Some(platform.rdmsr(at))
            } else {
                None
            }
        }
        Kind::Saved => None,
    }
}

/// Writes a number where it may be written.
fn put(platform: &mut Platform, kind: Kind, at: u64, n: u8, value: u64) {
    match kind {
        Kind::Memory => {
            if 1 <= n && n <= 8 && 0xfe00_0000 <= at && at <= 0xfe01_0000 - n as u64 {
                platform.dev_write(at, n, value);
            }
        }
        Kind::Io => {
            if (n == 1 || n == 2 || n == 4) && at <= 0x1_0000 - n as u64 {
                platform.io_write(at, n, value);
            }
        }
        Kind::Msr => {
            if at < 0x2000 || (0xc000_0000 <= at && at < 0xc000_2000) {
                platform.wrmsr(at, value);
            }
        }
        Kind::Saved => {}
    }
}

/// A number of `n` cells: kind, first cell, `n`, and the number.
type Cells = (Kind, u64, u8, u64);

/// The first of these that holds another number.
fn first_wrong(platform: &Platform, cells: &[Cells]) -> Option<Cells> {
    for held in cells {
        let (kind, at, n, number) = *held;
        if get(platform, kind, at, n) != Some(number) {
            return Some(*held);
        }
    }
    None
}

/// Lines at the ends of all windows. Some cells have two or three, and a register has the number of a port.
const LINES: [Line; 14] = [
    (Kind::Io, 0x70, 1),
    (Kind::Msr, 0x70, 0xffff_ffff_ffff_ffff),
    (Kind::Io, 0x70, 2),
    (Kind::Io, 0x72, 5),
    (Kind::Io, 0x72, 6),
    (Kind::Io, 0x72, 0),
    (Kind::Io, 0xffff, 0xff),
    (Kind::Memory, 0xfe00_0000, 0x11),
    (Kind::Memory, 0xfe00_ffff, 0x22),
    (Kind::Memory, 0xfe00_0000, 0x33),
    (Kind::Msr, 0, 10),
    (Kind::Msr, 0x1fff, 11),
    (Kind::Msr, 0xc000_0000, 12),
    (Kind::Msr, 0xc000_1fff, 13),
];

/// What the cells hold after these lines.
const OPENED: [Cells; 18] = [
    (Kind::Io, 0, 1, 0),
    (Kind::Io, 0x6f, 2, 0x0200),
    (Kind::Io, 0x70, 1, 2),
    (Kind::Io, 0x70, 4, 2),
    (Kind::Io, 0x72, 1, 0),
    (Kind::Io, 0xffff, 1, 0xff),
    (Kind::Io, 0xfffe, 2, 0xff00),
    (Kind::Io, 0xfffc, 4, 0xff00_0000),
    (Kind::Memory, 0xfe00_0000, 1, 0x33),
    (Kind::Memory, 0xfe00_0000, 8, 0x33),
    (Kind::Memory, 0xfe00_ffff, 1, 0x22),
    (Kind::Memory, 0xfe00_fff8, 8, 0x2200_0000_0000_0000),
    (Kind::Msr, 0x70, 1, 0xffff_ffff_ffff_ffff),
    (Kind::Msr, 0, 1, 10),
    (Kind::Msr, 0x1fff, 1, 11),
    (Kind::Msr, 0xc000_0000, 1, 12),
    (Kind::Msr, 0xc000_1fff, 1, 13),
    (Kind::Msr, 1, 1, 0),
];

#[test]
fn opening_lines(rt: HostRuntime) -> Result<(), Fail> {
    let platform = opened(rt.alloc(), &LINES)?.ok_or("a line is no cell")?;
    assert_eq!(rt; first_wrong(&platform, &OPENED), None);
    Ok(())
}

/// A number of eight bytes, none twice.
const VALUE: u64 = 0x1122_3344_5566_7788;

/// What is written, one after another, to cells that are all 0.
const WRITTEN: [Cells; 13] = [
    (Kind::Io, 0, 1, VALUE),
    (Kind::Io, 0x100, 4, VALUE),
    (Kind::Io, 0xfffe, 2, VALUE),
    (Kind::Memory, 0xfe00_0000, 8, VALUE),
    (Kind::Memory, 0xfe00_0010, 3, VALUE),
    (Kind::Memory, 0xfe00_0020, 5, 0xffff_ffff_ffff_ffff),
    (Kind::Memory, 0xfe00_0022, 2, 0),
    (Kind::Memory, 0xfe00_fff9, 7, VALUE),
    (Kind::Msr, 0, 1, 1),
    (Kind::Msr, 0x1fff, 1, 2),
    (Kind::Msr, 0xc000_0000, 1, VALUE),
    (Kind::Msr, 0xc000_1fff, 1, 4),
    (Kind::Msr, 0xc000_0000, 1, 3),
];

/// What the cells hold after that.
const HELD: [Cells; 26] = [
    (Kind::Io, 0, 1, 0x88),
    (Kind::Io, 1, 1, 0),
    (Kind::Io, 0xff, 1, 0),
    (Kind::Io, 0x100, 4, 0x5566_7788),
    (Kind::Io, 0x102, 2, 0x5566),
    (Kind::Io, 0x104, 1, 0),
    (Kind::Io, 0xfffd, 1, 0),
    (Kind::Io, 0xfffe, 1, 0x88),
    (Kind::Io, 0xffff, 1, 0x77),
    (Kind::Io, 0xfffe, 2, 0x7788),
    (Kind::Memory, 0xfe00_0000, 8, VALUE),
    (Kind::Memory, 0xfe00_0001, 3, 0x55_6677),
    (Kind::Memory, 0xfe00_0007, 2, 0x11),
    (Kind::Memory, 0xfe00_0010, 8, 0x66_7788),
    (Kind::Memory, 0xfe00_0020, 6, 0xff_0000_ffff),
    (Kind::Memory, 0xfe00_fff8, 1, 0),
    (Kind::Memory, 0xfe00_fff8, 8, 0x2233_4455_6677_8800),
    (Kind::Memory, 0xfe00_ffff, 1, 0x22),
    (Kind::Msr, 0, 1, 1),
    (Kind::Msr, 1, 1, 0),
    (Kind::Msr, 0x1ffe, 1, 0),
    (Kind::Msr, 0x1fff, 1, 2),
    (Kind::Msr, 0xc000_0000, 1, 3),
    (Kind::Msr, 0xc000_0001, 1, 0),
    (Kind::Msr, 0xc000_1ffe, 1, 0),
    (Kind::Msr, 0xc000_1fff, 1, 4),
];

#[test]
fn writes_at_the_ends(rt: HostRuntime) -> Result<(), Fail> {
    let mut platform = opened(rt.alloc(), &[])?.ok_or("no line is unlawful")?;
    for (kind, at, n, value) in WRITTEN {
        put(&mut platform, kind, at, n, value);
    }
    assert_eq!(rt; first_wrong(&platform, &HELD), None);
    Ok(())
}

#[test]
fn saved_registers(rt: HostRuntime) {
    let registers = Saved([
        100, 101, 102, 103, 104, 105, 106, 107, 108, 109, 110, 111, 112, 113, 114, 115, 116, 117,
        118,
    ]);
    for register in 0..19u64 {
        assert_eq!(rt; saved(&registers, register), 100 + register);
    }
}
