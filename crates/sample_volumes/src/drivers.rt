//! Volumes with driver files that are put together of sections.
use crate::volumes::{IMAGE, Part, Piece, edited, joined, put_file, put_parts, volume_around};
use mm_base::{Bytes, List, NoMemory};
use std::alloc::Global;

/// What stands in a section.
pub enum Contents {
    /// These bytes.
    Bytes(&'static [u8]),
    /// So many operands TRUE, and these bytes behind them.
    Operands(usize, &'static [u8]),
    /// The first so many bytes of the sample image, with pieces written over them.
    Image(usize, &'static [Piece]),
}

/// The type of a section, and what stands in it.
pub type Section = (u8, Contents);

/// The name of a driver file, as it is stored, and its sections.
pub type Driver = (&'static [u8], &'static [Section]);

/// The expression TRUE.
pub const TRUE: Section = (0x1c, Contents::Bytes(b"\x06\x08"));

/// The sample image as it is.
pub const SOUND: Section = (0x10, Contents::Image(336, &[]));

/// The sample image as one for x64.
pub const NATIVE: Section = (0x10, Contents::Image(336, &[(0x44, b"\x64\x86")]));

/// The text "Usual", for a user.
pub const USUAL: Section = (0x15, Contents::Bytes(b"U\0s\0u\0a\0l\0\0\0"));

/// The bytes of these contents.
fn bytes_of(alloc: Global, contents: &Contents) -> Result<Bytes, NoMemory> {
    match contents {
        Contents::Bytes(bytes) => List::from_slice(alloc, bytes),
        Contents::Operands(count, behind) => {
            let mut bytes = List::from_vec(vec![in alloc; 0x06; *count]?);
            bytes.extend(behind)?;
            Ok(bytes)
        }
        Contents::Image(length, edits) => {
            let image = joined(alloc, &[IMAGE])?;
            edited(alloc, image.as_slice(), *length, edits)
        }
    }
}

/// Puts a section behind others, at a multiple of 4.
fn put_section(body: &mut Bytes, alloc: Global, section: &Section) -> Result<(), NoMemory> {
    let (kind, contents) = section;
    let bytes = bytes_of(alloc, contents)?;
    for _ in 0..(4 - body.len() % 4) % 4 {
        body.push(0)?;
    }
    let [low, middle, high, ..] = (bytes.len() as u64).wrapping_add(4).to_le_bytes();
    body.extend(&[low, middle, high, *kind])?;
    body.extend(bytes.as_slice())
}

/// Puts a driver file behind other files.
fn put_driver(files: &mut Bytes, alloc: Global, driver: &Driver) -> Result<(), NoMemory> {
    let (name, sections) = driver;
    let mut body = List::new(alloc);
    for section in *sections {
        put_section(&mut body, alloc, section)?;
    }
    let part = Part {
        name,
        kind: 0x0e,
        attributes: 0,
        off: 0,
        body: &[],
    };
    put_file(files, alloc, &part, body.as_slice())
}

/// A volume with these drivers, after some files and before others. It costs a step a byte.
pub fn volume_with(
    alloc: Global,
    front: &[Part],
    drivers: &[Driver],
    back: &[Part],
) -> Result<Bytes, NoMemory> {
    let mut files = List::new(alloc);
    put_parts(&mut files, alloc, front)?;
    for driver in drivers {
        put_driver(&mut files, alloc, driver)?;
    }
    put_parts(&mut files, alloc, back)?;
    volume_around(alloc, false, files.as_slice())
}
