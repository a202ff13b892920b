//! Tables with two images, each with a section of 700 bytes (hexadecimal, as all addresses here). The region of the first begins where
//! management-mode memory does, at 80000000, and that of the second, at 81FD9000, ends where it ends, at 82000000: its stack begins at
//! 81FDA000, its communicate page at 81FDE000, its service page at 81FDF000, its pool at 81FE0000, and its reserve at 81FF0000.
use crate::making::{admit_at, memory_with, tables_over};
use mm_base::{Guid, NoMemory};
use mm_memory::PlainFrames;
use std::alloc::Global;
use supervisor_calls::Tables;

/// The owner of the rules that are for all images, and the names of the two images.
const ALL: Guid = Guid([0; 16]);

const FIRST: Guid = Guid([7; 16]);

const SECOND: Guid = Guid([9; 16]);

/// Kinds of rules.
const MEMORY: u16 = 1;

const PORTS: u16 = 2;

const REGISTERS: u16 = 3;

const SAVED: u16 = 4;

/// A rule: its kind, its rights (1 to read, 2 to write, none where it denies), its owner, its first unit, and how many it is about.
type Rule = (u16, u32, Guid, u64, u64);

const RULES: &[Rule] = &[
    // 0 to 3: ports
    (PORTS, 0, ALL, 0x74, 1),
    (PORTS, 3, FIRST, 0x70, 8),
    (PORTS, 1, ALL, 0xcf8, 4),
    (PORTS, 3, ALL, 0xfff0, 16),
    // 4 to 7: model-specific registers
    (REGISTERS, 0, ALL, 0x1b, 1),
    (REGISTERS, 1, ALL, 0x10, 1),
    (REGISTERS, 3, ALL, 0, 0x2000),
    (REGISTERS, 3, FIRST, 0xc000_0000, 0x2000),
    // 8 and 9: saved registers
    (SAVED, 1, FIRST, 0, 8),
    (SAVED, 1, ALL, 18, 1),
    // 10 to 13: device bytes
    (MEMORY, 0, ALL, 0xfe00_0800, 8),
    (MEMORY, 1, ALL, 0xfe00_0810, 16),
    (MEMORY, 2, SECOND, 0xfe00_9000, 16),
    (MEMORY, 3, FIRST, 0xfe00_0000, 0x1_0000),
];

/// Puts a rule behind others: 40 bytes.
fn put_rule(bytes: &mut Vec<u8>, rule: &Rule) -> Result<(), NoMemory> {
    let (kind, rights, owner, base, length) = *rule;
    let action: u16 = if rights == 0 { 0 } else { 1 };
    bytes.extend_from_slice(&kind.to_le_bytes())?;
    bytes.extend_from_slice(&action.to_le_bytes())?;
    bytes.extend_from_slice(&rights.to_le_bytes())?;
    bytes.extend_from_slice(&owner.0)?;
    bytes.extend_from_slice(&base.to_le_bytes())?;
    bytes.extend_from_slice(&length.to_le_bytes())?;
    Ok(())
}

/// A policy of these rules, 255 at most, with fuel for 65,536 units.
fn policy_of(alloc: Global, rules: &[Rule]) -> Result<Vec<u8>, NoMemory> {
    let count = rules.len().min(255) as u8;
    let mut bytes = Vec::new(alloc);
    bytes.extend_from_slice(b"MMSP\x01\0\0\0")?;
    bytes.extend_from_slice(&[count, 0, 0, 0])?;
    bytes.extend_from_slice(b"\0\0\x01\0")?;
    for rule in rules {
        put_rule(&mut bytes, rule)?;
    }
    Ok(bytes)
}

/// Tables with the two images and these rules. The bytes stand in the first image's section.
pub fn two_images(alloc: Global, code: &[u8]) -> Result<Option<Tables<PlainFrames>>, NoMemory> {
    let policy = policy_of(alloc, RULES)?;
    let memory = memory_with(alloc, 0x100, code)?;
    let mut tables = match tables_over(alloc, memory, policy.as_slice())? {
        Some(tables) => tables,
        None => return Ok(None),
    };
    admit_at(alloc, &mut tables, FIRST, 0x8000_0000, 0x700)?;
    admit_at(alloc, &mut tables, SECOND, 0x81fd_9000, 0x700)?;
    Ok(Some(tables))
}
