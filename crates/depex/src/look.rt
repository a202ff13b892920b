//! What stands at a place of a condition.
ghost use Rattle.std.specs.Prelude.{◌≡◌, ◌<◌, ◌≤◌, ◌++◌, ◌∷◌, ℕ, List, drop, length, false};
ghost use Rattle.depex.specs.Trees.{opcode_of, guid_of};
ghost use Rattle.depex.specs.FindingInside.{Finds, IsWhole, names_driver};

use crate::found::Found;
use crate::item::Item;
use crate::opcode::{AFTER, AND, BEFORE, END, FALSE, MOST_OPERANDS, NOT, OR, PUSH, TRUE};
use mm_base::{DepexFault, guid_at};

/// An item, where so many operands stand in front of it.
fn placed(item: Item, at: u32, operands: usize) -> Found
    requires { operands ≤ MOST_OPERANDS }
    ensures { (behind : List ℕ) → IsWhole item
        → Finds operands at (opcode_of item ∷ guid_of item ++ behind) result }
{
    if operands < item.takes() {
        return Found::Refused(DepexFault::Underflow(at));
    }
    if item.takes() == 0 && operands == MOST_OPERANDS {
        return Found::Refused(DepexFault::TooDeep(at));
    }
    Found::Next(item)
}

/// A PUSH with the bytes behind it: it finds room before its GUID is missed.
fn pushed(behind: &[u8], at: u32, operands: usize) -> Found
    requires { operands ≤ MOST_OPERANDS }
    ensures { Finds operands at (PUSH ∷ behind.now) result }
{
    if operands == MOST_OPERANDS {
        return Found::Refused(DepexFault::TooDeep(at));
    }
    match guid_at(behind, 0) {
        Some(guid) => Found::Next(Item::Push(guid)),
        None => Found::Refused(DepexFault::NoEnd),
    }
}

/// An END, where so many operands stand in front of it.
fn ended(at: u32, operands: usize) -> Found
    requires { operands ≡ 0 → at ≡ 0 }
    ensures { (behind : List ℕ) → Finds operands at (END ∷ behind) result }
{
    match operands {
        0 => Found::Refused(DepexFault::Empty),
        1 => Found::End,
        _ => Found::Refused(DepexFault::Leftover(at)),
    }
}

/// An opcode with the bytes behind it, where so many operands stand in front of it.
fn classify(opcode: u8, behind: &[u8], at: u32, operands: usize) -> Found
    requires room { operands ≤ MOST_OPERANDS }
    requires first { at ≡ 0 → AFTER < opcode }
    requires none { operands ≡ 0 → at ≡ 0 }
    ensures { Finds operands at (opcode ∷ behind.now) result }
{
    match opcode {
        BEFORE | AFTER => Found::Refused(DepexFault::BeforeNotFirst(at)),
        PUSH => pushed(behind, at, operands),
        AND => placed(Item::And, at, operands),
        OR => placed(Item::Or, at, operands),
        NOT => placed(Item::Not, at, operands),
        TRUE => placed(Item::True, at, operands),
        FALSE => placed(Item::False, at, operands),
        END => ended(at, operands),
        _ => Found::Refused(DepexFault::Unknown(at)),
    }
}

/// What stands at a place of a condition, where so many operands stand in front of it; constant in the bytes.
pub(crate) fn look(bytes: &[u8], at: usize, operands: usize) -> Found
    requires few { length bytes.now ≤ 16777216 }
    requires within { at ≤ length bytes.now }
    requires room { operands ≤ MOST_OPERANDS }
    requires first { names_driver bytes.now ≡ false }
    requires none { operands ≡ 0 → at ≡ 0 }
    ensures { Finds operands at (drop at bytes.now) result }
{
    if at == bytes.len() {
        return Found::Refused(DepexFault::NoEnd);
    }
    let (_, behind) = bytes.split_at(at + 1);
    classify(bytes[at], behind, at as u32, operands)
}
