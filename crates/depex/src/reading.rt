//! How an expression is read.
ghost use Rattle.std.specs.Prelude.{◌≡◌, ◌≤◌, ◌⊎◌, length, true, false, Ok, Err, OnOk, IfOk, IfErr};
ghost use Rattle.mm_base.specs.declared.expression.DepexFault.{DepexFault as DepexFaultValue};
ghost use Rattle.mm_base.specs.End.{EndsBy, out_of_memory};
ghost use Rattle.mm_base.specs.declared.end.End.TheVariants.{Fault as FaultOf, NoMemory as OutOfMemory};
ghost use Rattle.depex.specs.Expressions.{Expression, IsExpression, BeginsExpression, IsRefusedName, HasFaultInside, HasFault};
ghost use Rattle.depex.specs.FindingInside.{names_driver, IsCondition, IsName, BeginsName, IsKeptOf};

use crate::expression::{Depex, Kept};
use crate::item::Item;
use crate::item_walk::ItemWalk;
use crate::opcode::{AFTER, BEFORE, END};
use mm_base::{DepexFault, End, GUID_BYTES, Guid, List, guid_at};
use std::alloc::Global;

/// The place behind a BEFORE or AFTER that stands first, with its GUID.
const BEHIND_NAME: u32 = 17;

/// Why bytes were not read as an expression: their first fault, or out of memory.
pub type DepexEnd = End<DepexFault>;

/// The items of the condition that the bytes begin with; linear in them.
fn read_items(alloc: Global, bytes: &[u8]) -> Result<List<Item>, DepexEnd>
    requires few { length bytes.now ≤ 16777216 }
    requires first { names_driver bytes.now ≡ false }
    ensures condition { IfOk result (IsCondition bytes.now) }
    ensures fault { IfErr result (EndsBy (HasFaultInside bytes.now)) }
{
    let mut items = List::new(alloc);
    let mut walk = ItemWalk::of(bytes);
    loop {
        match walk.next_item() {
            Ok(Some(item)) => items.push(item)?,
            Ok(None) => return Ok(items),
            Err(fault) => return Err(End::Fault(fault)),
        }
    }
}

/// Whether the bytes begin with a condition, or their first fault; linear in them. It takes no memory.
fn judge_items(bytes: &[u8]) -> Result<(), DepexFault>
    requires few { length bytes.now ≤ 16777216 }
    requires first { names_driver bytes.now ≡ false }
    ensures expression { OnOk result (BeginsExpression bytes.now) }
    ensures fault { IfErr result (HasFaultInside bytes.now) }
{
    let mut walk = ItemWalk::of(bytes);
    while walk.next_item()?.is_some() {}
    Ok(())
}

/// The name of a driver, from the bytes behind a BEFORE or AFTER that stands first.
fn read_name(behind: &[u8]) -> Result<Guid, DepexFault>
    ensures name { IfOk result (IsName behind.now) }
    ensures fault { IfErr result (IsRefusedName behind.now) }
{
    let guid = match guid_at(behind, 0) {
        Some(guid) if GUID_BYTES < behind.len() => guid,
        _ => return Err(DepexFault::NoEnd),
    };
    let opcode = behind[GUID_BYTES];
    if opcode == END {
        return Ok(guid);
    }
    if END < opcode {
        return Err(DepexFault::Unknown(BEHIND_NAME));
    }
    Err(DepexFault::BeforeNotFirst(BEHIND_NAME))
}

/// Whether bytes behind a BEFORE or AFTER that stands first are a name and END, or their first fault.
fn judge_name(behind: &[u8]) -> Result<(), DepexFault>
    ensures name { OnOk result (BeginsName behind.now) }
    ensures fault { IfErr result (IsRefusedName behind.now) }
{
    read_name(behind)?;
    Ok(())
}

/// What is kept of the expression that the bytes begin with.
fn read_kept(alloc: Global, bytes: &[u8]) -> Result<Kept, DepexEnd>
    requires { length bytes.now ≤ 16777216 }
    ensures expression { IfOk result (IsKeptOf bytes.now) }
    ensures fault { IfErr result (EndsBy (HasFault bytes.now)) }
{
    match bytes {
        [BEFORE, behind @ ..] => Ok(Kept::Before(read_name(behind).map_err(End::Fault)?)),
        [AFTER, behind @ ..] => Ok(Kept::After(read_name(behind).map_err(End::Fault)?)),
        _ => Ok(Kept::Items(read_items(alloc, bytes)?)),
    }
}

/// Whether an expression stands at the front of bytes, or their first fault, part by part.
fn judge_parts(bytes: &[u8]) -> Result<(), DepexFault>
    requires { length bytes.now ≤ 16777216 }
    ensures expression { OnOk result (BeginsExpression bytes.now) }
    ensures fault { IfErr result (HasFault bytes.now) }
{
    match bytes {
        [BEFORE, behind @ ..] => judge_name(behind),
        [AFTER, behind @ ..] => judge_name(behind),
        _ => judge_items(bytes),
    }
}

/// Whether an expression stands at the front of bytes, or their first fault; bytes past its END are not read. One pass over the
/// bytes, which takes no memory.
pub fn judge(bytes: &[u8]) -> Result<(), DepexFault>
    requires { length bytes.now ≤ 16777216 }
    ensures expression { OnOk result (BeginsExpression bytes.now) }
    ensures fault { IfErr result (HasFault bytes.now) }
    ensures found { BeginsExpression bytes.now → result ≡ Ok tt }
    ensures first { (fault : DepexFaultValue) → HasFault bytes.now fault → result ≡ Err fault }
{
    judge_parts(bytes)
}

/// The expression that stands at the front of bytes, or their first fault; bytes past its END are not read. One pass over the
/// bytes, and the list of items is all the memory that is taken.
pub fn parse(alloc: Global, bytes: &[u8]) -> Result<Depex, DepexEnd>
    requires { length bytes.now ≤ 16777216 }
    ensures expression { IfOk result (IsExpression bytes.now) }
    ensures fault { IfErr result (EndsBy (HasFault bytes.now)) }
    ensures found { (expression : Expression) → IsExpression bytes.now expression
        → (result ≡ Ok expression) ⊎ (result ≡ Err (OutOfMemory out_of_memory)) }
    ensures first { (fault : DepexFaultValue) → HasFault bytes.now fault
        → (result ≡ Err (FaultOf fault)) ⊎ (result ≡ Err (OutOfMemory out_of_memory)) }
{
    let kept = read_kept(alloc, bytes)?;
    Ok(Depex { kept })
}
