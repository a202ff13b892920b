//! Whether an expression holds.
ghost use Rattle.std.specs.Prelude.{◌≡◌, length};
ghost use Rattle.depex.specs.Trees.{Tree, truth, postfix};
ghost use Rattle.depex.specs.FindingInside.{MayStand};
ghost use Rattle.depex.specs.Meaning.{holds_on};
ghost use Rattle.depex.specs.WorkingInside.{AreItems, Works};

use crate::expression::{Depex, Kept};
use crate::installed::Installed;
use crate::item::Item;
use crate::operands::Operands;

/// Works one item off: it takes its operands, and leaves one.
fn work<I: Installed>(item: Item, operands: &mut Operands, installed: &I)
    requires { MayStand (length operands.old) item }
    ensures { Works (I.installed installed.now) item operands.old operands.new }
{
    match item {
        Item::Push(guid) => operands.push(installed.has(guid)),
        Item::True => operands.push(true),
        Item::False => operands.push(false),
        Item::Not => {
            let of = operands.pop();
            operands.push(!of);
        }
        Item::And => {
            let right = operands.pop();
            let left = operands.pop();
            operands.push(left && right);
        }
        Item::Or => {
            let right = operands.pop();
            let left = operands.pop();
            operands.push(left || right);
        }
    }
}

/// Whether the condition with these items holds; linear in them.
fn condition_holds<I: Installed>(items: &[Item], installed: &I) -> bool
    requires { AreItems items.now }
    ensures { (tree : Tree) → items.now ≡ postfix tree → result ≡ truth (I.installed installed.now) tree }
{
    let mut operands = Operands::new();
    for item in items {
        work(*item, &mut operands, installed);
    }
    operands.pop()
}

/// Whether an expression holds on what is installed: a condition where its tree does, and a BEFORE or AFTER never. Linear in
/// the items; it takes no memory.
pub fn holds<I: Installed>(depex: &Depex, installed: &I) -> bool
    ensures { result ≡ holds_on (I.installed installed.now) depex.now }
{
    match &depex.kept {
        Kept::Items(items) => condition_holds(items.as_slice(), installed),
        Kept::Before(_) | Kept::After(_) => false,
    }
}
