//! A walk over the items of a condition.
ghost use Rattle.std.specs.Prelude.{◌≡◌, ◌≤◌, length, false};
ghost use Rattle.depex.specs.FindingInside.{names_driver};
ghost use Rattle.depex.specs.WalkInside.{walk_of, Gives};

use crate::found::Found;
use crate::item::Item;
use crate::look::look;
use mm_base::DepexFault;
use std::marker::Model;

/// A walk over the items of the condition that bytes begin with: the place that it has come to, and how many operands stand
/// in front of it.
#[derive(Drop)]
pub(crate) struct ItemWalk<'a> {
    bytes: &'a [u8],
    at: usize,
    operands: usize,
}

impl<'a> Model for ItemWalk<'a> {
    ghost use Rattle.std.specs.Prelude.{◌≡◌, ◌≤◌, length, false};
    ghost use Rattle.depex.specs.FindingInside.{names_driver};
    ghost use Rattle.depex.specs.WalkInside.{WalkState, IsNear};

    ghost Value = { WalkState };

    ghost view = { λ walk. record { bytes = walk.bytes.now; at = walk.at; operands = walk.operands } };

    ghost invariant = { λ walk. IsNear walk.bytes.now walk.at walk.operands };
}

impl<'a> ItemWalk<'a> {
    /// The walk from the first byte on.
    pub(crate) fn of(bytes: &'a [u8]) -> ItemWalk<'a>
        requires few { length bytes.now ≤ 16777216 }
        requires first { names_driver bytes.now ≡ false }
        ensures { result ≡ walk_of bytes.now }
    {
        ItemWalk {
            bytes,
            at: 0,
            operands: 0,
        }
    }

    /// The next item; None at an END that ends the condition. A fault stays where it is. The cost is constant.
    pub(crate) fn next_item(&mut self) -> Result<Option<Item>, DepexFault>
        ensures { Gives self.old result self.new }
    {
        match look(self.bytes, self.at, self.operands) {
            Found::End => Ok(None),
            Found::Refused(fault) => Err(fault),
            Found::Next(item) => {
                self.operands = self.operands - item.takes() + 1;
                self.at += item.len();
                Ok(Some(item))
            }
        }
    }
}
