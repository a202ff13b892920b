//! Dependency expressions that were read.
ghost use Rattle.std.specs.Prelude.{◌≡◌};
ghost use Rattle.depex.specs.Meaning.{named_before, named_after};

use crate::item::Item;
use mm_base::{Guid, List};
use std::marker::Model;

/// What is kept of an expression. The items stand as they are spelled, so that no chain of operators costs stack.
#[derive(Debug, Drop)]
pub(crate) enum Kept {
    /// It names the driver before which its own is scheduled.
    Before(Guid),
    /// It names the driver behind which its own is scheduled.
    After(Guid),
    /// It is a condition.
    Items(List<Item>),
}

/// A dependency expression: a condition on what is installed, or BEFORE or AFTER with the name of another driver.
#[derive(Debug, Drop)]
pub struct Depex {
    pub(crate) kept: Kept,
}

impl Model for Depex {
    ghost use Rattle.depex.specs.Expressions.{Expression};
    ghost use Rattle.depex.specs.ExpressionCode.{expression_code};
    ghost use Rattle.depex.specs.Keeping.{expression_of, IsKept};

    ghost Value = { Expression };

    ghost coded = { expression_code };

    ghost view = { λ depex. expression_of depex.kept };

    ghost invariant = { λ depex. IsKept depex.kept };
}

impl Depex {
    /// The driver that BEFORE names.
    pub fn before(&self) -> Option<Guid>
        ensures { result ≡ named_before self.now }
    {
        match &self.kept {
            Kept::Before(guid) => Some(*guid),
            _ => None,
        }
    }

    /// The driver that AFTER names.
    pub fn after(&self) -> Option<Guid>
        ensures { result ≡ named_after self.now }
    {
        match &self.kept {
            Kept::After(guid) => Some(*guid),
            _ => None,
        }
    }
}
