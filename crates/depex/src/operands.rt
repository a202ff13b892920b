//! The operands of an expression that is being judged.
ghost use Rattle.std.specs.Prelude.{◌≡◌, ◌<◌, [], ◌∷◌, length};

use crate::opcode::MOST_OPERANDS;
use std::marker::Model;

/// Up to 256 truth values on top of one another, in no memory but its own.
#[derive(Drop)]
pub(crate) struct Operands {
    values: [bool; MOST_OPERANDS],
    count: usize,
}

impl Model for Operands {
    ghost use Rattle.std.specs.Prelude.{◌≤◌, List, Bool, take, reverse};

    // The one on top is the first.
    ghost Value = { List Bool };

    ghost view = { λ s. reverse (take s.count s.values) };

    ghost invariant = { λ s. s.count ≤ 256 };
}

impl Operands {
    /// No operand.
    pub(crate) fn new() -> Operands
        ensures { result ≡ [] }
    {
        Operands {
            values: [false; MOST_OPERANDS],
            count: 0,
        }
    }

    /// Puts one on top.
    pub(crate) fn push(&mut self, value: bool)
        requires { length self.old < MOST_OPERANDS }
        ensures { self.new ≡ value ∷ self.old }
    {
        self.values[self.count] = value;
        self.count += 1;
    }

    /// Takes the one on top.
    pub(crate) fn pop(&mut self) -> bool
        requires { 0 < length self.old }
        ensures value { self.old ≡ result ∷ self.new }
        ensures room { length self.new < MOST_OPERANDS }
    {
        self.count -= 1;
        self.values[self.count]
    }
}
