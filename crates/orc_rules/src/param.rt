//! Parameters, and the operands of a source.

ghost use Rattle.std.specs.Prelude.{◌≡◌, ◌≤◌, ◌<◌, ◌++◌, ◌∷◌, [], List, length, take};
ghost use Rattle.orc_rules.specs.declared.limits.TheConstants.{MOST_ARGUMENTS};
ghost use Rattle.orc_rules.specs.declared.param.Operand.{Operand as Argument};

use crate::limits::MOST_ARGUMENTS;
use crate::value::Value;
use std::marker::Model;

/// What stands as an argument during a run.
#[derive(Clone, Copy, PartialEq, Eq, Debug)]
pub enum Param {
    /// A variable, by its number.
    Name(u32),
    /// A value.
    Is(Value),
    /// A variable that has no value yet, as the number of its cell, from 1: an opened `f <x< g` puts a cell for x.
    Cell(u64),
    /// A variable that will never get a value.
    Void,
}

/// What stands as an argument in a source: a variable, by its number, or a value.
#[derive(Clone, Copy, PartialEq, Eq, Debug)]
pub enum Operand {
    /// A variable, by its number.
    Name(u32),
    /// A value.
    Is(Value),
}

/// The operands of one call, `MOST_ARGUMENTS` at most. They are stored in place, so nothing that is done with them asks for memory.
#[derive(Drop)]
pub struct Operands {
    // The elements from `len` on are unused.
    operands: [Operand; MOST_ARGUMENTS],
    // How many operands there are.
    len: usize,
}

// Contracts see a list of operands.
impl Model for Operands {
    ghost Value = { List Argument };

    ghost view = { λ p. take p.len p.operands };

    ghost invariant = { λ p. p.len ≤ MOST_ARGUMENTS };
}

impl Operands {
    /// No operands.
    pub fn new() -> Operands
        ensures { result ≡ [] }
    {
        Operands {
            // Filling, which isn't read as long as `len` is 0.
            operands: [Operand::Is(Value::Signal); MOST_ARGUMENTS],
            len: 0,
        }
    }

    /// Adds an operand at the end. There must be room for it: fewer than `MOST_ARGUMENTS` so far.
    pub fn push(&mut self, operand: Operand)
        requires { length self.old < MOST_ARGUMENTS }
        ensures { self.new ≡ self.old ++ operand ∷ [] }
    {
        self.operands[self.len] = operand;
        self.len += 1;
    }

    /// The operands in their order.
    pub fn as_slice(&self) -> &[Operand]
        ensures value { result.now ≡ self.now }
        ensures len { length result.now ≤ MOST_ARGUMENTS }
    {
        &self.operands[..self.len]
    }
}
