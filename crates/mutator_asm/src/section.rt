//! The instructions of one mutator.

ghost use Rattle.std.specs.Prelude.{◌≡◌, ◌==◌, length, slice_get};

use crate::instr::Instr;
use std::marker::Model;

/// The instructions of one mutator, by their numbers. Contracts see their list.
#[derive(Debug, Drop)]
pub struct Section {
    instrs: Vec<Instr>,
}

impl Model for Section {
    ghost use Rattle.std.specs.Prelude.{List};
    ghost use Rattle.mutator_asm.specs.declared.instr.Instr.{Instr};

    ghost Value = { List Instr };

    ghost view = { λ s. s.instrs.items };
}

impl Section {
    /// The section of these instructions.
    pub fn new(instrs: Vec<Instr>) -> Section
        ensures { result ≡ instrs.items }
    {
        Section { instrs }
    }

    /// Gives the instructions back.
    pub fn into_instrs(self) -> Vec<Instr>
        ensures { result.items ≡ self }
    {
        self.instrs
    }

    /// The instructions in order.
    pub fn as_slice(&self) -> &[Instr]
        ensures { result.now ≡ self.now }
    {
        self.instrs.as_slice()
    }

    /// How many instructions there are.
    pub fn len(&self) -> usize
        ensures { result ≡ length self.now }
    {
        self.instrs.len()
    }

    /// Whether there is none.
    pub fn is_empty(&self) -> bool
        ensures { result ≡ (length self.now == 0) }
    {
        self.instrs.is_empty()
    }

    /// The instruction of a number, counted from 0.
    pub fn get(&self, k: usize) -> Option<Instr>
        ensures { result ≡ slice_get self.now k }
    {
        self.instrs.get(k).copied()
    }
}
