//! The instructions of all mutators.

ghost use Rattle.std.specs.Prelude.{◌≡◌, ◌==◌, length};
ghost use Rattle.mutator_asm.specs.Program.{instr_at};

use crate::instr::Instr;
use crate::section::Section;
use std::marker::Model;

/// The sections of the mutators, by their numbers. Contracts see the list of their lists.
#[derive(Debug, Drop)]
pub struct Code {
    sections: Vec<Section>,
}

impl Model for Code {
    ghost use Rattle.std.specs.Prelude.{List};
    ghost use Rattle.mutator_asm.specs.declared.instr.Instr.{Instr};

    ghost Value = { List (List Instr) };

    ghost view = { λ c. c.sections.items };
}

impl Code {
    /// The code of these sections.
    pub fn new(sections: Vec<Section>) -> Code
        ensures { result ≡ sections.items }
    {
        Code { sections }
    }

    /// Gives the sections back.
    pub fn into_sections(self) -> Vec<Section>
        ensures { result.items ≡ self }
    {
        self.sections
    }

    /// The sections in the order of the mutators.
    pub fn sections(&self) -> &[Section]
        ensures { result.now ≡ self.now }
    {
        self.sections.as_slice()
    }

    /// How many mutators there are.
    pub fn len(&self) -> usize
        ensures { result ≡ length self.now }
    {
        self.sections.len()
    }

    /// Whether there is none.
    pub fn is_empty(&self) -> bool
        ensures { result ≡ (length self.now == 0) }
    {
        self.sections.is_empty()
    }

    /// The instruction at a counter in a mutator's section, both counted from 0.
    pub fn instr(&self, mutator: u8, counter: u64) -> Option<Instr>
        ensures { result ≡ instr_at self.now mutator counter }
    {
        let section = self.sections.get(mutator as usize)?;
        section.get(counter as usize)
    }
}
