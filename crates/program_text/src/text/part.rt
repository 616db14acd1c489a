//! A section of a text.

ghost use Rattle.program_text.specs.Labels.{KnowsLabels};
ghost use Rattle.program_text.specs.Read.{lines_view};

use crate::text::labels::Place;
use crate::text::line::{Line, Word};
use mutator_asm::Instr;
use std::collections::HashMap;

/// A section's lines, and the places of its labels.
#[derive(Drop)]
pub struct Part<'a> {
    pub lines: &'a [Line<'a>],
    pub labels: HashMap<&'a [u8], Place>,
    pub ghost knows: { KnowsLabels labels (lines_view lines.now) },
}

impl<'a> Part<'a> {
    ghost use Rattle.std.specs.Prelude.{◌≡◌, take};
    ghost use Rattle.program_text.specs.Read.{line_view};
    ghost use Rattle.program_text.specs.Part.{part_view};
    ghost use Rattle.mutator_asm.specs.Text.{has_label, target_of, instr_by};

    /// Whether it has a label.
    pub fn has_label(&self, name: &[u8]) -> bool
        ensures { result ≡ has_label (part_view self.now) name.now }
    {
        self.labels.contains_key(name)
    }

    /// Whether a label stands among its first lines.
    pub fn has_label_within(&self, lines: usize, name: &[u8]) -> bool
        ensures { result ≡ has_label (take lines (part_view self.now)) name.now }
    {
        match self.labels.get(name) {
            Some(place) => place.lines < lines,
            None => false,
        }
    }

    /// The number of the instruction behind a label.
    fn target(&self, label: &[u8]) -> u32
        ensures { result ≡ target_of (part_view self.now) label.now }
    {
        match self.labels.get(label) {
            Some(place) => place.instrs,
            None => 0,
        }
    }

    /// The instruction on one of its lines.
    pub fn instr(&self, line: &Line) -> Option<Instr>
        ensures { result ≡ instr_by (target_of (part_view self.now)) (line_view line.now).word }
    {
        match line.word {
            Word::Does(instr) => Some(instr),
            Word::Jumps(jump, label) => Some(jump.to(self.target(label))),
            _ => None,
        }
    }
}
