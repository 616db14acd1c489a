//! Where the labels of a section stand.

ghost use Rattle.std.specs.Prelude.{◌≡◌, ◌<◌, ◌^◌, List, length, ℕ, IfOk, OnOk, Some, None, if◌then◌else◌};
ghost use Rattle.std.specs.Option.{option_or};
ghost use Rattle.program_text.specs.Labels.{get_place, KnowsLabels};
ghost use Rattle.program_text.specs.Read.{line_view, lines_view};
ghost use Rattle.mutator_asm.specs.Text.{counts, defines};

use crate::text::line::Line;
use std::alloc::{AllocError, Global};
use std::collections::HashMap;

/// Where a label stands first in its section.
#[derive(Clone, Copy)]
pub struct Place {
    /// How many lines of the section stand before it.
    pub lines: usize,
    /// How many instructions of the section stand before it.
    pub instrs: u32,
}

/// 1 for a line with an instruction, else 0.
fn weight(line: &Line) -> u32
    ensures { result ≡ (if counts (line_view line.now) then 1 else 0) }
{
    if line.counts() { 1 } else { 0 }
}

/// Keeps the label of a line at this place, if it has one that is not kept yet.
fn keep<'a>(
    labels: &mut HashMap<&'a [u8], Place>,
    line: &Line<'a>,
    place: Place,
) -> Result<(), AllocError>
    ensures { OnOk result ((name : List ℕ) → get_place labels.new name ≡ option_or (get_place labels.old name) (if defines name (line_view line.now) then Some place else None)) }
{
    if let Some(label) = line.label {
        if !labels.contains_key(label) {
            labels.insert(label, place)?;
        }
    }
    Ok(())
}

/// The labels of a section, each at its first place.
pub fn labels<'a>(alloc: Global, lines: &[Line<'a>]) -> Result<HashMap<&'a [u8], Place>, AllocError>
    requires { length lines.now < 2 ^ 32 }
    ensures { IfOk result (λ m. KnowsLabels m (lines_view lines.now)) }
{
    let mut labels = HashMap::new(alloc);
    let mut instrs = 0;
    for (at, line) in lines.iter().enumerate() {
        keep(&mut labels, line, Place { lines: at, instrs })?;
        instrs += weight(line);
    }
    Ok(labels)
}
