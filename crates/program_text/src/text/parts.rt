//! The sections of a text.

ghost use Rattle.std.specs.Prelude.{◌≡◌, ◌<◌, ◌^◌, [], ◌∷◌, ◌++◌, length, map, IfOk, OnOk};
ghost use Rattle.program_text.specs.Part.{parts_view};
ghost use Rattle.program_text.specs.Read.{lines_view};
ghost use Rattle.mutator_asm.specs.Text.{sections_in};

use crate::text::labels::labels;
use crate::text::line::Line;
use crate::text::part::Part;
use std::alloc::{AllocError, Global};

/// The lines of each section.
fn sections_in<'a>(alloc: Global, lines: &'a [Line<'a>]) -> Result<Vec<&'a [Line<'a>]>, AllocError>
    ensures { IfOk result (λ v. map (λ s. lines_view s.now) v.items ≡ sections_in (lines_view lines.now)) }
{
    lines.split(|line| line.begins()).skip(1).collect(alloc)
}

/// Adds a section, by its lines.
fn add<'a>(
    alloc: Global,
    parts: &mut Vec<Part<'a>>,
    lines: &'a [Line<'a>],
) -> Result<(), AllocError>
    requires { length lines.now < 2 ^ 32 }
    ensures { OnOk result (parts_view parts.new.items ≡ parts_view parts.old.items ++ lines_view lines.now ∷ []) }
{
    let labels = labels(alloc, lines)?;
    parts.push(Part { lines, labels })?;
    Ok(())
}

/// The sections by their numbers, counted from 1; number 0 is empty.
pub fn parts<'a>(alloc: Global, lines: &'a [Line<'a>]) -> Result<Vec<Part<'a>>, AllocError>
    requires { length lines.now < 2 ^ 32 }
    ensures { IfOk result (λ v. parts_view v.items ≡ [] ∷ sections_in (lines_view lines.now)) }
{
    let mut parts = Vec::new(alloc);
    let (none, _) = lines.split_at(0);
    add(alloc, &mut parts, none)?;
    for lines in sections_in(alloc, lines)? {
        add(alloc, &mut parts, lines)?;
    }
    Ok(parts)
}
