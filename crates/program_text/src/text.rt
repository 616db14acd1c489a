//! A whole text.

pub mod before;
pub mod labels;
pub mod line;
pub mod operands;
pub mod part;
pub mod parts;
pub mod token;

ghost use Rattle.std.specs.Prelude.{◌≡◌, ◌<◌, ◌≤◌, ◌^◌, [], ◌∷◌, List, ℕ, length, map, drop, IfOk, IfErr, OnOk, count_by};
ghost use Rattle.mutator_asm.specs.Line.{lines_of};
ghost use Rattle.program_text.specs.Part.{part_view, parts_view};
ghost use Rattle.mutator_asm.specs.Program.{IsWellFormed};
ghost use Rattle.program_text.specs.Read.{lines_view};
ghost use Rattle.mutator_asm.specs.Text.{begins_section, sections_in, section_of, code_of, schedule_of, IsCleanUpTo, IsFaultIn, IsText};
ghost use Rattle.program_text.specs.AsmError.{NamesFault};

use crate::errors::asm_error::AsmError;
use crate::errors::error::error;
use crate::errors::fault::Fault;
use crate::text::before::Before;
use crate::text::line::{Line, lines};
use crate::text::part::Part;
use crate::text::parts::parts;
use mutator_asm::{Code, Mistake, Program, Schedule, Section};
use std::alloc::{AllocError, Global};

/// The first error of a text, where it has one.
fn check(lines: &[Line], parts: &[Part]) -> Result<(), Fault>
    requires few { length lines.now < 2 ^ 32 }
    requires parts { parts_view parts.now ≡ [] ∷ sections_in (lines_view lines.now) }
    ensures clean { OnOk result (IsCleanUpTo (length lines.now) (lines_view lines.now)) }
    ensures begun { OnOk result (1 ≤ count_by begins_section (lines_view lines.now)) }
    ensures fault { IfErr result (λ f. IsFaultIn (lines_view lines.now) f.number f.line) }
{
    let mut before = Before::first();
    for (i, line) in lines.iter().enumerate() {
        if let Some(mistake) = error(line, &parts[before.sections], before) {
            return Err(Fault {
                number: mistake.number(),
                line: i as u32 + 1,
            });
        }
        before = before.and(line);
    }
    if before.sections == 0 {
        return Err(Fault {
            number: Mistake::NoMutator.number(),
            line: 1,
        });
    }
    Ok(())
}

/// The instructions of a section.
fn section(alloc: Global, part: &Part) -> Result<Section, AllocError>
    ensures { IfOk result (λ s. s ≡ section_of (part_view part.now)) }
{
    let instrs = part
        .lines
        .iter()
        .filter_map(|line| part.instr(line))
        .collect(alloc)?;
    Ok(Section::new(instrs))
}

/// The instructions of each section; number 0 is none.
fn code(alloc: Global, parts: &[Part]) -> Result<Code, AllocError>
    requires { 1 ≤ length parts.now }
    ensures { IfOk result (λ c. c ≡ map section_of (drop 1 (parts_view parts.now))) }
{
    let mut sections = Vec::new(alloc);
    let (_, numbered) = parts.split_at(1);
    for part in numbered {
        sections.push(section(alloc, part)?)?;
    }
    Ok(Code::new(sections))
}

/// The items of the schedule.
fn schedule(alloc: Global, lines: &[Line]) -> Result<Schedule, AllocError>
    ensures { IfOk result (λ s. s ≡ schedule_of (lines_view lines.now)) }
{
    let mut items = Vec::new(alloc);
    for line in lines {
        items.extend_from_slice(line.items())?;
    }
    Ok(Schedule::new(items))
}

/// The program of lines and of their sections, or their first error.
fn program(alloc: Global, lines: &[Line], parts: &[Part]) -> Result<Program, AsmError>
    requires few { length lines.now < 2 ^ 32 }
    requires parts { parts_view parts.now ≡ [] ∷ sections_in (lines_view lines.now) }
    requires well_formed { IsCleanUpTo (length lines.now) (lines_view lines.now) → 1 ≤ count_by begins_section (lines_view lines.now) → IsWellFormed (code_of (lines_view lines.now)) (schedule_of (lines_view lines.now)) }
    ensures text { IfOk result (λ p. (text : List ℕ) → lines_view lines.now ≡ lines_of text → IsText text p.code p.schedule) }
    ensures fault { IfErr result (λ e. (text : List ℕ) → lines_view lines.now ≡ lines_of text → NamesFault text e) }
{
    check(lines, parts)?;
    let code = code(alloc, parts)?;
    let schedule = schedule(alloc, lines)?;
    Ok(Program::new(code, schedule))
}

/// The program of a text, or its first error.
pub fn assemble(alloc: Global, text: &[u8]) -> Result<Program, AsmError>
    requires { length text.now < 2 ^ 31 }
    ensures text { IfOk result (λ p. IsText text.now p.code p.schedule) }
    ensures fault { IfErr result (NamesFault text.now) }
{
    let lines = lines(alloc, text)?;
    let parts = parts(alloc, &lines)?;
    program(alloc, &lines, &parts)
}
