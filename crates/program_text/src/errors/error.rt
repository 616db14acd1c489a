//! The table of errors, row by row.

ghost use Rattle.std.specs.Prelude.{◌≡◌, ◌||◌, take};
ghost use Rattle.std.specs.Option.{is_some};
ghost use Rattle.program_text.specs.Part.{part_view};
ghost use Rattle.program_text.specs.Read.{line_view};
ghost use Rattle.mutator_asm.specs.Text.{is_begin, has_label, is_bad, is_begin_with_more, is_lost, is_again, is_instr, is_overlong, error_by};

use crate::text::before::Before;
use crate::text::line::{Line, Word};
use crate::text::part::Part;
use mutator_asm::Mistake;
use plain_state::{MOST_INSTRS, MOST_ITEMS, MOST_MUTATORS};

/// Whether a line has this mistake wherever it stands.
fn is_bad(line: &Line, mistake: Mistake) -> bool
    ensures { result ≡ is_bad mistake (line_view line.now).word }
{
    match line.word {
        Word::Bad(found) => found.number() == mistake.number(),
        _ => false,
    }
}

/// Whether a line has a `.mutator` with operands.
fn is_begin_with_more(line: &Line) -> bool
    ensures { result ≡ is_begin_with_more (line_view line.now).word }
{
    matches!(line.word, Word::Begins(false))
}

/// Whether a line has an operand of a wrong count or kind.
fn is_bad_operand(line: &Line) -> bool
    ensures { result ≡ (is_bad Mistake.BadOperand (line_view line.now).word || is_begin_with_more (line_view line.now).word) }
{
    is_bad(line, Mistake::BadOperand) || is_begin_with_more(line)
}

/// Whether a line jumps to a label that isn't there.
fn is_lost(line: &Line, part: &Part) -> bool
    ensures { result ≡ is_lost (has_label (part_view part.now)) (line_view line.now).word }
{
    match line.word {
        Word::Jumps(_, label) => !part.has_label(label),
        _ => false,
    }
}

/// Whether the label of a line stands earlier in its section, among so many lines.
fn is_again(line: &Line, part: &Part, lines: usize) -> bool
    ensures { result ≡ is_again (has_label (take lines (part_view part.now))) (line_view line.now).label }
{
    match line.label {
        Some(label) => part.has_label_within(lines, label),
        None => false,
    }
}

/// Whether a line has an instruction, also one whose number is too big.
fn is_instr(line: &Line) -> bool
    ensures { result ≡ is_instr (line_view line.now).word }
{
    line.counts() || is_bad(line, Mistake::NumberTooBig)
}

/// Whether a line can stand in a section only.
fn needs_section(line: &Line) -> bool
    ensures { result ≡ (is_some (line_view line.now).label || is_instr (line_view line.now).word) }
{
    line.label.is_some() || is_instr(line)
}

/// Whether a line's items are too many, behind so many others.
fn is_overlong(line: &Line, items: usize) -> bool
    ensures { result ≡ is_overlong items (line_view line.now).word }
{
    match &line.word {
        Word::Schedules(more) => items > MOST_ITEMS || more.len() > MOST_ITEMS - items,
        _ => false,
    }
}

/// Whether a schedule has a wrong item or too many.
fn is_bad_schedule(line: &Line, items: usize) -> bool
    ensures { result ≡ (is_bad Mistake.BadSchedule (line_view line.now).word || is_overlong items (line_view line.now).word) }
{
    is_bad(line, Mistake::BadSchedule) || is_overlong(line, items)
}

/// The error of a line of a section, with so much before it.
pub fn error(line: &Line, part: &Part, before: Before) -> Option<Mistake>
    ensures { result ≡ error_by (has_label (part_view part.now)) (has_label (take before.lines (part_view part.now))) before.sections before.instrs before.items (line_view line.now) }
{
    if is_bad(line, Mistake::UnknownInstr) {
        return Some(Mistake::UnknownInstr);
    }
    if is_bad_operand(line) {
        return Some(Mistake::BadOperand);
    }
    if is_lost(line, part) {
        return Some(Mistake::UnknownLabel);
    }
    if is_again(line, part, before.lines) {
        return Some(Mistake::LabelTwice);
    }
    if before.sections == 0 && needs_section(line) {
        return Some(Mistake::NoMutator);
    }
    if line.begins() && before.sections >= MOST_MUTATORS {
        return Some(Mistake::TooManyMutators);
    }
    if is_instr(line) && before.instrs >= MOST_INSTRS {
        return Some(Mistake::CodeTooLong);
    }
    if is_bad_schedule(line, before.items) {
        return Some(Mistake::BadSchedule);
    }
    if is_bad(line, Mistake::NumberTooBig) {
        return Some(Mistake::NumberTooBig);
    }
    None
}
