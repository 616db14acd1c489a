//! The first line that isn't the plain machine's.

ghost use Rattle.std.specs.Prelude.{◌≡◌, ◌<◌, ◌≤◌, ◌+◌, ◌==◌, if◌then◌else◌, IfOk, IfSome, length};
ghost use Rattle.plain_heap.specs.Order.{plain};
ghost use Rattle.plain_heap.specs.Print.{print_of};
ghost use Rattle.heap_audit.specs.Texts.FirstOther.{TellsFirstOther, lines_told};

use crate::reading::lines::MutatorLines;
use dump_text::after;
use mutator_asm::Program;
use plain_heap::{Mark, NoMemory};
use plain_machine::{PlainState, plain_run, print, push_lines};
use std::alloc::Global;

/// The number of the line in which a byte stands behind this one of the line.
fn line_behind(b: u8, line: usize) -> usize
    requires { line < usize.MAX }
    ensures { result ≡ (if b == 10 then line + 1 else line) }
{
    if b == b'\n' { line + 1 } else { line }
}

/// The first line, counted from 1, in which a text isn't what is wanted.
fn first_difference(wanted: &[u8], told: &[u8]) -> Option<usize>
    ensures first { TellsFirstOther wanted.now told.now result }
    ensures within { IfSome result (λ line. line ≤ length told.now + 1) }
{
    let mut line = 1;
    let mut rest = wanted;
    for b in told {
        let Some(behind) = after(*b, rest) else {
            return Some(line);
        };
        line = line_behind(*b, line);
        rest = behind;
    }
    if rest.is_empty() { None } else { Some(line) }
}

/// The lines of mutators, as they were read.
fn lines_text(alloc: Global, mutators: &[MutatorLines]) -> Result<Vec<u8>, NoMemory>
    ensures { IfOk result (λ text. text.items ≡ lines_told mutators.now) }
{
    let mut out = String::new(alloc);
    for (m, lines) in mutators.iter().enumerate() {
        push_lines(&mut out, m, lines.printed.as_slice(), lines.end)?;
    }
    Ok(out.into_bytes())
}

/// The first of the mutators' lines, counted from 1, that isn't what is printed of a plain state; none if all lines are.
pub fn first_other(
    alloc: Global,
    plain: &PlainState,
    mutators: &[MutatorLines],
) -> Result<Option<usize>, NoMemory>
    ensures first { IfOk result (TellsFirstOther (print_of plain.now) (lines_told mutators.now)) }
    ensures within { IfOk result (λ r. IfSome r (λ line. line ≤ length (lines_told mutators.now) + 1)) }
{
    let wanted = print(alloc, plain)?;
    let told = lines_text(alloc, mutators)?;
    Ok(first_difference(&wanted, &told))
}

/// The first of the mutators' lines, counted from 1, that the plain machine doesn't print there when it executes the program
/// in this order, each mutator at most so many instructions; none if all lines are what it prints.
pub fn first_other_line(
    alloc: Global,
    p: &Program,
    turns: u32,
    order: &[Mark],
    mutators: &[MutatorLines],
) -> Result<Option<usize>, NoMemory>
    ensures { IfOk result (TellsFirstOther (print_of (plain p.now.code turns order.now)) (lines_told mutators.now)) }
{
    let plain = plain_run(alloc, p, turns, order)?;
    first_other(alloc, &plain, mutators)
}
