//! The whole part: all that a run printed behind its program.

ghost use Rattle.std.specs.Prelude.{◌≡◌, ◌≤◌, IfErr, IfOk, Ok};
ghost use Rattle.dump_text.specs.Reading.{GivesReading, dump_view};
ghost use Rattle.dump_text.specs.Text.{Dumped, dump_text};
ghost use Rattle.space_map.specs.declared.spaces.TheConstants.{MOST_MUTATORS};
ghost use Rattle.heap_audit.specs.Texts.FirstWrong.{DumpNamesWrong, NamesFirstWrongOf};
ghost use Rattle.heap_audit.specs.Texts.Order.{ReadsAs};
ghost use Rattle.heap_audit.specs.Texts.Part.{IsDumpOf, IsPart, Output, part_text, part_view};

use crate::reading::lines::{MutatorLines, read_lines};
use crate::reading::order::read_order;
use crate::reading::reading_error::{ReadingError, behind};
use dump_text::{Dump, DumpError, read, read_head};
use plain_heap::Mark;
use std::alloc::Global;

/// What a run printed: the lines of its mutators, its order, and the dump of its heap.
#[derive(Debug, Drop)]
pub struct Part {
    pub mutators: Vec<MutatorLines>,
    pub order: Vec<Mark>,
    pub dump: Dump,
}

/// The dump of a heap with so many mutators that was printed as these bytes, all of them.
fn read_dump(alloc: Global, mutators: u8, bytes: &[u8]) -> Result<Dump, DumpError>
    // What is read is such a dump, printed so.
    ensures found { IfOk result (λ d. IsDumpOf mutators (dump_view d) × (bytes.now ≡ dump_text (dump_view d))) }
    // Such a dump that was printed is read back, unless memory runs out.
    ensures only { (d : Dumped) → IsDumpOf mutators d → bytes.now ≡ dump_text d → GivesReading dump_view result (Ok d) }
    // Else the first line by which the bytes differ from every such dump is told.
    ensures first_wrong { 1 ≤ mutators → mutators ≤ MOST_MUTATORS → IfErr result (DumpNamesWrong dump_text (IsDumpOf mutators) bytes.now) }
{
    let wrong = DumpError::Bad { line: 1 };
    let Some(head) = read_head(bytes) else {
        return Err(wrong);
    };
    if head.mutators != u32::from(mutators) {
        return Err(wrong);
    }
    read(alloc, bytes)
}

/// The part of a program with so many mutators that was printed as these bytes, all of them.
pub fn read_part(alloc: Global, mutators: u8, bytes: &[u8]) -> Result<Part, ReadingError>
    // What is read is a part that is printed so.
    ensures found { IfOk result (λ p. IsPart mutators (part_view p) × (bytes.now ≡ part_text (part_view p))) }
    // A part that was printed is read back, unless memory runs out.
    ensures only { (output : Output) → IsPart mutators output → bytes.now ≡ part_text output → ReadsAs part_view result output }
    // Else the first line by which the bytes differ from every part is told.
    ensures first_wrong { 1 ≤ mutators → mutators ≤ MOST_MUTATORS → IfErr result (NamesFirstWrongOf part_text (IsPart mutators) bytes.now) }
{
    let (seen, lines, rest) = read_lines(alloc, mutators, bytes)?;
    let (order, rest) = read_order(alloc, lines, rest)?;
    match read_dump(alloc, mutators, rest) {
        Ok(dump) => Ok(Part {
            mutators: seen,
            order,
            dump,
        }),
        Err(error) => Err(behind(lines + 1, error)),
    }
}
