//! A whole dump.

ghost use Rattle.std.specs.Prelude.{◌≡◌, IfErr, IfOk, IfSome, Ok, Some, option_map};
ghost use Rattle.dump_text.specs.Lines.{NamesFirstWrong};
ghost use Rattle.dump_text.specs.Pieces.{head_view};
ghost use Rattle.dump_text.specs.Reading.{GivesReading, dump_at, dump_view};
ghost use Rattle.dump_text.specs.Text.{BeginsDump, Counts, Dumped, IsDump, dump_text};

use crate::dump::Dump;
use crate::dump_error::DumpError;
use crate::head::{Head, first_line};
use crate::lines::{all_kept, all_registers, table};
use std::alloc::Global;

/// Each line in turn.
#[tactic(auto, unfolding(crate::specs::Reading::dump_at))]
fn all(alloc: Global, bytes: &[u8]) -> Result<Dump, DumpError>
    ensures { GivesReading dump_view result (dump_at bytes.now) }
{
    let Some((head, rest)) = first_line(bytes) else {
        return Err(DumpError::Bad { line: 1 });
    };
    let mut line = 2;
    let (registers, rest) = all_registers(alloc, head.mutators, line, rest)?;
    line += head.mutators;
    let (kept, rest) = all_kept(alloc, head.workers, line, rest)?;
    line += head.workers;
    let length = head.spaces.table_len() as u32;
    let (words, rest) = table(alloc, length, line, rest)?;
    if !rest.is_empty() {
        return Err(DumpError::Bad {
            line: line + length,
        });
    }
    Ok(Dump {
        pages: head.spaces.pages(),
        registers,
        kept,
        words,
    })
}

/// The dump that was printed as these bytes, all of them.
pub fn read(alloc: Global, bytes: &[u8]) -> Result<Dump, DumpError>
    // What is read is a dump that is printed so.
    ensures found { IfOk result (λ d. IsDump (dump_view d) × (bytes.now ≡ dump_text (dump_view d))) }
    // A dump that was printed is read back, unless memory runs out.
    ensures only { (d : Dumped) → IsDump d → bytes.now ≡ dump_text d → GivesReading dump_view result (Ok d) }
    // Else the first line by which the bytes differ from every dump is told.
    ensures first_wrong { IfErr result (λ e. NamesFirstWrong bytes.now e) }
{
    all(alloc, bytes)
}

/// What the first line of a dump tells, whatever stands behind it.
pub fn read_head(bytes: &[u8]) -> Option<Head>
    // What is told begins the bytes.
    ensures found { IfSome result (λ head. BeginsDump bytes.now (head_view head)) }
    // Each first line of a dump is read.
    ensures only { (counts : Counts) → BeginsDump bytes.now counts → option_map head_view result ≡ Some counts }
{
    match first_line(bytes) {
        Some((head, _)) => Some(head),
        None => None,
    }
}
