//! What is printed of the mutators of a run, and how it went by their ends.

ghost use Rattle.std.specs.Prelude.{◌≡◌, ◌++◌, OnOk, string_bytes};
ghost use Rattle.std.specs.List.{AllByRecursion, list_all};
ghost use Rattle.plain_heap.specs.Print.{lines_seen, printed_lines};
ghost use Rattle.heap_audit.specs.Texts.Ends.{EndFits};
ghost use Rattle.ael_jobs.specs.Runs.Run.{HasFitEnd};
ghost use Rattle.ael_jobs.specs.Runs.Verdict.{is_halt, has_halted, status_seen};

use crate::runs::report::Report;
use crate::status::Status;
use plain_heap::{End, NoMemory};
use plain_machine::push_lines;

/// Adds the lines of a mutator.
fn push_mutator(
    output: &mut String,
    m: u8,
    printed: &[u64],
    end: Option<End>,
) -> Result<(), NoMemory>
    ensures lines { OnOk result (string_bytes output.new ≡ string_bytes output.old ++ printed_lines m printed.now end) }
    ensures end { EndFits end }
{
    push_lines(output, m as usize, printed, end)
}

/// Adds the lines of all mutators.
pub fn push_mutators<H: Report>(output: &mut String, heap: &H) -> Result<(), NoMemory>
    ensures lines { OnOk result (string_bytes output.new ≡ string_bytes output.old ++ lines_seen 0 (H.told heap.now).seen) }
    ensures ends { OnOk result (AllByRecursion HasFitEnd (H.told heap.now).seen) }
{
    for m in 0..heap.mutators() {
        push_mutator(output, m, heap.printed(m), heap.end(m))?;
    }
    Ok(())
}

/// Whether the end is there and is `halt`.
fn is_halt(end: Option<End>) -> bool
    ensures { result ≡ is_halt end }
{
    match end {
        Some(End::Halt) => true,
        Some(_) | None => false,
    }
}

/// Whether every mutator made `halt`.
fn all_halted<H: Report>(heap: &H) -> bool
    ensures { result ≡ list_all has_halted (H.told heap.now).seen }
{
    for m in 0..heap.mutators() {
        if !is_halt(heap.end(m)) {
            return false;
        }
    }
    true
}

/// How a run went, by the ends of its mutators.
pub fn verdict<H: Report>(heap: &H) -> Status
    ensures { result ≡ status_seen (H.told heap.now).seen }
{
    if !heap.all_ended() {
        Status::StepsOut
    } else if all_halted(heap) {
        Status::Done
    } else {
        Status::Ended
    }
}
