//! The lines of the flags.

ghost use Rattle.std.specs.Prelude.{◌≡◌, ◌++◌, ℕ, List, [], OnOk, true, if◌then◌else◌, string_bytes};
ghost use Rattle.plain_heap.specs.Print.{order_line};
ghost use Rattle.dump_text.specs.Text.{dump_text};
ghost use Rattle.ael_jobs.specs.Runs.Told.{AreLinesIf, TellsWords, cycles_line, heap_lines, live_text};

use crate::arguments::options::RunOptions;
use crate::runs::dump::push_dump;
use crate::runs::report::Report;
use plain_heap::{Mark, NoMemory};
use plain_machine::push_order;

/// Adds the line of the order, where it is asked for.
pub fn push_order_if(out: &mut String, flag: bool, order: &[Mark]) -> Result<(), NoMemory>
    ensures { OnOk result (string_bytes out.new ≡ string_bytes out.old ++ (if flag then order_line order.now else [])) }
{
    if flag {
        push_order(out, order)?;
    }
    Ok(())
}

/// Adds how many words were copied since the spaces were last exchanged, where all are, and `-` else.
fn push_live(out: &mut String, live: Option<u64>) -> Result<(), NoMemory>
    ensures { OnOk result (string_bytes out.new ≡ string_bytes out.old ++ live_text live) }
{
    match live {
        Some(live) => write!(out, "{live}")?,
        None => out.push('-')?,
    }
    Ok(())
}

/// Adds how often the spaces were exchanged and the words that were copied since.
fn push_cycles<H: Report>(out: &mut String, heap: &H) -> Result<(), NoMemory>
    ensures { OnOk result (string_bytes out.new ≡ string_bytes out.old ++ cycles_line (H.told heap.now)) }
{
    write!(out, "cycles {} live ", heap.cycles())?;
    push_live(out, heap.live_words())?;
    out.push('\n')?;
    Ok(())
}

/// Adds the line of the cycles, where it is asked for.
fn push_cycles_if<H: Report>(out: &mut String, flag: bool, heap: &H) -> Result<(), NoMemory>
    ensures { OnOk result (string_bytes out.new ≡ string_bytes out.old ++ (if flag then cycles_line (H.told heap.now) else [])) }
{
    if flag {
        push_cycles(out, heap)?;
    }
    Ok(())
}

/// Adds the lines of the last checkpoint, where they are asked for.
fn push_checkpoint_if<H: Report>(out: &mut String, flag: bool, heap: &H) -> Result<(), NoMemory>
    ensures { OnOk result ((bytes : List ℕ) × AreLinesIf flag (H.told heap.now).words bytes × (string_bytes out.new ≡ string_bytes out.old ++ bytes)) }
{
    if flag {
        heap.push_checkpoint(out)?;
    }
    Ok(())
}

/// Adds the dump, where it is asked for.
fn push_dump_if<H: Report>(out: &mut String, flag: bool, heap: &H) -> Result<(), NoMemory>
    ensures text { OnOk result (string_bytes out.new ≡ string_bytes out.old ++ (if flag then dump_text (H.told heap.now).dump else [])) }
    ensures words { OnOk result (flag ≡ true → TellsWords (H.told heap.now).dump) }
{
    if flag {
        push_dump(out, heap)?;
    }
    Ok(())
}

/// Adds what is asked for of the heap.
pub fn push_heap<H: Report>(out: &mut String, options: RunOptions, heap: &H) -> Result<(), NoMemory>
    ensures text { OnOk result ((checkpoint : List ℕ) × AreLinesIf options.snap (H.told heap.now).words checkpoint
        × (string_bytes out.new ≡ string_bytes out.old ++ heap_lines options (H.told heap.now) checkpoint)) }
    ensures words { OnOk result (options.dump ≡ true → TellsWords (H.told heap.now).dump) }
{
    push_cycles_if(out, options.cycles, heap)?;
    push_checkpoint_if(out, options.snap, heap)?;
    push_dump_if(out, options.dump, heap)
}
