//! The text of a dump.

ghost use Rattle.std.specs.Prelude.{◌≡◌, ◌++◌, OnOk, string_bytes};
ghost use Rattle.std.specs.List.{AllByRecursion, flat_map};
ghost use Rattle.dump_text.specs.Text.{AreKept, AreRegisters, IsWord, dump_head, dump_text, kept_line, table_lines, word_text, words_line};
ghost use Rattle.ael_jobs.specs.Runs.Told.{TellsWords};

use crate::runs::report::Report;
use plain_heap::NoMemory;

/// Adds the first line: how many pages a space has, how many mutators there are, and how many
/// workers.
fn push_head(out: &mut String, pages: u32, mutators: u8, workers: u8) -> Result<(), NoMemory>
    ensures { OnOk result (string_bytes out.new ≡ string_bytes out.old ++ dump_head pages mutators workers) }
{
    writeln!(out, "dump {pages} {mutators} {workers}")?;
    Ok(())
}

/// Adds a word by its 16 hexadecimal digits.
#[tactic(auto, using(crate::proofs::Printed::Hex::hex_word))]
fn push_word(out: &mut String, word: u64) -> Result<(), NoMemory>
    ensures text { OnOk result (string_bytes out.new ≡ string_bytes out.old ++ word_text word) }
    ensures word { IsWord word }
{
    write!(out, "{word:016x}")?;
    Ok(())
}

/// Adds a line of words.
fn push_words(out: &mut String, words: &[u64]) -> Result<(), NoMemory>
    ensures text { OnOk result (string_bytes out.new ≡ string_bytes out.old ++ words_line words.now) }
    ensures words { AllByRecursion IsWord words.now }
{
    if let Some((first, rest)) = words.split_first() {
        push_word(out, *first)?;
        for word in rest {
            out.push(' ')?;
            push_word(out, *word)?;
        }
    }
    out.push('\n')?;
    Ok(())
}

/// Adds the registers of each mutator.
fn push_registers<H: Report>(out: &mut String, heap: &H) -> Result<(), NoMemory>
    ensures text { OnOk result (string_bytes out.new ≡ string_bytes out.old ++ flat_map words_line (H.told heap.now).dump.registers) }
    ensures words { OnOk result (AllByRecursion AreRegisters (H.told heap.now).dump.registers) }
{
    for m in 0..heap.mutators() {
        push_words(out, &heap.registers(m))?;
    }
    Ok(())
}

/// Adds what each worker keeps.
fn push_kept<H: Report>(out: &mut String, heap: &H) -> Result<(), NoMemory>
    ensures text { OnOk result (string_bytes out.new ≡ string_bytes out.old ++ flat_map kept_line (H.told heap.now).dump.kept) }
    ensures words { OnOk result (AllByRecursion AreKept (H.told heap.now).dump.kept) }
{
    for w in 0..heap.workers() {
        let (header, place) = heap.kept(w);
        push_words(out, &[header, place])?;
    }
    Ok(())
}

/// Adds the words of the table, a line each.
fn push_table<H: Report>(out: &mut String, heap: &H) -> Result<(), NoMemory>
    ensures text { OnOk result (string_bytes out.new ≡ string_bytes out.old ++ table_lines (H.told heap.now).dump.words) }
    ensures words { OnOk result (AllByRecursion IsWord (H.told heap.now).dump.words) }
{
    for place in 0..heap.places() {
        push_word(out, heap.word(place))?;
        out.push('\n')?;
    }
    Ok(())
}

/// Adds the dump of a heap.
pub fn push_dump<H: Report>(out: &mut String, heap: &H) -> Result<(), NoMemory>
    ensures text { OnOk result (string_bytes out.new ≡ string_bytes out.old ++ dump_text (H.told heap.now).dump) }
    ensures words { OnOk result (TellsWords (H.told heap.now).dump) }
{
    push_head(out, heap.pages(), heap.mutators(), heap.workers())?;
    push_registers(out, heap)?;
    push_kept(out, heap)?;
    push_table(out, heap)
}
