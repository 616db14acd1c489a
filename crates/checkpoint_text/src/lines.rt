//! The text of the last checkpoint.

ghost use Rattle.std.specs.Prelude.{IfOk, OnOk, string_bytes};
ghost use Rattle.checkpoint_text.specs.Text.{AddsLinesOf, AreLinesOf};

use crate::printing::{push_board, push_first_line, push_record};
use crate::saved_words::SavedWords;
use crate::visiting::listed;
use plain_state::NoMemory;
use std::alloc::Global;

/// The lines of the last checkpoint that the words of a table say: its number, its board, and each record to which the board
/// leads, as they were when it was begun. There are none if the table has no room for checkpoints.
pub fn checkpoint(alloc: Global, words: &[u64]) -> Result<Vec<u8>, NoMemory>
    ensures { IfOk result (λ bytes. AreLinesOf words.now bytes.items) }
{
    let mut out = String::new(alloc);
    push_checkpoint(&mut out, words)?;
    Ok(out.into_bytes())
}

/// Adds these lines.
///
/// Where memory is out, nothing is said of what `out` then has.
pub fn push_checkpoint(out: &mut String, words: &[u64]) -> Result<(), NoMemory>
    ensures { OnOk result (AddsLinesOf words.now (string_bytes out.old) (string_bytes out.new)) }
{
    match SavedWords::of(words) {
        Some(words) => push_lines(out, &words),
        None => Ok(()),
    }
}

/// Adds the lines of the last checkpoint. Before the first one there is one line, with the number 0.
fn push_lines(out: &mut String, words: &SavedWords) -> Result<(), NoMemory>
    ensures { OnOk result (AddsLinesOf words.now.words.now (string_bytes out.old) (string_bytes out.new)) }
{
    push_first_line(out, words.number())?;
    if words.number() == 0 {
        return Ok(());
    }
    push_board(out, words)?;
    let records = listed(*out.allocator(), words)?;
    for record in &records {
        push_record(out, words, *record)?;
    }
    Ok(())
}
