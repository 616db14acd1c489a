//! The lines of the checkpoint.
//!
//! Where memory is out, nothing is said of what `out` then has.

ghost use Rattle.std.specs.Prelude.{◌≡◌, ◌+◌, ◌^◌, ◌<◌, ◌++◌, OnOk, string_bytes};
ghost use Rattle.space_map.specs.Spaces.{board_page, first_word};
ghost use Rattle.plain_heap.specs.Checkpoints.Checkpoint.{board_line, identity_text, kind_text, number_line, record_line, value_text, values_text};
ghost use Rattle.checkpoint_text.specs.Records.{content_of, kind_with, values_read};
ghost use Rattle.checkpoint_text.specs.Words.{saved_heap};

use crate::saved_record::SavedRecord;
use crate::saved_words::SavedWords;
use heap_words::Kind;
use plain_state::{BOARD_WORDS, Identity, NoMemory, Value};

fn push_identity(out: &mut String, identity: Identity) -> Result<(), NoMemory>
    ensures { OnOk result (string_bytes out.new ≡ string_bytes out.old ++ identity_text identity) }
{
    write!(out, "{}.{}", identity.mutator, identity.serial)?;
    Ok(())
}

fn push_value(out: &mut String, value: Value) -> Result<(), NoMemory>
    ensures { OnOk result (string_bytes out.new ≡ string_bytes out.old ++ value_text value) }
{
    match value {
        Value::Number(number) => {
            write!(out, "{number}")?;
            Ok(())
        }
        Value::Reference(identity) => push_identity(out, identity),
    }
}

/// So many values from an address on, each after a space: the first ones as words denote them in fields,
/// the others as numbers.
fn push_values(
    out: &mut String,
    words: &SavedWords,
    first: u64,
    fields: u64,
    count: u64,
) -> Result<(), NoMemory>
    requires { first + count < 2 ^ 64 }
    ensures { OnOk result (string_bytes out.new ≡ string_bytes out.old ++ values_text (values_read (saved_heap words.now) first fields count)) }
{
    for x in 0..count {
        out.push(' ')?;
        push_value(out, words.value(first + x, x, fields))?;
    }
    Ok(())
}

/// A kind, with the number of fields of a mixed record.
fn push_kind(out: &mut String, kind: Kind, fields: u64) -> Result<(), NoMemory>
    ensures { OnOk result (string_bytes out.new ≡ string_bytes out.old ++ kind_text (kind_with kind fields)) }
{
    match kind {
        Kind::Fields => out.push_str("fields")?,
        Kind::Raw => out.push_str("raw")?,
        Kind::Mixed => write!(out, "mixed {fields}")?,
        Kind::Weak => out.push_str("weak")?,
    }
    Ok(())
}

/// The line that begins a checkpoint, with its number.
pub fn push_first_line(out: &mut String, number: u64) -> Result<(), NoMemory>
    ensures { OnOk result (string_bytes out.new ≡ string_bytes out.old ++ number_line number) }
{
    writeln!(out, "checkpoint {number}")?;
    Ok(())
}

/// The line of the board.
pub fn push_board(out: &mut String, words: &SavedWords) -> Result<(), NoMemory>
    ensures { OnOk result (string_bytes out.new ≡ string_bytes out.old ++ board_line (values_read (saved_heap words.now) (first_word (board_page words.now.spaces.pages)) 16 16)) }
{
    let len = BOARD_WORDS as u64;
    out.push_str("board")?;
    push_values(out, words, words.board(), len, len)?;
    out.push('\n')?;
    Ok(())
}

/// The line of a record.
pub fn push_record(out: &mut String, words: &SavedWords, saved: SavedRecord) -> Result<(), NoMemory>
    ensures { OnOk result (string_bytes out.new ≡ string_bytes out.old ++ record_line (content_of (saved_heap words.now) saved)) }
{
    push_identity(out, saved.identity)?;
    out.push(' ')?;
    push_kind(out, saved.kind, saved.fields)?;
    write!(out, " {}:", saved.len)?;
    push_values(
        out,
        words,
        saved.first_value(),
        saved.denoted_count(),
        u64::from(saved.len),
    )?;
    out.push('\n')?;
    Ok(())
}
