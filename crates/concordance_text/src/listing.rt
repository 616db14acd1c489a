//! How a concordance is told.

ghost use Rattle.std.specs.Prelude.{◌≡◌, ◌++◌, List, ℕ, IfOk, OnOk, codes, decimal, flat_map};
ghost use Rattle.std.specs.List.{join_by};
ghost use Rattle.concordance_text.specs.Words.{mentions_of};
ghost use Rattle.concordance_text.specs.Rows.{AreInOrder, AreRowsOf, IsConcordanceOf, row, row_text, rows_of, with_lines};

use itoa::Buffer;
use std::alloc::{AllocError, Global};
use std::collections::BTreeMap;

/// The words of a text in the order of bytes, each with its lines.
pub type WordMap = BTreeMap<Vec<u8>, Vec<u32>>;

/// Adds lines of a word, behind those that it has.
///
/// Where memory is out, nothing is said of what `words` then has.
pub fn add_lines(words: &mut WordMap, word: Vec<u8>, lines: Vec<u32>) -> Result<(), AllocError>
    ensures { OnOk result (rows_of words.new ≡ with_lines word.items lines.items (rows_of words.old)) }
{
    match words.get_mut(word.as_slice()) {
        Some(before) => {
            let mut more = lines;
            before.append(&mut more)?;
        }
        None => {
            words.insert(word, lines)?;
        }
    }
    Ok(())
}

/// The text of a concordance: a line for each word, with the numbers of the lines in which it stands.
pub fn told(alloc: Global, words: &WordMap) -> Result<Vec<u8>, AllocError>
    ensures rows { IfOk result (λ told. told.items ≡ flat_map row_text (rows_of words.now)) }
    ensures concordance { IfOk result (λ told. (text : List ℕ) → AreRowsOf (mentions_of text) (rows_of words.now) → IsConcordanceOf text told.items) }
    ensures ordered { AreInOrder (rows_of words.now) }
{
    let mut text = Vec::new(alloc);
    for (word, lines) in words.iter() {
        push_row(&mut text, word.as_slice(), lines.as_slice())?;
    }
    Ok(text)
}

fn push_row(text: &mut Vec<u8>, word: &[u8], lines: &[u32]) -> Result<(), AllocError>
    ensures { OnOk result (text.new.items ≡ text.old.items ++ row_text (row word.now lines.now)) }
{
    text.extend_from_slice(word)?;
    text.extend_from_slice(b": ")?;
    push_lines(text, lines)?;
    text.extend_from_slice(b"\n")
}

fn push_lines(text: &mut Vec<u8>, lines: &[u32]) -> Result<(), AllocError>
    ensures { OnOk result (text.new.items ≡ text.old.items ++ join_by decimal (codes ", ") lines.now) }
{
    if let [first, rest @ ..] = lines {
        push_number(text, *first)?;
        for line in rest {
            text.extend_from_slice(b", ")?;
            push_number(text, *line)?;
        }
    }
    Ok(())
}

fn push_number(text: &mut Vec<u8>, number: u32) -> Result<(), AllocError>
    ensures { OnOk result (text.new.items ≡ text.old.items ++ decimal number) }
{
    text.extend_from_slice(Buffer::new().format(number).as_bytes())
}
