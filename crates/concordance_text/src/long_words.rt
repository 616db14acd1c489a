//! Words that are too long.

ghost use Rattle.std.specs.Prelude.{◌≡◌, ◌≤◌, ◌<◌, ◌^◌, ◌↔◌, ℕ, Some, None, IfSome, length};
ghost use Rattle.std.specs.List.{position_from};
ghost use Rattle.concordance_text.specs.Words.{HasShortWords, IsFirstTooLong, has_long_word, lines_of};

use crate::letters::{MOST_LETTERS, separates};

/// The number of the first line that has a word of more than 64 letters. It takes no memory.
pub fn first_too_long(text: &[u8]) -> Option<u32>
    requires short { length text.now < 2 ^ 31 }
    ensures exactly { (line : ℕ) → (result ≡ Some line) ↔ IsFirstTooLong text.now line }
    ensures none { result ≡ None → HasShortWords text.now }
{
    let place = first_place(text)?;
    Some(place as u32 + 1)
}

/// How many lines stand before the first that has a word of more than 64 letters.
fn first_place(text: &[u8]) -> Option<usize>
    ensures first { result ≡ position_from has_long_word 0 (lines_of text.now) }
    ensures within { IfSome result (λ place. place ≤ length text.now) }
{
    text.split(|byte| *byte == b'\n')
        .position(|line| has_long_word(line))
}

/// Whether a line has a word of more than 64 letters.
fn has_long_word(line: &[u8]) -> bool
    ensures { result ≡ has_long_word line.now }
{
    line.split(|byte| separates(*byte))
        .any(|word| word.len() > MOST_LETTERS)
}
