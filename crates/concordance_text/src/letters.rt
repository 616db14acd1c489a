//! The letters of a word.

ghost use Rattle.std.specs.Prelude.{◌≡◌, ◌≤◌, length};
ghost use Rattle.concordance_text.specs.Words.{lower_cased, separates};

use arrayvec::ArrayVec;

/// The most letters that a word may have.
pub const MOST_LETTERS: usize = 64;

/// The letters of a word.
pub type Letters = ArrayVec<u8, MOST_LETTERS>;

/// Whether a byte separates words.
pub fn separates(byte: u8) -> bool
    ensures { result ≡ separates byte }
{
    !byte.is_ascii_alphabetic()
}

/// A word in lower-case letters.
pub fn lower_cased(word: &[u8]) -> Letters
    requires short { length word.now ≤ MOST_LETTERS }
    ensures { result.items ≡ lower_cased word.now }
{
    let mut letters = Letters::new();
    for letter in word {
        letters.push(letter.to_ascii_lowercase());
    }
    letters
}
