//! The words of a dump, each by its 16 hexadecimal digits, and what stands behind one.

ghost use Rattle.std.specs.Prelude.{◌≡◌, IsTrue, length, option_map};
ghost use Rattle.std.specs.Char.{digit_value};
ghost use Rattle.std.specs.List.{list_all};
ghost use Rattle.std.specs.Str.Parse.{digits_value};
ghost use Rattle.dump_text.specs.Pieces.{is_hex, byte_at, behind, word_at, cell_at, registers_at, kept_read_at, kept_view};

use crate::kept::Kept;
use plain_state::REGISTERS;

/// Whether a byte is a digit of a word.
fn is_hex(b: u8) -> bool
    ensures { result ≡ is_hex b }
{
    (b'0' <= b && b <= b'9') || (b'a' <= b && b <= b'f')
}

/// Whether each byte is a digit of a word.
fn are_hex(bytes: &[u8]) -> bool
    ensures { result ≡ list_all is_hex bytes.now }
{
    bytes.iter().all(|b| is_hex(*b))
}

/// What a digit stands for.
fn digit(b: u8) -> u8
    requires { IsTrue (is_hex b) }
    ensures { result ≡ digit_value b }
{
    if b <= b'9' { b - b'0' } else { b - b'a' + 10 }
}

/// The number that 16 digits write.
fn value(digits: &[u8]) -> u64
    requires hex { IsTrue (list_all is_hex digits.now) }
    requires sixteen { length digits.now ≡ 16 }
    ensures { result ≡ digits_value 16 digits.now }
{
    let mut number: u64 = 0;
    for b in digits {
        number = number * 16 + u64::from(digit(*b));
    }
    number
}

/// The word at the front, and the bytes behind it.
#[tactic(auto, unfolding(crate::specs::Pieces::word_at))]
pub fn word(bytes: &[u8]) -> Option<(u64, &[u8])>
    ensures { option_map (λ x. (x.0, x.1.now)) result ≡ word_at bytes.now }
{
    if bytes.len() < 16 {
        return None;
    }
    let (front, rest) = bytes.split_at(16);
    if !are_hex(front) {
        return None;
    }
    Some((value(front), rest))
}

/// What stands behind a byte that is wanted.
pub fn after(wanted: u8, bytes: &[u8]) -> Option<&[u8]>
    ensures { option_map (λ x. x.now) result ≡ byte_at wanted bytes.now }
{
    match bytes {
        [first, rest @ ..] if *first == wanted => Some(rest),
        _ => None,
    }
}

/// The word at the front, where the byte that is wanted stands behind it.
#[tactic(auto, unfolding(crate::specs::Pieces::cell_at))]
pub fn cell(wanted: u8, bytes: &[u8]) -> Option<(u64, &[u8])>
    ensures { option_map (λ x. (x.0, x.1.now)) result ≡ cell_at wanted bytes.now }
{
    let (word, rest) = word(bytes)?;
    let rest = after(wanted, rest)?;
    Some((word, rest))
}

/// What stands behind a word that so many more of its line follow.
fn behind(left: usize) -> u8
    ensures { result ≡ behind left }
{
    if left == 0 { b'\n' } else { b' ' }
}

/// The line of a mutator's registers.
#[tactic(auto, unfolding(crate::specs::Pieces::registers_at))]
pub fn registers_line(bytes: &[u8]) -> Option<([u64; REGISTERS], &[u8])>
    ensures { option_map (λ x. (x.0, x.1.now)) result ≡ registers_at bytes.now }
{
    let mut registers = [0; REGISTERS];
    let mut rest = bytes;
    for i in 0..REGISTERS {
        let (word, after) = cell(behind(REGISTERS - 1 - i), rest)?;
        registers[i] = word;
        rest = after;
    }
    Some((registers, rest))
}

/// The line of what a worker keeps.
#[tactic(auto, unfolding(crate::specs::Pieces::kept_read_at))]
pub fn kept_line(bytes: &[u8]) -> Option<(Kept, &[u8])>
    ensures { option_map (λ x. (kept_view x.0, x.1.now)) result ≡ kept_read_at bytes.now }
{
    let (header, rest) = cell(b' ', bytes)?;
    let (place, rest) = cell(b'\n', rest)?;
    Some((Kept { header, place }, rest))
}
