//! The tokens of a line, and what one token says.

ghost use Rattle.std.specs.Prelude.{◌≡◌, ◌==◌, IsTrue, OnOk, map};
ghost use Rattle.std.specs.List.{list_all, position, before_first};
ghost use Rattle.std.specs.Char.{is_ascii_digit};
ghost use Rattle.mutator_asm.specs.Token.{is_blank, is_semicolon, tokens_of, begins_name, is_in_name, is_name, label_of, register_of, number_of, operand_of, number_or};
ghost use Rattle.program_text.specs.Read.{label_view};

use mutator_asm::{Mistake, Operand};
use plain_state::NUMBERS;
use std::alloc::AllocError;

/// The numbers of the language are below this one.
const NUMBERS_END: u128 = NUMBERS as u128;

/// Whether a byte stands between tokens.
fn is_blank(b: u8) -> bool
    ensures { result ≡ is_blank b }
{
    b == b' ' || b == b'\t' || b == b'\r'
}

/// Where a comment starts.
fn comment_at(line: &[u8]) -> Option<usize>
    ensures { result ≡ position is_semicolon line.now }
{
    line.iter().position(|b| *b == b';')
}

/// A line without its comment.
fn before_comment(line: &[u8]) -> &[u8]
    ensures { result.now ≡ before_first is_semicolon line.now }
{
    match comment_at(line) {
        Some(at) => &line[..at],
        None => line,
    }
}

/// Puts the tokens of a line into a list, in place of what is in it.
#[tactic(auto, unfolding(mutator_asm::specs::Token::tokens_of))]
pub fn put_tokens<'a>(tokens: &mut Vec<&'a [u8]>, line: &'a [u8]) -> Result<(), AllocError>
    ensures { OnOk result (map (λ t. t.now) tokens.new.items ≡ tokens_of line.now) }
{
    tokens.clear();
    tokens.extend(
        before_comment(line)
            .split(|b| is_blank(*b))
            .filter(|token| !token.is_empty()),
    )
}

/// Whether a name may begin with a byte.
fn begins_name(b: u8) -> bool
    ensures { result ≡ begins_name b }
{
    b.is_ascii_alphabetic() || b == b'_'
}

/// Whether a byte may stand in a name.
fn is_in_name(b: u8) -> bool
    ensures { result ≡ is_in_name b }
{
    b.is_ascii_alphanumeric() || b == b'_'
}

/// Whether each byte may stand in a name.
fn are_in_name(token: &[u8]) -> bool
    ensures { result ≡ list_all is_in_name token.now }
{
    token.iter().all(|b| is_in_name(*b))
}

/// Whether a token is a name.
pub fn is_name(token: &[u8]) -> bool
    ensures { result ≡ is_name token.now }
{
    match token.first() {
        Some(first) => begins_name(*first) && are_in_name(token),
        None => false,
    }
}

/// The name before a colon that ends a token.
#[tactic(auto, unfolding(mutator_asm::specs::Token::label_of))]
pub fn label(token: &[u8]) -> Option<&[u8]>
    ensures { label_view result ≡ label_of token.now }
{
    match token.split_last() {
        Some((b':', name)) if is_name(name) => Some(name),
        _ => None,
    }
}

/// The register that a token names.
#[tactic(auto, unfolding(mutator_asm::specs::Token::register_of))]
pub fn register(token: &[u8]) -> Result<u8, Mistake>
    ensures { result ≡ register_of token.now }
{
    match token {
        [b'r', digit @ b'0'..=b'7'] => Ok(*digit - b'0'),
        _ => Err(Mistake::BadOperand),
    }
}

/// Whether each byte is a decimal digit.
fn are_digits(token: &[u8]) -> bool
    ensures { result ≡ list_all is_ascii_digit token.now }
{
    token.iter().all(|b| b.is_ascii_digit())
}

/// The number that digits write, where it is one of the language.
fn value(digits: &[u8]) -> Result<u64, Mistake>
    requires { IsTrue (list_all is_ascii_digit digits.now) }
    ensures { result ≡ number_or digits.now }
{
    let mut number: u64 = 0;
    for digit in digits {
        let longer = u128::from(number) * 10 + u128::from(*digit - b'0');
        if longer >= NUMBERS_END {
            return Err(Mistake::NumberTooBig);
        }
        number = longer as u64;
    }
    Ok(number)
}

/// The number that a token writes.
#[tactic(auto, unfolding(mutator_asm::specs::Token::number_of))]
pub fn number(token: &[u8]) -> Result<u64, Mistake>
    ensures { result ≡ number_of token.now }
{
    if token.is_empty() {
        return Err(Mistake::BadOperand);
    }
    if !are_digits(token) {
        return Err(Mistake::BadOperand);
    }
    value(token)
}

/// The register or the number that a token is.
pub fn operand(token: &[u8]) -> Result<Operand, Mistake>
    ensures { result ≡ operand_of token.now }
{
    match register(token) {
        Ok(register) => Ok(Operand::Reg(register)),
        Err(_) => number(token).map(Operand::Number),
    }
}
