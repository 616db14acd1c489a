//! Numbers in decimal digits.

ghost use Rattle.std.specs.Prelude.{IfSome, ◌≡◌, ◌<◌, ◌^◌, option_map};
ghost use Rattle.heap_audit.specs.Texts.Pieces.{decimal_at, amount_at, mutator_at, next_amount_at};

use dump_text::{after, numeral};

/// The number at the front, which is below the limit.
#[tactic(auto, unfolding(crate::specs::Texts::Pieces::decimal_at))]
fn number(limit: u64, bytes: &[u8]) -> Option<(u64, &[u8])>
    ensures read { option_map (λ x. (x.0, x.1.now)) result ≡ decimal_at limit bytes.now }
    ensures below { IfSome result (λ x. x.0 < limit) }
{
    let (number, rest) = numeral(19, bytes)?;
    if number < limit {
        Some((number, rest))
    } else {
        None
    }
}

/// A number of pages or of words.
#[tactic(auto, unfolding(crate::specs::Texts::Pieces::amount_at))]
pub fn amount(bytes: &[u8]) -> Option<(u32, &[u8])>
    ensures { option_map (λ x. (x.0, x.1.now)) result ≡ amount_at bytes.now }
{
    let (number, rest) = number(1 << 32, bytes)?;
    Some((number as u32, rest))
}

/// A number of a mutator.
#[tactic(auto, unfolding(crate::specs::Texts::Pieces::mutator_at))]
pub fn mutator(bytes: &[u8]) -> Option<(u8, &[u8])>
    ensures { option_map (λ x. (x.0, x.1.now)) result ≡ mutator_at bytes.now }
{
    let (number, rest) = number(256, bytes)?;
    Some((number as u8, rest))
}

/// A number that a program printed.
pub fn printed(bytes: &[u8]) -> Option<(u64, &[u8])>
    ensures { option_map (λ x. (x.0, x.1.now)) result ≡ decimal_at (2 ^ 62) bytes.now }
{
    number(1 << 62, bytes)
}

/// A comma, and a number of pages or of words.
#[tactic(auto, unfolding(crate::specs::Texts::Pieces::next_amount_at))]
pub fn next(bytes: &[u8]) -> Option<(u32, &[u8])>
    ensures { option_map (λ x. (x.0, x.1.now)) result ≡ next_amount_at bytes.now }
{
    let rest = after(b',', bytes)?;
    amount(rest)
}
