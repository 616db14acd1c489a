//! The ends of mutators.

ghost use Rattle.std.specs.Prelude.{◌≡◌, option_map};
ghost use Rattle.heap_audit.specs.Texts.Ends.{text_at, full_end_at, end_at};

use crate::reading::number::amount;
use dump_text::after;
use plain_state::End;

/// What stands behind a text that is wanted.
fn text<'a>(wanted: &[u8], bytes: &'a [u8]) -> Option<&'a [u8]>
    ensures { option_map (λ x. x.now) result ≡ text_at wanted.now bytes.now }
{
    let mut rest = bytes;
    for b in wanted {
        rest = after(*b, rest)?;
    }
    Some(rest)
}

/// The numbers of a heap that is full.
#[tactic(auto, unfolding(crate::specs::Texts::Ends::full_end_at))]
fn full(bytes: &[u8]) -> Option<(Option<End>, &[u8])>
    ensures { option_map (λ x. (x.0, x.1.now)) result ≡ full_end_at bytes.now }
{
    let (asked, rest) = amount(bytes)?;
    let rest = text(b" room ", rest)?;
    let (room, rest) = amount(rest)?;
    let rest = text(b" live ", rest)?;
    let (live, rest) = amount(rest)?;
    let end = End::HeapFull { asked, room, live };
    Some((Some(end), rest))
}

/// The end at the front, or none where the mutator was stopped.
#[tactic(auto, unfolding(crate::specs::Texts::Ends::end_at))]
pub fn end(bytes: &[u8]) -> Option<(Option<End>, &[u8])>
    ensures { option_map (λ x. (x.0, x.1.now)) result ≡ end_at bytes.now }
{
    if let Some(rest) = text(b"stopped", bytes) {
        return Some((None, rest));
    }
    if let Some(rest) = text(b"halt", bytes) {
        return Some((Some(End::Halt), rest));
    }
    if let Some(rest) = text(b"not a pointer", bytes) {
        return Some((Some(End::NotPointer), rest));
    }
    if let Some(rest) = text(b"not a number", bytes) {
        return Some((Some(End::NotNumber), rest));
    }
    if let Some(rest) = text(b"out of range", bytes) {
        return Some((Some(End::OutOfRange), rest));
    }
    if let Some(rest) = text(b"weak cell", bytes) {
        return Some((Some(End::WeakCell), rest));
    }
    if let Some(rest) = text(b"pointer into raw", bytes) {
        return Some((Some(End::IntoRaw), rest));
    }
    if let Some(rest) = text(b"zero divisor", bytes) {
        return Some((Some(End::ZeroDivisor), rest));
    }
    if let Some(rest) = text(b"jump out", bytes) {
        return Some((Some(End::JumpOut), rest));
    }
    if let Some(rest) = text(b"turns out", bytes) {
        return Some((Some(End::TurnsOut), rest));
    }
    if let Some(rest) = text(b"output full", bytes) {
        return Some((Some(End::OutputFull), rest));
    }
    let rest = text(b"heap full asked ", bytes)?;
    full(rest)
}
