//! The marks of an order.

ghost use Rattle.std.specs.Prelude.{◌≡◌, option_map};
ghost use Rattle.heap_audit.specs.Texts.Pieces.{step_mark_at, flip_mark_at, full_mark_at, traced_mark_at, mark_at};

use crate::reading::number::{amount, mutator, next};
use dump_text::after;
use plain_heap::Mark;

#[tactic(auto, unfolding(crate::specs::Texts::Pieces::step_mark_at))]
fn step(bytes: &[u8]) -> Option<(Mark, &[u8])>
    ensures { option_map (λ x. (x.0, x.1.now)) result ≡ step_mark_at bytes.now }
{
    let (m, rest) = mutator(bytes)?;
    Some((Mark::Step(m), rest))
}

/// What stands behind the `F` of a flip.
#[tactic(auto, unfolding(crate::specs::Texts::Pieces::flip_mark_at))]
fn flip(bytes: &[u8]) -> Option<(Mark, &[u8])>
    ensures { option_map (λ x. (x.0, x.1.now)) result ≡ flip_mark_at bytes.now }
{
    let (asked, rest) = amount(bytes)?;
    Some((Mark::Flip(asked), rest))
}

/// What stands behind the `X` of a heap that is full.
#[tactic(auto, unfolding(crate::specs::Texts::Pieces::full_mark_at))]
fn full(bytes: &[u8]) -> Option<(Mark, &[u8])>
    ensures { option_map (λ x. (x.0, x.1.now)) result ≡ full_mark_at bytes.now }
{
    let (m, rest) = mutator(bytes)?;
    let (asked, rest) = next(rest)?;
    let (room, rest) = next(rest)?;
    let (live, rest) = next(rest)?;
    let mark = Mark::Full {
        m,
        asked,
        room,
        live,
    };
    Some((mark, rest))
}

/// What stands behind the `T` of an epoch that is traced.
#[tactic(auto, unfolding(crate::specs::Texts::Pieces::traced_mark_at))]
fn traced(bytes: &[u8]) -> Option<(Mark, &[u8])>
    ensures { option_map (λ x. (x.0, x.1.now)) result ≡ traced_mark_at bytes.now }
{
    Some((Mark::Traced, bytes))
}

/// The mark at the front.
#[tactic(auto, unfolding(crate::specs::Texts::Pieces::mark_at))]
pub fn mark(bytes: &[u8]) -> Option<(Mark, &[u8])>
    ensures { option_map (λ x. (x.0, x.1.now)) result ≡ mark_at bytes.now }
{
    if let Some(rest) = after(b'F', bytes) {
        return flip(rest);
    }
    if let Some(rest) = after(b'X', bytes) {
        return full(rest);
    }
    if let Some(rest) = after(b'T', bytes) {
        return traced(rest);
    }
    step(bytes)
}
