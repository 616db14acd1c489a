//! The first line of a dump.

ghost use Rattle.std.specs.Prelude.{IfSome, ◌≡◌, ◌<◌, ◌≤◌, ◌+◌, option_map};
ghost use Rattle.space_map.specs.declared.spaces.TheConstants.{MOST_MUTATORS, MOST_SCANNERS};
ghost use Rattle.dump_text.specs.Pieces.{number_at, keyword_at, head_at, head_view};
ghost use Rattle.dump_text.specs.Text.{are_workers};

use crate::number::numeral;
use crate::word::after;
use space_map::{MOST_MUTATORS, MOST_SCANNERS, Spaces};

/// How the spaces lie, how many mutators there are, and how many workers.
#[derive(Clone, Copy)]
pub struct Head {
    pub spaces: Spaces,
    pub mutators: u32,
    pub workers: u32,
}

/// Whether so many of the workers may be mutators.
fn are_workers(mutators: u32, workers: u32) -> bool
    ensures { result ≡ are_workers mutators workers }
{
    1 <= mutators
        && mutators <= MOST_MUTATORS
        && mutators <= workers
        && workers <= mutators + MOST_SCANNERS
}

/// The number at the front, in one to four digits that do not begin with 0, where the byte that is wanted stands behind it.
#[tactic(auto, unfolding(crate::specs::Pieces::number_at))]
fn number(wanted: u8, bytes: &[u8]) -> Option<(u32, &[u8])>
    ensures { option_map (λ x. (x.0, x.1.now)) result ≡ number_at wanted bytes.now }
{
    let (number, rest) = numeral(4, bytes)?;
    if number == 0 {
        return None;
    }
    let rest = after(wanted, rest)?;
    Some((number as u32, rest))
}

/// What stands behind the word `dump` and a space.
fn keyword(bytes: &[u8]) -> Option<&[u8]>
    ensures { option_map (λ x. x.now) result ≡ keyword_at bytes.now }
{
    match bytes {
        [b'd', b'u', b'm', b'p', b' ', rest @ ..] => Some(rest),
        _ => None,
    }
}

/// The first line.
#[tactic(auto, unfolding(crate::specs::Pieces::head_at))]
pub fn first_line(bytes: &[u8]) -> Option<(Head, &[u8])>
    ensures read { option_map (λ x. (head_view x.0, x.1.now)) result ≡ head_at bytes.now }
    ensures mutators { IfSome result (λ x. x.0.mutators ≤ MOST_MUTATORS) }
    ensures workers { IfSome result (λ x. x.0.workers ≤ MOST_MUTATORS + MOST_SCANNERS) }
{
    let rest = keyword(bytes)?;
    let (pages, rest) = number(b' ', rest)?;
    let (mutators, rest) = number(b' ', rest)?;
    let (workers, rest) = number(b'\n', rest)?;
    let spaces = Spaces::new(pages).ok()?;
    if !are_workers(mutators, workers) {
        return None;
    }
    Some((
        Head {
            spaces,
            mutators,
            workers,
        },
        rest,
    ))
}
