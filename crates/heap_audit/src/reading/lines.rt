//! The lines of mutators.

ghost use Rattle.std.specs.Prelude.{◌≡◌, ◌<◌, ◌+◌, ◌^◌, ◌++◌, ℕ, List, IfErr, IfOk, map, option_map};
ghost use Rattle.plain_heap.specs.Print.{Seen, lines_seen, printed_lines};
ghost use Rattle.heap_audit.specs.Texts.FirstWrong.{NamesWrong};
ghost use Rattle.heap_audit.specs.Texts.Lines.{named_at, printed_at, ended_at, SeenFits, AreSeen, line_count, seen_by, seen_text};
ghost use Rattle.heap_audit.specs.Texts.Order.{ReadsAs};

use crate::reading::ends::end;
use crate::reading::number::{mutator, printed};
use crate::reading::reading_error::ReadingError;
use dump_text::after;
use plain_state::{End, MOST_PRINTED};
use std::alloc::Global;

/// What is seen of a mutator: the numbers that it printed, and its end.
#[derive(Debug, Drop)]
pub struct MutatorLines {
    pub printed: Vec<u64>,
    pub end: Option<End>,
}

/// What stands behind the number of mutator m, a colon and a space.
#[tactic(auto, unfolding(crate::specs::Texts::Lines::named_at))]
fn named(m: u8, bytes: &[u8]) -> Option<&[u8]>
    ensures { option_map (λ x. x.now) result ≡ named_at m bytes.now }
{
    let (number, rest) = mutator(bytes)?;
    if number != m {
        return None;
    }
    let rest = after(b':', rest)?;
    after(b' ', rest)
}

/// A line of a number that mutator m printed.
#[tactic(auto, unfolding(crate::specs::Texts::Lines::printed_at))]
fn printed_line(m: u8, bytes: &[u8]) -> Option<(u64, &[u8])>
    ensures { option_map (λ x. (x.0, x.1.now)) result ≡ printed_at m bytes.now }
{
    let text = named(m, bytes)?;
    let (number, rest) = printed(text)?;
    let behind = after(b'\n', rest)?;
    Some((number, behind))
}

/// The line of the end of mutator m.
#[tactic(auto, unfolding(crate::specs::Texts::Lines::ended_at))]
fn ended_line(m: u8, bytes: &[u8]) -> Option<(Option<End>, &[u8])>
    ensures { option_map (λ x. (x.0, x.1.now)) result ≡ ended_at m bytes.now }
{
    let text = named(m, bytes)?;
    let (end, rest) = end(text)?;
    let behind = after(b'\n', rest)?;
    Some((end, behind))
}

/// The lines of mutator m with which the bytes begin, and the bytes behind them. So many lines stand before them.
fn read_mutator(
    alloc: Global,
    m: u8,
    before: usize,
    bytes: &[u8],
) -> Result<(MutatorLines, &[u8]), ReadingError>
    requires { before < 2 ^ 32 }
    // The lines are those of what is seen.
    ensures found { IfOk result (λ x. SeenFits (seen_by x.0) × (bytes.now ≡ printed_lines m x.0.printed.items x.0.end ++ x.1.now)) }
    // Bytes that begin with a mutator's lines are read as what is seen there, unless memory runs out.
    ensures only { (seen : Seen) (rest : List ℕ) → SeenFits seen → bytes.now ≡ printed_lines m seen.printed seen.end ++ rest → ReadsAs {Y = Seen × List ℕ} (λ x. (seen_by x.0, x.1.now)) result (seen, rest) }
    // Else the first wrong line is told.
    ensures first_wrong { IfErr result (NamesWrong (seen_text m) SeenFits bytes.now before) }
{
    let mut printed = Vec::new(alloc);
    let mut rest = bytes;
    while let Some(read) = printed_line(m, rest) {
        if printed.len() == MOST_PRINTED {
            return Err(ReadingError::Bad {
                line: before + MOST_PRINTED + 1,
            });
        }
        let (number, behind) = read;
        printed.push(number)?;
        rest = behind;
    }
    let Some(read) = ended_line(m, rest) else {
        return Err(ReadingError::Bad {
            line: before + printed.len() + 1,
        });
    };
    let (end, behind) = read;
    Ok((MutatorLines { printed, end }, behind))
}

/// The lines of so many mutators with which the bytes begin, how many these are, and the bytes behind them.
pub fn read_lines(
    alloc: Global,
    mutators: u8,
    bytes: &[u8],
) -> Result<(Vec<MutatorLines>, usize, &[u8]), ReadingError>
    // The lines are those of what is seen.
    ensures found { IfOk result (λ x. AreSeen mutators (map seen_by x.0.items) × (bytes.now ≡ lines_seen 0 (map seen_by x.0.items) ++ x.2.now)) }
    ensures counted { IfOk result (λ x. x.1 ≡ line_count (map seen_by x.0.items)) }
    ensures few { IfOk result (λ x. x.1 < 2 ^ 31) }
    // Bytes that begin with the lines of so many mutators are read as what is seen there, unless memory runs out.
    ensures only { (all : List Seen) (rest : List ℕ) → AreSeen mutators all → bytes.now ≡ lines_seen 0 all ++ rest → ReadsAs {Y = List Seen × List ℕ} (λ x. (map seen_by x.0.items, x.2.now)) result (all, rest) }
    // Else the first wrong line is told.
    ensures first_wrong { IfErr result (NamesWrong (lines_seen 0) (AreSeen mutators) bytes.now 0) }
{
    let mut all = Vec::new(alloc);
    let mut count = 0;
    let mut rest = bytes;
    for m in 0..mutators {
        let (lines, behind) = read_mutator(alloc, m, count, rest)?;
        count += lines.printed.len() + 1;
        all.push(lines)?;
        rest = behind;
    }
    Ok((all, count, rest))
}
