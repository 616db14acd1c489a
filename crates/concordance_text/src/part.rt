//! The parts of a text.

ghost use Rattle.std.specs.Prelude.{◌≡◌, ◌≢◌, ℕ, ◌+◌, ◌≤◌, ◌<◌, ◌/◌, ◌^◌, ◌⊎◌, [], Some, count_by, flat_map, length, slice_get, take};
ghost use Rattle.std.specs.List.{AllByRecursion};
ghost use Rattle.concordance_text.specs.Words.{ends_line, mentions_of};
ghost use Rattle.concordance_text.specs.Parts.{AreCutAtLineEnds, AreInLineOrder, EndsWithLine, IsCut, IsNumbered, bytes_of, mentions_of_part};

use arrayvec::ArrayVec;
use plain_state::MOST_MUTATORS;

/// The most parts of a text: each is a mutator's.
pub const MOST_PARTS: usize = MOST_MUTATORS;

/// The parts of a text, in order.
pub type Parts<'t> = ArrayVec<Part<'t>, MOST_PARTS>;

/// A text, cut at ends of lines into so many parts, some of which may be empty.
pub fn parts<'t>(text: &'t [u8], count: usize) -> Parts<'t>
    requires some { 0 < count }
    requires few { count ≤ MOST_PARTS }
    requires short { length text.now < 2 ^ 31 }
    ensures count { length result.items ≡ count }
    ensures bytes { flat_map bytes_of result.items ≡ text.now }
    ensures at_line_ends { AreCutAtLineEnds result.items }
    ensures numbered { AllByRecursion IsNumbered result.items }
    ensures mentions { flat_map mentions_of_part result.items ≡ mentions_of text.now }
    ensures in_order { AreInLineOrder result.items }
{
    let mut parts = Parts::new();
    let mut rest = Part::whole(text);
    for done in 0..count {
        let (first, others) = rest.cut(count - done);
        parts.push(first);
        rest = others;
    }
    parts
}

/// Some lines of a text, one after the other.
#[derive(Clone, Copy, Debug, Default)]
pub struct Part<'t> {
    /// The bytes of its lines.
    pub text: &'t [u8],
    /// The number of its first line.
    pub line: u32,
}

impl<'t> Part<'t> {
    /// All of a text.
    pub fn whole(text: &'t [u8]) -> Part<'t>
        requires short { length text.now < 2 ^ 31 }
        ensures bytes { bytes_of result ≡ text.now }
        ensures mentions { mentions_of_part result ≡ mentions_of text.now }
        ensures numbered { IsNumbered result }
    {
        Part { text, line: 1 }
    }

    /// The first of so many parts, which ends with the first line's end behind its share of the bytes, or with the text; and the rest.
    pub fn cut(self, parts: usize) -> (Part<'t>, Part<'t>)
        requires some { 0 < parts }
        requires numbered { IsNumbered self }
        ensures cut { IsCut self.entry result.0 result.1 }
        ensures last { parts ≡ 1 → bytes_of result.1 ≡ [] }
        ensures first_numbered { IsNumbered result.0 }
        ensures rest_numbered { IsNumbered result.1 }
        ensures share { length (bytes_of self.entry) / parts ≤ length (bytes_of result.0) }
        ensures no_more { (n : ℕ) → length (bytes_of self.entry) / parts ≤ n → n + 1 < length (bytes_of result.0) → slice_get (bytes_of self.entry) n ≢ Some 10 }
    {
        let share = self.text.len() / parts;
        let (text, rest) = self.text.split_at(line_end(self.text, share));
        let ended = line_ends(text) as u32;
        let first = Part {
            text,
            line: self.line,
        };
        let others = Part {
            text: rest,
            line: self.line + ended,
        };
        (first, others)
    }
}

/// Where the first line ends that ends behind this place, or the text.
fn line_end(text: &[u8], place: usize) -> usize
    requires within { place ≤ length text.now }
    ensures within { result ≤ length text.now }
    ensures behind { place ≤ result }
    ensures at_line_end { EndsWithLine (take result text.now) ⊎ (result ≡ length text.now) }
    ensures first { (n : ℕ) → place ≤ n → n + 1 < result → slice_get text.now n ≢ Some 10 }
{
    let (_, after) = text.split_at(place);
    match after.iter().position(|byte| *byte == b'\n') {
        Some(more) => place + more + 1,
        None => text.len(),
    }
}

/// How many lines end in a text.
fn line_ends(text: &[u8]) -> usize
    ensures { result ≡ count_by ends_line text.now }
{
    text.iter().filter(|byte| **byte == b'\n').count()
}
