//! How a part of the text is read.

ghost use Rattle.std.specs.Prelude.{◌≡◌, ◌+◌, ◌*◌, ◌^◌, ◌<◌, ◌≤◌, List, None, [], ◌∷◌, ◌++◌, IfErr, IfSome, OnOk, length, false};
ghost use Rattle.concordance_text.specs.Parts.{IsNumbered, mentions_of_part};
ghost use Rattle.concordance_text.specs.Words.{HasShortWords, Mention, has_long_word, mentions_in, words_in};
ghost use Rattle.ael_threads.specs.Seats.{first_number};
ghost use Rattle.concordance.specs.Full.{WasFullFor};
ghost use Rattle.concordance.specs.Lone.{IsLone, KeepsSeat, desk_of};
ghost use Rattle.concordance.specs.Notes.Invariant.{NoneIsLater};
ghost use Rattle.concordance.specs.Notes.Desks.{KeepsNotesTo, HasNotedJust};

use crate::clerk::{Clerk, Full};
use concordance_text::{Part, first_line, lower_cased, separates};
use std::sync::Wait;

impl<'h> Clerk<'h> {
    /// Notes all words of a part of the text.
    pub(crate) fn read<R: Wait>(&mut self, rt: &R, part: Part<'_>) -> Result<(), Full>
        requires lone { IsLone self.old }
        requires none { HasNotedJust (desk_of self.old) [] }
        requires numbered { IsNumbered part }
        requires short { HasShortWords part.text.now }
        requires room { length (desk_of self.old).records + 3 * length part.text.now < 2 ^ 40 }
        ensures same { KeepsSeat self.old self.new }
        ensures lone { OnOk result (IsLone self.new) }
        ensures noted { OnOk result (HasNotedJust (desk_of self.new) (mentions_of_part part.entry)) }
        ensures full { IfErr result (λ full. WasFullFor self.old.knows.plan (first_number self.old.knows.hands) (mentions_of_part part.entry) full.asked full.room) }
    {
        let mut number = part.line;
        let mut rest = part.text;
        while !rest.is_empty() {
            let (line, behind) = first_line(rest);
            self.read_line(rt, line, number)?;
            number += 1;
            rest = behind;
        }
        Ok(())
    }

    /// Notes the words of a line.
    fn read_line<R: Wait>(&mut self, rt: &R, line: &[u8], number: u32) -> Result<(), Full>
        requires lone { IsLone self.old }
        requires notes { KeepsNotesTo (desk_of self.old) number }
        requires short { has_long_word line.now ≡ false }
        requires room { length (desk_of self.old).records + 3 * length line.now < 2 ^ 40 }
        ensures same { KeepsSeat self.old self.new }
        ensures lone { OnOk result (IsLone self.new) }
        ensures noted { OnOk result ((noted : List Mention) → HasNotedJust (desk_of self.old) noted → NoneIsLater noted number → HasNotedJust (desk_of self.new) (noted ++ mentions_in number line.now)) }
        ensures made { OnOk result (length (desk_of self.new).records ≤ length (desk_of self.old).records + 3 * length line.now) }
        ensures full { IfErr result (λ full. (noted more : List Mention) → HasNotedJust (desk_of self.old) noted → NoneIsLater noted number → WasFullFor self.old.knows.plan (first_number self.old.knows.hands) (noted ++ mentions_in number line.now ++ more) full.asked full.room) }
    {
        let mut rest = line;
        while let Some((word, behind)) = first_word(rest) {
            self.note(rt, lower_cased(word).as_slice(), number)?;
            rest = behind;
        }
        Ok(())
    }
}

/// The first word of a line, and what comes behind it.
fn first_word(line: &[u8]) -> Option<(&[u8], &[u8])>
    ensures word { IfSome result (λ found. words_in line.now ≡ found.0.now ∷ words_in found.1.now) }
    ensures behind { IfSome result (λ found. length found.1.now < length line.now) }
    ensures none { result ≡ None → words_in line.now ≡ [] }
{
    let begin = line.iter().position(|byte| !separates(*byte))?;
    let (_, word) = line.split_at(begin);
    let end = word
        .iter()
        .position(|byte| separates(*byte))
        .unwrap_or(word.len());
    Some(word.split_at(end))
}
