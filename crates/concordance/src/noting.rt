//! How a word is noted: its entry, and its line.

ghost use Rattle.std.specs.Prelude.{◌≡◌, ℕ, ◌+◌, ◌^◌, ◌<◌, ◌≤◌, List, [], ◌∷◌, ◌++◌, IfErr, OnOk, length};
ghost use Rattle.plain_state.specs.declared.value.Value.TheVariants as values;
ghost use Rattle.concordance_text.specs.Words.{Mention, mention};
ghost use Rattle.concordance_text.specs.declared.letters.TheConstants.{MOST_LETTERS};
ghost use Rattle.ael_threads.specs.Seats.{first_number};
ghost use Rattle.concordance.specs.Desk.{desk_register, own};
ghost use Rattle.concordance.specs.Full.{FindsFullWithin, WasFullFor};
ghost use Rattle.concordance.specs.Lone.{IsLone, KeepsSeat, desk_of};
ghost use Rattle.concordance.specs.Notes.Invariant.{NoneIsLater};
ghost use Rattle.concordance.specs.Notes.Desks.{ChangesAtMost, HasNoted, KeepsNotes, IsAtNote, HasNotedJust, for_entry, for_letters, for_line, for_new_entry};
ghost use Rattle.concordance.specs.Notes.Making.{new_records};
ghost use Rattle.concordance.specs.Notes.Places.{IsEntryOf};
ghost use Rattle.concordance.specs.Notes.Records.{Note, entry_record, letters_record, line_record};

use crate::clerk::{Clerk, Full};
use crate::finding::{Place, side};
use crate::registers::{
    ENTRY, ENTRY_BEFORE, ENTRY_LENGTH, ENTRY_LETTERS, ENTRY_LINE, FIRST, HERE, LATEST, LETTERS,
    LINE, LINE_BEFORE, LINE_LENGTH, LINE_NUMBER, NEXT, NUMBER,
};
use mutator_asm::Instr::{Ld, Li, Mov, New, Raw, St};
use mutator_asm::Operand;
use std::sync::Wait;

impl<'h> Clerk<'h> {
    /// Notes that a word stands in a line, which is none before the last one that was noted. If the heap is full, it is full for the words so
    /// far and this one, whatever comes behind them.
    pub(crate) fn note<R: Wait>(&mut self, rt: &R, word: &[u8], line: u32) -> Result<(), Full>
        requires lone { IsLone self.old }
        requires notes { KeepsNotes (desk_of self.old) }
        requires short { length word.now ≤ MOST_LETTERS }
        requires room { length (desk_of self.old).records + 3 < 2 ^ 40 }
        ensures same { KeepsSeat self.old self.new }
        ensures lone { OnOk result (IsLone self.new) }
        ensures noted { OnOk result ((noted : List Mention) → HasNotedJust (desk_of self.old) noted → NoneIsLater noted line → HasNotedJust (desk_of self.new) (noted ++ mention word.now line ∷ [])) }
        ensures made { OnOk result (length (desk_of self.new).records ≤ length (desk_of self.old).records + 3) }
        ensures full { IfErr result (λ full. (noted more : List Mention) → HasNotedJust (desk_of self.old) noted → WasFullFor self.old.knows.plan (first_number self.old.knows.hands) (noted ++ mention word.now line ∷ more) full.asked full.room) }
    {
        match self.find(rt, word) {
            Place::Here => self.note_line(rt, line),
            Place::Side(right) => {
                self.note_word(rt, word, line)?;
                self.does(rt, St(HERE, side(right), ENTRY));
                Ok(())
            }
            Place::Nowhere => {
                self.note_word(rt, word, line)?;
                self.does(rt, Mov(FIRST, ENTRY));
                Ok(())
            }
        }
    }

    /// Notes a line of the entry that is here, if it isn't noted yet.
    fn note_line<R: Wait>(&mut self, rt: &R, line: u32) -> Result<(), Full>
        requires lone { IsLone self.old }
        requires note { IsAtNote (desk_of self.old) }
        requires room { length (desk_of self.old).records + 1 < 2 ^ 40 }
        ensures same { KeepsSeat self.old self.new }
        ensures lone { OnOk result (IsLone self.new) }
        ensures noted { OnOk result ((notes : List Note) (noted : List Mention) (word : List ℕ) → HasNoted (desk_of self.old) notes noted → NoneIsLater noted line
            → IsEntryOf (desk_of self.old).number notes word (desk_register (desk_of self.old) HERE) → HasNotedJust (desk_of self.new) (noted ++ mention word line ∷ [])) }
        ensures made { OnOk result (length (desk_of self.new).records ≤ length (desk_of self.old).records + 1) }
        ensures full { IfErr result (λ full. FindsFullWithin self.old 0 0 full.asked full.room) }
    {
        self.does(rt, Ld(NEXT, HERE, ENTRY_LINE));
        self.does(rt, Ld(NUMBER, NEXT, LINE_NUMBER));
        if self.holds(NUMBER, u64::from(line)) {
            return Ok(());
        }
        self.make_line(rt, line)?;
        self.does(rt, St(LINE, LINE_BEFORE, NEXT));
        self.does(rt, St(HERE, ENTRY_LINE, LINE));
        Ok(())
    }

    /// Makes the entry of a word that has none, with one line.
    fn note_word<R: Wait>(&mut self, rt: &R, word: &[u8], line: u32) -> Result<(), Full>
        requires lone { IsLone self.old }
        requires short { length word.now ≤ MOST_LETTERS }
        requires room { length (desk_of self.old).records + 3 < 2 ^ 40 }
        ensures same { KeepsSeat self.old self.new }
        ensures lone { OnOk result (IsLone self.new) }
        ensures records { OnOk result ((desk_of self.new).records ≡ (desk_of self.old).records ++ new_records (desk_of self.old).number (length (desk_of self.old).records) (desk_register (desk_of self.old) LATEST) word.now line) }
        ensures entry { OnOk result (desk_register (desk_of self.new) ENTRY ≡ own (desk_of self.old).number (length (desk_of self.old).records + 3)) }
        ensures latest { OnOk result (desk_register (desk_of self.new) LATEST ≡ own (desk_of self.old).number (length (desk_of self.old).records + 3)) }
        ensures others { OnOk result (ChangesAtMost for_entry (desk_of self.old) (desk_of self.new)) }
        ensures full { IfErr result (λ full. FindsFullWithin self.old 2 (length word.now + 4) full.asked full.room) }
    {
        self.make_letters(rt, word)?;
        self.make_line(rt, line)?;
        self.make_entry(rt)
    }

    /// Makes an entry of the letters and the line.
    fn make_entry<R: Wait>(&mut self, rt: &R) -> Result<(), Full>
        requires lone { IsLone self.old }
        requires room { length (desk_of self.old).records + 1 < 2 ^ 40 }
        ensures same { KeepsSeat self.old self.new }
        ensures lone { OnOk result (IsLone self.new) }
        ensures records { OnOk result ((desk_of self.new).records ≡ (desk_of self.old).records ++ entry_record (desk_register (desk_of self.old) LETTERS) (desk_register (desk_of self.old) LINE) (values.Number 0) (values.Number 0) (desk_register (desk_of self.old) LATEST) ∷ []) }
        ensures entry { OnOk result (desk_register (desk_of self.new) ENTRY ≡ own (desk_of self.old).number (length (desk_of self.old).records + 1)) }
        ensures latest { OnOk result (desk_register (desk_of self.new) LATEST ≡ own (desk_of self.old).number (length (desk_of self.old).records + 1)) }
        ensures others { OnOk result (ChangesAtMost for_new_entry (desk_of self.old) (desk_of self.new)) }
        ensures full { IfErr result (λ full. FindsFullWithin self.old 0 0 full.asked full.room) }
    {
        self.makes(rt, New(ENTRY, ENTRY_LENGTH))?;
        self.does(rt, St(ENTRY, ENTRY_LETTERS, LETTERS));
        self.does(rt, St(ENTRY, ENTRY_LINE, LINE));
        self.does(rt, St(ENTRY, ENTRY_BEFORE, LATEST));
        self.does(rt, Mov(LATEST, ENTRY));
        Ok(())
    }

    /// Makes a record of a line, before which there is none yet.
    fn make_line<R: Wait>(&mut self, rt: &R, line: u32) -> Result<(), Full>
        requires lone { IsLone self.old }
        requires room { length (desk_of self.old).records + 1 < 2 ^ 40 }
        ensures same { KeepsSeat self.old self.new }
        ensures lone { OnOk result (IsLone self.new) }
        ensures records { OnOk result ((desk_of self.new).records ≡ (desk_of self.old).records ++ line_record (values.Number line) (values.Number 0) ∷ []) }
        ensures line { OnOk result (desk_register (desk_of self.new) LINE ≡ own (desk_of self.old).number (length (desk_of self.old).records + 1)) }
        ensures others { OnOk result (ChangesAtMost for_line (desk_of self.old) (desk_of self.new)) }
        ensures full { IfErr result (λ full. FindsFullWithin self.old 0 0 full.asked full.room) }
    {
        self.makes(rt, New(LINE, LINE_LENGTH))?;
        self.does(rt, Li(NUMBER, u64::from(line)));
        self.does(rt, St(LINE, LINE_NUMBER, NUMBER));
        Ok(())
    }

    /// Makes a record of a word's letters.
    fn make_letters<R: Wait>(&mut self, rt: &R, word: &[u8]) -> Result<(), Full>
        requires lone { IsLone self.old }
        requires short { length word.now ≤ MOST_LETTERS }
        requires room { length (desk_of self.old).records + 1 < 2 ^ 40 }
        ensures same { KeepsSeat self.old self.new }
        ensures lone { OnOk result (IsLone self.new) }
        ensures records { OnOk result ((desk_of self.new).records ≡ (desk_of self.old).records ++ letters_record word.now ∷ []) }
        ensures letters { OnOk result (desk_register (desk_of self.new) LETTERS ≡ own (desk_of self.old).number (length (desk_of self.old).records + 1)) }
        ensures others { OnOk result (ChangesAtMost for_letters (desk_of self.old) (desk_of self.new)) }
        ensures full { IfErr result (λ full. FindsFullWithin self.old 0 0 full.asked full.room) }
    {
        self.makes(rt, Raw(LETTERS, Operand::Number(word.len() as u64)))?;
        let mut place = 0;
        for letter in word {
            self.does(rt, Li(NUMBER, u64::from(*letter)));
            self.does(rt, St(LETTERS, Operand::Number(place), NUMBER));
            place += 1;
        }
        Ok(())
    }
}
