//! How the clerk that has taken in all others gathers what each of them noted.

ghost use Rattle.std.specs.Prelude.{◌≡◌, ◌≤◌, [], IfOk, OnOk, flat_map, length, reverse};
ghost use Rattle.std.specs.List.{AllByRecursion};
ghost use Rattle.plain_state.specs.declared.sizes.TheConstants.{BOARD_WORDS};
ghost use Rattle.ael_threads.specs.Seats.{plain_after_seen};
ghost use Rattle.concordance_text.specs.Parts.{AreInLineOrder, IsNumbered, mentions_of_part};
ghost use Rattle.concordance_text.specs.Rows.{AreRowsOf, rows_of};
ghost use Rattle.concordance.specs.Gathering.{AllAreNoted, HasAll, HasRead, LeadsToEntries, LeadsToEntry, whole_desk_of, whole_register, with_notes};

use crate::clerk::Clerk;
use crate::registers::{
    ENTRY_BEFORE, ENTRY_LETTERS, ENTRY_LINE, HERE, LETTERS, LINE, LINE_BEFORE, LINE_NUMBER, NUMBER,
};
use concordance_text::{Part, WordMap, add_lines};
use mutator_asm::Instr::{Get, Ld, Len};
use mutator_asm::Operand;
use std::alloc::{AllocError, Global};
use std::sync::Wait;

impl<'h> Clerk<'h> {
    /// Adds the words of all parts, each with its lines, as the clerks noted them: clerk `k` those of part `k`.
    ///
    /// Where memory is out, nothing is said of what `words` then has.
    pub(crate) fn gather<R: Wait>(
        &mut self,
        rt: &R,
        alloc: Global,
        parts: &[Part<'_>],
        words: &mut WordMap,
    ) -> Result<(), AllocError>
        requires all { HasAll self.old }
        requires few { length parts.now ≤ BOARD_WORDS }
        requires numbered { AllByRecursion IsNumbered parts.now }
        requires in_order { AreInLineOrder parts.now }
        requires noted { AllAreNoted (plain_after_seen self.old.knows).heap parts.now }
        requires none { rows_of words.old ≡ [] }
        ensures read { HasRead self.old self.new }
        ensures rows { OnOk result (AreRowsOf (flat_map mentions_of_part parts.now) (rows_of words.new)) }
    {
        for number in 0..parts.len() {
            self.gets(rt, Get(HERE, Operand::Number(number as u64)));
            self.gather_entries(rt, alloc, words)?;
        }
        Ok(())
    }

    /// Adds the words of the entries, from the one that is here on.
    fn gather_entries<R: Wait>(
        &mut self,
        rt: &R,
        alloc: Global,
        words: &mut WordMap,
    ) -> Result<(), AllocError>
        requires all { HasAll self.old }
        requires leads { LeadsToEntries (whole_desk_of self.old) HERE }
        ensures read { HasRead self.old self.new }
        ensures rows { OnOk result ((led : LeadsToEntries (whole_desk_of self.old) HERE) → rows_of words.new ≡ with_notes led.notes (rows_of words.old)) }
    {
        for _ in rt.forever() {
            if self.leads_nowhere(HERE) {
                return Ok(());
            }
            let word = self.word_here(rt, alloc)?;
            let lines = self.lines_here(rt, alloc)?;
            add_lines(words, word, lines)?;
            self.gets(rt, Ld(HERE, HERE, ENTRY_BEFORE));
        }
        unreachable!()
    }

    /// The letters of the entry that is here.
    fn word_here<R: Wait>(&mut self, rt: &R, alloc: Global) -> Result<Vec<u8>, AllocError>
        requires all { HasAll self.old }
        requires leads { LeadsToEntry (whole_desk_of self.old) HERE }
        ensures read { HasRead self.old self.new }
        ensures here { whole_register (whole_desk_of self.new) HERE ≡ whole_register (whole_desk_of self.old) HERE }
        ensures word { IfOk result (λ word. (led : LeadsToEntry (whole_desk_of self.old) HERE) → word.items ≡ led.note.word) }
    {
        self.gets(rt, Ld(LETTERS, HERE, ENTRY_LETTERS));
        self.gets(rt, Len(NUMBER, LETTERS));
        let length = self.number_in(NUMBER);
        let mut word = Vec::with_capacity(alloc, length as usize)?;
        for place in 0..length {
            self.gets(rt, Ld(NUMBER, LETTERS, Operand::Number(place)));
            word.push_reserved(self.number_in(NUMBER) as u8);
        }
        Ok(word)
    }

    /// The lines of the entry that is here. They follow one another latest first, and are told rising.
    fn lines_here<R: Wait>(&mut self, rt: &R, alloc: Global) -> Result<Vec<u32>, AllocError>
        requires all { HasAll self.old }
        requires leads { LeadsToEntry (whole_desk_of self.old) HERE }
        ensures read { HasRead self.old self.new }
        ensures here { whole_register (whole_desk_of self.new) HERE ≡ whole_register (whole_desk_of self.old) HERE }
        ensures lines { IfOk result (λ lines. (led : LeadsToEntry (whole_desk_of self.old) HERE) → lines.items ≡ reverse led.note.lines) }
    {
        let mut lines = Vec::new(alloc);
        self.gets(rt, Ld(LINE, HERE, ENTRY_LINE));
        for _ in rt.forever() {
            if self.leads_nowhere(LINE) {
                lines.reverse();
                return Ok(lines);
            }
            self.gets(rt, Ld(NUMBER, LINE, LINE_NUMBER));
            lines.push(self.number_in(NUMBER) as u32)?;
            self.gets(rt, Ld(LINE, LINE, LINE_BEFORE));
        }
        unreachable!()
    }
}
