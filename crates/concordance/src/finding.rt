//! How the entry of a word is found.

ghost use Rattle.std.specs.Prelude.{◌≡◌, ◌≤◌, ◌↔◌, ℕ, List, length, true};
ghost use Rattle.mutator_asm.specs.declared.operand.Operand.TheVariants as operands;
ghost use Rattle.concordance_text.specs.Words.{Mention};
ghost use Rattle.concordance_text.specs.declared.letters.TheConstants.{MOST_LETTERS};
ghost use Rattle.concordance.specs.Desk.{desk_register};
ghost use Rattle.concordance.specs.Lone.{IsLone, KeepsSeat, desk_of};
ghost use Rattle.concordance.specs.Notes.Desks.{ChangesAtMost, HasNoted, KeepsNotes, IsAtEntry, IsAtLetters, IsPlace, for_finding, for_letters, for_number};
ghost use Rattle.concordance.specs.Notes.Paths.{side};
ghost use Rattle.concordance.specs.Notes.Records.{IsEntry, IsLetters, Note};
ghost use Rattle.plain_state.specs.declared.value.Value.{Value};

use crate::clerk::Clerk;
use crate::path::Path;
use crate::registers::{
    ENTRY_LEFT, ENTRY_LETTERS, ENTRY_RIGHT, FIRST, HERE, LETTERS, NEXT, NUMBER,
};
use mutator_asm::Instr::{Ld, Len, Mov};
use mutator_asm::Operand;
use std::sync::Wait;

/// Where the entry of a word is, or is to be.
#[derive(Clone, Copy)]
pub(crate) enum Place {
    /// The entry is here.
    Here,
    /// There is none; it is to be on this side of the entry that is here, to the right if it is true.
    Side(bool),
    /// There is no entry at all.
    Nowhere,
}

/// The field of an entry that a turn takes.
pub(crate) fn side(right: bool) -> Operand
    ensures { result ≡ operands.Number (side right) }
{
    if right { ENTRY_RIGHT } else { ENTRY_LEFT }
}

impl<'h> Clerk<'h> {
    /// Looks for the entry of a word, on its path from the first entry on.
    pub(crate) fn find<R: Wait>(&mut self, rt: &R, word: &[u8]) -> Place
        requires lone { IsLone self.old }
        requires notes { KeepsNotes (desk_of self.old) }
        requires short { length word.now ≤ MOST_LETTERS }
        ensures same { KeepsSeat self.old self.new }
        ensures lone { IsLone self.new }
        ensures records { (desk_of self.new).records ≡ (desk_of self.old).records }
        ensures others { ChangesAtMost for_finding (desk_of self.old) (desk_of self.new) }
        ensures place { (notes : List Note) (noted : List Mention) → HasNoted (desk_of self.old) notes noted → IsPlace (desk_of self.new) notes word.now result }
    {
        if self.holds(FIRST, 0) {
            return Place::Nowhere;
        }
        let mut path = Path::new(word);
        self.does(rt, Mov(HERE, FIRST));
        for _ in rt.forever() {
            if self.is_of(rt, word) {
                return Place::Here;
            }
            let right = path.turns_right();
            self.does(rt, Ld(NEXT, HERE, side(right)));
            if self.holds(NEXT, 0) {
                return Place::Side(right);
            }
            self.does(rt, Mov(HERE, NEXT));
        }
        unreachable!()
    }

    /// Whether the entry that is here is of this word.
    fn is_of<R: Wait>(&mut self, rt: &R, word: &[u8]) -> bool
        requires lone { IsLone self.old }
        requires entry { IsAtEntry (desk_of self.old) }
        requires short { length word.now ≤ MOST_LETTERS }
        ensures same { KeepsSeat self.old self.new }
        ensures lone { IsLone self.new }
        ensures records { (desk_of self.new).records ≡ (desk_of self.old).records }
        ensures others { ChangesAtMost for_letters (desk_of self.old) (desk_of self.new) }
        ensures answer { (e : Note) (before : Value) → IsEntry (desk_of self.old).number (desk_of self.old).records (desk_register (desk_of self.old) HERE) e before → (result ≡ true) ↔ (e.word ≡ word.now) }
    {
        self.does(rt, Ld(LETTERS, HERE, ENTRY_LETTERS));
        self.does(rt, Len(NUMBER, LETTERS));
        self.holds(NUMBER, word.len() as u64) && self.has_letters(rt, word)
    }

    /// Whether the letters are those of this word, which has as many.
    fn has_letters<R: Wait>(&mut self, rt: &R, word: &[u8]) -> bool
        requires lone { IsLone self.old }
        requires letters { IsAtLetters (desk_of self.old) (length word.now) }
        requires short { length word.now ≤ MOST_LETTERS }
        ensures same { KeepsSeat self.old self.new }
        ensures lone { IsLone self.new }
        ensures records { (desk_of self.new).records ≡ (desk_of self.old).records }
        ensures others { ChangesAtMost for_number (desk_of self.old) (desk_of self.new) }
        ensures answer { (letters : List ℕ) → IsLetters (desk_of self.old).number (desk_of self.old).records (desk_register (desk_of self.old) LETTERS) letters → length letters ≡ length word.now → (result ≡ true) ↔ (letters ≡ word.now) }
    {
        let mut place = 0;
        for letter in word {
            self.does(rt, Ld(NUMBER, LETTERS, Operand::Number(place)));
            if !self.holds(NUMBER, u64::from(*letter)) {
                return false;
            }
            place += 1;
        }
        true
    }
}
