//! What an instruction does to its mutator, and how the mutator goes on.

ghost use Rattle.std.specs.Prelude.{◌≡◌, ◌<◌, Some, length, true, nat_lt};
ghost use Rattle.plain_state.specs.declared.sizes.TheConstants.{MOST_PRINTED};
ghost use Rattle.heap_words.specs.Word.{number_word};
ghost use Rattle.gc_worker.specs.Steps.Stepped.{uncounted};
ghost use Rattle.gc_worker.specs.Steps.Turned.{accesses, ended, jumped, loads, next_of, prints, went_on, with_register_word};

use crate::stage::Stage;
use crate::stage::after::After;
use crate::state::State;
use crate::steps::stepped::Stepped;
use crate::task::due::Due;
use gate_core::Gate;
use heap_words::Word;
use plain_state::End;
use record_access::{Access, AccessStage};

impl State {
    /// The mutator goes on at an instruction, and has answered its task. It looks at the gate already.
    #[inline(always)]
    pub fn jump(&mut self, target: u64) -> Stepped
        requires at { self.old.stage ≡ Stage.Looks }
        ensures state { self.new ≡ uncounted (jumped self.old target) }
        ensures tells { result ≡ Stepped.Effect self.old.number }
    {
        self.counter = target;
        self.due = Due::Nothing;
        Stepped::Effect(self.number)
    }

    /// The same, and a register gets the number of the next instruction.
    #[inline(always)]
    pub fn link(&mut self, d: u8, target: u64) -> Stepped
        requires at { self.old.stage ≡ Stage.Looks }
        ensures state { self.new ≡ uncounted (jumped (with_register_word self.old d (number_word (next_of self.old))) target) }
        ensures tells { result ≡ Stepped.Effect self.old.number }
    {
        self.set(d, Word::number(self.next()).0);
        self.jump(target)
    }

    #[inline(always)]
    pub fn go_on(&mut self) -> Stepped
        requires at { self.old.stage ≡ Stage.Looks }
        ensures state { self.new ≡ uncounted (went_on self.old) }
        ensures tells { result ≡ Stepped.Effect self.old.number }
    {
        self.jump(self.next())
    }

    /// Puts a word into a register. Where there is no such register, nothing changes.
    #[inline(always)]
    pub fn set(&mut self, d: u8, word: u64)
        ensures { self.new ≡ with_register_word self.old d word }
    {
        let d = d as usize;
        if d < self.registers.len() {
            self.registers[d] = word;
        }
    }

    /// A register gets a word, and the mutator goes on with the next instruction.
    #[inline(always)]
    pub fn load(&mut self, into: u8, word: u64) -> Stepped
        requires at { self.old.stage ≡ Stage.Looks }
        ensures state { self.new ≡ uncounted (loads self.old into word) }
        ensures tells { result ≡ Stepped.Effect self.old.number }
    {
        self.set(into, word);
        self.go_on()
    }

    /// Prints a number, for which there is room.
    #[inline(never)]
    pub fn print(&mut self, number: u64) -> Stepped
        requires at { self.old.stage ≡ Stage.Looks }
        requires is_mutator { nat_lt self.old.number self.old.mutators ≡ true }
        requires may { self.old.prints ≡ true }
        requires few { length self.old.account.printed < MOST_PRINTED }
        ensures state { self.new ≡ uncounted (prints self.old number) }
        ensures tells { result ≡ Stepped.Effect self.old.number }
    {
        self.printed.push_reserved(number);
        self.go_on()
    }

    /// The mutator has its end, and leaves.
    #[inline(always)]
    pub fn end_with(&mut self, end: End) -> Stepped
        ensures state { self.new ≡ uncounted (ended self.old end) }
        ensures tells { result ≡ Stepped.Ended self.old.number end }
    {
        self.end_with_apart(end)
    }

    #[inline(never)]
    fn end_with_apart(&mut self, end: End) -> Stepped
        ensures state { self.new ≡ uncounted (ended self.old end) }
        ensures tells { result ≡ Stepped.Ended self.old.number end }
    {
        self.end = Some(end);
        self.due = Due::Nothing;
        self.stage = Stage::Passes(Gate::leave(self.spaces), After::Looks);
        Stepped::Ended(self.number, end)
    }

    /// An access begins.
    #[inline(always)]
    pub fn begin_access(&mut self, stage: AccessStage) -> Stepped
        ensures state { self.new ≡ uncounted (accesses self.old (Some stage)) }
        ensures tells { result ≡ Stepped.Moved }
    {
        self.stage = Stage::Accesses(Access {
            spaces: self.spaces,
            epoch: self.epoch,
            stage,
        });
        Stepped::Moved
    }
}
