//! The board, on which threads meet: sixteen words that all of them read and write.

ghost use Rattle.std.specs.Prelude.{◌≡◌, ◌<◌, [], ◌∷◌, IfErr, OnOk};
ghost use Rattle.plain_state.specs.declared.sizes.TheConstants.{BOARD_WORDS};
ghost use Rattle.plain_state.specs.declared.value.Value.TheVariants as values;
ghost use Rattle.mutator_asm.specs.declared.instr.Instr.TheVariants.{Get, Li, Put, Swap};
ghost use Rattle.mutator_asm.specs.declared.operand.Operand.TheVariants as operands;
ghost use Rattle.plain_state.specs.Writing.{with_board};
ghost use Rattle.plain_heap.specs.Call.{board_word};
ghost use Rattle.ael_runtime.specs.declared.root.TheConstants.{SCRATCH};
ghost use Rattle.ael_runtime.specs.Calling.{HadEffects, done};
ghost use Rattle.ael_runtime.specs.Failing.{BoardFails};
ghost use Rattle.ael_runtime.specs.Reading.{heap_before, held, root_register, seen_heap};

use crate::failure::Failure;
use crate::local::Local;
use crate::root::Root;
use mutator_asm::{Instr, Operand};
use plain_state::BOARD_WORDS;
use std::sync::Wait;

impl<'h> Local<'h> {
    /// Puts what a root holds on a word of the board, 0 to 15.
    pub fn share<R: Wait>(&mut self, rt: &R, word: u8, from: Root) -> Result<(), Failure>
        ensures of_heap { self.new.table ≡ self.old.table }
        ensures put { OnOk result (seen_heap self.new ≡ with_board (heap_before self.new) word (held self.old (root_register from))) }
        ensures within { OnOk result (word < BOARD_WORDS) }
        ensures effects { OnOk result (HadEffects self.old (done (Put (operands.Number word) (root_register from)) ∷ []) SCRATCH self.new) }
        ensures fails { IfErr result (λ why. BoardFails self.old word why self.new) }
    {
        if let Some(end) = self.ended() {
            return Err(Failure::Ended(end));
        }
        if usize::from(word) >= BOARD_WORDS {
            return Err(Failure::OutOfRange);
        }
        let word = Operand::Number(u64::from(word));
        self.does(rt, Instr::Put(word, from.register()));
        Ok(())
    }

    /// A root holds what stands on a word of the board.
    pub fn read_shared<R: Wait>(&mut self, rt: &R, to: Root, word: u8) -> Result<(), Failure>
        ensures of_heap { self.new.table ≡ self.old.table }
        ensures value { OnOk result (held self.new (root_register to) ≡ board_word (seen_heap self.new) word) }
        ensures within { OnOk result (word < BOARD_WORDS) }
        ensures effects { OnOk result (HadEffects self.old (done (Get (root_register to) (operands.Number word)) ∷ []) (root_register to) self.new) }
        ensures fails { IfErr result (λ why. BoardFails self.old word why self.new) }
    {
        if let Some(end) = self.ended() {
            return Err(Failure::Ended(end));
        }
        if usize::from(word) >= BOARD_WORDS {
            return Err(Failure::OutOfRange);
        }
        let word = Operand::Number(u64::from(word));
        self.does(rt, Instr::Get(to.register(), word));
        Ok(())
    }

    /// Takes what stands on a word of the board, which is 0 then. Of two threads that take, only one gets it: the word and the root change
    /// places in one step, after the root was set to 0.
    pub fn take<R: Wait>(&mut self, rt: &R, to: Root, word: u8) -> Result<(), Failure>
        ensures of_heap { self.new.table ≡ self.old.table }
        ensures value { OnOk result (held self.new (root_register to) ≡ board_word (heap_before self.new) word) }
        ensures empty { OnOk result (seen_heap self.new ≡ with_board (heap_before self.new) word (values.Number 0)) }
        ensures within { OnOk result (word < BOARD_WORDS) }
        ensures effects { OnOk result (HadEffects self.old (done (Li (root_register to) 0) ∷ done (Swap (root_register to) (operands.Number word)) ∷ []) (root_register to) self.new) }
        ensures fails { IfErr result (λ why. BoardFails self.old word why self.new) }
    {
        if let Some(end) = self.ended() {
            return Err(Failure::Ended(end));
        }
        if usize::from(word) >= BOARD_WORDS {
            return Err(Failure::OutOfRange);
        }
        let word = Operand::Number(u64::from(word));
        self.does(rt, Instr::Li(to.register(), 0));
        self.does(rt, Instr::Swap(to.register(), word));
        Ok(())
    }
}
