//! Frames: records that keep values while a function calls others. Each has a link to the one below it in word 0, and its slots behind that.

ghost use Rattle.std.specs.Prelude.{◌≡◌, ◌+◌, ◌<◌, [], ◌∷◌, IfErr, OnOk};
ghost use Rattle.mutator_asm.specs.declared.instr.Instr.TheVariants.{Ld, St};
ghost use Rattle.mutator_asm.specs.declared.operand.Operand.TheVariants as operands;
ghost use Rattle.ael_runtime.specs.declared.root.TheConstants.{FRAMES, SCRATCH};
ghost use Rattle.ael_runtime.specs.Calling.{HadEffectsOnceSeen, done};
ghost use Rattle.ael_runtime.specs.Failing.{FrameFails, StoreFails, WordFails};
ghost use Rattle.ael_runtime.specs.Making.{HasPushed};
ghost use Rattle.ael_runtime.specs.Reading.{held, len_of, root_register, seen_heap, record_word};

use crate::failure::Failure;
use crate::local::Local;
use crate::root::{FRAMES, Root, SCRATCH};
use ael_threads::{Did, MOST_RECORDS};
use mutator_asm::{Instr, Operand};
use plain_state::LONGEST_RECORD;
use std::sync::Wait;

/// Where a frame has its link.
const LINK: u64 = 0;

impl<'h> Local<'h> {
    /// Puts a frame on top, with this number of slots, which are 0 when it is made. It is too large exactly from `LONGEST_RECORD` slots on,
    /// since its link takes a word.
    pub fn push_frame<R: Wait>(&mut self, rt: &R, slots: u16) -> Result<(), Failure>
        ensures of_heap { self.new.table ≡ self.old.table }
        ensures pushed { OnOk result (HasPushed self.old slots self.new) }
        ensures fails { IfErr result (λ why. FrameFails self.old slots why self.new) }
    {
        if let Some(end) = self.ended() {
            return Err(Failure::Ended(end));
        }
        let len = u64::from(slots) + 1;
        if len > LONGEST_RECORD {
            return Err(Failure::TooLarge);
        }
        if self.serial() >= MOST_RECORDS {
            return Err(Failure::RecordsOut);
        }
        self.does(rt, Instr::Mov(SCRATCH, FRAMES));
        if let Did::Trap(end) = self.call(rt, Instr::New(FRAMES, Operand::Number(len))) {
            return Err(Failure::Ended(end));
        }
        self.does(rt, Instr::St(FRAMES, Operand::Number(LINK), SCRATCH));
        self.remember(FRAMES, len);
        Ok(())
    }

    /// Takes the topmost frame off. The one below it is on top then.
    pub fn pop_frame<R: Wait>(&mut self, rt: &R) -> Result<(), Failure>
        ensures of_heap { self.new.table ≡ self.old.table }
        ensures below { OnOk result (held self.new FRAMES ≡ record_word (seen_heap self.new) (held self.old FRAMES) 0) }
        ensures effects { OnOk result (HadEffectsOnceSeen self.old FRAMES (done (Ld FRAMES FRAMES (operands.Number 0)) ∷ []) FRAMES self.new) }
        ensures fails { IfErr result (λ why. WordFails self.old FRAMES 0 why self.new) }
    {
        self.fetch(rt, FRAMES, FRAMES, LINK)
    }

    /// A slot of the topmost frame holds what a root holds.
    pub fn save<R: Wait>(&mut self, rt: &R, slot: u16, from: Root) -> Result<(), Failure>
        ensures of_heap { self.new.table ≡ self.old.table }
        ensures value { OnOk result (record_word (seen_heap self.new) (held self.new FRAMES) (slot + 1) ≡ held self.old (root_register from)) }
        ensures within { OnOk result (slot + 1 < len_of (seen_heap self.new) (held self.new FRAMES)) }
        ensures effects { OnOk result (HadEffectsOnceSeen self.old FRAMES (done (St FRAMES (operands.Number (slot + 1)) (root_register from)) ∷ []) SCRATCH self.new) }
        ensures fails { IfErr result (λ why. StoreFails self.old FRAMES (slot + 1) (root_register from) why self.new) }
    {
        self.keep(rt, FRAMES, u64::from(slot) + 1, from.register())
    }

    /// A root holds what a slot of the topmost frame holds.
    pub fn restore<R: Wait>(&mut self, rt: &R, to: Root, slot: u16) -> Result<(), Failure>
        ensures of_heap { self.new.table ≡ self.old.table }
        ensures value { OnOk result (held self.new (root_register to) ≡ record_word (seen_heap self.new) (held self.new FRAMES) (slot + 1)) }
        ensures within { OnOk result (slot + 1 < len_of (seen_heap self.new) (held self.new FRAMES)) }
        ensures effects { OnOk result (HadEffectsOnceSeen self.old FRAMES (done (Ld (root_register to) FRAMES (operands.Number (slot + 1))) ∷ []) (root_register to) self.new) }
        ensures fails { IfErr result (λ why. WordFails self.old FRAMES (slot + 1) why self.new) }
    {
        self.fetch(rt, to.register(), FRAMES, u64::from(slot) + 1)
    }
}
