//! A mutator with its heap.

ghost use Rattle.std.specs.Prelude.{◌≡◌, ◌&&◌, is_some};
ghost use Rattle.std.specs.Arc.{arc_value};
ghost use Rattle.gc_worker.specs.Steps.AtRest.{is_at_rest};
ghost use Rattle.ael_c.specs.Calls.{Leaves, MakesCall, Polls, ReadsRegister, Tells};

use crate::acts::departs;
use crate::answer::Answer;
use ael_threads::{Instr, Mutator, Reg, Shared};
use std::alloc::Global;
use std::marker::Model;
use std::sync::Arc;

/// How many registers a mutator has.
const REGISTERS: u32 = plain_state::REGISTERS as u32;

/// A mutator with its heap, which it keeps. Contracts see what they see of the mutator.
#[derive(Drop)]
pub struct MutatorSeat {
    heap: Arc<Shared, Global>,
    mutator: Mutator,
}

impl Model for MutatorSeat {
    ghost use Rattle.std.specs.Prelude.{◌≡◌};
    ghost use Rattle.std.specs.Arc.{arc_value};
    ghost use Rattle.ael_threads.specs.Seats.{Seated};

    ghost Value = { Seated };

    ghost view = { λ s. s.mutator };

    ghost invariant = { λ s. s.mutator.table ≡ (arc_value s.heap).table.shared.table_id };
}

impl MutatorSeat {
    pub fn new(heap: Arc<Shared, Global>, mutator: Mutator) -> MutatorSeat
        requires of_heap { mutator.table ≡ (arc_value heap).table.shared.table_id }
        ensures { result ≡ mutator }
    {
        MutatorSeat { heap, mutator }
    }

    /// Begins a call, and makes some acts for it.
    pub fn call(&mut self, instr: Option<Instr>) -> Answer
        ensures { MakesCall instr self.old result self.new }
    {
        let Some(instr) = instr else {
            return Answer::BadInstruction;
        };
        if let Some(why) = self.mutator.refusal(&instr) {
            return Answer::to(why, &instr);
        }
        self.mutator.begin(&instr);
        Answer::by(self.mutator.tries(&self.heap))
    }

    /// Makes some acts: up to where it has left, if it has an end, which is told; or for the call that is under way; or up to where it rests.
    pub fn poll(&mut self) -> Answer
        ensures { Polls self.old result self.new }
    {
        if let Some(end) = self.mutator.ended() {
            departs(&mut self.mutator, &self.heap);
            return Answer::Ended(end);
        }
        if self.mutator.is_calling() {
            return Answer::by(self.mutator.tries(&self.heap));
        }
        if self.mutator.comes_to_rest(&self.heap) {
            Answer::Done
        } else {
            Answer::Again
        }
    }

    /// Makes some acts: up to where it has left, if it has an end; or for the call that is under way, and what that came to is told; or for
    /// `halt`.
    pub fn leave(&mut self) -> Answer
        ensures { Leaves self.old result self.new }
    {
        if let Some(_) = self.mutator.ended() {
            return if departs(&mut self.mutator, &self.heap) {
                Answer::Left
            } else {
                Answer::Again
            };
        }
        if self.mutator.is_calling() {
            return Answer::leaving(self.mutator.tries(&self.heap));
        }
        self.mutator.begin(&Instr::Halt);
        self.mutator.tries(&self.heap);
        Answer::Again
    }

    /// Tells what a register holds.
    pub fn reg(&self, i: u32, value: &mut u64) -> Answer
        ensures { ReadsRegister i value.old value.new self.now result self.now }
    {
        if i >= REGISTERS {
            return Answer::BadRegister;
        }
        match self.mutator.reg(i as u8) {
            Reg::Number(n) => {
                *value = n;
                Answer::Number
            }
            Reg::Pointer(address) => {
                *value = u64::from(address);
                Answer::Pointer
            }
        }
    }

    /// Tells its latest record's serial, its epoch, and its end.
    pub fn tell(&self, serial: &mut u64, epoch: &mut u32) -> Answer
        ensures { Tells serial.new epoch.new self.now result self.now }
    {
        *serial = self.mutator.serial();
        *epoch = self.mutator.epoch();
        match self.mutator.ended() {
            Some(end) => Answer::Ended(end),
            None => Answer::Done,
        }
    }

    /// Whether it has an end, and rests.
    pub fn has_left(&self) -> bool
        ensures { result ≡ is_some self.now.worker.account.end && is_at_rest self.now.worker }
    {
        self.mutator.ended().is_some() && self.mutator.rests()
    }
}
