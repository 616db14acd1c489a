//! Numbers in roots, and what is moved from one to another.

ghost use Rattle.std.specs.Prelude.{◌≡◌, ◌<◌, [], ◌∷◌, IfErr, OnOk, IfOk};
ghost use Rattle.plain_state.specs.declared.sizes.TheConstants.{NUMBERS};
ghost use Rattle.plain_state.specs.declared.value.Value.TheVariants as values;
ghost use Rattle.mutator_asm.specs.declared.instr.Instr.TheVariants.{Eq, Li, Mov};
ghost use Rattle.plain_heap.specs.Action.{are_same, is_reference};
ghost use Rattle.ael_runtime.specs.declared.root.TheConstants.{SCRATCH};
ghost use Rattle.ael_runtime.specs.Calling.{HadEffects, done};
ghost use Rattle.ael_runtime.specs.Failing.{Fails, NumberFails};
ghost use Rattle.ael_runtime.specs.Reading.{held, value_number, root_register};

use crate::failure::Failure;
use crate::local::Local;
use crate::root::{Root, SCRATCH};
use mutator_asm::Instr;
use plain_state::NUMBERS;
use std::sync::Wait;

impl<'h> Local<'h> {
    /// The root holds this number. It is too large exactly from 2^62 on.
    pub fn set_number<R: Wait>(&mut self, rt: &R, to: Root, number: u64) -> Result<(), Failure>
        ensures of_heap { self.new.table ≡ self.old.table }
        ensures value { OnOk result (held self.new (root_register to) ≡ values.Number number) }
        ensures fits { OnOk result (number < NUMBERS) }
        ensures effects { OnOk result (HadEffects self.old (done (Li (root_register to) number) ∷ []) (root_register to) self.new) }
        ensures fails { IfErr result (λ why. NumberFails self.old number why self.new) }
    {
        if let Some(end) = self.ended() {
            return Err(Failure::Ended(end));
        }
        if number >= NUMBERS {
            return Err(Failure::TooLarge);
        }
        self.does(rt, Instr::Li(to.register(), number));
        Ok(())
    }

    /// The number in a root, if it holds no record.
    pub fn number(&self, of: Root) -> Option<u64>
        ensures { result ≡ value_number (held self.now (root_register of)) }
    {
        self.number_in(of.register())
    }

    /// Whether a root leads to a record.
    pub fn is_record(&self, of: Root) -> bool
        ensures { result ≡ is_reference (held self.now (root_register of)) }
    {
        self.number(of).is_none()
    }

    /// The root holds what another does.
    pub fn copy<R: Wait>(&mut self, rt: &R, to: Root, from: Root) -> Result<(), Failure>
        ensures of_heap { self.new.table ≡ self.old.table }
        ensures value { OnOk result (held self.new (root_register to) ≡ held self.old (root_register from)) }
        ensures effects { OnOk result (HadEffects self.old (done (Mov (root_register to) (root_register from)) ∷ []) (root_register to) self.new) }
        ensures fails { IfErr result (λ why. Fails self.old why self.new) }
    {
        if let Some(end) = self.ended() {
            return Err(Failure::Ended(end));
        }
        self.does(rt, Instr::Mov(to.register(), from.register()));
        Ok(())
    }

    /// Whether two roots hold the same number, or lead to the same record.
    pub fn same<R: Wait>(&mut self, rt: &R, one: Root, other: Root) -> Result<bool, Failure>
        ensures of_heap { self.new.table ≡ self.old.table }
        ensures same { IfOk result (λ yes. yes ≡ are_same (held self.old (root_register one)) (held self.old (root_register other))) }
        ensures effects { OnOk result (HadEffects self.old (done (Eq SCRATCH (root_register one) (root_register other)) ∷ []) SCRATCH self.new) }
        ensures fails { IfErr result (λ why. Fails self.old why self.new) }
    {
        if let Some(end) = self.ended() {
            return Err(Failure::Ended(end));
        }
        self.does(rt, Instr::Eq(SCRATCH, one.register(), other.register()));
        Ok(self.number_in(SCRATCH) == Some(1))
    }
}
