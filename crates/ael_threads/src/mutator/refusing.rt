//! Calls of a mutator that are tested first. They ask for no proof of what is tested.

ghost use Rattle.std.specs.Prelude.{◌≡◌, None, Some, IfErr, IfOk};
ghost use Rattle.gc_worker.specs.declared.task.Task.TheVariants.{Calls};
ghost use Rattle.gc_worker.specs.Laws.Between.{with_task};
ghost use Rattle.gc_worker.specs.Steps.Stepped as outputs;
ghost use Rattle.ael_threads.specs.Calls.{CalledBy};
ghost use Rattle.ael_threads.specs.Refusals as refusals;

use crate::mutator::Mutator;
use crate::mutator::refused::{MOST_RECORDS, Refused};
use crate::shared::Shared;
use gc_worker::Did;
use mutator_asm::Instr;
use std::sync::Wait;

/// Whether the instruction makes a record, if it doesn't end its mutator.
fn makes_record(instr: Instr) -> bool
    ensures { result ≡ refusals.makes_record instr }
{
    matches!(
        instr,
        Instr::New(..) | Instr::Raw(..) | Instr::Mix(..) | Instr::Weak(..)
    )
}

/// Whether the instruction prints a number, if it doesn't end its mutator.
fn is_output(instr: Instr) -> bool
    ensures { result ≡ outputs.is_output instr }
{
    matches!(instr, Instr::Out(_))
}

impl Mutator {
    /// Why it can't begin this instruction now, if it can't. Without a reason `begin` and `exec` may be called.
    pub fn refusal(&self, instr: &Instr) -> Option<Refused>
        ensures { result ≡ refusals.refusal self.now instr.now }
    {
        if let Some(end) = self.ended() {
            return Some(Refused::Ended(end));
        }
        if self.is_calling() {
            return Some(Refused::Calling);
        }
        if !instr.is_valid() {
            return Some(Refused::Operand);
        }
        if makes_record(*instr) && self.serial() >= MOST_RECORDS {
            return Some(Refused::Records);
        }
        if is_output(*instr) && !self.may_print() {
            return Some(Refused::Printing);
        }
        None
    }

    /// Begins an instruction as `begin` does. If it is refused, nothing changes.
    pub fn try_begin(&mut self, instr: &Instr) -> Result<(), Refused>
        ensures refused { IfErr result (λ why. (refusals.refusal self.old instr.now ≡ Some why) × (self.new ≡ self.old)) }
        ensures begun { IfOk result (λ _. (refusals.refusal self.old instr.now ≡ None) × (self.new.worker ≡ with_task self.old.worker (Calls instr.now))) }
        ensures same { (self.new.table ≡ self.old.table) × (self.new.knows ≡ self.old.knows) }
    {
        if let Some(why) = self.refusal(instr) {
            return Err(why);
        }
        self.begin(instr);
        Ok(())
    }

    /// Makes one call as `exec` does. If it is refused, nothing changes, and no step is made.
    pub fn try_exec<R: Wait>(&mut self, rt: &R, h: &Shared, instr: &Instr) -> Result<Did, Refused>
        requires table { self.old.table ≡ h.now.table.shared.table_id }
        ensures table { self.new.table ≡ self.old.table }
        ensures refused { IfErr result (λ why. (refusals.refusal self.old instr.now ≡ Some why) × (self.new ≡ self.old)) }
        ensures called { IfOk result (λ did. (refusals.refusal self.old instr.now ≡ None) × CalledBy self.old instr.now did self.new) }
    {
        if let Some(why) = self.refusal(instr) {
            return Err(why);
        }
        Ok(self.exec(rt, h, instr))
    }
}
