//! Calls of workers. They promise only what other calls ask for, so that the proofs of those who make them are short.

ghost use Rattle.std.specs.Prelude.{◌≡◌, ◌<◌, None, IsTrue, true};
ghost use Rattle.gc_worker.specs.declared.stage.Stage.TheVariants.{Gone};
ghost use Rattle.gc_worker.specs.declared.task.Task.TheVariants.{Calls};
ghost use Rattle.gc_worker.specs.Laws.Between.{with_task};
ghost use Rattle.mutator_asm.specs.Program.{is_valid};
ghost use Rattle.ael_threads.specs.Histories.{Each};
ghost use Rattle.ael_threads.specs.declared.mutator.refused.TheConstants.{MOST_RECORDS};

use crate::asserting::assert_same;
use ael_threads::{Did, MOST_RECORDS, Mutator, Reg, Round, Scanner, Shared};
use mutator_asm::Instr;
use std::process::Abort;
use std::sync::Wait;

/// A mutator has no end, and may make a record and print a number.
fn check_free(rt: &impl Abort, mutator: &Mutator)
    ensures no_end { mutator.now.worker.account.end ≡ None }
    ensures serial { mutator.now.worker.account.serial < MOST_RECORDS }
    ensures prints { mutator.now.knows.plan.prints ≡ true }
{
    assert!(rt; mutator.ended().is_none());
    assert!(rt; mutator.serial() < MOST_RECORDS);
    assert!(rt; mutator.may_print());
}

/// An instruction of a mutator that has no end is begun.
pub fn begin(rt: &impl Abort, mutator: &mut Mutator, instr: Instr)
    requires rests { mutator.old.worker.task ≡ None }
    requires valid { IsTrue (is_valid instr) }
    ensures begun { mutator.new.worker ≡ with_task mutator.old.worker (Calls instr) }
    ensures table { mutator.new.table ≡ mutator.old.table }
{
    check_free(rt, mutator);
    mutator.begin(&instr);
}

/// An instruction is executed by a mutator that has no end.
pub fn make<R: Wait + Abort>(rt: &R, h: &Shared, mutator: &mut Mutator, instr: Instr)
    requires table { mutator.old.table ≡ h.now.table.shared.table_id }
    requires rests { mutator.old.worker.task ≡ None }
    requires valid { IsTrue (is_valid instr) }
    ensures table { mutator.new.table ≡ mutator.old.table }
    ensures rests { mutator.new.worker.task ≡ None }
{
    check_free(rt, mutator);
    let did = mutator.exec(rt, h, &instr);
    assert_same(rt, &did, &Did::Done);
}

/// These are executed, in order.
pub fn make_all<R: Wait + Abort>(rt: &R, h: &Shared, mutator: &mut Mutator, instrs: &[Instr])
    requires table { mutator.old.table ≡ h.now.table.shared.table_id }
    requires rests { mutator.old.worker.task ≡ None }
    requires valid { Each (λ i. IsTrue (is_valid i)) instrs.now }
    ensures table { mutator.new.table ≡ mutator.old.table }
    ensures rests { mutator.new.worker.task ≡ None }
{
    for instr in instrs {
        make(rt, h, mutator, *instr);
    }
}

/// A mutator leaves.
pub fn leave<R: Wait>(rt: &R, h: &Shared, mutator: &mut Mutator)
    requires table { mutator.old.table ≡ h.now.table.shared.table_id }
    requires rests { mutator.old.worker.task ≡ None }
    ensures table { mutator.new.table ≡ mutator.old.table }
    ensures left { mutator.new.worker.stage ≡ Gone }
{
    mutator.leave(rt, h);
}

/// What this register holds.
pub fn reg(mutator: &Mutator, i: u8) -> Reg
    requires { i < 8 }
{
    mutator.reg(i)
}

/// A scanner makes rounds, which come to these.
pub fn check_rounds<R: Wait + Abort>(rt: &R, h: &Shared, scanner: &mut Scanner, rounds: &[Round])
    requires { scanner.old.seated.table ≡ h.now.table.shared.table_id }
    ensures { scanner.new.seated.table ≡ scanner.old.seated.table }
{
    for round in rounds {
        assert_same(rt, &scanner.round(rt, h), round);
    }
}
