//! Whole calls of a mutator, which may wait for other workers.

ghost use Rattle.std.specs.Prelude.{◌≡◌, true, None, Some, is_some};
ghost use Rattle.plain_state.specs.declared.end.End.{End};
ghost use Rattle.mutator_asm.specs.declared.instr.Instr.TheVariants.{Ld};
ghost use Rattle.mutator_asm.specs.declared.operand.Operand.TheVariants as operands;
ghost use Rattle.gc_worker.specs.declared.stage.Stage.TheVariants.{Gone};
ghost use Rattle.gc_worker.specs.declared.task.Task.{Task};
ghost use Rattle.gc_worker.specs.declared.task.Task.TheVariants.{Calls};
ghost use Rattle.gc_worker.specs.Steps.Stepped.{MayExecute, awaits};
ghost use Rattle.gc_worker.specs.Workers.Fits.{MayBegin};
ghost use Rattle.ael_threads.specs.ActsInRow.{MakesSome, is_answer, is_idle};
ghost use Rattle.ael_threads.specs.Calls.{Called, CalledBy, GoesOn, Halts, StaysSilent, IsUnderWay, Tries};
ghost use Rattle.ael_threads.specs.Direct.{CalledSo};
ghost use Rattle.ael_threads.specs.Seats.{Acts, Seated};

use crate::mutator::Mutator;
use crate::shared::Shared;
use crate::site::Apart;
use crossbeam_utils::Backoff;
use gc_worker::{Answered, Did, Stepped};
use mutator_asm::Instr;
use std::sync::Wait;

/// How many acts are made at once. Most instructions need fewer; who needs more waits for another worker, or copies.
pub const ACTS: u32 = 64;

impl Mutator {
    /// Makes one call: the instruction is begun, and acts are made up to its effect or end. Between two tries it backs off. What `begin`
    /// asks for is asked for here. `Trap` comes exactly where the plain machine's call has that end, or where the heap is full.
    ///
    /// `snap` has its effect while all other mutators stand still. So after it a few more acts are made, up to the next look at the gate:
    /// nobody waits any longer for a thread that has come back from here.
    pub fn exec<R: Wait>(&mut self, rt: &R, h: &Shared, instr: &Instr) -> Did
        requires table { self.old.table ≡ h.now.table.shared.table_id }
        requires no_end { self.old.worker.account.end ≡ None }
        requires no_task { self.old.worker.task ≡ None }
        requires may_begin { MayBegin self.old.worker.account self.old.worker.registers (Some (Calls instr.now)) }
        requires may_execute { MayExecute self.old.knows.plan.prints instr.now }
        ensures table { self.new.table ≡ self.old.table }
        ensures called { CalledBy self.old instr.now result self.new }
    {
        let did = self.calls::<R, Apart>(rt, h, instr);
        if let Instr::Snap = instr {
            if let Did::Done = did {
                self.settles(rt, h);
            }
        }
        did
    }

    /// Makes one call, and no act after its effect or end.
    pub(crate) fn calls<R: Wait, Site>(&mut self, rt: &R, h: &Shared, instr: &Instr) -> Did
        requires table { self.old.table ≡ h.now.table.shared.table_id }
        requires no_end { self.old.worker.account.end ≡ None }
        requires no_task { self.old.worker.task ≡ None }
        requires may_begin { MayBegin self.old.worker.account self.old.worker.registers (Some (Calls instr.now)) }
        requires may_execute { MayExecute self.old.knows.plan.prints instr.now }
        ensures table { self.new.table ≡ self.old.table }
        ensures called { Called self.old (Calls instr.now) result self.new }
    {
        self.begin(instr);
        self.comes_to::<R, Site>(rt, h)
    }

    /// Makes one `ld` with a number as index, as `exec` does, in few machine instructions in the common case. It says whether the call was
    /// executed; else the mutator has its end.
    #[inline(always)]
    pub fn load<R: Wait>(&mut self, rt: &R, h: &Shared, into: u8, base: u8, value: u64) -> bool
        requires table { self.old.table ≡ h.now.table.shared.table_id }
        requires no_end { self.old.worker.account.end ≡ None }
        requires no_task { self.old.worker.task ≡ None }
        requires may_begin { MayBegin self.old.worker.account self.old.worker.registers (Some (Calls (Ld into base (operands.Number value)))) }
        ensures table { self.new.table ≡ self.old.table }
        ensures called { CalledSo self.old (Calls (Ld into base (operands.Number value))) result self.new }
    {
        match self.caller.begin_load(h, into, base, value) {
            Answered::Executed => true,
            Answered::Ended => false,
            Answered::Open => self.comes_so(rt, h),
        }
    }

    /// Makes acts, up to the effect or end of the task that it has begun, and says whether it was executed.
    #[inline(never)]
    fn comes_so<R: Wait>(&mut self, rt: &R, h: &Shared) -> bool
        requires table { self.old.table ≡ h.now.table.shared.table_id }
        ensures table { self.new.table ≡ self.old.table }
        ensures called { (a : Seated) (task : Task) → IsUnderWay a task self.old → CalledSo a task result self.new }
    {
        match self.comes_to::<R, Apart>(rt, h) {
            Did::Done => true,
            Did::Trap(_) => false,
        }
    }

    /// Makes acts, up to the effect or end of the task that it has begun.
    pub(crate) fn comes_to<R: Wait, Site>(&mut self, rt: &R, h: &Shared) -> Did
        requires table { self.old.table ≡ h.now.table.shared.table_id }
        ensures table { self.new.table ≡ self.old.table }
        ensures called { (a : Seated) (task : Task) → IsUnderWay a task self.old → Called a task result self.new }
    {
        let backoff = Backoff::new();
        for _ in rt.forever() {
            if let Some(did) = self.tries_at::<Site>(h) {
                return did;
            }
            backoff.snooze();
        }
        unreachable!()
    }

    /// Makes acts for the task that it has begun, up to the one that answers it, 64 at most, and waits for nobody. It answers what the task
    /// came to, once an act answers it. After `snap` all other mutators stand still, until it makes more acts: `comes_to_rest` makes them.
    pub fn tries(&mut self, h: &Shared) -> Option<Did>
        requires table { self.old.table ≡ h.now.table.shared.table_id }
        ensures table { self.new.table ≡ self.old.table }
        ensures tries { (a : Seated) (task : Task) → IsUnderWay a task self.old → Tries a task result self.new }
        ensures acts { MakesSome Acts is_answer (is_some result) self.old self.new }
    {
        self.tries_at::<Apart>(h)
    }

    /// The same, from this place.
    fn tries_at<Site>(&mut self, h: &Shared) -> Option<Did>
        requires table { self.old.table ≡ h.now.table.shared.table_id }
        ensures table { self.new.table ≡ self.old.table }
        ensures tries { (a : Seated) (task : Task) → IsUnderWay a task self.old → Tries a task result self.new }
        ensures acts { MakesSome Acts is_answer (is_some result) self.old self.new }
    {
        for _ in 0..ACTS {
            match self.act_at::<Site>(h) {
                Stepped::Effect(_) => return Some(Did::Done),
                Stepped::Ended(_, end) => return Some(Did::Trap(end)),
                _ => {}
            }
        }
        None
    }

    /// Goes on after `snap`, up to its look.
    fn settles<R: Wait>(&mut self, rt: &R, h: &Shared)
        requires table { self.old.table ≡ h.now.table.shared.table_id }
        ensures table { self.new.table ≡ self.old.table }
        ensures settled { awaits self.new.worker ≡ true }
        ensures goes_on { (a : Seated) → GoesOn a self.old → GoesOn a self.new }
    {
        let backoff = Backoff::new();
        for _ in rt.forever() {
            if self.comes_back(h) {
                return;
            }
            backoff.snooze();
        }
    }

    /// Makes some acts, up to the one after which it looks at the gate and has no task.
    fn comes_back(&mut self, h: &Shared) -> bool
        requires table { self.old.table ≡ h.now.table.shared.table_id }
        ensures table { self.new.table ≡ self.old.table }
        ensures back { result ≡ true → awaits self.new.worker ≡ true }
        ensures goes_on { (a : Seated) → GoesOn a self.old → GoesOn a self.new }
    {
        for _ in 0..ACTS {
            if self.caller.worker.awaits() {
                return true;
            }
            self.act(h);
        }
        false
    }

    /// Leaves the heap. A mutator without an end, which has no instruction begun, makes `halt` first.
    pub fn leave<R: Wait>(&mut self, rt: &R, h: &Shared)
        requires table { self.old.table ≡ h.now.table.shared.table_id }
        requires no_task { self.old.worker.account.end ≡ None → self.old.worker.task ≡ None }
        ensures table { self.new.table ≡ self.old.table }
        ensures left { self.new.worker.stage ≡ Gone }
        ensures ended { (end : End) → self.old.worker.account.end ≡ Some end → StaysSilent self.old self.new }
        ensures halts { self.old.worker.account.end ≡ None → Halts self.old self.new }
    {
        if self.ended().is_none() {
            self.exec(rt, h, &Instr::Halt);
        }
        let backoff = Backoff::new();
        for _ in rt.forever() {
            if self.departs(h) {
                return;
            }
            backoff.snooze();
        }
    }

    /// Makes acts of a mutator with an end, up to the one that finds that it has left, 64 at most, and waits for nobody.
    pub fn departs(&mut self, h: &Shared) -> bool
        requires table { self.old.table ≡ h.now.table.shared.table_id }
        ensures table { self.new.table ≡ self.old.table }
        ensures left { result ≡ true → self.new.worker.stage ≡ Gone }
        ensures quiet { (a : Seated) → StaysSilent a self.old → StaysSilent a self.new }
        ensures acts { MakesSome Acts is_idle result self.old self.new }
    {
        for _ in 0..ACTS {
            if let Stepped::Idle = self.act(h) {
                return true;
            }
        }
        false
    }
}
