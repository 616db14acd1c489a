//! How a mutator executes a program on its thread, and what a scanner does meanwhile.

ghost use Rattle.std.specs.Prelude.{◌≡◌, ◌<◌, ℕ, None};
ghost use Rattle.space_map.specs.declared.spaces.TheConstants.{MOST_MUTATORS};
ghost use Rattle.gc_worker.specs.declared.task.Task.TheVariants.{Stops};
ghost use Rattle.gc_worker.specs.Workers.Fits.{MayStop};
ghost use Rattle.ael_threads.specs.Calls.{Called};
ghost use Rattle.ael_threads.specs.Runs.Running.{Executed, Executing, HasRun, ScannerIsGone, RunsAsScanner};

use crate::mutator::Mutator;
use crate::pace::Pace;
use crate::programs::job::Job;
use crate::scanner::Scanner;
use crate::shared::Shared;
use crate::site::{Apart, InProgram};
use gc_worker::{Did, Stepped};
use plain_state::End;
use std::sync::Wait;

impl Mutator {
    /// Executes its section of the program to its end, and leaves.
    pub(crate) fn runs<R: Wait, P: Pace>(&mut self, job: &Job<R, P>, m: u8)
        requires few { m < MOST_MUTATORS }
        requires executing { Executing job.now m 0 self.old }
        ensures { HasRun job.now m self.new }
    {
        self.executes(job, m);
        self.leave(job.rt, job.heap);
    }

    /// Executes its section of the program to its end, which comes after as many instructions as it may execute or before.
    fn executes<R: Wait, P: Pace>(&mut self, job: &Job<R, P>, m: u8)
        requires few { m < MOST_MUTATORS }
        requires executing { Executing job.now m 0 self.old }
        ensures { Executed job.now m self.new }
    {
        for executed in 0..job.turns {
            let Some(instr) = job.program.instr(m, self.pc()) else {
                self.stop(job.rt, job.heap, End::JumpOut);
                return;
            };
            job.pace.pass(m, u64::from(executed) + 1);
            if let Did::Trap(_) = self.calls::<R, InProgram>(job.rt, job.heap, &instr) {
                return;
            }
        }
        self.stop(job.rt, job.heap, End::TurnsOut);
    }

    /// Gets an end in place of an instruction.
    fn stop<R: Wait>(&mut self, rt: &R, h: &Shared, end: End)
        requires table { self.old.table ≡ h.now.table.shared.table_id }
        requires no_end { self.old.worker.account.end ≡ None }
        requires no_task { self.old.worker.task ≡ None }
        requires may_stop { MayStop end }
        ensures table { self.new.table ≡ self.old.table }
        ensures called { Called self.old (Stops end) (Did.Trap end) self.new }
    {
        self.begin_end(end);
        self.comes_to::<R, Apart>(rt, h);
    }
}

impl Scanner {
    /// Makes acts until it is gone, as it is only after it has found that all mutators have left.
    pub(crate) fn runs<R: Wait, P: Pace>(&mut self, job: &Job<R, P>)
        requires { self.old.seated.table ≡ job.now.table }
        ensures { (k : ℕ) → RunsAsScanner job.now k self.old.seated → ScannerIsGone job.now k self.new.seated }
    {
        for _ in job.rt.forever() {
            job.pace.scan(self);
            if let Stepped::Idle = self.act(job.heap) {
                return;
            }
        }
    }
}
