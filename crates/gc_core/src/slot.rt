//! A worker of a core, with the count of the instructions that it has executed.

ghost use Rattle.std.specs.Prelude.{◌≡◌, ◌-◌, ◌≤◌, ◌<◌, ◌^◌, ℕ, true, IsTrue};
ghost use Rattle.std.specs.List.{list_all};
ghost use Rattle.mutator_asm.specs.Program.{is_valid};
ghost use Rattle.gc_worker.specs.declared.config.TheConstants.{MOST_TURNS};
ghost use Rattle.gc_worker.specs.Workers.Counted.{counted};
ghost use Rattle.gc_worker.specs.Steps.Made.{MayMake, step_made};
ghost use Rattle.gc_worker.specs.Steps.Stepped.{IsSound, awaits};
ghost use Rattle.gc_worker.specs.declared.steps.stepped.Stepped.TheVariants.{Effect};
ghost use Rattle.gc_worker.specs.Steps.Wanted.{wanted};
ghost use Rattle.gc_core.specs.Event.{readied};

use atom_store::{PlainAtoms, Step};
use gc_worker::{Stepped, Worker};
use mutator_asm::Program;
use plain_heap::End;
use std::marker::Model;

#[derive(Debug, Drop)]
pub(crate) struct Slot {
    pub worker: Worker,
    pub count: u32,
}

impl Model for Slot {
    ghost use Rattle.std.specs.Prelude.{◌≡◌, true};
    ghost use Rattle.gc_worker.specs.Workers.Counted.{counted};
    ghost use Rattle.gc_worker.specs.Workers.Held.{Held};

    ghost Value = { Held };

    ghost view = { λ s. counted s.count s.worker };

    ghost invariant = { λ s. s.worker.prints ≡ true };
}

impl Slot {
    /// A worker that has executed nothing, of a heap whose mutators may print.
    pub fn new(worker: Worker) -> Slot
        requires prints { worker.prints ≡ true }
        ensures { result ≡ counted 0 worker }
    {
        Slot { worker, count: 0 }
    }

    /// Where the worker may be given its next task, it is.
    pub fn ready(&mut self, program: &Program, turns: u32, m: u8)
        requires turns { turns ≤ MOST_TURNS }
        requires valid { IsTrue (list_all (list_all is_valid) program.now.code) }
        requires sound { IsSound self.old }
        requires counted { awaits self.old ≡ true → self.old.account.serial ≤ self.old.account.executed }
        ensures { self.new ≡ readied program.now.code turns m self.old }
    {
        if self.worker.awaits() {
            if turns <= self.count {
                self.worker.begin_end(End::TurnsOut);
            } else {
                match program.code.instr(m, self.worker.pc()) {
                    Some(instr) => self.worker.begin(&instr),
                    None => self.worker.begin_end(End::JumpOut),
                }
            }
        }
    }

    /// Its next step.
    pub fn want(&self) -> Option<Step>
        ensures wanted { result ≡ wanted self.now }
    {
        self.worker.want()
    }

    /// Makes it on these words, where there is one.
    #[inline(always)]
    pub fn step(&mut self, on: &mut PlainAtoms) -> Stepped
        requires sound { IsSound self.old }
        requires may { MayMake self.old on.old }
        requires room { (m : ℕ) → (step_made self.old on.old).told ≡ Effect m → self.old.account.executed < 2 ^ 32 - 1 }
        ensures state { self.new ≡ (step_made self.old on.old).held }
        ensures words { on.new ≡ (step_made self.old on.old).words }
        ensures tells { result ≡ (step_made self.old on.old).told }
    {
        let told = self.worker.step(on);
        if let Stepped::Effect(_) = told {
            self.count += 1;
        }
        told
    }
}
