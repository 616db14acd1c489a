//! What a clerk does with the others: it tells on the board what it noted, waits for them, and takes them in.

ghost use Rattle.std.specs.Prelude.{◌≡◌, ◌<◌, None};
ghost use Rattle.plain_state.specs.declared.sizes.TheConstants.{BOARD_WORDS};
ghost use Rattle.mutator_asm.specs.declared.instr.Instr.TheVariants.{Put};
ghost use Rattle.mutator_asm.specs.declared.operand.Operand.TheVariants as operands;
ghost use Rattle.gc_worker.specs.declared.calls.did.Did.TheVariants.{Done};
ghost use Rattle.gc_worker.specs.declared.stage.Stage.TheVariants.{Gone};
ghost use Rattle.gc_worker.specs.declared.task.Task.TheVariants.{Calls};
ghost use Rattle.ael_threads.specs.Calls.{Called, StaysSilent};
ghost use Rattle.ael_threads.specs.Seats.{Absorbs, Seated, ShowsSeen};
ghost use Rattle.concordance.specs.Lone.{IsLone};
ghost use Rattle.concordance.specs.declared.registers.TheConstants.{LATEST};

use crate::clerk::Clerk;
use crate::registers::LATEST;
use ael_threads::{ACTS, Did};
use crossbeam_utils::Backoff;
use mutator_asm::Instr::Put;
use mutator_asm::Operand;
use std::sync::Wait;
use std::sync::atomic::{AtomicU64, Ordering};

impl<'h> Clerk<'h> {
    /// Its mutator puts what leads to its latest entry on this word of the board.
    pub(crate) fn puts_notes<R: Wait>(&mut self, rt: &R, word: u8)
        requires lone { IsLone self.old }
        requires word { word < BOARD_WORDS }
        ensures of_heap { self.new.table ≡ self.old.table }
        ensures called { Called self.old (Calls (Put (operands.Number word) LATEST)) Done self.new }
    {
        match self.call(rt, Put(Operand::Number(u64::from(word)), LATEST)) {
            Did::Done => {}
            Did::Trap(_) => unreachable!("it puts a register on a word that the board has"),
        }
    }

    /// It keeps looking at the gate until so many others have left, so that none of them waits for it.
    pub(crate) fn stands_by<R: Wait>(&mut self, rt: &R, left: &AtomicU64, others: u64)
        ensures of_heap { self.new.table ≡ self.old.table }
        ensures silent { StaysSilent self.old self.new }
        ensures shows { ShowsSeen self.old.worker self.old.knows → ShowsSeen self.new.worker self.new.knows }
    {
        self.known();
        let backoff = Backoff::new();
        for _ in rt.forever() {
            if left.load(Ordering::SeqCst) >= others {
                return;
            }
            self.looks();
            backoff.snooze();
        }
    }

    /// Some acts with no call begun: looks at the gate, and what it then asks.
    fn looks(&mut self)
        ensures of_heap { self.new.table ≡ self.old.table }
        ensures silent { (a : Seated) → StaysSilent a self.old → StaysSilent a self.new }
        ensures shows { ShowsSeen self.old.worker self.old.knows → ShowsSeen self.new.worker self.new.knows }
    {
        for _ in 0..ACTS {
            self.mutator.act(self.heap);
        }
    }

    /// Tells a proof that no call of it is begun. It does nothing when the program runs.
    fn known(&self)
        ensures { self.now.worker.task ≡ None }
    {
        let _ = &self.mutator;
    }

    /// It takes in another clerk, which has left.
    pub(crate) fn absorb(&mut self, other: Clerk<'h>)
        requires of_heap { other.table ≡ self.old.table }
        requires left { other.worker.stage ≡ Gone }
        ensures same { (self.new.table ≡ self.old.table) × (self.new.worker ≡ self.old.worker) }
        ensures both { Absorbs self.old.knows other.entry.knows self.new.knows }
    {
        let Clerk { heap: _, mutator } = other;
        self.mutator.absorb(self.heap, mutator);
    }
}
