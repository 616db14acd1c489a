//! A clerk: a mutator of the heap that notes the words of a part of the text.

mod joining;
mod whole;

ghost use Rattle.std.specs.Prelude.{◌≡◌, ◌≢◌, ◌<◌, ◌↔◌, ℕ, false, Some, None, IfErr, IsTrue, OnOk};
ghost use Rattle.plain_state.specs.declared.end.End.{End};
ghost use Rattle.plain_state.specs.declared.sizes.TheConstants.{REGISTERS};
ghost use Rattle.plain_state.specs.declared.value.Value.TheVariants as values;
ghost use Rattle.mutator_asm.specs.declared.instr.Instr.TheVariants.{Snap};
ghost use Rattle.mutator_asm.specs.Program.{is_valid};
ghost use Rattle.plain_heap.specs.Alone.{is_heap_full};
ghost use Rattle.gc_worker.specs.declared.stage.Stage.TheVariants.{Gone};
ghost use Rattle.gc_worker.specs.declared.task.Task.TheVariants.{Calls};
ghost use Rattle.gc_worker.specs.Workers.Fits.{MayBegin};
ghost use Rattle.gc_worker.specs.Steps.Stepped.{is_output};
ghost use Rattle.ael_threads.specs.Calls.{Called, Halts, StaysSilent};
ghost use Rattle.ael_threads.specs.Seats.{ShowsSeen};
ghost use Rattle.concordance.specs.Desk.{CanDo, CanMake, desk_after, desk_register};
ghost use Rattle.concordance.specs.Lone.{FindsFull, IsLone, KeepsSeat, desk_of};

use ael_threads::{Did, MOST_RECORDS, Mutator, Reg, Shared};
use mutator_asm::Instr;
use plain_state::End;
use std::marker::Model;
use std::sync::Wait;

/// The heap is full: so many pages are asked for, and there is room for so many words.
#[derive(Clone, Copy)]
pub(crate) struct Full {
    pub asked: u32,
    pub room: u32,
}

impl Full {
    fn of(end: End) -> Full
        requires { IsTrue (is_heap_full end) }
        ensures { (live : ℕ) × (end ≡ End.HeapFull result.asked result.room live) }
    {
        match end {
            End::HeapFull {
                asked,
                room,
                live: _,
            } => Full { asked, room },
            _ => unreachable!("the heap is full"),
        }
    }
}

/// A clerk between two calls of its mutator, of which contracts see what they see of the mutator.
#[derive(Drop)]
pub(crate) struct Clerk<'h> {
    heap: &'h Shared,
    mutator: Mutator,
}

impl<'h> Model for Clerk<'h> {
    ghost use Rattle.std.specs.Prelude.{◌≡◌, None};
    ghost use Rattle.ael_threads.specs.Seats.{Seated};

    ghost Value = { Seated };

    ghost view = { λ c. c.mutator };

    ghost invariant = { λ c. (c.mutator.table ≡ c.heap.now.table.shared.table_id) × (c.mutator.worker.task ≡ None) };
}

impl<'h> Clerk<'h> {
    pub(crate) fn new(heap: &'h Shared, mutator: Mutator) -> Clerk<'h>
        requires of_heap { mutator.table ≡ heap.now.table.shared.table_id }
        requires rests { mutator.worker.task ≡ None }
        ensures { result ≡ mutator }
    {
        Clerk { heap, mutator }
    }

    /// Its mutator makes a call, but none of `snap`, for which it may wait until others get on, and none that prints.
    fn call<R: Wait>(&mut self, rt: &R, instr: Instr) -> Did
        requires other { instr ≢ Snap }
        requires silent { is_output instr ≡ false }
        requires no_end { self.old.worker.account.end ≡ None }
        requires may_begin { MayBegin self.old.worker.account self.old.worker.registers (Some (Calls instr)) }
        ensures of_heap { self.new.table ≡ self.old.table }
        ensures called { Called self.old (Calls instr) result self.new }
    {
        self.mutator.exec(rt, self.heap, &instr)
    }

    /// Its mutator executes an instruction that makes no record.
    pub(crate) fn does<R: Wait>(&mut self, rt: &R, instr: Instr)
        requires lone { IsLone self.old }
        requires valid { IsTrue (is_valid instr) }
        requires can { CanDo (desk_of self.old) instr }
        ensures same { KeepsSeat self.old self.new }
        ensures lone { IsLone self.new }
        ensures desk { desk_of self.new ≡ desk_after (desk_of self.old) instr }
    {
        match self.call(rt, instr) {
            Did::Done => {}
            Did::Trap(_) => unreachable!("its operands are what it asks for"),
        }
    }

    /// Its mutator executes an instruction that makes a record, unless the heap is full.
    pub(crate) fn makes<R: Wait>(&mut self, rt: &R, instr: Instr) -> Result<(), Full>
        requires lone { IsLone self.old }
        requires valid { IsTrue (is_valid instr) }
        requires can { CanMake (desk_of self.old) instr }
        ensures same { KeepsSeat self.old self.new }
        ensures lone { OnOk result (IsLone self.new) }
        ensures desk { OnOk result (desk_of self.new ≡ desk_after (desk_of self.old) instr) }
        ensures full { IfErr result (λ full. FindsFull self.old instr full.asked full.room self.new) }
        ensures shows { ShowsSeen self.old.worker self.old.knows }
    {
        let serial = self.mutator.serial();
        prove!(serial < MOST_RECORDS);
        match self.call(rt, instr) {
            Did::Done => Ok(()),
            Did::Trap(end) => Err(Full::of(end)),
        }
    }

    /// Whether a register holds this number.
    pub(crate) fn holds(&self, register: u8, number: u64) -> bool
        requires lone { IsLone self.now }
        requires register { register < REGISTERS }
        ensures { IsTrue result ↔ (desk_register (desk_of self.now) register ≡ values.Number number) }
    {
        match self.mutator.reg(register) {
            Reg::Number(n) => n == number,
            Reg::Pointer(_) => false,
        }
    }

    /// Its mutator leaves the heap, so that nobody waits for it any more. One without an end makes `halt` first.
    pub(crate) fn leave<R: Wait>(&mut self, rt: &R)
        ensures of_heap { self.new.table ≡ self.old.table }
        ensures left { self.new.worker.stage ≡ Gone }
        ensures ended { (end : End) → self.old.worker.account.end ≡ Some end → StaysSilent self.old self.new }
        ensures halts { self.old.worker.account.end ≡ None → Halts self.old self.new }
    {
        self.mutator.leave(rt, self.heap);
    }
}
