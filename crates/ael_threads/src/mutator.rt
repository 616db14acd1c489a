//! A mutator of the heap.

pub mod refused;
pub mod refusing;
pub mod safepoints;

ghost use Rattle.std.specs.Prelude.{◌≡◌, ◌<◌, Some, None, true, is_some, slice_index};
ghost use Rattle.plain_state.specs.declared.end.End.{End};
ghost use Rattle.plain_state.specs.declared.sizes.TheConstants.{REGISTERS};
ghost use Rattle.gc_worker.specs.declared.stage.Stage.TheVariants.{Gone, Looks};
ghost use Rattle.gc_worker.specs.declared.task.Task.TheVariants.{Calls, Stops};
ghost use Rattle.gc_worker.specs.Laws.Between.{with_task};
ghost use Rattle.gc_worker.specs.Laws.Cycles.{IsInCall};
ghost use Rattle.gc_worker.specs.Workers.Fits.{MayBegin, MayStop};
ghost use Rattle.gc_worker.specs.Steps.AtRest.{is_at_rest};
ghost use Rattle.gc_worker.specs.Steps.Stepped.{MayExecute, header_kept, place_kept};
ghost use Rattle.ael_threads.specs.Readers.{IsReg, IsThere};
ghost use Rattle.ael_threads.specs.Seats.{Absorbs, Acts, ShowsSeen};

use crate::caller::Caller;
use crate::shared::Shared;
use crate::site::Apart;
use gc_worker::Stepped;
use heap_words::Word;
use mutator_asm::Instr;
use plain_state::End;
use std::marker::Model;

/// What a register holds.
#[derive(Clone, Copy, Debug, PartialEq, Eq)]
pub enum Reg {
    /// A number below 2^62.
    Number(u64),
    /// A pointer to the record whose header stands at this address.
    Pointer(u32),
}

/// A mutator with its seat. Contracts see which table it is of, what its code holds, and what its seat knows.
#[derive(Drop)]
pub struct Mutator {
    pub(crate) caller: Caller,
}

impl Model for Mutator {
    ghost use Rattle.std.specs.Prelude.{◌<◌};
    ghost use Rattle.ael_threads.specs.Seats.{Seated};

    ghost Value = { Seated };

    ghost view = { λ m. m.caller };

    ghost invariant = { λ m. m.caller.worker.number < m.caller.worker.mutators };
}

impl Mutator {
    /// An instruction, which the next look at the gate begins. No instruction is begun yet, and the mutator has no end; the instruction is
    /// one that a text can hold: registers 0 to 7, numbers below 2^62, a jump's target at most 65,536. Where it makes a record, the serial
    /// is below 2^40 - 1. It is not `out` if the heap was opened without printing.
    pub fn begin(&mut self, instr: &Instr)
        requires no_end { self.old.worker.account.end ≡ None }
        requires no_task { self.old.worker.task ≡ None }
        requires may_begin { MayBegin self.old.worker.account self.old.worker.registers (Some (Calls instr.now)) }
        requires may_execute { MayExecute self.old.knows.plan.prints instr.now }
        ensures begun { self.new.worker ≡ with_task self.old.worker (Calls instr.now) }
        ensures looks_first { IsInCall self.new.worker.stage → ⊥ }
        ensures same { (self.new.table ≡ self.old.table) × (self.new.knows ≡ self.old.knows) }
    {
        self.caller.begin(instr);
    }

    /// An end in place of an instruction, any but that the heap is full. No instruction is begun yet, and the mutator has no end.
    pub fn begin_end(&mut self, end: End)
        requires no_end { self.old.worker.account.end ≡ None }
        requires no_task { self.old.worker.task ≡ None }
        requires may_stop { MayStop end }
        ensures begun { self.new.worker ≡ with_task self.old.worker (Stops end) }
        ensures looks_first { IsInCall self.new.worker.stage → ⊥ }
        ensures same { (self.new.table ≡ self.old.table) × (self.new.knows ≡ self.old.knows) }
    {
        self.caller.begin_end(end);
    }

    /// Makes one atomic step, and waits for nobody. With no instruction begun it is a look at the gate, and what the gate then asks. It is
    /// idle exactly where the mutator has left.
    ///
    /// From `begin` up to the act that answers, acts make a call of which as much is promised as of one that `exec` makes
    /// (`acts_make_calls`). So if it ends with a full heap, a flip came since its instruction began, in this very call.
    ///
    /// At the effect of `snap` all other mutators stand still, and they do until this one has made a few more acts: in one of them it clears
    /// its request. Who makes `snap` by acts and then waits for another thread should make acts first, until it looks at the gate again;
    /// `exec` does so by itself.
    pub fn act(&mut self, h: &Shared) -> Stepped
        requires { self.old.table ≡ h.now.table.shared.table_id }
        ensures table { self.new.table ≡ self.old.table }
        ensures act { Acts self.old result self.new }
    {
        self.act_at::<Apart>(h)
    }

    /// The same, from this place.
    pub(crate) fn act_at<Site>(&mut self, h: &Shared) -> Stepped
        requires { self.old.table ≡ h.now.table.shared.table_id }
        ensures table { self.new.table ≡ self.old.table }
        ensures act { Acts self.old result self.new }
    {
        self.caller.act::<Site>(h)
    }

    /// Takes in another mutator, which has left, with its calls. What both have seen and heard of are beginnings of one history then.
    pub fn absorb(&mut self, h: &Shared, other: Mutator)
        requires mine { self.old.table ≡ h.now.table.shared.table_id }
        requires other { other.table ≡ h.now.table.shared.table_id }
        requires left { other.worker.stage ≡ Gone }
        ensures same { (self.new.table ≡ self.old.table) × (self.new.worker ≡ self.old.worker) }
        ensures both { Absorbs self.old.knows other.knows self.new.knows }
    {
        let Mutator { caller } = other;
        self.caller.absorb(h, caller);
    }

    /// What register `i`, 0 to 7, holds. It shows the plain mutator's after all that was seen.
    pub fn reg(&self, i: u8) -> Reg
        requires { i < REGISTERS }
        ensures reg { IsReg (slice_index self.now.worker.registers i) result }
        ensures shows { ShowsSeen self.now.worker self.now.knows }
        ensures there { IsThere self.now }
    {
        let word = Word(self.caller.worker.regs()[usize::from(i)]);
        if let Some(n) = word.as_number() {
            return Reg::Number(n);
        }
        match word.as_pointer() {
            Some(address) => Reg::Pointer(address),
            None => unreachable!(),
        }
    }

    /// Whether it may print: its heap was not opened without printing.
    pub fn may_print(&self) -> bool
        ensures { result ≡ self.now.knows.plan.prints }
    {
        self.caller.worker.prints()
    }

    /// The numbers that it has printed, which are the plain mutator's after all that was seen.
    pub fn outputs(&self) -> &[u64]
        ensures outputs { result.now ≡ self.now.worker.account.printed }
        ensures shows { ShowsSeen self.now.worker self.now.knows }
        ensures there { IsThere self.now }
    {
        self.caller.worker.outputs()
    }

    /// Its end, where it has one, which is the plain mutator's after all that was seen.
    pub fn ended(&self) -> Option<End>
        ensures ended { result ≡ self.now.worker.account.end }
        ensures no_task { (end : End) → result ≡ Some end → self.now.worker.task ≡ None }
        ensures shows { ShowsSeen self.now.worker self.now.knows }
        ensures there { IsThere self.now }
    {
        self.caller.worker.ended()
    }

    /// The serial of its latest record, which is the plain mutator's after all that was seen.
    pub fn serial(&self) -> u64
        ensures serial { result ≡ self.now.worker.account.serial }
        ensures shows { ShowsSeen self.now.worker self.now.knows }
        ensures there { IsThere self.now }
    {
        self.caller.worker.serial()
    }

    /// The epoch in which it is, 0 before its first act. After a call that was executed its pointers lead into the space of this epoch.
    pub fn epoch(&self) -> u32
        ensures { result ≡ self.now.worker.epoch }
    {
        self.caller.worker.epoch()
    }

    /// The number of its next instruction, which is the plain mutator's after all that was seen.
    pub fn pc(&self) -> u64
        ensures pc { result ≡ self.now.worker.account.counter }
        ensures shows { ShowsSeen self.now.worker self.now.knows }
        ensures there { IsThere self.now }
    {
        self.caller.worker.pc()
    }

    /// Its number, from 0 on, by which its calls stand in the history. Mutators may share out the words of the board by it.
    pub fn number(&self) -> u8
        ensures number { result ≡ self.now.worker.number }
        ensures there { IsThere self.now }
    {
        self.caller.worker.number()
    }

    /// Tells a proof what a mutator shows at any time. It does nothing when the program runs.
    pub(crate) fn known(&self)
        ensures shows { ShowsSeen self.now.worker self.now.knows }
        ensures there { IsThere self.now }
    {
        let _number = self.caller.worker.number();
    }

    /// Whether it rests between two calls: it looks at the gate and has no call under way, or has left. Then nobody waits for it but for a
    /// flip or a checkpoint. One that has not come yet doesn't rest.
    pub fn rests(&self) -> bool
        ensures rests { result ≡ is_at_rest self.now.worker }
        ensures no_task { result ≡ true → self.now.worker.task ≡ None }
        ensures looks { result ≡ true → self.now.worker.account.end ≡ None → self.now.worker.stage ≡ Looks }
        ensures shows { ShowsSeen self.now.worker self.now.knows }
        ensures there { IsThere self.now }
    {
        self.caller.worker.is_at_rest()
    }

    /// Whether a call is under way: an instruction or an end is begun, and no act has answered it yet.
    pub fn is_calling(&self) -> bool
        ensures { result ≡ is_some self.now.worker.task }
    {
        self.caller.worker.is_calling()
    }

    /// The header that it keeps while it copies a record, and the address that it has reserved and one more; 0 for none.
    pub fn kept(&self) -> (u64, u64)
        ensures header { result.0 ≡ header_kept self.now.worker.stage }
        ensures place { result.1 ≡ place_kept self.now.worker.stage }
    {
        self.caller.worker.kept()
    }
}
