//! A thread's part of the runtime: its mutator, between two calls.

ghost use Rattle.std.specs.Prelude.{◌≡◌, ◌≢◌, ◌<◌, ◌≤◌, true, false, None, Some, IsTrue};
ghost use Rattle.plain_state.specs.declared.end.End.{End};
ghost use Rattle.plain_state.specs.declared.sizes.TheConstants.{REGISTERS};
ghost use Rattle.plain_state.specs.State.{serial_of};
ghost use Rattle.mutator_asm.specs.declared.instr.Instr.TheVariants.{Ld, Snap};
ghost use Rattle.mutator_asm.specs.declared.operand.Operand.TheVariants as operands;
ghost use Rattle.mutator_asm.specs.Program.{is_valid};
ghost use Rattle.gc_worker.specs.declared.calls.did.Did.TheVariants.{Done, Trap};
ghost use Rattle.gc_worker.specs.declared.stage.Stage.TheVariants.{Gone};
ghost use Rattle.gc_worker.specs.declared.task.Task.TheVariants.{Calls};
ghost use Rattle.gc_worker.specs.Steps.AtRest.{is_at_rest};
ghost use Rattle.gc_worker.specs.Steps.Stepped.{is_output};
ghost use Rattle.gc_worker.specs.Workers.Fits.{MayBegin};
ghost use Rattle.ael_threads.specs.Calls.{Called, Halts, RegistersStand, StaysSilent};
ghost use Rattle.ael_threads.specs.Seats.{IsMine};
ghost use Rattle.ael_runtime.specs.Calling.{HadEffect, IsSure, WasTrapped};
ghost use Rattle.ael_runtime.specs.Reading.{SeesSame, held, len_of, number, value_number, seen_heap};

use crate::measured::{Measured, known_after, known_after_load};
use ael_threads::{Did, Mutator, Reg, Shared};
use mutator_asm::Instr;
use plain_state::End;
use std::marker::{Model, Sync};
use std::sync::Wait;
use std::thread::Threads;

/// A mutator between two calls, with its heap. Contracts see what they see of the mutator.
#[derive(Drop)]
pub struct Local<'h> {
    heap: &'h Shared,
    mutator: Mutator,
    known: Option<Measured>,
}

impl<'h> Model for Local<'h> {
    ghost use Rattle.std.specs.Prelude.{◌≡◌, None};
    ghost use Rattle.ael_threads.specs.Seats.{IsMine, Seated};
    ghost use Rattle.ael_runtime.specs.KnownLengths.{IsKnown};

    ghost Value = { Seated };

    ghost view = { λ l. l.mutator };

    ghost invariant = { λ l. (l.mutator.table ≡ l.heap.now.table.shared.table_id) × (l.mutator.worker.task ≡ None) × IsMine l.mutator.knows × IsKnown l.known l.mutator };
}

impl<'h> Local<'h> {
    /// Takes a mutator of this heap, as a new one. It has no call under way, and has seen each call that it made: so has one that only made
    /// whole calls. Register 7 should hold a number, as a new one's does, so that no frame is on top.
    pub fn new(heap: &'h Shared, mutator: Mutator) -> Local<'h>
        requires of_heap { mutator.table ≡ heap.now.table.shared.table_id }
        requires rests { mutator.worker.task ≡ None }
        requires mine { IsMine mutator.knows }
        ensures { result ≡ mutator }
    {
        Local {
            heap,
            mutator,
            known: None,
        }
    }

    /// The mutator's end, if it has one.
    pub fn ended(&self) -> Option<End>
        ensures { result ≡ self.now.worker.account.end }
    {
        self.mutator.ended()
    }

    /// The mutator makes a call, but none of `snap`, for which it may wait until others get on, and none that prints.
    pub(crate) fn call<R: Wait>(&mut self, rt: &R, instr: Instr) -> Did
        requires other { instr ≢ Snap }
        requires silent { is_output instr ≡ false }
        requires no_end { self.old.worker.account.end ≡ None }
        requires may_begin { MayBegin self.old.worker.account self.old.worker.registers (Some (Calls instr)) }
        ensures of_heap { self.new.table ≡ self.old.table }
        ensures called { Called self.old (Calls instr) result self.new }
        ensures executed { result ≡ Done → HadEffect self.old instr self.new }
        ensures trapped { (end : End) → result ≡ Trap end → WasTrapped self.old instr end self.new }
    {
        let did = self.mutator.exec(rt, self.heap, &instr);
        self.known = known_after(self.known, instr, did);
        did
    }

    /// It makes one that has its effect, whatever others do meanwhile.
    pub(crate) fn does<R: Wait>(&mut self, rt: &R, instr: Instr)
        requires valid { IsTrue (is_valid instr) }
        requires no_end { self.old.worker.account.end ≡ None }
        requires silent { is_output instr ≡ false }
        requires sure { IsSure self.old instr }
        ensures of_heap { self.new.table ≡ self.old.table }
        ensures executed { HadEffect self.old instr self.new }
    {
        match self.call(rt, instr) {
            Did::Done => {}
            Did::Trap(_) => unreachable!("its operands are what it asks for"),
        }
    }

    /// It makes an `ld` that has its effect, whatever others do meanwhile.
    #[inline(always)]
    pub(crate) fn loads<R: Wait>(&mut self, rt: &R, into: u8, base: u8, value: u64)
        requires valid { IsTrue (is_valid (Ld into base (operands.Number value))) }
        requires no_end { self.old.worker.account.end ≡ None }
        requires sure { IsSure self.old (Ld into base (operands.Number value)) }
        ensures of_heap { self.new.table ≡ self.old.table }
        ensures executed { HadEffect self.old (Ld into base (operands.Number value)) self.new }
    {
        if !self.mutator.load(rt, self.heap, into, base, value) {
            unreachable!("its operands are what it asks for")
        }
        self.known = known_after_load(self.known, into);
    }

    /// Whether the record in a register is known to have this word, so that it need not be looked at.
    pub(crate) fn knows(&self, of: u8, at: u64) -> bool
        ensures no_end { result ≡ true → self.now.worker.account.end ≡ None }
        ensures within { result ≡ true → at < len_of (seen_heap self.now) (held self.now of) }
    {
        match self.known {
            Some(measured) => measured.register == of && at < measured.len,
            None => false,
        }
    }

    /// From now on the record in a register is known to have at least this many words.
    pub(crate) fn remember(&mut self, register: u8, len: u64)
        requires no_end { self.old.worker.account.end ≡ None }
        requires len { len ≤ len_of (seen_heap self.old) (held self.old register) }
        ensures { self.new ≡ self.old }
    {
        self.known = Some(Measured { register, len });
    }

    /// The number that a register holds, if it holds one.
    pub(crate) fn number_in(&self, register: u8) -> Option<u64>
        requires { register < REGISTERS }
        ensures { result ≡ value_number (held self.now register) }
    {
        match self.mutator.reg(register) {
            Reg::Number(n) => Some(n),
            Reg::Pointer(_) => None,
        }
    }

    /// How many records the mutator has made.
    pub(crate) fn serial(&self) -> u64
        ensures account { result ≡ self.now.worker.account.serial }
        ensures seen { result ≡ serial_of (seen_heap self.now) (number self.now) }
    {
        self.mutator.serial()
    }

    /// A safepoint: if others wait for a flip or a checkpoint, the mutator stops for it. It makes no call, and all that it sees stays.
    pub fn safepoint<R: Wait>(&mut self, rt: &R)
        ensures of_heap { self.new.table ≡ self.old.table }
        ensures rests { is_at_rest self.new.worker ≡ true }
        ensures stand { self.new.worker.account.end ≡ None → RegistersStand self.new }
        ensures quiet { StaysSilent self.old self.new }
        ensures same { SeesSame self.old self.new }
    {
        self.mutator.poll(rt, self.heap);
    }

    /// Calls a function that may block, while others may flip. The mutator makes no call, and all that it sees stays.
    pub fn away<R: Threads + Wait + Sync, T, F: FnMut() -> T>(&mut self, rt: &R, blocks: F) -> T
        requires may_call { F.pre blocks }
        ensures gives { F.post blocks result }
        ensures of_heap { self.new.table ≡ self.old.table }
        ensures rests { is_at_rest self.new.worker ≡ true }
        ensures stand { self.new.worker.account.end ≡ None → RegistersStand self.new }
        ensures quiet { StaysSilent self.old self.new }
        ensures same { SeesSame self.old self.new }
    {
        self.mutator.away(rt, self.heap, blocks)
    }

    /// The mutator leaves the heap, so that nobody waits for it any more. One without an end makes `halt` first.
    pub fn leave<R: Wait>(self, rt: &R) -> Mutator
        ensures of_heap { result.table ≡ self.entry.table }
        ensures left { result.worker.stage ≡ Gone }
        ensures ended { (end : End) → self.entry.worker.account.end ≡ Some end → StaysSilent self.entry result }
        ensures halts { self.entry.worker.account.end ≡ None → Halts self.entry result }
    {
        let Local {
            heap,
            mut mutator,
            known: _,
        } = self;
        mutator.leave(rt, heap);
        mutator
    }
}
