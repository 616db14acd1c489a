//! A worker with its seat.

ghost use Rattle.std.specs.Prelude.{◌≡◌, ◌<◌, [], Some};
ghost use Rattle.mutator_asm.specs.declared.instr.Instr.TheVariants.{Ld};
ghost use Rattle.mutator_asm.specs.declared.operand.Operand.TheVariants as operands;
ghost use Rattle.gc_worker.specs.declared.task.Task.TheVariants.{Calls, Stops};
ghost use Rattle.gc_worker.specs.Laws.Between.{IsIdle, with_task};
ghost use Rattle.gc_worker.specs.Laws.Cycles.{IsInCall};
ghost use Rattle.gc_worker.specs.Workers.Fits.{MayBegin, MayStop};
ghost use Rattle.gc_worker.specs.Steps.Stepped.{MayExecute};
ghost use Rattle.ael_threads.specs.Direct.{BeginsCall};
ghost use Rattle.ael_threads.specs.Seats.{Absorbs, Acts, Heads, FitsTable, IsMine, Seated, ShowsSeen};

use crate::shared::{Both, Learn, Shared};
use crate::view::View;
use atomic_table::Seat;
use crossbeam_utils::CachePadded;
use gc_worker::{
    Answered, Stepped, Worker, loads_header, loads_value, looks_at_record, looks_at_value,
};
use mutator_asm::{Instr, Operand};
use plain_state::End;
use record_access::role_stored;
use std::marker::{Brand, Model};

/// A worker with a seat. Contracts see which table it is of, what its code holds, and what its seat knows.
///
/// Each step writes the worker, so it has cache lines of its own: threads whose workers lie side by side don't slow each other down.
#[derive(Drop)]
pub(crate) struct Caller {
    pub worker: CachePadded<Worker>,
    pub seat: Seat<u8, View>,
}

impl Model for Caller {
    ghost use Rattle.std.specs.Prelude.{◌≡◌, []};
    ghost use Rattle.crossbeam_utils.specs.Padded.{padded_value};
    ghost use Rattle.ael_threads.specs.Seats.{Heads, FitsTable, HasHeardAllSeen, IsMine, Seated, ShowsSeen};

    ghost Value = { Seated };

    ghost view = { λ c. record { table = c.seat.table_id; worker = padded_value c.worker; knows = c.seat.me.0 } };

    ghost invariant = { λ c. (c.seat.me.1 ≡ []) × Heads c.seat.me.0.plan (padded_value c.worker) c.seat.me.0.hands × FitsTable c.seat.table_id c.seat.me.0 × IsMine c.seat.me.0 × ShowsSeen (padded_value c.worker) c.seat.me.0 × HasHeardAllSeen c.seat.me.0 };
}

impl Caller {
    /// An instruction, which the next look at the gate begins. It is `out` only if the heap's mutators may print.
    pub fn begin(&mut self, instr: &Instr)
        requires idle { IsIdle self.old.worker }
        requires may_begin { MayBegin self.old.worker.account self.old.worker.registers (Some (Calls instr.now)) }
        requires may_execute { MayExecute self.old.knows.plan.prints instr.now }
        ensures begun { self.new.worker ≡ with_task self.old.worker (Calls instr.now) }
        ensures looks_first { IsInCall self.new.worker.stage → ⊥ }
        ensures same { (self.new.table ≡ self.old.table) × (self.new.knows ≡ self.old.knows) }
    {
        self.worker.begin(instr);
    }

    /// An end in place of an instruction.
    pub fn begin_end(&mut self, end: End)
        requires idle { IsIdle self.old.worker }
        requires may_stop { MayStop end }
        ensures begun { self.new.worker ≡ with_task self.old.worker (Stops end) }
        ensures looks_first { IsInCall self.new.worker.stage → ⊥ }
        ensures same { (self.new.table ≡ self.old.table) × (self.new.knows ≡ self.old.knows) }
    {
        self.worker.begin_end(end);
    }

    /// Makes one atomic step, and waits for nobody. The look at the gate that begins an instruction, the most frequent step, has a path of
    /// its own, on which nothing else is asked. `Site` is the place from which the act is made (`site.rt`).
    pub fn act<Site>(&mut self, h: &Shared) -> Stepped
        requires { self.old.table ≡ h.now.table.shared.table_id }
        ensures table { self.new.table ≡ self.old.table }
        ensures act { Acts self.old result self.new }
    {
        let worker: &mut Worker = &mut self.worker;
        if let Some(look) = worker.want_look() {
            let reply = h.step::<Brand>(worker, &mut self.seat, look);
            return worker.take_look(reply);
        }
        let Some(step) = worker.want() else {
            return Stepped::Idle;
        };
        let reply = h.step::<Brand>(worker, &mut self.seat, step);
        worker.take::<Site>(reply)
    }

    /// Begins `ld` with a number as index, and makes its loads at once, up to the first that finds anything but the common case: a gate
    /// without a request, open pages, and a record of fields or of plain numbers that has the value. Then the call is executed, unless
    /// the worker catches up.
    #[inline(always)]
    pub fn begin_load(&mut self, h: &Shared, into: u8, base: u8, value: u64) -> Answered
        requires table { self.old.table ≡ h.now.table.shared.table_id }
        requires idle { IsIdle self.old.worker }
        requires may_begin { MayBegin self.old.worker.account self.old.worker.registers (Some (Calls (Ld into base (operands.Number value)))) }
        ensures table { self.new.table ≡ self.old.table }
        ensures same { (self.new.worker.number ≡ self.old.worker.number) × (self.new.worker.mutators ≡ self.old.worker.mutators) }
        ensures begun { BeginsCall self.old (Calls (Ld into base (operands.Number value))) result self.new }
    {
        let worker: &mut Worker = &mut self.worker;
        let seat = &mut self.seat;
        if !worker.looks() {
            worker.begin_load(into, base, value);
            return Answered::Open;
        }
        let instr = Instr::Ld(into, base, Operand::Number(value));
        let gate = h.loads::<Brand>(worker, instr, None, seat, worker.gate_place());
        let Some(at) = worker.record_at(gate, base) else {
            return worker.load_at_gate(into, base, value, gate);
        };
        let stage = looks_at_record(at, value, into);
        let page = h.loads::<Brand>(worker, instr, Some(stage), seat, worker.page_place(at));
        if !worker.is_open(at, page) {
            return worker.load_at_page(into, base, value, at, page);
        }
        let stage = loads_header(at, value, into);
        let header = h.loads::<Brand>(worker, instr, Some(stage), seat, worker.word_place(at));
        let Some(role) = role_stored(header, value) else {
            return worker.load_at_header(into, base, value, at, header);
        };
        let value_at = worker.value_at(at, value);
        let last = Some(loads_value(at, value, role, into));
        if worker.is_near(at, value) {
            let word = h.loads::<Brand>(worker, instr, last, seat, worker.word_place(value_at));
            worker.has_loaded(into, role, word);
            return Answered::Executed;
        }
        let stage = looks_at_value(at, value, role, into);
        let page = h.loads::<Brand>(
            worker,
            instr,
            Some(stage),
            seat,
            worker.page_place(value_at),
        );
        if !worker.is_open(value_at, page) {
            return worker.load_at_value_page(into, base, value, at, role, page);
        }
        let word = h.loads::<Brand>(worker, instr, last, seat, worker.word_place(value_at));
        worker.has_loaded(into, role, word);
        Answered::Executed
    }

    /// Takes in another caller, with its calls.
    pub fn absorb(&mut self, h: &Shared, other: Caller)
        requires mine { self.old.table ≡ h.now.table.shared.table_id }
        requires other { other.table ≡ h.now.table.shared.table_id }
        ensures same { (self.new.table ≡ self.old.table) × (self.new.worker ≡ self.old.worker) }
        ensures both { Absorbs self.old.knows other.knows self.new.knows }
    {
        let Caller { worker: _, seat } = other;
        h.table.shared.join_seat::<Both>(&mut self.seat, seat);
        h.table.shared.load::<Learn>(&mut self.seat, 0);
    }
}
