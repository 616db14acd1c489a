//! Safepoints of a mutator: it makes no call, and lets others flip.

ghost use Rattle.std.specs.Prelude.{◌≡◌, true, None};
ghost use Rattle.std.specs.Thread.{IsSync};
ghost use Rattle.gc_worker.specs.Steps.AtRest.{is_at_rest};
ghost use Rattle.ael_threads.specs.ActsInRow.{MakesSome, is_rest};
ghost use Rattle.ael_threads.specs.Calls.{RegistersStand, StaysSilent};
ghost use Rattle.ael_threads.specs.GateLooks.{FindsGate, Glances, Passes};
ghost use Rattle.ael_threads.specs.Seats.{Acts, Seated, ShowsSeen, first_number};

use crate::caller::Caller;
use crate::calls::ACTS;
use crate::mutator::Mutator;
use crate::shared::Shared;
use crate::view::View;
use atomic_table::Play;
use crossbeam_utils::Backoff;
use space_map::GateWord;
use std::marker::Sync;
use std::sync::Wait;
use std::sync::atomic::{AtomicBool, Ordering};
use std::thread::{Threads, join_mut};

/// The place of the gate's word.
const GATE: usize = 0;

/// Finds the gate's word.
pub(crate) struct Glance;

impl Play<u8, View> for Glance {
    ghost then = { Glances };
}

impl Caller {
    /// The gate's word, as it is now.
    fn glances(&mut self, h: &Shared) -> u64
        requires { self.old.table ≡ h.now.table.shared.table_id }
        ensures same { self.new ≡ self.old }
        ensures finds { FindsGate self.old.knows (first_number self.old.knows.hands) self.old.worker result }
    {
        h.table.shared.load::<Glance>(&mut self.seat, GATE)
    }
}

impl Mutator {
    /// Whether the gate lets it pass: no flip and no checkpoint is requested, so that nobody waits for one that rests. This is one load, and
    /// the answer may be out of date at once.
    pub fn passes(&mut self, h: &Shared) -> bool
        requires { self.old.table ≡ h.now.table.shared.table_id }
        ensures same { self.new ≡ self.old }
        ensures passes { Passes result self.old }
    {
        match GateWord::read(self.caller.glances(h)) {
            Some(gate) => !gate.request,
            None => false,
        }
    }

    /// A safepoint. If a flip or a checkpoint is requested, it stops, forwards its registers if there was a flip, and comes back once it runs
    /// again; else this is one load. A mutator that has not come yet comes, and one with an end leaves.
    pub fn poll<R: Wait>(&mut self, rt: &R, h: &Shared)
        requires table { self.old.table ≡ h.now.table.shared.table_id }
        requires no_task { self.old.worker.task ≡ None }
        ensures table { self.new.table ≡ self.old.table }
        ensures rests { is_at_rest self.new.worker ≡ true }
        ensures quiet { StaysSilent self.old self.new }
        ensures end { self.new.worker.account.end ≡ self.old.worker.account.end }
        ensures stand { self.new.worker.account.end ≡ None → RegistersStand self.new }
    {
        self.known();
        let backoff = Backoff::new();
        for _ in rt.forever() {
            if self.comes_to_rest(h) {
                return;
            }
            backoff.snooze();
        }
    }

    /// Makes acts of a mutator without a task, up to the first after which it rests, 64 at most, and waits for nobody.
    pub fn comes_to_rest(&mut self, h: &Shared) -> bool
        requires table { self.old.table ≡ h.now.table.shared.table_id }
        ensures table { self.new.table ≡ self.old.table }
        ensures rests { result ≡ true → is_at_rest self.new.worker ≡ true }
        ensures quiet { (a : Seated) → StaysSilent a self.old → StaysSilent a self.new }
        ensures shows { result ≡ true → ShowsSeen self.new.worker self.new.knows }
        ensures stand { result ≡ true → self.new.worker.account.end ≡ None → RegistersStand self.new }
        ensures acts { MakesSome Acts is_rest result self.old self.new }
    {
        for _ in 0..ACTS {
            self.act(h);
            if self.rests() {
                return true;
            }
        }
        false
    }

    /// Polls, until this is set.
    fn polls<R: Wait>(&mut self, rt: &R, h: &Shared, is_back: &AtomicBool)
        requires table { self.old.table ≡ h.now.table.shared.table_id }
        requires no_task { self.old.worker.task ≡ None }
        ensures table { self.new.table ≡ self.old.table }
        ensures rests { is_at_rest self.new.worker ≡ true }
        ensures quiet { StaysSilent self.old self.new }
        ensures end { self.new.worker.account.end ≡ self.old.worker.account.end }
        ensures stand { self.new.worker.account.end ≡ None → RegistersStand self.new }
    {
        let backoff = Backoff::new();
        for _ in rt.forever() {
            self.poll(rt, h);
            if is_back.load(Ordering::SeqCst) {
                return;
            }
            backoff.snooze();
        }
    }

    /// Calls a function that may block, while a helper polls in a thread of its own, so that others may flip. If no thread is to be had, the
    /// helper polls once after the call, and until then a flip waits.
    pub fn away<R: Threads + Wait + Sync, T, F: FnMut() -> T>(
        &mut self,
        rt: &R,
        h: &Shared,
        mut blocks: F,
    ) -> T
        requires table { self.old.table ≡ h.now.table.shared.table_id }
        requires no_task { self.old.worker.task ≡ None }
        requires may_call { F.pre blocks }
        ensures gives { F.post blocks result }
        ensures table { self.new.table ≡ self.old.table }
        ensures rests { is_at_rest self.new.worker ≡ true }
        ensures quiet { StaysSilent self.old self.new }
        ensures end { self.new.worker.account.end ≡ self.old.worker.account.end }
        ensures stand { self.new.worker.account.end ≡ None → RegistersStand self.new }
    {
        let is_back = AtomicBool::new(false);
        let (_, given) = join_mut(
            rt,
            &mut ||
                requires { IsSync R.row × (self.now.table ≡ h.now.table.shared.table_id) × (self.now.worker.task ≡ None) }
                ensures table { self.exit.now.table ≡ self.entry.now.table }
                ensures rests { is_at_rest self.exit.now.worker ≡ true }
                ensures quiet { StaysSilent self.entry.now self.exit.now }
                ensures end { self.exit.now.worker.account.end ≡ self.entry.now.worker.account.end }
                ensures stand { self.exit.now.worker.account.end ≡ None → RegistersStand self.exit.now }
            { self.polls(rt, h, &is_back) },
            &mut || -> T
                requires { F.pre blocks }
                ensures { F.post blocks.entry result }
            {
                let given = blocks();
                is_back.store(true, Ordering::SeqCst);
                given
            },
        );
        given
    }
}
