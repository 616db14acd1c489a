//! How a heap is opened: its words, and a seat for each of its workers.

ghost use Rattle.std.specs.Prelude.{◌≡◌, ◌+◌, ◌-◌, ◌≤◌, ◌<◌, ◌↔◌, [], IfOk, IsErrOf, IsTrue, not};
ghost use Rattle.space_map.specs.declared.spaces.TheConstants.{FEWEST_PAGES, MOST_MUTATORS, MOST_SCANNERS};
ghost use Rattle.space_map.specs.Table.{whole_length};
ghost use Rattle.gc_worker.specs.Config.{has_sizes, layout_by};
ghost use Rattle.ael_threads.specs.Histories.{first_held, new_hands};
ghost use Rattle.ael_threads.specs.Opened.{new_scanners, plan_of, plan_with, plan_without_printing};
ghost use Rattle.ael_threads.specs.Rule.{crew, first_view, view};
ghost use Rattle.ael_threads.specs.Seats.{new_callers, new_seated};

use crate::caller::Caller;
use crate::mutator::Mutator;
use crate::scanner::Scanner;
use crate::shared::{Deal, Shared};
use crate::view::{Plan, View};
use atomic_table::{Seat, Table};
use crossbeam_utils::CachePadded;
use gc_worker::{Config, OpenError, Worker, opening_words};
use std::alloc::Global;

/// The seats of a heap's workers.
#[derive(Drop)]
pub struct Seats {
    pub mutators: Vec<Mutator>,
    pub scanners: Vec<Scanner>,
}

impl Shared {
    /// A heap in which nobody has made a step, and a seat for each of its workers: 1 to `MOST_MUTATORS` mutators, and at most
    /// `MOST_SCANNERS` scanners. `BadPages` comes exactly for fewer than `FEWEST_PAGES` at first, for fewer in all than at first, or for
    /// more than `MOST_PAGES`, else `NoMemory` if memory is wanting. The words and the room for the most numbers of each mutator are
    /// taken here; no later call takes memory. With `config.snap` the table has room for checkpoints, and `snap` begins one; else `snap`
    /// changes none of its words.
    pub fn open(alloc: Global, mutators: u8, config: &Config) -> Result<(Shared, Seats), OpenError>
        requires mutators { (1 ≤ mutators) × (mutators ≤ MOST_MUTATORS) }
        requires scanners { config.now.scanners ≤ MOST_SCANNERS }
        ensures key { IfOk result (λ o. o.0.table.shared.key ≡ plan_of mutators config.now) }
        ensures words { IfOk result (λ o. o.0.table.shared.table_id.words ≡ whole_length (layout_by config.now)) }
        ensures mutators { IfOk result (λ o. o.1.mutators.items ≡ new_callers o.0.table.shared.table_id (plan_of mutators config.now) 0 mutators) }
        ensures scanners { IfOk result (λ o. o.1.scanners.items ≡ new_scanners o.0.table.shared.table_id (plan_of mutators config.now) mutators config.now.scanners) }
        ensures bad_pages { IsErrOf result OpenError.BadPages ↔ IsTrue (not (has_sizes config.now)) }
    {
        Shared::open_with(alloc, mutators, config, true)
    }

    /// A heap as `open` makes it, but none of its mutators may print: `begin` and `exec` may not be called with `out`, and `try_begin` and
    /// `try_exec` refuse it (`Refused::Printing`). So the 512 KiB are not taken that the numbers of a mutator take.
    pub fn open_without_printing(
        alloc: Global,
        mutators: u8,
        config: &Config,
    ) -> Result<(Shared, Seats), OpenError>
        requires mutators { (1 ≤ mutators) × (mutators ≤ MOST_MUTATORS) }
        requires scanners { config.now.scanners ≤ MOST_SCANNERS }
        ensures key { IfOk result (λ o. o.0.table.shared.key ≡ plan_without_printing mutators config.now) }
        ensures words { IfOk result (λ o. o.0.table.shared.table_id.words ≡ whole_length (layout_by config.now)) }
        ensures mutators { IfOk result (λ o. o.1.mutators.items ≡ new_callers o.0.table.shared.table_id (plan_without_printing mutators config.now) 0 mutators) }
        ensures scanners { IfOk result (λ o. o.1.scanners.items ≡ new_scanners o.0.table.shared.table_id (plan_without_printing mutators config.now) mutators config.now.scanners) }
        ensures bad_pages { IsErrOf result OpenError.BadPages ↔ IsTrue (not (has_sizes config.now)) }
    {
        Shared::open_with(alloc, mutators, config, false)
    }

    /// Opens a heap whose mutators may print, or may not.
    fn open_with(
        alloc: Global,
        mutators: u8,
        config: &Config,
        prints: bool,
    ) -> Result<(Shared, Seats), OpenError>
        requires mutators { (1 ≤ mutators) × (mutators ≤ MOST_MUTATORS) }
        requires scanners { config.now.scanners ≤ MOST_SCANNERS }
        ensures key { IfOk result (λ o. o.0.table.shared.key ≡ plan_with prints mutators config.now) }
        ensures words { IfOk result (λ o. o.0.table.shared.table_id.words ≡ whole_length (layout_by config.now)) }
        ensures mutators { IfOk result (λ o. o.1.mutators.items ≡ new_callers o.0.table.shared.table_id (plan_with prints mutators config.now) 0 mutators) }
        ensures scanners { IfOk result (λ o. o.1.scanners.items ≡ new_scanners o.0.table.shared.table_id (plan_with prints mutators config.now) mutators config.now.scanners) }
        ensures bad_pages { IsErrOf result OpenError.BadPages ↔ IsTrue (not (has_sizes config.now)) }
    {
        let plan = Plan::new(mutators, config, prints)?;
        Shared::open_by(alloc, &plan)
    }

    /// Opens a heap by its plan.
    pub(crate) fn open_by(alloc: Global, plan: &Plan) -> Result<(Shared, Seats), OpenError>
        requires mutators { plan.now.mutators ≤ MOST_MUTATORS }
        requires scanners { plan.now.scanners ≤ MOST_SCANNERS }
        requires sizes { (FEWEST_PAGES ≤ plan.now.least) × (plan.now.least ≤ plan.now.spaces.pages) }
        ensures key { IfOk result (λ o. o.0.table.shared.key ≡ plan.now) }
        ensures words { IfOk result (λ o. o.0.table.shared.table_id.words ≡ whole_length plan.now.spaces) }
        ensures mutators { IfOk result (λ o. o.1.mutators.items ≡ new_callers o.0.table.shared.table_id plan.now 0 plan.now.mutators) }
        ensures scanners { IfOk result (λ o. o.1.scanners.items ≡ new_scanners o.0.table.shared.table_id plan.now plan.now.mutators plan.now.scanners) }
        ensures error { IsErrOf result OpenError.BadPages → ⊥ }
    {
        plan.spaces.known();
        let atoms = opening_words(alloc, plan.spaces, plan.least)?;
        let (table, seat) = Table::of_words(alloc, atoms.words(), plan)?;
        let shared = Shared { table };
        let seats = shared.deal(alloc, seat, plan)?;
        Ok((shared, seats))
    }

    /// Gives each worker a seat of its own.
    fn deal(&self, alloc: Global, mut seat: Seat<u8, View>, plan: &Plan) -> Result<Seats, OpenError>
        requires few { (plan.now.mutators ≤ MOST_MUTATORS) × (crew plan.now ≤ MOST_MUTATORS + MOST_SCANNERS) }
        requires live { self.now.table.shared.table_id.words ≡ whole_length plan.now.spaces }
        requires table { seat.table_id ≡ self.now.table.shared.table_id }
        requires seat { seat.me ≡ (first_view plan.now, []) }
        ensures mutators { IfOk result (λ all. all.mutators.items ≡ new_callers self.now.table.shared.table_id plan.now 0 plan.now.mutators) }
        ensures scanners { IfOk result (λ all. all.scanners.items ≡ new_scanners self.now.table.shared.table_id plan.now plan.now.mutators plan.now.scanners) }
        ensures error { IsErrOf result OpenError.BadPages → ⊥ }
    {
        let count = usize::from(plan.mutators);
        let mut mutators = Vec::with_capacity(alloc, count)?;
        for k in 0..plan.mutators {
            let worker = Worker::mutator(alloc, plan.spaces, k, plan.mutators, plan.prints)?;
            let caller = self.seated(&mut seat, worker, plan, k);
            mutators.push_reserved(Mutator { caller });
        }
        let count = usize::from(plan.scanners);
        let mut scanners = Vec::with_capacity(alloc, count)?;
        for i in 0..plan.scanners {
            let k = plan.mutators + i;
            let worker = Worker::scanner(alloc, plan.spaces, k, plan.mutators, plan.prints);
            let caller = self.seated(&mut seat, worker, plan, k);
            scanners.push_reserved(Scanner { caller, steps: 0 });
        }
        Ok(Seats { mutators, scanners })
    }

    /// Gives the next worker a seat of its own.
    fn seated(&self, seat: &mut Seat<u8, View>, worker: Worker, plan: &Plan, k: u8) -> Caller
        requires few { (plan.now.mutators ≤ MOST_MUTATORS) × (crew plan.now ≤ MOST_MUTATORS + MOST_SCANNERS) }
        requires live { self.now.table.shared.table_id.words ≡ whole_length plan.now.spaces }
        requires below { k < crew plan.now }
        requires worker { worker ≡ first_held plan.now k }
        requires table { seat.old.table_id ≡ self.now.table.shared.table_id }
        requires seat { seat.old.me ≡ (view plan.now (new_hands plan.now k (crew plan.now - k)) [] [] [], []) }
        ensures table { seat.new.table_id ≡ seat.old.table_id }
        ensures left { seat.new.me ≡ (view plan.now (new_hands plan.now (k + 1) (crew plan.now - (k + 1))) [] [] [], []) }
        ensures caller { result ≡ new_seated self.now.table.shared.table_id plan.now k }
    {
        plan.spaces.known();
        let own = self.table.shared.split_seat::<Deal>(seat);
        Caller {
            worker: CachePadded::new(worker),
            seat: own,
        }
    }
}
