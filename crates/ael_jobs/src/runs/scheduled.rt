//! A run of a core by a schedule.

ghost use Rattle.std.specs.Prelude.{◌≡◌, ◌≢◌, ◌<◌, ◌++◌, ℕ, List, [], IfOk, IsTrue, OnOk, true, false};
ghost use Rattle.std.specs.List.{list_all};
ghost use Rattle.std.specs.Option.{option_to_list};
ghost use Rattle.plain_state.specs.declared.end.End.{End};
ghost use Rattle.mutator_asm.specs.Program.{is_item};
ghost use Rattle.plain_heap.specs.declared.mark.Mark.{Mark};
ghost use Rattle.gc_worker.specs.Plain.Marks.{mark_of};
ghost use Rattle.gc_core.specs.Core.{workers_of};
ghost use Rattle.gc_core.specs.Event.{event_of, core_after};
ghost use Rattle.gc_core.specs.Run.{all_ended, run_from};
ghost use Rattle.ael_jobs.specs.Runs.Orders.{AreNoted};
ghost use Rattle.ael_jobs.specs.Runs.Noted.{HasNoted};
ghost use Rattle.ael_jobs.specs.Runs.Schedule.{scheduled_by};
ghost use Rattle.ael_jobs.specs.Runs.ToCome.{to_come};

use crate::arguments::options::SimOptions;
use crate::runs::notes::Notes;
use crate::runs::scheduler::Scheduler;
use gc_core::{Core, Stepped, missing_workers_are_idle};
use mutator_asm::Item;
use plain_heap::Mark;
use std::alloc::{AllocError, Global};

/// The step of a worker, or `Idle` if there is no such worker.
#[inline(always)]
fn step(core: &mut Core, worker: u8) -> Stepped
    ensures told { result ≡ (event_of core.old worker).told }
    ensures after { core.new ≡ core_after core.old worker }
    ensures ends_are_told { ((m : ℕ) (why : End) → result ≢ Stepped.Ended m why) → all_ended core.new ≡ all_ended core.old }
    ensures workers { workers_of core.new ≡ workers_of core.old }
{
    // The theorem that the proof takes.
    missing_workers_are_idle();

    if worker < core.workers() {
        core.step(worker)
    } else {
        Stepped::Idle
    }
}

/// Whether every mutator has its end after a step of which this is told: before it one had none.
fn is_over(core: &Core, told: Stepped) -> bool
    requires { ((m : ℕ) (why : End) → told ≢ Stepped.Ended m why) → all_ended core.now ≡ false }
    ensures { result ≡ all_ended core.now }
{
    match told {
        Stepped::Ended(..) => core.all_ended(),
        Stepped::Idle
        | Stepped::Moved
        | Stepped::Effect(_)
        | Stepped::Flipped(_)
        | Stepped::Traced => false,
    }
}

/// Notes a step of which this is told, and tells whether every mutator has its end then. A step that told nothing is passed over in the
/// loop of the run.
#[inline(always)]
fn note_step(core: &Core, notes: &mut Notes, told: Stepped) -> Result<bool, AllocError>
    requires { ((m : ℕ) (why : End) → told ≢ Stepped.Ended m why) → all_ended core.now ≡ false }
    ensures over { IfOk result (λ over. over ≡ all_ended core.now) }
    ensures kept { notes.new.kept ≡ notes.old.kept }
    ensures noted { (order : List Mark) → HasNoted notes.old order → OnOk result (HasNoted notes.new (order ++ option_to_list (mark_of told))) }
{
    match told {
        Stepped::Idle | Stepped::Moved => Ok(false),
        _ => {
            notes.note(told)?;
            Ok(is_over(core, told))
        }
    }
}

/// Steps the workers that the scheduler names until every mutator has its end, or for so many steps, each of which is noted.
#[inline(never)]
fn run_noting(
    core: &mut Core,
    scheduler: &mut Scheduler,
    notes: &mut Notes,
    steps: u32,
) -> Result<(), AllocError>
    requires fresh { HasNoted notes.old [] }
    ensures core { OnOk result (core.new ≡ (run_from (to_come scheduler.old) 0 steps core.old).last) }
    ensures kept { notes.new.kept ≡ notes.old.kept }
    ensures order { OnOk result (HasNoted notes.new (run_from (to_come scheduler.old) 0 steps core.old).order) }
{
    let mut over = core.all_ended();
    for _ in 0..steps {
        if over {
            break;
        }
        let stepped = step(core, scheduler.next());
        over = note_step(core, notes, stepped)?;
    }
    Ok(())
}

/// Steps the workers that the schedule names until every mutator has its end, or for so many steps.
/// Each position of the schedule counts as a step. The order is kept only if it is asked for.
///
/// There is one loop for all schedules, with the order noted or not: so the compiler puts all steps of a worker into it, but for those
/// for checkpoints.
pub fn run_by_schedule(
    alloc: Global,
    core: &mut Core,
    items: &[Item],
    options: SimOptions,
) -> Result<Vec<Mark>, AllocError>
    requires some { 0 < workers_of core.old }
    requires items { IsTrue (list_all is_item items.now) }
    ensures core { OnOk result (core.new ≡ (run_from (scheduled_by options.seed items.now (workers_of core.old)) 0 options.steps core.old).last) }
    ensures order { IfOk result (λ order. options.order ≡ true
        → AreNoted order.items (run_from (scheduled_by options.seed items.now (workers_of core.old)) 0 options.steps core.old).order) }
{
    let mut scheduler = Scheduler::new(options.seed, items, core.workers());
    let mut notes = Notes {
        marks: Vec::new(alloc),
        kept: options.order,
    };
    run_noting(core, &mut scheduler, &mut notes, options.steps)?;
    Ok(notes.marks)
}
