//! The command `sim`: a program run by a schedule.

ghost use Rattle.std.specs.Prelude.{◌≡◌, ◌<◌, ◌++◌, ℕ, List, [], IfOk, true, if◌then◌else◌};
ghost use Rattle.std.specs.List.{AllByRecursion};
ghost use Rattle.plain_heap.specs.Print.{lines_seen, order_line};
ghost use Rattle.gc_core.specs.Core.{opening_core, workers_of};
ghost use Rattle.gc_core.specs.Readers.{seen_of};
ghost use Rattle.ael_jobs.specs.Arguments.Options.{AreInRange};
ghost use Rattle.ael_jobs.specs.Runs.Simulation.{config};
ghost use Rattle.ael_jobs.specs.Runs.Run.{HasFitEnd, IsRun, Scheduled};
ghost use Rattle.ael_jobs.specs.Runs.Verdict.{status_seen};
ghost use Rattle.ael_jobs.specs.Runs.Told.{AreLinesIf, TellsWords, heap_lines, told_of};

use crate::answer::Answer;
use crate::arguments::options::{RunOptions, SimOptions};
use crate::runs::flags::{push_heap, push_order_if};
use crate::runs::mutators::{push_mutators, verdict};
use crate::runs::orders::shown_order;
use crate::runs::scheduled::run_by_schedule;
use gc_core::{
    Core, OpenError, checkpoints_are_told, cycles_empty_lost_cells, cycles_keep_what_is_live,
    full_heaps_are_filled, large_heaps_are_never_full, runs_follow,
};
use mutator_asm::Program;
use plain_heap::{Mark, NoMemory};
use std::alloc::Global;

/// The core of a run.
fn open<'p>(alloc: Global, program: &'p Program, options: RunOptions) -> Result<Core<'p>, NoMemory>
    requires { AreInRange options }
    ensures opened { IfOk result (λ core. core ≡ opening_core program.now.code options.turns (config options)) }
    ensures some { IfOk result (λ core. 0 < workers_of core) }
{
    match Core::open(alloc, program, options.turns, &options.config()) {
        Ok(core) => Ok(core),
        Err(OpenError::NoMemory) => Err(NoMemory),
        Err(OpenError::BadPages) => unreachable!("a space may have so many pages"),
    }
}

/// What is printed of a core that was run, and how that went.
fn told(alloc: Global, core: &Core, order: &[Mark], options: SimOptions) -> Result<Answer, NoMemory>
    ensures { IfOk result (λ answer. (answer.status ≡ status_seen (seen_of core.now)) × (options.run.dump ≡ true → TellsWords (told_of core.now).dump)
        × AllByRecursion HasFitEnd (seen_of core.now) × (checkpoint : List ℕ) × AreLinesIf options.run.snap core.now.heap.words checkpoint × (answer.output.items
        ≡ (lines_seen 0 (seen_of core.now) ++ (if options.order then order_line order.now else [])) ++ heap_lines options.run (told_of core.now) checkpoint)) }
{
    let mut output = String::new(alloc);
    push_mutators(&mut output, core)?;
    push_order_if(&mut output, options.order, order)?;
    push_heap(&mut output, options.run, core)?;
    Answer::new(alloc, output.into_bytes(), verdict(core))
}

/// Runs a program by a schedule, and prints what its mutators printed.
pub fn sim(alloc: Global, program: &Program, options: SimOptions) -> Result<Answer, NoMemory>
    requires { AreInRange options.run }
    ensures { IfOk result (λ answer. IsRun (Scheduled options) program.now.code program.now.schedule answer.output.items answer.status) }
{
    // The theorems that the proof takes.
    runs_follow();
    checkpoints_are_told();
    cycles_keep_what_is_live();
    cycles_empty_lost_cells();
    full_heaps_are_filled();
    large_heaps_are_never_full();

    let mut core = open(alloc, program, options.run)?;
    let order = run_by_schedule(alloc, &mut core, program.schedule.as_slice(), options)?;
    let shown = shown_order(&program.code, order);
    told(alloc, &core, &shown, options)
}
